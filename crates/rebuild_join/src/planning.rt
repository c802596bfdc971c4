//! The plan of what was kept.

ghost use Rattle.std.specs.Prelude.{◌≡◌, None};
ghost use Rattle.rebuild_model.specs.Split.{combine_fault};
ghost use Rattle.rebuild_plan.specs.law_rebuild.Strip.Made.{FitsClass};
ghost use Rattle.rebuild_join.specs.Ranges.{IsUnchanged};
ghost use Rattle.rebuild_join.specs.Keeping.{HasJoined};
ghost use Rattle.rebuild_join.specs.Joining.{PlansCombined};

use elf_outside::Source;
use elf_types::ElfError;
use rebuild_keep::prelude::{Elf, SectionSet};
use rebuild_keep::tail_of;
use rebuild_plan::{Contents, RangedPlan, arrange_contents, plan_arranged};
use std::alloc::Global;

/// The plan of what was kept of two halves: over the base of the stripped one up to its tail, with
/// its header and its program headers, and the string index of the debug half. It fails with
/// `TooLarge` where a place after the base passes the limit; then as the update of that object:
/// `Overlap`, `TooLarge`; and `Memory`. It reads nothing.
pub(crate) fn plan_combined<S: Source, T: Source>(
    alloc: Global,
    stripped: &Elf<S>,
    debug: &Elf<T>,
    contents: Contents,
) -> Result<RangedPlan, ElfError>
    requires stripped { IsUnchanged stripped.now }
    requires debug { IsUnchanged debug.now }
    requires fits { FitsClass stripped.now.o }
    requires contents { HasJoined stripped.now debug.now contents }
    requires passed { combine_fault stripped.now.o debug.now.o ≡ None }
    ensures { PlansCombined stripped.now debug.now result }
{
    let tail = tail_of(stripped, &SectionSet::none(alloc));
    let index = debug.shstrndx();
    match arrange_contents(alloc, stripped, contents, index, tail) {
        Ok(x) => plan_arranged(alloc, stripped, x),
        Err(e) => Err(e),
    }
}
