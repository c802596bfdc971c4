//! An image is split: the plans of its two halves.

ghost use Rattle.std.specs.Prelude.{◌≡◌, false, None};
ghost use Rattle.elf_object.specs.Object.{is_dirty};
ghost use Rattle.rebuild_model.specs.Split.{debug_refusal};
ghost use Rattle.rebuild_join.specs.rebuild_select.Steps.{IsRemovable};
ghost use Rattle.rebuild_debug.specs.rebuild_plan.Plans.{IsListable};
ghost use Rattle.rebuild_debug.specs.Keeping.{HasHalf, IsHalfRead};
ghost use Rattle.unstrip_tool.specs.Splitting.{PlansBoth, PlansSplit};

use crate::plans::SplitPlans;
use elf_outside::Source;
use elf_types::ElfError;
use rebuild_debug::prelude::{Arranged, Contents, arrange_rebuilt, plan_arranged};
use rebuild_debug::{keep_half, plan_half};
use rebuild_join::prelude::{Elf, SectionSet};
use std::alloc::Global;

/// The plans of what was arranged, and of what the debug half has. It fails as the update of the
/// first half, and then as that of the second.
fn plan_both<S: Source>(
    alloc: Global,
    elf: &Elf<S>,
    kept: Arranged,
    half: Contents,
) -> Result<SplitPlans, ElfError>
    requires clean { is_dirty elf.now.o ≡ false }
    requires listable { IsListable kept }
    requires half { HasHalf elf.now half }
    requires read { IsHalfRead elf.now.o half }
    requires passed { debug_refusal elf.now.o ≡ None }
    ensures { PlansBoth elf.now kept result }
{
    let stripped = match plan_arranged(alloc, elf, kept) {
        Ok(plan) => plan,
        Err(e) => return Err(e),
    };
    match plan_half(alloc, elf, half) {
        Ok(debug) => Ok(SplitPlans { stripped, debug }),
        Err(e) => Err(e),
    }
}

/// The plans of the halves of an object in which nothing is dirty: without the removed sections,
/// and with all of them but without the bytes that are loaded. It fails as `arrange_rebuilt` does,
/// then as `keep_half`, and then as the updates of the two; and `Memory` and `Read`. It reads what
/// `arrange_rebuilt` reads.
///
/// Source: eu-strip(1) with -f.
pub(crate) fn plan_split<S: Source>(
    alloc: Global,
    elf: &mut Elf<S>,
    removed: &SectionSet,
) -> Result<SplitPlans, ElfError>
    requires clean { is_dirty elf.old.o ≡ false }
    requires removable { IsRemovable elf.old.o removed.now }
    ensures { PlansSplit S.Source removed.now result elf.old elf.new }
{
    let kept = match arrange_rebuilt(alloc, elf, removed) {
        Ok(kept) => kept,
        Err(e) => return Err(e),
    };
    match keep_half(alloc, elf) {
        Ok(half) => plan_both(alloc, elf, kept, half),
        Err(e) => Err(e),
    }
}
