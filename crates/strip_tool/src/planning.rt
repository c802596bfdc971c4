//! The plan of what is kept.

ghost use Rattle.std.specs.Prelude.{◌≡◌, false};
ghost use Rattle.rebuild_files.specs.elfkit_outcomes.elf_object.Object.{is_dirty};
ghost use Rattle.strip_tool.specs.Steps.{PlansStripped};

use elf_outside::Source;
use elf_types::ElfError;
use rebuild_files::prelude::{Elf, RangedPlan, plan_rebuilt, removed};
use std::alloc::Global;
use tool_text::Args;

/// The plan of the image of an object in which nothing is dirty, without the sections that the
/// names and the kind of the command remove: where each part is, and where its bytes are. It fails
/// as `plan_rebuilt`, and reads as `removed` and `plan_rebuilt`.
///
/// Source: strip(1) of the development tools.
pub fn plan_stripped<S: Source>(
    alloc: Global,
    elf: &mut Elf<S>,
    debug_only: bool,
    names: &Args,
) -> Result<RangedPlan, ElfError>
    requires clean { is_dirty elf.old.o ≡ false }
    ensures { PlansStripped S.Source debug_only names.now result elf.old elf.new }
{
    match removed(alloc, elf, debug_only, names) {
        Ok(set) => plan_rebuilt(alloc, elf, &set),
        Err(e) => Err(e),
    }
}
