//! The plan of the debug half.

ghost use Rattle.std.specs.Prelude.{◌≡◌, false, None};
ghost use Rattle.elf_object.specs.Object.{is_dirty};
ghost use Rattle.rebuild_model.specs.Split.{debug_refusal};
ghost use Rattle.rebuild_debug.specs.Keeping.{HasHalf, IsHalfRead};
ghost use Rattle.rebuild_debug.specs.Planning.{ArrangesHalf, PlansHalf};

use elf_outside::Source;
use elf_types::ElfError;
use rebuild_object::prelude::{
    Arranged, Contents, Elf, RangedPlan, arrange_contents, plan_arranged,
};
use std::alloc::Global;

/// The debug half of an object with the contents that `keep_half` kept of it, of which no place is
/// given. It fails with `Memory` alone, and reads nothing.
pub(crate) fn arrange_half<S: Source>(
    alloc: Global,
    elf: &Elf<S>,
    contents: Contents,
) -> Result<Arranged, ElfError>
    requires clean { is_dirty elf.now.o ≡ false }
    requires contents { HasHalf elf.now contents }
    requires read { IsHalfRead elf.now.o contents }
    requires passed { debug_refusal elf.now.o ≡ None }
    ensures { ArrangesHalf elf.now result }
{
    let _sound = elf.dirty();
    arrange_contents(alloc, elf, contents, elf.shstrndx(), None)
}

/// The plan of the file that an update writes of the debug half of an object: where each part is,
/// over no base and without `LAYOUT`, and where its bytes are. These are the contents that
/// `keep_half` kept of it. It fails as the update: `Overlap`, `TooLarge`; and `Memory`. It reads
/// nothing.
///
/// Source: eu-strip(1) with -f; elf_update of elf(3E).
pub fn plan_half<S: Source>(
    alloc: Global,
    elf: &Elf<S>,
    contents: Contents,
) -> Result<RangedPlan, ElfError>
    requires clean { is_dirty elf.now.o ≡ false }
    requires contents { HasHalf elf.now contents }
    requires read { IsHalfRead elf.now.o contents }
    requires passed { debug_refusal elf.now.o ≡ None }
    ensures { PlansHalf elf.now result }
{
    match arrange_half(alloc, elf, contents) {
        Ok(x) => plan_arranged(alloc, elf, x),
        Err(e) => Err(e),
    }
}
