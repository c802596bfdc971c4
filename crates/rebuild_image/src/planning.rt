//! The plan of an image of which the headers are listed.

ghost use Rattle.std.specs.Prelude.{◌≡◌, ◌≤◌, ℕ, length, IfOk, IfErr};
ghost use Rattle.elf_types.specs.declared.constants.TheConstants.{MAX_SECTIONS};
ghost use Rattle.elf_outside.specs.Asks.{ReadRose};
ghost use Rattle.rebuild_model.specs.elf_object.Object.{Object};
ghost use Rattle.elf_update_to.specs.elf_update_plan.Placing.{IsRefused};
ghost use Rattle.elf_update_to.specs.Updates.{IsPlanned};
ghost use Rattle.rebuild_image.specs.Planning.{IsLaidOut};

use crate::listed::{HeaderListing, list_parts};
use elf_layout::place;
use elf_types::ElfError;
use elf_update_to::PlannedParts;
use elf_update_to::prelude::{parts_may_be_capped, plan};
use std::alloc::Global;

/// The plan of the image of an object of which the headers are listed, and where its parts are:
/// with `layout` where the headers say, over so many bytes of a base. It fails as an update of that
/// object does: `Overlap`, `TooLarge`; and `Memory` in place of a value and of these two. It reads
/// nothing.
///
/// Source: gABI chapter 4, "ELF Header" and "Section Header"; elf_update and ELF_F_LAYOUT of
/// elf(3E).
pub fn plan_listed(
    alloc: Global,
    x: &HeaderListing,
    layout: bool,
    base: u64,
) -> Result<PlannedParts, ElfError>
    requires few { length x.now.headers ≤ MAX_SECTIONS }
    requires sizes { length x.now.sizes ≡ length x.now.headers }
    ensures ok { IfOk result (λ planned. (o : Object) → IsLaidOut o x.now layout base
        → IsPlanned o planned) }
    ensures err { IfErr result (λ e. (o : Object) → IsLaidOut o x.now layout base
        → IsRefused o e) }
    ensures unread { (a b : ℕ) → ReadRose result a b }
{
    parts_may_be_capped();
    let parts = match list_parts(alloc, x) {
        Ok(parts) => parts,
        Err(e) => return Err(e),
    };
    let places = match place(alloc, &parts, layout, base, x.header.class) {
        Ok(places) => places,
        Err(e) => return Err(e),
    };
    match plan(alloc, parts, &places) {
        Ok(parts) => Ok(PlannedParts { parts, places }),
        Err(e) => Err(e),
    }
}
