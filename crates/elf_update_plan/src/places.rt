//! The places of an image's parts, and an update that stores them in the headers.

ghost use Rattle.std.specs.Prelude.{◌≡◌, true, Ok, length, IfOk, IfErr};
ghost use Rattle.elf_types.specs.Answers.{answered};
ghost use Rattle.elf_types.specs.declared.errors.ElfError.TheVariants.{Memory};
ghost use Rattle.elf_descriptor.specs.elf_layout.Capping.{capped};
ghost use Rattle.elf_descriptor.specs.elf_layout.Layout.{placing, MayWantMemory};
ghost use Rattle.elf_descriptor.specs.elf_object.Object.{is_dirty};
ghost use Rattle.elf_descriptor.specs.elf_object.Words.{Updates};
ghost use Rattle.elf_descriptor.specs.elf_object.Calls as calls;
ghost use Rattle.elf_descriptor.specs.elf_object.Layout.{parts_of, places_of};
ghost use Rattle.elf_descriptor.specs.elf_object.Refusal.{refusal, content_refusal, placing_refusal};
ghost use Rattle.elf_descriptor.specs.law_object.Laws.{PartsMayBeCapped};
ghost use Rattle.elf_descriptor.specs.Edits.{flagged};
ghost use Rattle.elf_update_plan.specs.Placing.{ArePlaced, IsRefused, IsUnplaced};

use crate::contents::check_contents;
use crate::parts::list_parts;
use elf_descriptor::Elf;
use elf_descriptor::prelude::{Parts, Places, Source, parts_may_be_capped, place};
use elf_types::{ElfError, LAYOUT, Part};

/// The parts of an image, in their order, and where they are.
#[derive(Drop)]
pub struct PlacedParts {
    /// The parts; their places are the caller's, whether they count or not.
    pub parts: Parts,
    /// Where they are, and the image's length.
    pub places: Places,
}

/// Whether the layout is the caller's, `ELF_F_LAYOUT`.
#[tactic(auto, unfolding(elf_descriptor::specs::Passed::flags_answer, elf_descriptor::specs::Passed::part_refusal, elf_descriptor::specs::Passed::flags_of))]
pub fn has_layout<S: Source>(elf: &Elf<S>) -> bool
    ensures { result ≡ elf.now.o.layout }
{
    match elf.flags(Part::Object) {
        Ok(bits) => bits / LAYOUT % 2 == 1,
        Err(_) => unreachable!(),
    }
}

/// Where parts are. It fails with `Overlap` and `TooLarge`, and `Memory` in place of a value and of
/// these two.
fn place_listed<S: Source>(elf: &Elf<S>, parts: Parts) -> Result<PlacedParts, ElfError>
    ensures ok { IfOk result (λ placed. placing parts elf.now.o.layout (length elf.now.o.base)
        elf.now.o.header.class ≡ Ok placed.places) }
    ensures parts { IfOk result (λ placed. placed.parts ≡ parts) }
    ensures err { IfErr result (IsUnplaced (placing parts elf.now.o.layout
        (length elf.now.o.base) elf.now.o.header.class)) }
{
    let class = elf.ehdr().class;
    match place(elf.alloc(), &parts, has_layout(elf), elf.base_len(), class) {
        Ok(places) => Ok(PlacedParts { parts, places }),
        Err(e) => Err(e),
    }
}

/// The parts of an object in which something is dirty, and where they are. It fails as an update
/// does: `TooMany`, `Unfit`, `OutOfFile`, `Overlap`, `TooLarge`, in this order, and `Memory` in
/// place of a value and of the last two. It reads nothing.
///
/// Source: gABI chapter 4, "Sections" and "ELF Header"; elf_update and ELF_F_LAYOUT of elf(3E).
pub fn place_parts<S: Source>(elf: &Elf<S>) -> Result<PlacedParts, ElfError>
    requires { is_dirty elf.now.o ≡ true }
    ensures ok { IfOk result (ArePlaced elf.now.o) }
    ensures err { IfErr result (IsRefused elf.now.o) }
{
    parts_may_be_capped();
    let _dirty = elf.dirty();
    if let Err(e) = check_contents(elf) {
        return Err(e);
    }
    match list_parts(elf) {
        Ok(parts) => place_listed(elf, parts),
        Err(e) => Err(e),
    }
}

/// Stores the places of the image's parts, the sizes of the sections and the derived values in the
/// headers, and returns the image's length; the marks stay. Where nothing is dirty it changes
/// nothing, and returns the number of base bytes. It fails with, in this order, `TooMany`, `Unfit`,
/// `OutOfFile`, `Overlap` and `TooLarge`, and `Memory` in place of a value and of the last two; a
/// refusal leaves the descriptor as it was. It reads nothing.
///
/// Source: elf_update with ELF_C_NULL of elf(3E).
pub fn update_null<S: Source>(elf: &mut Elf<S>) -> Result<u64, ElfError>
    ensures { Updates result elf.old elf.new (calls.update_null.answer elf.old.o)
        (flagged calls.update_null elf.old) }
{
    if !elf.dirty() {
        return Ok(elf.base_len());
    }
    match place_parts(elf) {
        Ok(placed) => {
            elf.store_places(&placed.places);
            Ok(placed.places.end)
        }
        Err(e) => Err(e),
    }
}
