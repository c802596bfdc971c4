//! The notes of a section's data.

ghost use Rattle.std.specs.Prelude.{◌≡◌, ◌==◌, [], None, IsTrue, IfOk, IfSome, is_none};
ghost use Rattle.elf_descriptor.specs.elf_object.Words.{AnswersRead};
ghost use Rattle.elf_descriptor.specs.elf_object.Object.{section_at};
ghost use Rattle.elf_descriptor.specs.elf_object.Answers.{count_at, no_section};
ghost use Rattle.elf_descriptor.specs.Reads.{Queries, wanted};
ghost use Rattle.gelf_view.specs.Calls as calls;
ghost use Rattle.gelf_view.specs.Calls.{note_refusals};
ghost use Rattle.gelf_view.specs.Chains.{note_then, notes, IsLedBy};
ghost use Rattle.gelf_view.specs.Notes.{note_align as stated_align, IsNoteWithin};

use crate::fetching::{bytes_there, fetch_bytes, order};
use crate::notes::{NoteAt, note_align, note_in};
use elf_descriptor::Elf;
use elf_descriptor::prelude::Source;
use elf_types::{DataId, ElfError, ScnId};

/// The alignment of the notes of a section that is there.
#[tactic(auto, unfolding(elf_descriptor::specs::Passed::shdr_answer))]
fn alignment<S: Source>(elf: &Elf<S>, s: u32) -> u64
    requires { no_section elf.now.o s ≡ None }
    ensures { result ≡ stated_align (section_at elf.now.o s).header.addralign }
{
    match elf.shdr(ScnId(s)) {
        Ok(header) => note_align(header.addralign),
        Err(_) => unreachable!(),
    }
}

/// The note at a place of a piece, or None exactly where the place is the end of the piece. It
/// fails as a lend of bytes, in this order: `NoSection`, `NoData`, `WrongKind`, and for the clean
/// home piece `OutOfFile`; then `Memory` or `Read` where its home is not loaded, and `BadChain { at
/// }` exactly where header, name or descriptor do not lie in the piece. It marks nothing dirty.
///
/// Source: gABI chapter 5, "Note Section"; gelf_getnote of gelf(3E).
#[tactic(auto, unfolding(crate::specs::Calls::note_answer))]
pub fn note<S: Source>(elf: &mut Elf<S>, d: DataId, at: u64) -> Result<Option<NoteAt>, ElfError>
    ensures answer { AnswersRead elf.old.told (wanted (calls.note d.section d.piece at) elf.old)
        (note_refusals elf.old.o d.section d.piece at) result
        ((calls.note d.section d.piece at).answer elf.old.o) }
    ensures ended { IfOk result (λ found.
        is_none found ≡ (at == count_at elf.old.o d.section d.piece)) }
    ensures within { IfOk result (λ found.
        IfSome found (IsNoteWithin (count_at elf.old.o d.section d.piece) at)) }
    ensures chain { IsTrue elf.old.told → IsLedBy result
        (note_then (notes elf.old.o d.section d.piece)) (notes elf.old.o d.section d.piece at) }
    ensures queries { Queries S.Source (calls.note d.section d.piece at) [] result elf.old elf.new }
{
    match fetch_bytes(elf, d) {
        Ok(()) => note_in(
            bytes_there(elf, d),
            at,
            alignment(elf, d.section),
            order(elf),
        ),
        Err(e) => Err(e),
    }
}
