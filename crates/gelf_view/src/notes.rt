//! Notes.

ghost use Rattle.std.specs.Prelude.{◌≡◌, ◌==◌, is_none, ◌+◌, ◌≤◌, length, min, IfOk, IfSome};
ghost use Rattle.elf_descriptor.specs.elf_layout.Layout.{rounded_up};
ghost use Rattle.gelf_view.specs.Notes.{note_align as stated_align, note_at, note_with as stated_note, IsNoteWithin};

use crate::records::{record_in, word_at};
use elf_descriptor::prelude::rounded_within;
use elf_types::{ElfError, Order};

/// The number of bytes of a note's header.
pub const NOTE_HEADER_SIZE: usize = 12;

/// A note (gABI chapter 5, "Note Section"), by its places, in bytes from the first byte of the
/// piece.
#[derive(Clone, Copy, Debug, PartialEq, Eq)]
pub struct NoteAt {
    /// `n_type`.
    pub ntype: u32,
    /// Where its name begins.
    pub name_at: u64,
    /// `n_namesz`, the number of bytes of its name.
    pub namesz: u64,
    /// Where its descriptor begins.
    pub desc_at: u64,
    /// `n_descsz`, the number of bytes of its descriptor.
    pub descsz: u64,
    /// Where the next note begins; the end of the piece after the last one.
    pub next: u64,
}

/// The alignment of the notes of a section, by its present `sh_addralign`: 8 where that is 8, and
/// else 4. It takes no memory.
#[tactic(auto, unfolding(crate::specs::Notes::note_align))]
pub fn note_align(addralign: u64) -> u64
    ensures { result ≡ stated_align addralign }
{
    if addralign == 8 { 8 } else { 4 }
}

/// A place rounded up to a multiple of an alignment, or the end where that comes first.
fn rounded_up_to(place: u64, align: u64, end: u64) -> u64
    ensures { result ≡ min (rounded_up place align) end }
{
    rounded_within(place, align, end).unwrap_or(end)
}

/// The note at a place of bytes in a byte order, by the alignment of its section's notes. None
/// comes exactly where the place is the end of the bytes. It fails with `BadChain { at }` exactly
/// where header, name or descriptor do not lie in the bytes, and takes no memory.
///
/// Source: gABI chapter 5, "Note Section"; gelf_getnote of gelf(3E).
#[tactic(auto, unfolding(crate::specs::Notes::note_at))]
pub fn note_in(bytes: &[u8], at: u64, align: u64, order: Order) -> Result<Option<NoteAt>, ElfError>
    ensures value { result ≡ note_at order align bytes.now at }
    ensures ended { IfOk result (λ found. is_none found ≡ (at == length bytes.now)) }
    ensures within { IfOk result (λ found. IfSome found (IsNoteWithin (length bytes.now) at)) }
{
    let size = bytes.len() as u64;
    if at == size {
        return Ok(None);
    }
    let header = record_in(bytes, at, NOTE_HEADER_SIZE)?;
    let note = note_with(header, at, align, size, order)?;
    Ok(Some(note))
}

/// The note at a place of `size` bytes, where that header is.
fn note_with(
    header: &[u8],
    at: u64,
    align: u64,
    size: u64,
    order: Order,
) -> Result<NoteAt, ElfError>
    requires header { length header.now ≡ NOTE_HEADER_SIZE }
    requires within { at + NOTE_HEADER_SIZE ≤ size }
    ensures value { result ≡ stated_note order align size header.now at }
    ensures within { IfOk result (IsNoteWithin size at) }
{
    let ntype = word_at(header, 8, order);
    let namesz = u64::from(word_at(header, 0, order));
    let descsz = u64::from(word_at(header, 4, order));
    let name_at = at + NOTE_HEADER_SIZE as u64;
    if size - name_at < namesz {
        return Err(ElfError::BadChain { at });
    }
    let desc_at = rounded_up_to(name_at + namesz, align, size);
    if size - desc_at < descsz {
        return Err(ElfError::BadChain { at });
    }
    let next = rounded_up_to(desc_at + descsz, align, size);
    Ok(NoteAt {
        ntype,
        name_at,
        namesz,
        desc_at,
        descsz,
        next,
    })
}
