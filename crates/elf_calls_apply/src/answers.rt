//! The returns of calls.

ghost use Rattle.std.specs.Prelude.{◌≡◌};
ghost use Rattle.symbol_lookup.specs.elf_object.Words.{result_map};
ghost use Rattle.elf_calls_apply.specs.Stated.{done_shown as stated_done};
ghost use Rattle.elf_calls_apply.specs.Applies.{result_of};

use elf_types::{Dyn, Ehdr, ElfError, Kind, Octets, Phdr, Rel, Rela, Shdr, Sym};
use symbol_lookup::prelude::NoteAt;

/// An item of a piece. The variant is its kind.
#[derive(Clone, Copy)]
pub enum PieceItem {
    /// A byte.
    Byte(u8),
    /// A two-byte number.
    Half(u16),
    /// A four-byte number.
    Word(u32),
    /// An address.
    Addr(u64),
    /// A symbol.
    Sym(Sym),
    /// A relocation without an addend.
    Rel(Rel),
    /// A relocation with an addend.
    Rela(Rela),
    /// An entry of the dynamic section.
    Dyn(Dyn),
}

/// What a call of a script returns.
#[derive(Drop)]
pub enum Answer {
    /// The ELF header.
    Ehdr(Ehdr),
    /// A program header.
    Phdr(Phdr),
    /// A section header.
    Shdr(Shdr),
    /// How many pieces a section has.
    Pieces(u32),
    /// The kind of a piece, and its number of items.
    Data {
        /// The kind.
        kind: Kind,
        /// How many items there are.
        count: u64,
    },
    /// The bytes of a section as they are in the file.
    Raw(Octets),
    /// An item.
    Item(PieceItem),
    /// A string, without its NUL.
    Str(Octets),
    /// A note.
    Note(NoteAt),
    /// There is no further note.
    NoteEnd,
    /// The index of the symbol with that name.
    Found(u64),
    /// No symbol has that name.
    FoundNone,
    /// The call is done, and returns no value.
    Done,
    /// How many items were changed.
    Changed(u64),
    /// The number of the new section.
    Section(u32),
    /// The new piece.
    Piece {
        /// Its section's number.
        s: u32,
        /// Its number in the section.
        p: u32,
    },
    /// The flags of a part.
    Flags(u32),
    /// The size of the image, in bytes.
    Size(u64),
    /// The call was rejected.
    Refused(ElfError),
}

/// The result of a call that returns no value.
pub(crate) fn done(came: Result<(), ElfError>) -> Answer
    ensures { result_of result ≡ result_map stated_done came }
{
    match came {
        Ok(()) => Answer::Done,
        Err(e) => Answer::Refused(e),
    }
}
