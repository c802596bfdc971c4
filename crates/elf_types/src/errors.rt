//! What elfkit's calls reject.

ghost use Rattle.std.specs.Prelude.{◌≡◌};
ghost use Rattle.elf_types.specs.declared.errors.ElfError.TheVariants.{Memory};

use crate::records::{Kind, Part};
use std::alloc::{AllocError, AllocFailed};

/// Why a call of the library was rejected. A variant on a section, a piece, an item, a string, an
/// alignment or a place carries the numbers that show it. One on the image as a whole, on the
/// outside, on section 0 or on a flag carries none.
#[derive(Clone, Copy, Debug, PartialEq, Eq)]
pub enum ElfError {
    /// There is no memory for the call.
    Memory,
    /// The source failed to read.
    Read,
    /// The sink or the device failed to write.
    Write,
    /// The image is shorter than its header, or the archive than its first line.
    Short,
    /// The image does not begin with the ELF magic number, or the archive with its own.
    Magic,
    /// `e_ident[EI_CLASS]` is neither of the two classes.
    Class,
    /// `e_ident[EI_DATA]` is neither of the two orders.
    Order,
    /// A version of the header is not 1.
    Version,
    /// The program header table is not well formed or does not lie in the image.
    PhTable,
    /// The section header table is not well formed or does not lie in the image.
    ShTable,
    /// There is no section with that number.
    NoSection {
        /// The number that was asked for.
        index: u32,
        /// How many there are.
        count: u32,
    },
    /// The section has no piece with that number.
    NoData {
        /// The number that was asked for.
        index: u32,
        /// How many there are.
        count: u32,
    },
    /// There is no item or program header with that index.
    NoEntry {
        /// The index that was asked for.
        index: u64,
        /// How many there are.
        count: u64,
    },
    /// The piece holds items of another kind.
    WrongKind {
        /// The kind that the piece holds.
        held: Kind,
    },
    /// The section's bytes do not lie in the image.
    OutOfFile {
        /// The section's number.
        section: u32,
    },
    /// The section's size is no multiple of its item's.
    Ragged {
        /// The section's number.
        section: u32,
    },
    /// A value does not fit its field in the image's class.
    Unfit {
        /// The part that holds the value.
        part: Part,
        /// The item's index in that part.
        index: u64,
    },
    /// Two parts share a byte.
    Overlap {
        /// The first part.
        a: Part,
        /// The part that meets it.
        b: Part,
    },
    /// A size or a place is past its limit.
    TooLarge,
    /// A count is past its limit.
    TooMany,
    /// The dirty flag is never cleared by a caller.
    FlagKept,
    /// The section is no string table.
    NotStrings {
        /// The section's number.
        section: u32,
    },
    /// There is no string at that offset.
    NoString {
        /// The offset, in bytes.
        offset: u64,
        /// The table's size, in bytes.
        size: u64,
    },
    /// The string at that offset does not end.
    Unended {
        /// The offset, in bytes.
        offset: u64,
    },
    /// The archive's member at that place is not well formed.
    BadMember {
        /// The member's place in the archive, in bytes.
        at: u64,
    },
    /// A walk meets a record or a word that is not there.
    BadChain {
        /// The record's or the word's place in its section, in bytes.
        at: u64,
    },
    /// Section 0 is reserved.
    Reserved,
    /// An alignment is no power of two, or too large.
    BadAlign {
        /// The alignment.
        align: u64,
    },
    /// The symbols are not in the order that the hash section needs.
    Unsorted {
        /// The index of the first symbol out of order.
        at: u64,
    },
}

impl From<AllocError> for ElfError {
    ghost from_gives = { λ _ e. e ≡ Memory };

    fn from(_e: AllocError) -> ElfError {
        ElfError::Memory
    }
}

impl<T: Drop> From<AllocFailed<T>> for ElfError {
    ghost from_gives = { λ _ e. e ≡ Memory };

    fn from(_e: AllocFailed<T>) -> ElfError {
        ElfError::Memory
    }
}
