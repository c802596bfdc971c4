//! The parts of an image as the layout sees them.

ghost use Rattle.std.specs.Prelude.{◌≡◌};

use elf_types::{Addrs, List, Part};

/// A part of an image: the ELF header, one of the two tables or a section.
#[derive(Clone, Copy, Debug, PartialEq, Eq)]
pub struct PartAt {
    /// Which part it is.
    pub part: Part,
    /// Where the caller puts it, in bytes from the start of the image (`e_phoff`, `e_shoff`,
    /// `sh_offset`).
    pub at: u64,
    /// Its length in bytes.
    pub len: u64,
    /// Its alignment in bytes (`sh_addralign`); 0 counts as 1, and it need not be a power of two. A
    /// section of type `SHT_NULL` has 1 here, so that its place is the end so far.
    pub align: u64,
    /// Whether the image holds its bytes: false for sections of type `SHT_NULL` and `SHT_NOBITS`.
    pub filled: bool,
}

impl PartAt {
    ghost use Rattle.elf_layout.specs.Meeting.{has_bytes};

    /// Whether the image holds a byte of the part.
    #[tactic(auto, unfolding(crate::specs::Meeting::has_bytes))]
    pub fn has_bytes(&self) -> bool
        ensures { result ≡ has_bytes self.now }
    {
        self.filled && self.len > 0
    }
}

/// The parts of an image: the ELF header, the program header table, the sections from 1 on by
/// number, and the section header table. A part's rank is its place in this list.
pub type Parts = List<PartAt>;

/// Where the parts of an image are.
#[derive(Drop)]
pub struct Places {
    /// Each part's position, in the order of the parts, in bytes from the start of the image.
    pub at: Addrs,
    /// The image's length in bytes.
    pub end: u64,
}
