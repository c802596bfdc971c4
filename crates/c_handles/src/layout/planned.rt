//! The layout of an image.

use elf_layout::Parts;
use elf_types::Octets;

/// Where the parts of an image are, and the bytes of its header and of its two tables.
#[derive(Drop)]
pub struct PlannedLayout {
    /// The parts that are not empty, by their places.
    pub parts: Parts,
    /// The length of the image in bytes.
    pub end: u64,
    /// The bytes of the ELF header.
    pub header: Octets,
    /// The bytes of the program header table.
    pub segments: Octets,
    /// The bytes of the section header table.
    pub table: Octets,
}
