//! Where the bytes of an image's parts are.

ghost use Rattle.std.specs.Prelude.{◌≡◌};
ghost use Rattle.rebuild_image.specs.Ranges.Ranges.{len_at, range_at};

use elf_types::{List, Part};

/// A range of bytes: of those that are held, or of the base, which a source has.
#[derive(Clone, Copy, Debug, PartialEq, Eq)]
pub struct ByteRange {
    /// Whether it is a range of the bytes that are held, and not of the base.
    pub held: bool,
    /// The place of its first byte among them.
    pub at: u64,
    /// The number of its bytes.
    pub len: u64,
}

/// The ranges of the parts of an image.
#[derive(Drop)]
pub struct PartRanges {
    /// The range of the ELF header.
    pub header: ByteRange,
    /// The range of the program header table.
    pub segments: ByteRange,
    /// The range of the section header table.
    pub table: ByteRange,
    /// The ranges of the sections, by number from 0 on.
    pub sections: List<ByteRange>,
}

/// The range of a part; None of a section that has none, of the object and of a piece. It takes no
/// memory.
pub fn range_at(ranges: &PartRanges, part: Part) -> Option<ByteRange>
    ensures { result ≡ range_at ranges.now part }
{
    match part {
        Part::Header => Some(ranges.header),
        Part::Segments => Some(ranges.segments),
        Part::Table => Some(ranges.table),
        Part::Section(s) => ranges.sections.get(s as u64),
        Part::Object => None,
        Part::Piece(_, _) => None,
    }
}

/// The number of bytes of the range of a part; 0 where it has none.
pub(crate) fn range_len(ranges: &PartRanges, part: Part) -> u64
    ensures { result ≡ len_at (range_at ranges.now part) }
{
    match range_at(ranges, part) {
        Some(range) => range.len,
        None => 0,
    }
}
