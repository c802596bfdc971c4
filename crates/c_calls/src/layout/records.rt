//! The record of a part as C lays it out.

ghost use Rattle.std.specs.Prelude.{◌≡◌};
ghost use Rattle.c_calls.specs.Layout.Parts.{section_number, part_len, part_record};

use c_handles::layout::PlannedLayout;
use elf_layout::PartAt;
use elf_types::Part;

/// The number of the section that a part is; 0 for each other one.
fn section_number(part: Part) -> u32
    ensures { result ≡ section_number part }
{
    match part {
        Part::Section(s) => s,
        Part::Header => 0,
        Part::Segments => 0,
        Part::Table => 0,
        Part::Object => 0,
        Part::Piece(_, _) => 0,
    }
}

/// The number of bytes of a part of a layout: of the ELF header and of the tables as many as the
/// layout has of it.
fn part_len(layout: &PlannedLayout, part: PartAt) -> u64
    ensures { result ≡ part_len layout.now part }
{
    match part.part {
        Part::Header => layout.header.len(),
        Part::Segments => layout.segments.len(),
        Part::Table => layout.table.len(),
        Part::Section(_) => part.len,
        Part::Object => part.len,
        Part::Piece(_, _) => part.len,
    }
}

/// A part of an image that is not empty. The bytes of the ELF header and of the two tables are
/// asked for by themselves.
#[repr(C)]
#[derive(Clone, Copy)]
pub struct PartRecord {
    /// Its place in the image, in bytes from the start.
    pub at: u64,
    /// The number of its bytes.
    pub len: u64,
    /// The number of the section whose bytes it is; 0 where it is the ELF header or a table.
    pub section: u32,
}

impl PartRecord {
    /// The record of a part of a layout.
    pub fn of(layout: &PlannedLayout, part: PartAt) -> PartRecord
        ensures { result ≡ part_record layout.now part }
    {
        PartRecord {
            at: part.at,
            len: part_len(layout, part),
            section: section_number(part.part),
        }
    }
}
