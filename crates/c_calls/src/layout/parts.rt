//! How the parts of a layout are handed over.

ghost use Rattle.std.specs.Prelude.{◌≡◌, length, IfSome};
ghost use Rattle.c_records.specs.Gives.{GivesInCForm};
ghost use Rattle.c_calls.specs.Layout.Parts.{part_record, part_at, front_of, front_at};

use crate::layout::records::PartRecord;
use c_handles::layout::PlannedLayout;
use c_records::code_of;
use elf_types::{ElfError, Part};

/// The part at an index. It fails with `NoEntry`, and takes no memory.
///
/// Source: elf_update with ELF_C_WRITE of elf(3E).
pub fn give_part(layout: &PlannedLayout, i: u64, out: &mut PartRecord) -> u32
    ensures { GivesInCForm (part_record layout.now) (part_at layout.now.parts i) result
        out.old out.new }
{
    match layout.parts.get(i) {
        Some(part) => {
            *out = PartRecord::of(layout, part);
            0
        }
        None => code_of(ElfError::NoEntry {
            index: i,
            count: layout.parts.len(),
        }),
    }
}

/// The bytes of the ELF header or of a table, into a buffer that is as long; nothing of any other
/// part.
fn give_front(layout: &PlannedLayout, part: Part, out: &mut [u8])
    requires { IfSome (front_of layout.now part) (λ bytes. length out.old ≡ length bytes) }
    ensures { IfSome (front_of layout.now part) (λ bytes. out.new ≡ bytes) }
{
    match part {
        Part::Header => out.copy_from_slice(layout.header.as_slice()),
        Part::Segments => out.copy_from_slice(layout.segments.as_slice()),
        Part::Table => out.copy_from_slice(layout.table.as_slice()),
        Part::Section(_) => (),
        Part::Object => (),
        Part::Piece(_, _) => (),
    }
}

/// The bytes of the part at an index, where it is the ELF header or a table, into a buffer that is
/// as long. It rejects nothing and takes no memory.
///
/// Source: elf_update with ELF_C_WRITE of elf(3E).
pub fn give_part_bytes(layout: &PlannedLayout, i: u64, out: &mut [u8])
    requires { IfSome (front_at layout.now i) (λ bytes. length out.old ≡ length bytes) }
    ensures { IfSome (front_at layout.now i) (λ bytes. out.new ≡ bytes) }
{
    match layout.parts.get(i) {
        Some(part) => give_front(layout, part.part, out),
        None => (),
    }
}
