//! Homes that are read into memory reserved, and homes that are freed.

ghost use Rattle.std.specs.Prelude.{◌≡◌, false, length};
ghost use Rattle.section_data.specs.Held.{cell_is_loaded};
ghost use Rattle.section_data.specs.Leaves.{LiesIn};

use super::{Asked, EMPTY, Row, are_so};
use elf_outside::MemSource;
use elf_types::constants::SHT_SYMTAB;
use elf_types::{Class, ElfError, Shdr};
use section_data::Cell;
use test_kit_images::NULL_SECTION;
use test_kit_rows::{failed, holds, other, same};

/// Whether a home of 48 bytes is read into memory that is reserved, after a read that failed.
pub fn is_room_kept(rt: &HostRuntime, cell: &mut Cell, source: &mut MemSource) -> bool
    requires { LiesIn cell.old (length source.old.bytes) }
{
    if let Err(e) = cell.reserve() {
        return failed(rt, e);
    }
    match cell.load_reserved(source) {
        Ok(()) => other(rt, &"a read", "one that fails"),
        Err(e) => {
            same(rt, &e, &ElfError::Read)
                && holds(rt, "a failed read loads nothing", !cell.is_loaded())
                && same(rt, &cell.load_reserved(source), &Ok(()))
                && holds(rt, "it is loaded", cell.is_loaded())
                && same(rt, &source.asked(), &96)
        }
    }
}

/// Whether a home of 48 bytes is read again once it was freed.
pub fn is_read_again(rt: &HostRuntime, cell: &mut Cell, source: &mut MemSource) -> bool
    requires lies { LiesIn cell.old (length source.old.bytes) }
    requires unread { cell_is_loaded cell.old ≡ false }
{
    let read = same(rt, &cell.load(source), &Ok(()));
    cell.unload();
    let gone = !cell.is_loaded();
    let again = same(rt, &cell.load(source), &Ok(()));
    read && gone && again && cell.is_loaded() && same(rt, &source.asked(), &96)
}

/// Two symbols.
const SYMBOLS: Row = Row {
    header: Shdr {
        stype: SHT_SYMTAB,
        size: 48,
        ..NULL_SECTION
    },
    ..EMPTY
};

#[test]
fn a_failed_read_leaves_the_reserved_memory(rt: HostRuntime) {
    assert!(rt;
        are_so(
            &rt,
            &[Row {
                bad_read: 1,
                asked: Asked::RoomKept,
                ..SYMBOLS
            }]
        )
    );
}

#[test]
fn a_released_home_is_read_again(rt: HostRuntime) {
    assert!(rt;
        are_so(
            &rt,
            &[Row {
                asked: Asked::ReadAgain,
                ..SYMBOLS
            }]
        )
    );
}
