//! Cells over sources in memory.

ghost use Rattle.std.specs.Prelude.{◌≡◌, false, length};
ghost use Rattle.section_data.specs.Held.{HeldIs, cell_is_loaded};
ghost use Rattle.section_data.specs.Leaves.{LiesIn};

mod changes;
mod rooms;

use changes::{Change, Left, change_left};
use elf_outside::MemSource;
use elf_types::constants::{
    SHF_COMPRESSED, SHT_GNU_VERSYM, SHT_NOBITS, SHT_NULL, SHT_PROGBITS, SHT_REL, SHT_SYMTAB,
};
use elf_types::{Class, ElfError, Kind, Octets, Order, Shdr};
use rooms::{is_read_again, is_room_kept};
use section_data::Cell;
use test_kit_images::{ClassAndOrder, FORMS, NARROW, NULL_SECTION, WIDE};
use test_kit_rows::{failed, in_row, same, within};
use test_kit_sources::source;

/// What is asked of a cell of which nothing is read, and the result.
#[derive(Drop)]
enum Asked {
    /// The kind and the number of items, or how they are rejected.
    Data(Told),
    /// A home of 48 bytes is read once, after a read that failed.
    ReadOnce,
    /// What a change leaves of the piece.
    Changed(Change, Left),
    /// A home of 48 bytes is read into memory that is reserved, after a read that failed.
    RoomKept,
    /// A home of 48 bytes is read again once it was freed.
    ReadAgain,
    /// The item at an index of a cell of halves.
    Half(u64, Result<u16, ElfError>),
}

/// The cell of section 5 by its header, over these bytes, where the read of a number fails, or none
/// where that is 0; and what is asked of it.
#[derive(Drop)]
struct Row {
    form: ClassAndOrder,
    header: Shdr,
    bytes: &'static [u8],
    bad_read: u64,
    asked: Asked,
}

/// Whether a cell over its source behaves as it should.
fn answers(
    rt: &HostRuntime,
    asked: &Asked,
    cell: &mut Cell,
    source: &mut MemSource,
    form: ClassAndOrder,
) -> bool
    requires lies { LiesIn cell.old (length source.old.bytes) }
    requires items { HeldIs form.0 form.1 cell.old }
    requires unread { cell_is_loaded cell.old ≡ false }
{
    match asked {
        Asked::Data(told) => same(rt, &data_told(cell, source, form.0, form.1), told),
        Asked::ReadOnce => is_read_once(rt, cell, source, form.0, form.1),
        Asked::Changed(by, left) => same(
            rt,
            &change_left(rt.alloc(), cell, source, form, *by),
            left,
        ),
        Asked::RoomKept => is_room_kept(rt, cell, source),
        Asked::ReadAgain => is_read_again(rt, cell, source),
        Asked::Half(i, told) => same(rt, &half_at(cell, source, form, *i), told),
    }
}

/// Whether the cell of a row does in a form, over a source of so many bytes.
fn is_so_over(
    rt: &HostRuntime,
    form: ClassAndOrder,
    row: &Row,
    source: &mut MemSource,
    len: u64,
) -> bool
    requires { len ≡ length source.old.bytes }
{
    let mut cell = Cell::unread(rt.alloc(), 5, form.0, &row.header, len);
    answers(rt, &row.asked, &mut cell, source, form)
}

/// Whether the cell of a row behaves as it should over these bytes.
fn is_so_of(rt: &HostRuntime, form: ClassAndOrder, row: &Row, bytes: Octets) -> bool {
    let len = bytes.len();
    match source(rt.alloc(), bytes, row.bad_read) {
        Ok(mut source) => is_so_over(rt, form, row, &mut source, len),
        Err(e) => failed(rt, e),
    }
}

/// Whether the cell of a row behaves as it should in a form, in place of its own.
fn is_so_in(rt: &HostRuntime, form: ClassAndOrder, row: &Row) -> bool {
    match Octets::from_slice(rt.alloc(), row.bytes) {
        Ok(bytes) => is_so_of(rt, form, row, bytes),
        Err(e) => failed(rt, e),
    }
}

/// Whether the cell of each row behaves as it should.
fn are_so(rt: &HostRuntime, rows: &[Row]) -> bool {
    for (n, row) in rows.iter().enumerate() {
        if !in_row(rt, n, is_so_in(rt, row.form, row)) {
            return false;
        }
    }
    true
}

/// Whether the cell of a row behaves as it should in all forms.
fn is_so(rt: &HostRuntime, row: &Row) -> bool {
    for form in FORMS.iter() {
        if !within(rt, form, is_so_in(rt, *form, row)) {
            return false;
        }
    }
    true
}

/// Whether the cell of each row behaves as it should in all forms.
fn are_so_in_all_forms(rt: &HostRuntime, rows: &[Row]) -> bool {
    for (n, row) in rows.iter().enumerate() {
        if !in_row(rt, n, is_so(rt, row)) {
            return false;
        }
    }
    true
}

/// The kind and the number of items, or how they are rejected.
type Told = Result<(Kind, u64), ElfError>;

/// A section of no type in an image of zeros, which is empty.
const EMPTY: Row = Row {
    form: WIDE,
    header: NULL_SECTION,
    bytes: &[0; 96],
    bad_read: 0,
    asked: Asked::Data(Ok((Kind::Empty, 0))),
};

/// Sections of all kinds: the type, place, size and flags of each, and what its data are.
const ROWS: [Row; 8] = [
    Row {
        header: Shdr {
            stype: SHT_NULL,
            offset: 0,
            size: 7,
            ..NULL_SECTION
        },
        asked: Asked::Data(Ok((Kind::Empty, 0))),
        ..EMPTY
    },
    Row {
        header: Shdr {
            stype: SHT_NOBITS,
            offset: 90,
            size: 1000,
            ..NULL_SECTION
        },
        asked: Asked::Data(Ok((Kind::Empty, 0))),
        ..EMPTY
    },
    Row {
        header: Shdr {
            stype: SHT_PROGBITS,
            offset: 10,
            size: 20,
            ..NULL_SECTION
        },
        asked: Asked::Data(Ok((Kind::Bytes, 20))),
        ..EMPTY
    },
    Row {
        header: Shdr {
            stype: SHT_PROGBITS,
            offset: 1000,
            size: 0,
            ..NULL_SECTION
        },
        asked: Asked::Data(Ok((Kind::Bytes, 0))),
        ..EMPTY
    },
    Row {
        header: Shdr {
            stype: SHT_PROGBITS,
            offset: 90,
            size: 7,
            ..NULL_SECTION
        },
        asked: Asked::Data(OUT),
        ..EMPTY
    },
    Row {
        header: Shdr {
            stype: SHT_REL,
            offset: 0,
            size: 17,
            ..NULL_SECTION
        },
        asked: Asked::Data(RAGGED),
        ..EMPTY
    },
    Row {
        header: Shdr {
            stype: SHT_SYMTAB,
            offset: 96,
            size: 48,
            ..NULL_SECTION
        },
        asked: Asked::Data(OUT),
        ..EMPTY
    },
    Row {
        header: Shdr {
            stype: SHT_SYMTAB,
            offset: 3,
            size: 17,
            flags: SHF_COMPRESSED,
            ..NULL_SECTION
        },
        asked: Asked::Data(Ok((Kind::Bytes, 17))),
        ..EMPTY
    },
];

/// The home passes the end of the image.
const OUT: Told = Err(ElfError::OutOfFile { section: 5 });

/// The home is no whole items.
const RAGGED: Told = Err(ElfError::Ragged { section: 5 });

/// What the data of a section are.
fn data_told(
    cell: &mut Cell,
    source: &mut MemSource,
    class: Class,
    order: Order,
) -> Result<(Kind, u64), ElfError>
    requires lies { LiesIn cell.old (length source.old.bytes) }
    requires items { HeldIs class order cell.old }
{
    cell.prepare(source, 0, class, order)?;
    let items = cell.items(0);
    Ok((items.kind(), items.count()))
}

#[test]
fn sections_of_all_kinds_are_told_or_refused(rt: HostRuntime) {
    assert!(rt; are_so_in_all_forms(&rt, &ROWS));
}

/// Whether a home of 48 bytes is read once, after a read that failed.
fn is_read_once(
    rt: &HostRuntime,
    cell: &mut Cell,
    source: &mut MemSource,
    class: Class,
    order: Order,
) -> bool
    requires lies { LiesIn cell.old (length source.old.bytes) }
    requires items { HeldIs class order cell.old }
{
    let refused = same(
        rt,
        &cell.prepare(source, 0, class, order),
        &Err(ElfError::Read),
    );
    let unread = !cell.is_loaded();
    let read = same(rt, &cell.prepare(source, 0, class, order), &Ok(()));
    let again = same(rt, &cell.prepare(source, 0, class, order), &Ok(()));
    refused && unread && read && again && same(rt, &source.asked(), &96)
}

/// Two symbols, of which the first read fails.
const READ_ONCE: [Row; 1] = [Row {
    header: Shdr {
        stype: SHT_SYMTAB,
        size: 48,
        ..NULL_SECTION
    },
    bad_read: 1,
    asked: Asked::ReadOnce,
    ..EMPTY
}];

#[test]
fn a_failed_read_is_repeated_and_a_home_is_read_once(rt: HostRuntime) {
    assert!(rt; are_so(&rt, &READ_ONCE));
}

/// Item `i` of a cell of halves.
#[tactic(auto, using(crate::proofs::Rules::at_hand))]
fn half_at(
    cell: &mut Cell,
    source: &mut MemSource,
    form: ClassAndOrder,
    i: u64,
) -> Result<u16, ElfError>
    requires { LiesIn cell.old (length source.old.bytes) }
{
    cell.load(source)?;
    cell.check_lend(0, Kind::Half, form.0)?;
    cell.item::<u16>(0, i, form.0, form.1)
}

/// The first item of a section of two halves in class 32, the greatest byte first.
const FIRST_HALF: Row = Row {
    form: NARROW,
    header: Shdr {
        stype: SHT_GNU_VERSYM,
        size: 4,
        ..NULL_SECTION
    },
    bytes: &[0x12, 0x34, 0x56, 0x78],
    asked: Asked::Half(0, Ok(0x1234)),
    ..EMPTY
};

/// Each item, and one past them.
const HALVES: [Row; 3] = [
    FIRST_HALF,
    Row {
        asked: Asked::Half(1, Ok(0x5678)),
        ..FIRST_HALF
    },
    Row {
        asked: Asked::Half(2, Err(ElfError::NoEntry { index: 2, count: 2 })),
        ..FIRST_HALF
    },
];

#[test]
fn items_are_told_one_by_one(rt: HostRuntime) {
    assert!(rt; are_so(&rt, &HALVES));
}
