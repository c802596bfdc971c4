//! Rows that other readers show for the same bytes, and numbers of any length.

mod damages;

use elf_types::{ElfError, Octets};
use line_table::{FileNames, LineFault, Row, Unit, unit_at};
use std::alloc::Global;
use test_kit_images::{ClassAndOrder, NARROW, WIDE};
use test_kit_rows::{failed_by, in_row, other, same, same_bytes};

/// A unit of version 2 with one file, in class 64 and least byte first. Its program has an address
/// at 33, a special opcode at 44, an advance at 45 and the end of the sequence at 47.
const SMALL_UNIT: &[u8] =
    b"\x2e\0\0\0\x02\0\x17\0\0\0\x01\x01\xfb\x0e\x0a\0\x01\x01\x01\x01\0\0\0\x01\0\
    a.c\0\0\0\0\0\
    \0\x09\x02\0\x10\x40\0\0\0\0\0\x14\x02\x04\0\x01\x01";

/// A unit of version 4 whose program has every opcode. The rows that the test expects are those
/// that readelf and llvm-dwarfdump show.
const UNIT_OF_EVERY_OPCODE: &[u8] = b"\x73\0\0\0\x04\0\x29\0\0\0\x02\x01\x01\xfd\x0c\x0e\
    \0\x01\x01\x01\x01\0\0\0\x01\0\0\x01\x02d\0ee\0\0\
    a.c\0\x01\0\0h.h\0\x02\x80\x01\x05\0\
    \0\x09\x02\0\x10\x40\0\0\0\0\0\x03\x7d\x01\x05\x07\x04\x02\x06\x02\x81\x01\x4b\
    \x07\x08\x0a\x0b\x0c\x83\x01\x09\x02\x01\x0d\x01\x82\x01\0\x05\x80\x11\x22\x33\x44\
    \0\x08\x03b.c\0\x01\x02\x03\0\x06\x03\0\0\0\0\x99\xff\0\x02\x01\x77\x01";

/// A unit of version 3 in class 32 and greatest byte first.
const GREATEST_UNIT: &[u8] =
    b"\0\0\0\x27\0\x03\0\0\0\x10\x04\0\xfb\x0e\x0a\0\x01\x01\x01\x01\0\0\0\x01\0\0\
    \0\x05\x02\x12\x34\x56\x78\x09\x01\x02\x06\x01\x02\x02\0\x01\x01";

/// A row: its address, file, line and column, and whether it is a good place for a breakpoint and
/// after the end of a sequence.
type Shown = (u64, u64, u32, u64, bool, bool);

/// What a unit holds: the place of the next one, its version, its files and its rows.
type Held = (u64, u16, &'static [&'static [u8]], &'static [Shown]);

/// What the small unit holds.
static SMALL: Held = (
    50,
    2,
    &[b"a.c"],
    &[
        (0x401000, 1, 6, 0, true, false),
        (0x401004, 1, 6, 0, true, true),
    ],
);

/// What the unit of every opcode holds.
static EVERY_OPCODE: Held = (
    119,
    4,
    &[b"a.c", b"h.h", b"b.c", b""],
    &[
        (0x401000, 1, 4294967294, 0, true, false),
        (0x40110c, 2, 4294967292, 7, false, false),
        (0x40125e, 2, 4294967290, 7, false, false),
        (0x40125e, 2, 4294967290, 7, false, true),
        (0, 1, 1, 0, true, false),
    ],
);

/// What the unit in class 32 holds.
static GREATEST: Held = (
    43,
    3,
    &[],
    &[
        (0x1234577a, 1, 1, 0, true, false),
        (0x12345782, 1, 1, 0, true, true),
    ],
);

/// Whether a row is shown so.
fn is_shown(rt: &HostRuntime, row: &Row, shown: &Shown) -> bool {
    let (address, file, line, column, stmt, end) = *shown;
    let wanted = Row {
        address,
        file,
        line,
        column,
        stmt,
        end,
    };
    same(rt, row, &wanted)
}

/// Whether these are the rows.
fn have_rows(rt: &HostRuntime, rows: &[Row], shown: &[Shown]) -> bool {
    for (n, (row, wanted)) in rows.iter().zip(shown).enumerate() {
        if !in_row(rt, n, is_shown(rt, row, wanted)) {
            return false;
        }
    }
    same(rt, &rows.len(), &shown.len())
}

/// Whether these are the names.
fn have_names(rt: &HostRuntime, files: &FileNames, names: &[&[u8]]) -> bool {
    let files = files.as_slice();
    for (n, (file, name)) in files.iter().zip(names).enumerate() {
        if !in_row(rt, n, same_bytes(rt, file.as_slice(), name)) {
            return false;
        }
    }
    same(rt, &files.len(), &names.len())
}

/// Whether a unit at the begin of a section holds that.
fn is_held(rt: &HostRuntime, unit: &Unit, held: &Held) -> bool {
    let (next, version, names, rows) = *held;
    let placed = same(rt, &unit.at, &0)
        && same(rt, &unit.next, &next)
        && same(rt, &unit.version, &version);
    placed && have_names(rt, &unit.files, names) && have_rows(rt, unit.rows.as_slice(), rows)
}

/// Whether there is a unit at the begin of a section, and it holds that.
fn holds(rt: &HostRuntime, section: &[u8], form: ClassAndOrder, held: &Held) -> bool {
    match unit_at(rt.alloc(), section, 0, form.0, form.1) {
        Ok(Some(unit)) => is_held(rt, &unit, held),
        Ok(None) => other(rt, &"no unit", "a unit"),
        Err(e) => failed_by(rt, &e),
    }
}

#[test]
fn gives_the_rows_of_a_unit(rt: HostRuntime) {
    assert!(rt; holds(&rt, SMALL_UNIT, WIDE, &SMALL));
}

#[test]
fn executes_every_opcode(rt: HostRuntime) {
    assert!(rt; holds(&rt, UNIT_OF_EVERY_OPCODE, WIDE, &EVERY_OPCODE));
}

#[test]
fn reads_the_greatest_byte_first(rt: HostRuntime) {
    assert!(rt; holds(&rt, GREATEST_UNIT, NARROW, &GREATEST));
}

/// Where the unit at a place ends, and 0 where the section does.
fn next_of(alloc: Global, section: &[u8], place: usize) -> Result<u64, LineFault> {
    if place > section.len() {
        return Err(LineFault::Memory);
    }
    match unit_at(alloc, section, place as u64, WIDE.0, WIDE.1)? {
        Some(unit) => Ok(unit.next),
        None => Ok(0),
    }
}

/// Whether the next units are told so.
fn ends_are_told(rt: &HostRuntime) -> bool {
    let mut stated = same(rt, &next_of(rt.alloc(), SMALL_UNIT, 0), &Ok(50));
    stated &= same(rt, &next_of(rt.alloc(), SMALL_UNIT, 50), &Ok(0));
    stated && same(rt, &next_of(rt.alloc(), b"", 0), &Ok(0))
}

#[test]
fn ends_where_the_section_ends(rt: HostRuntime) {
    assert!(rt; ends_are_told(&rt));
}

/// An opcode whose operand is a number of any length, and what its row has.
#[derive(Clone, Copy)]
enum Number {
    /// DW_LNS_set_column: this column.
    Column(u64),
    /// DW_LNS_advance_line: this line, modulo 2 to the power of 32, in place of 1.
    Line(u32),
}

/// Numbers and their bytes: the examples of DWARF 4, figures 22 and 23, and some of more than ten
/// bytes.
static NUMBERS: [(Number, &[u8]); 9] = [
    (Number::Column(127), b"\x7f"),
    (Number::Column(12857), b"\xb9\x64"),
    (Number::Line(u32::MAX), b"\x7e"),
    (Number::Line(128), b"\xff\0"),
    (Number::Line(u32::MAX - 125), b"\x81\x7f"),
    (Number::Line(u32::MAX - 126), b"\x80\x7f"),
    (Number::Line(u32::MAX - 127), b"\xff\x7e"),
    (
        Number::Column(4),
        b"\x84\x80\x80\x80\x80\x80\x80\x80\x80\x80\x80\x80\0",
    ),
    (
        Number::Column(u64::MAX),
        b"\xff\xff\xff\xff\xff\xff\xff\xff\xff\xff\x7f",
    ),
];

/// The opcode of a number.
fn opcode(number: Number) -> u8 {
    match number {
        Number::Column(_) => 5,
        Number::Line(_) => 3,
    }
}

/// What is before the program of the small unit.
const BEFORE_PROGRAM: usize = 33;

/// Appends a unit whose program reads a number and makes a row.
fn put_unit(unit: &mut Octets, opcode: u8, number: &[u8]) -> Result<(), ElfError> {
    unit.extend(SMALL_UNIT.get(..BEFORE_PROGRAM).unwrap_or(&[]))?;
    unit.push(opcode)?;
    unit.extend(number)?;
    // DW_LNS_copy
    unit.push(1)
}

/// Sets the length of a unit of few bytes, which follows its field.
fn set_length(unit: &mut Octets) {
    let length = unit.len().wrapping_sub(4) % 256;
    if let Some(first) = unit.as_mut_slice().first_mut() {
        *first = length as u8;
    }
}

/// The one row of a unit.
fn row_in(alloc: Global, section: &[u8]) -> Option<Row> {
    match unit_at(alloc, section, 0, WIDE.0, WIDE.1) {
        Ok(Some(unit)) if unit.rows.len() == 1 => unit.rows.get(0),
        _ => None,
    }
}

/// The row of a program that reads a number.
fn row_with(alloc: Global, opcode: u8, number: &[u8]) -> Option<Row> {
    let mut unit = Octets::new(alloc);
    if put_unit(&mut unit, opcode, number).is_err() {
        return None;
    }
    set_length(&mut unit);
    row_in(alloc, unit.as_slice())
}

/// Whether a row has a number.
fn has_number(rt: &HostRuntime, row: &Row, number: Number) -> bool {
    match number {
        Number::Column(column) => same(rt, &row.column, &column),
        Number::Line(line) => same(rt, &row.line, &line),
    }
}

/// Whether a number has these bytes.
fn is_read(rt: &HostRuntime, number: Number, bytes: &[u8]) -> bool {
    match row_with(rt.alloc(), opcode(number), bytes) {
        Some(row) => has_number(rt, &row, number),
        None => other(rt, &"no row", "one row"),
    }
}

/// Whether all numbers are read as they should be.
fn numbers_are_read(rt: &HostRuntime, numbers: &[(Number, &[u8])]) -> bool {
    for (n, (number, bytes)) in numbers.iter().enumerate() {
        if !in_row(rt, n, is_read(rt, *number, bytes)) {
            return false;
        }
    }
    true
}

#[test]
fn reads_leb128_of_any_length(rt: HostRuntime) {
    assert!(rt; numbers_are_read(&rt, &NUMBERS));
}
