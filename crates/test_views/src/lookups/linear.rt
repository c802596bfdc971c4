//! Looking a symbol up among all symbols.

use crate::lookups::questions::{Hashes, Question, is_answered};
use elf_descriptor::Elf;
use elf_outside::Source;
use elf_types::{ElfError, Kind, ScnId};
use symbol_lookup::find_linear;
use test_kit_images::{NARROW, WIDE};
use test_kit_rows::{in_row, same, within};

/// A section, a name, and what the name finds there.
type Row = (u32, &'static [u8], Result<Option<u64>, ElfError>);

/// Of two symbols with a name the first is found. A local one, an undefined one, the empty name, a
/// part of a name and names that have no end or are in no string are not.
static ROWS: [Row; 10] = [
    (2, b"printf", Ok(Some(5))),
    (2, b"hidden", Ok(None)),
    (2, b"missing", Ok(None)),
    (2, b"", Ok(None)),
    (2, b"print", Ok(None)),
    (2, b"printf\0exit", Ok(None)),
    (2, b"tail", Ok(None)),
    (2, b"absent", Ok(None)),
    (1, b"printf", Err(ElfError::WrongKind { held: Kind::Bytes })),
    (
        9,
        b"printf",
        Err(ElfError::NoSection { index: 9, count: 5 }),
    ),
];

/// Hash sections that are empty.
const NO_HASHES: Hashes = Hashes {
    sysv: &[],
    head: [0; 4],
    bloom: 0,
    rest: &[],
    size: 0,
};

/// Whether a row is as it is found.
fn is_found<S: Source>(rt: &HostRuntime, elf: &mut Elf<S>, row: &Row) -> bool {
    same(rt, &find_linear(elf, ScnId(row.0), row.1), &row.2)
}

/// Whether all rows are as they are found.
fn are_found<S: Source>(rt: &HostRuntime, elf: &mut Elf<S>, rows: &[Row]) -> bool {
    for (n, row) in rows.iter().enumerate() {
        if !in_row(rt, n, is_found(rt, elf, row)) {
            return false;
        }
    }
    true
}

/// All rows are as they are found.
struct AllFound;

impl Question for AllFound {
    fn hashes(&self) -> Hashes {
        NO_HASHES
    }

    fn is_answered<S: Source>(&self, rt: &HostRuntime, elf: &mut Elf<S>) -> bool {
        are_found(rt, elf, &ROWS)
    }
}

/// Whether the symbols are found in both classes and orders.
fn are_all_found(rt: &HostRuntime) -> bool {
    within(rt, &WIDE, is_answered(rt, &AllFound, WIDE))
        && within(rt, &NARROW, is_answered(rt, &AllFound, NARROW))
}

#[test]
fn the_least_symbol_is_found(rt: HostRuntime) {
    assert!(rt; are_all_found(&rt));
}
