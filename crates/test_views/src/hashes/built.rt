//! Names are found through the hash sections that are built.

use crate::hashes::images::{
    GNU, Question, SORTED, SYMBOLS, SYSV, bytes_requested, first_piece, is_answered,
};
use elf_descriptor::Elf;
use elf_outside::Source;
use elf_types::{ElfError, Octets, ScnId, Words};
use elf_xlate::Items;
use hash_build::{GnuShape, build_gnu, build_sysv, gnu_order};
use symbol_lookup::{find_gnu, find_sysv};
use test_kit_images::{NARROW, WIDE};
use test_kit_rows::{failed, in_row, in_step, same};

/// Gives a section other items.
fn replace<S: Source>(elf: &mut Elf<S>, s: ScnId, items: Items) -> Result<(), ElfError> {
    match elf.replace(first_piece(s), items) {
        Ok(()) => Ok(()),
        Err((_, e)) => Err(e),
    }
}

/// Numbers of buckets and of bloom words that are 0, and a shift past the hash.
const NO_SHAPE: ElfError = ElfError::NoEntry { index: 0, count: 0 };

/// Builds both sections, the one with so many buckets and the other of a shape.
fn build<S: Source>(
    elf: &mut Elf<S>,
    nbucket: u32,
    shape: GnuShape,
) -> Result<(Words, Octets), ElfError> {
    if nbucket == 0 || shape.nbuckets == 0 || shape.bloom == 0 || shape.shift >= 32 {
        return Err(NO_SHAPE);
    }
    let words = build_sysv(elf, SYMBOLS, nbucket)?;
    let bytes = build_gnu(elf, SYMBOLS, shape)?;
    Ok((words, bytes))
}

/// Puts them in place of the sections that are there.
fn rebuild<S: Source>(elf: &mut Elf<S>, nbucket: u32, shape: GnuShape) -> Result<(), ElfError> {
    let (words, bytes) = build(elf, nbucket, shape)?;
    replace(elf, SYSV, Items::Word(words))?;
    replace(elf, GNU, Items::Bytes(bytes))
}

/// The names, and the symbols that they find.
static NAMES: [(&[u8], Option<u64>); 8] = [
    (b"a", Some(6)),
    (b"printf", Some(7)),
    (b"exit", Some(8)),
    (b"b", Some(9)),
    (b"hidden", None),
    (b"missing", None),
    (b"tail", None),
    (b"", None),
];

/// Whether each name finds its symbol through either section.
fn are_found<S: Source>(rt: &HostRuntime, elf: &mut Elf<S>) -> bool {
    for (n, row) in NAMES.iter().enumerate() {
        let found = same(rt, &find_sysv(elf, SYSV, row.0), &Ok(row.1))
            && same(rt, &find_gnu(elf, GNU, row.0), &Ok(row.1));
        if !in_step(rt, n, found) {
            return false;
        }
    }
    true
}

/// Numbers of buckets and shapes for which the symbols are in order.
static SHAPES: [(u32, GnuShape); 4] = [
    (
        1,
        GnuShape {
            nbuckets: 2,
            bloom: 1,
            shift: 6,
        },
    ),
    (
        3,
        GnuShape {
            nbuckets: 2,
            bloom: 7,
            shift: 0,
        },
    ),
    (
        100,
        GnuShape {
            nbuckets: 1,
            bloom: 3,
            shift: 31,
        },
    ),
    (
        7,
        GnuShape {
            nbuckets: 2,
            bloom: 4096,
            shift: 5,
        },
    ),
];

/// The sections of each shape find each name.
struct Found;

impl Question for Found {
    fn is_answered<S: Source>(&self, rt: &HostRuntime, elf: &mut Elf<S>) -> bool {
        for (n, row) in SHAPES.iter().enumerate() {
            let found = same(rt, &rebuild(elf, row.0, row.1), &Ok(())) && are_found(rt, elf);
            if !in_row(rt, n, found) {
                return false;
            }
        }
        true
    }
}

#[test]
fn each_name_is_found_through_what_is_built(rt: HostRuntime) {
    assert!(rt; is_answered(&rt, &Found, WIDE, &SORTED));
    assert!(rt; is_answered(&rt, &Found, NARROW, &SORTED));
}

/// Both are built twice, and the order is asked for.
struct Twice;

impl Question for Twice {
    fn is_answered<S: Source>(&self, rt: &HostRuntime, elf: &mut Elf<S>) -> bool {
        for row in SHAPES.iter() {
            if let Err(e) = build(elf, row.0, row.1) {
                return failed(rt, e);
            }
        }
        match gnu_order(elf, SYMBOLS, 1) {
            Ok(_) => true,
            Err(e) => failed(rt, e),
        }
    }
}

/// The bytes of the front, of the symbols and of the strings.
const ONCE: u64 = 64 + 5 * 64 + 10 * 24 + 36;

#[test]
fn the_table_and_its_strings_are_read_once(rt: HostRuntime) {
    let requested = bytes_requested(&rt, &Twice, WIDE, &SORTED);
    assert!(rt; same(&rt, &requested, &Some(ONCE)));
}
