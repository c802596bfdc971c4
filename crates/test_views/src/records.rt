//! Version records of a few bytes.

use elf_types::{ElfError, Order};
use gelf_view::{Verdaux, Verdef, Vernaux, Verneed, verdaux_in, verdef_in, vernaux_in, verneed_in};
use test_kit_rows::{in_row, same};

/// Bytes that tell their places, so that each number shows where it was read.
static PLACES: [u8; 24] = [
    0, 1, 2, 3, 4, 5, 6, 7, 8, 9, 10, 11, 12, 13, 14, 15, 16, 17, 18, 19, 20, 21, 22, 23,
];

/// The definition at 0, the least byte first.
const LEAST: Verdef = Verdef {
    version: 0x0100,
    flags: 0x0302,
    ndx: 0x0504,
    cnt: 0x0706,
    hash: 0x0b0a_0908,
    aux: 0x0f0e_0d0c,
    next: 0x1312_1110,
};

/// The definition at 4, the greatest byte first.
const GREATEST: Verdef = Verdef {
    version: 0x0405,
    flags: 0x0607,
    ndx: 0x0809,
    cnt: 0x0a0b,
    hash: 0x0c0d_0e0f,
    aux: 0x1011_1213,
    next: 0x1415_1617,
};

/// Places, orders, and the definition there.
static DEFINITIONS: [(u64, Order, Result<Verdef, ElfError>); 4] = [
    (0, Order::Least, Ok(LEAST)),
    (4, Order::Greatest, Ok(GREATEST)),
    (5, Order::Least, Err(ElfError::BadChain { at: 5 })),
    (
        u64::MAX,
        Order::Least,
        Err(ElfError::BadChain { at: u64::MAX }),
    ),
];

/// Whether a definition is there.
fn is_definition(rt: &HostRuntime, at: u64, order: Order, want: Result<Verdef, ElfError>) -> bool {
    same(rt, &verdef_in(&PLACES, at, order), &want)
}

/// Whether the definition at each place is as stated.
fn are_definitions(rt: &HostRuntime) -> bool {
    for (n, (at, order, want)) in DEFINITIONS.iter().enumerate() {
        if !in_row(rt, n, is_definition(rt, *at, *order, *want)) {
            return false;
        }
    }
    true
}

#[test]
fn version_definitions_are_read(rt: HostRuntime) {
    assert!(rt; are_definitions(&rt));
}

/// The name of a definition at 16, the least byte first.
const NAME: Verdaux = Verdaux {
    name: 0x1312_1110,
    next: 0x1716_1514,
};

/// The file of a need at 8, the greatest byte first.
const FILE: Verneed = Verneed {
    version: 0x0809,
    cnt: 0x0a0b,
    file: 0x0c0d_0e0f,
    aux: 0x1011_1213,
    next: 0x1415_1617,
};

/// A version of a need there.
const VERSION: Vernaux = Vernaux {
    hash: 0x0809_0a0b,
    flags: 0x0c0d,
    other: 0x0e0f,
    name: 0x1011_1213,
    next: 0x1415_1617,
};

/// Whether a name is at a place.
fn is_name(rt: &HostRuntime, at: u64, want: Result<Verdaux, ElfError>) -> bool {
    same(rt, &verdaux_in(&PLACES, at, Order::Least), &want)
}

/// Whether a file is at a place.
fn is_file(rt: &HostRuntime, at: u64, want: Result<Verneed, ElfError>) -> bool {
    same(rt, &verneed_in(&PLACES, at, Order::Greatest), &want)
}

/// Whether a version is at a place.
fn is_version(rt: &HostRuntime, at: u64, want: Result<Vernaux, ElfError>) -> bool {
    same(rt, &vernaux_in(&PLACES, at, Order::Greatest), &want)
}

/// Whether a name, a file and a version are read, and none that passes the end.
fn are_read(rt: &HostRuntime) -> bool {
    is_name(rt, 16, Ok(NAME))
        && is_name(rt, 17, Err(ElfError::BadChain { at: 17 }))
        && is_file(rt, 8, Ok(FILE))
        && is_file(rt, 9, Err(ElfError::BadChain { at: 9 }))
        && is_version(rt, 8, Ok(VERSION))
}

#[test]
fn names_and_needs_are_read(rt: HostRuntime) {
    assert!(rt; are_read(&rt));
}
