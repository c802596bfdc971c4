//! Names that are in an older table, and bytes that share a text.

use elf_types::ElfError;
use std::alloc::Global;
use strtab_shared::SharedStrings;
use strtab_shared::bytes::SharedBytes;
use test_kit_rows::{failed, holds, same, same_bytes, within};

/// An older table, whose names end at one NUL.
const OLD: &[u8] = b"\0aaab\0";

/// Puts bytes of ranges of a text: the ends of `abcd`, the longest first, and two that are held.
fn put_ends(bytes: &mut SharedBytes) -> Result<(), ElfError> {
    bytes.hold(b"abcd")?;
    bytes.extend_near(b"abcd", 0)?;
    bytes.extend_near(b"bcd", 1)?;
    bytes.extend(b"--")?;
    bytes.extend_near(b"cd", 2)?;
    bytes.extend_near(b"d", 3)
}

/// These bytes.
fn ends(alloc: Global) -> Result<SharedBytes, ElfError> {
    let mut bytes = SharedBytes::new(alloc);
    match put_ends(&mut bytes) {
        Ok(()) => Ok(bytes),
        Err(e) => Err(e),
    }
}

/// The bytes that the shared ones are.
const ENDS: &[u8] = b"abcdbcd--cdd";

/// Whether so many bytes from a place on, or those that are there, are copied as these.
fn is_copied(rt: &HostRuntime, bytes: &SharedBytes, at: u64, len: u64, wanted: &[u8]) -> bool {
    match bytes.octets_at(rt.alloc(), at, len) {
        Ok(copy) => same_bytes(rt, copy.as_slice(), wanted),
        Err(e) => failed(rt, e),
    }
}

/// Whether the bytes from each place on are copied and compared.
fn are_copied(rt: &HostRuntime, bytes: &SharedBytes) -> bool {
    for at in 0..12 {
        let rest = &ENDS[at..];
        let mut so = is_copied(rt, bytes, at as u64, 12, rest);
        if bytes.len() == 12 {
            so &= holds(rt, "the bytes are there", bytes.has_at(at as u64, rest));
        }
        if !within(rt, &at, so) {
            return false;
        }
    }
    true
}

/// Whether each range of them is copied and compared.
fn is_each_copied(rt: &HostRuntime) -> bool {
    match ends(rt.alloc()) {
        Ok(bytes) => {
            same(rt, &bytes.len(), &12)
                && is_copied(rt, &bytes, 11, 9, b"d")
                && are_copied(rt, &bytes)
        }
        Err(e) => failed(rt, e),
    }
}

/// Whether the text of some of them is told, and the place of one of them in the text.
fn is_text_told(alloc: Global) -> Result<bool, ElfError> {
    let bytes = ends(alloc)?;
    let (at, text) = bytes.text_of(3, 5);
    Ok(at == 1 && text == b"bcd-".as_slice() && bytes.text_place(10) == 3)
}

/// Whether shared bytes are those of a table.
pub fn is_shared(rt: &HostRuntime, bytes: &SharedBytes, table: &[u8]) -> bool {
    match bytes.to_octets(rt.alloc()) {
        Ok(bytes) => same_bytes(rt, bytes.as_slice(), table),
        Err(e) => failed(rt, e),
    }
}

/// Whether the table of names is that one.
fn is_finished_as(rt: &HostRuntime, strings: SharedStrings, table: &[u8]) -> bool {
    match strings.finish() {
        Ok(bytes) => is_shared(rt, &bytes, table),
        Err(e) => failed(rt, e),
    }
}

/// Whether names get their places beside an older table. The first three are in it, the others are
/// not; one is there already, and one is empty. Each has the place at which it is looked for in the
/// older table, and its place in the new one.
fn are_placed(rt: &HostRuntime, strings: &mut SharedStrings) -> bool {
    let uses: [(&[u8], u64, u32); 7] = [
        (b"aaab", 1, 1),
        (b"aab", 2, 6),
        (b"ab", 3, 10),
        (b"xy", 1, 13),
        (b"ab", 900, 10),
        (b"", 0, 0),
        (b"b", 1, 16),
    ];
    for (name, near, place) in uses {
        let added = strings.add(name, near);
        if !within(rt, &near, same(rt, &added, &Ok(place))) {
            return false;
        }
    }
    true
}

/// Whether they do where the older table is held first, and what the new one is.
fn is_table_made(rt: &HostRuntime) -> bool {
    let mut strings = SharedStrings::new(rt.alloc());
    let placed = same(rt, &strings.hold(OLD), &Ok(())) && are_placed(rt, &mut strings);
    placed & is_finished_as(rt, strings, b"\0aaab\0aab\0ab\0xy\0b\0")
}

#[test]
fn names_of_an_older_table_make_a_new_one(rt: HostRuntime) {
    assert!(rt; is_table_made(&rt));
}

/// Whether names get their places where the older table is held late: after the second of them,
/// since the new one is then as long.
fn are_placed_late(rt: &HostRuntime, strings: &mut SharedStrings) -> bool {
    let uses: [(&[u8], u64, u32); 4] = [
        (b"aaab", 1, 1),
        (b"aab", 2, 6),
        (b"ab", 3, 10),
        (b"b", 4, 13),
    ];
    for (name, near, place) in uses {
        if let Err(e) = strings.hold_late(OLD) {
            return failed(rt, e);
        }
        let added = strings.add(name, near);
        if !within(rt, &near, same(rt, &added, &Ok(place))) {
            return false;
        }
    }
    true
}

/// Whether they do, and what the new table is.
fn is_late_table_made(rt: &HostRuntime) -> bool {
    let mut strings = SharedStrings::new(rt.alloc());
    let placed = are_placed_late(rt, &mut strings);
    placed & is_finished_as(rt, strings, b"\0aaab\0aab\0ab\0b\0")
}

#[test]
fn an_older_table_is_held_late(rt: HostRuntime) {
    assert!(rt; is_late_table_made(&rt));
}

/// Whether names get their places where the hash of each is 0: the first is found by it, and the
/// others by their SHA-256.
fn are_told_apart(rt: &HostRuntime, strings: &mut SharedStrings) -> bool {
    let uses: [(&[u8], u32); 6] = [
        (b"\xe3\x08\xa3\x85\x88\x6a\x3f\x24 first..", 1),
        (b"\xe3\x08\xa3\x85\x88\x6a\x3f\x24 second.", 18),
        (b"\xe3\x08\xa3\x85\x88\x6a\x3f\x24 third..", 35),
        (b"\xe3\x08\xa3\x85\x88\x6a\x3f\x24 second.", 18),
        (b"\xe3\x08\xa3\x85\x88\x6a\x3f\x24 third..", 35),
        (b"\xe3\x08\xa3\x85\x88\x6a\x3f\x24 first..", 1),
    ];
    for (name, place) in uses {
        if !same(rt, &strings.add(name, 0), &Ok(place)) {
            return false;
        }
    }
    true
}

/// Whether the table of names has so many bytes.
fn has_length(rt: &HostRuntime, strings: SharedStrings, len: u64) -> bool {
    match strings.finish() {
        Ok(bytes) => same(rt, &bytes.len(), &len),
        Err(e) => failed(rt, e),
    }
}

/// Whether they do, and how long the table is.
fn is_long_table_made(rt: &HostRuntime) -> bool {
    let mut strings = SharedStrings::new(rt.alloc());
    let placed = are_told_apart(rt, &mut strings);
    placed & has_length(rt, strings, 52)
}

#[test]
fn names_of_one_hash_are_told_apart(rt: HostRuntime) {
    assert!(rt; is_long_table_made(&rt));
}

#[test]
fn shared_bytes_are_copied_from_each_place_on(rt: HostRuntime) {
    assert!(rt; is_each_copied(&rt));
    assert!(rt; same(&rt, &is_text_told(rt.alloc()), &Ok(true)));
}
