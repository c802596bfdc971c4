//! Strings in bytes, and in the pieces of a section.

use crate::questions::{Question, STRINGS, add_octets, is_answered, is_answered_of, set};
use elf_descriptor::Elf;
use elf_outside::Source;
use elf_types::{DataId, ElfError, Octets, ScnId};
use elf_xlate::Items;
use gelf_view::{bytes, is_called, is_string_at, short_string, string_from, string_in, strptr};
use test_kit_images::{Content, OBJECT, Put, Recipe};
use test_kit_rows::{failed, holds, in_row, same};

/// Bytes, and the string that they begin with, if they end it.
static CASES: [(&[u8], Option<&[u8]>); 4] = [
    (b"ab\0c\0", Some(b"ab")),
    (b"\0ab", Some(b"")),
    (b"ab", None),
    (b"", None),
];

/// Whether bytes begin with their string.
fn begin_with(rt: &HostRuntime, bytes: &[u8], string: Option<&[u8]>) -> bool {
    same(rt, &string_in(bytes), &string) && same(rt, &string_from(bytes, 0), &string)
}

/// Whether the bytes of each case begin with their string.
fn all_begin(rt: &HostRuntime) -> bool {
    for (n, (bytes, string)) in CASES.iter().enumerate() {
        if !in_row(rt, n, begin_with(rt, bytes, *string)) {
            return false;
        }
    }
    true
}

#[test]
fn strings_end_before_their_nul(rt: HostRuntime) {
    assert!(rt; all_begin(&rt));
}

/// Bytes, how long a string may be, and the one that they begin with, if it ends in them and is no
/// longer.
static SHORT: [(&[u8], usize, Option<&[u8]>); 6] = [
    (b"ab\0c", 3, Some(b"ab")),
    (b"ab\0c", 2, Some(b"ab")),
    (b"ab\0c", 1, None),
    (b"\0ab", 0, Some(b"")),
    (b"ab", 2, None),
    (b"", 0, None),
];

/// Whether the bytes of each row begin with their short string.
fn all_begin_short(rt: &HostRuntime) -> bool {
    for (n, (bytes, longest, string)) in SHORT.iter().enumerate() {
        if !in_row(rt, n, same(rt, &short_string(bytes, *longest), string)) {
            return false;
        }
    }
    true
}

#[test]
fn longer_strings_are_none(rt: HostRuntime) {
    assert!(rt; all_begin_short(&rt));
}

/// Bytes, a place of them, a name, and whether it begins there.
static NAMES: [(&[u8], u64, &[u8], bool); 8] = [
    (b"\0ab\0", 1, b"ab", true),
    (b"\0ab\0", 2, b"b", true),
    (b"\0ab\0", 1, b"a", false),
    (b"\0ab\0", 1, b"abc", false),
    (b"\0ab\0", 3, b"", true),
    (b"\0ab\0", 4, b"", false),
    (b"\0ab\0", 9, b"", false),
    (b"\0ab", 1, b"ab", false),
];

/// Whether each name begins where it is told to, and no other.
fn all_are_at(rt: &HostRuntime) -> bool {
    for (n, (bytes, place, name, there)) in NAMES.iter().enumerate() {
        if !in_row(rt, n, same(rt, &is_string_at(bytes, *place, name), there)) {
            return false;
        }
    }
    true
}

#[test]
fn a_name_at_a_place_ends_there_too(rt: HostRuntime) {
    assert!(rt; all_are_at(&rt));
}

/// Whether a name is called by itself alone, and none by nothing.
fn are_called() -> bool {
    is_called(Some(b"ab"), b"ab") && !is_called(Some(b"ab"), b"a") && !is_called(None, b"")
}

#[test]
fn what_has_no_name_is_not_called_the_empty_one(rt: HostRuntime) {
    assert!(rt; are_called());
}

/// Section 1 has two pieces, the second of which has one byte, which is no NUL.
struct TwoPieces;

/// A section, an offset in it, and the string there or its refusal.
static PLACES: [(u32, u64, Result<&[u8], ElfError>); 5] = [
    (1, 1, Ok(b"a")),
    (1, 4, Err(ElfError::NoString { offset: 4, size: 9 })),
    (1, 8, Err(ElfError::Unended { offset: 8 })),
    (2, 0, Err(ElfError::NotStrings { section: 2 })),
    (9, 0, Err(ElfError::NoSection { index: 9, count: 3 })),
];

/// Whether the string at an offset of a section is answered so.
fn is_string<S: Source>(
    rt: &HostRuntime,
    elf: &mut Elf<S>,
    section: u32,
    offset: u64,
    want: Result<&[u8], ElfError>,
) -> bool {
    same(rt, &strptr(elf, ScnId(section), offset), &want)
}

/// Whether each of these strings is answered so.
fn are_strings<S: Source>(
    rt: &HostRuntime,
    elf: &mut Elf<S>,
    places: &[(u32, u64, Result<&[u8], ElfError>)],
) -> bool {
    for (n, (section, offset, want)) in places.iter().enumerate() {
        if !in_row(rt, n, is_string(rt, elf, *section, *offset, *want)) {
            return false;
        }
    }
    true
}

/// Whether the bytes of the first piece are these.
fn first_is<S: Source>(rt: &HostRuntime, elf: &mut Elf<S>, want: &[u8]) -> bool {
    match bytes(elf, STRINGS) {
        Ok(found) => same(rt, &found, &want),
        Err(e) => failed(rt, e),
    }
}

impl Question for TwoPieces {
    fn is_answered<S: Source>(&self, rt: &HostRuntime, elf: &mut Elf<S>) -> bool {
        holds(rt, "a piece is added", add_octets(elf, b"b").is_ok())
            && first_is(rt, elf, b"\0a\0")
            && are_strings(rt, elf, &PLACES)
    }
}

#[test]
fn strings_stand_in_their_pieces(rt: HostRuntime) {
    assert!(rt; is_answered(&rt, &TwoPieces));
}

/// Section 1 has 600 pieces more of three bytes, each at a multiple of eight; then one in their
/// midst gets eleven bytes, so that those after it are eight places later.
struct ManyPieces;

/// Offsets among 600 pieces, and the strings there.
static EARLY: [(u32, u64, Result<&[u8], ElfError>); 6] = [
    (1, 8, Ok(b"bc")),
    (
        1,
        11,
        Err(ElfError::NoString {
            offset: 11,
            size: 4803,
        }),
    ),
    (1, 2401, Ok(b"c")),
    (1, 2408, Ok(b"bc")),
    (1, 4800, Ok(b"bc")),
    (
        1,
        4808,
        Err(ElfError::NoString {
            offset: 4808,
            size: 4803,
        }),
    ),
];

/// Offsets once piece 300 is longer.
static LATE: [(u32, u64, Result<&[u8], ElfError>); 6] = [
    (1, 8, Ok(b"bc")),
    (1, 2401, Ok(b"123456789")),
    (1, 2408, Ok(b"89")),
    (
        1,
        2412,
        Err(ElfError::NoString {
            offset: 2412,
            size: 4811,
        }),
    ),
    (1, 4808, Ok(b"bc")),
    (
        1,
        4811,
        Err(ElfError::NoString {
            offset: 4811,
            size: 4811,
        }),
    ),
];

/// Adds so many pieces.
fn add_many<S: Source>(elf: &mut Elf<S>, count: u32) -> Result<(), ElfError> {
    for _number in 0..count {
        add_octets(elf, b"bc\0")?;
    }
    Ok(())
}

/// Gives piece 300 eleven bytes.
fn lengthen<S: Source>(elf: &mut Elf<S>) -> Result<(), ElfError> {
    let octets = Octets::from_slice(elf.alloc(), b"0123456789\0")?;
    let d = DataId {
        section: 1,
        piece: 300,
    };
    set(elf, d, Items::Bytes(octets))
}

impl Question for ManyPieces {
    fn is_answered<S: Source>(&self, rt: &HostRuntime, elf: &mut Elf<S>) -> bool {
        same(rt, &add_many(elf, 600), &Ok(()))
            && are_strings(rt, elf, &EARLY)
            && same(rt, &lengthen(elf), &Ok(()))
            && are_strings(rt, elf, &LATE)
    }
}

#[test]
fn strings_stand_in_many_pieces_as_they_are_by_now(rt: HostRuntime) {
    assert!(rt; is_answered(&rt, &ManyPieces));
}

/// The object whose strings end with two bytes after their last NUL.
static OPEN_END: Recipe = Recipe {
    puts: &[Put::Home(1, Content::Bytes(b"\0a\0bc"))],
    ..OBJECT
};

/// The section of strings of that object, which is then given other bytes, of which the last NUL is
/// elsewhere.
struct OpenEnd;

/// Offsets in what the image holds, and the strings there.
static IN_HOME: [(u32, u64, Result<&[u8], ElfError>); 6] = [
    (1, 1, Ok(b"a")),
    (1, 3, Err(ElfError::Unended { offset: 3 })),
    (1, 4, Err(ElfError::Unended { offset: 4 })),
    (1, 5, Err(ElfError::NoString { offset: 5, size: 5 })),
    (1, 2, Ok(b"")),
    (1, 0, Ok(b"")),
];

/// Offsets in the bytes that it is given, and the strings there.
static IN_OWN: [(u32, u64, Result<&[u8], ElfError>); 3] = [
    (1, 3, Ok(b"yz")),
    (1, 1, Ok(b"xxyz")),
    (1, 6, Err(ElfError::Unended { offset: 6 })),
];

/// Gives the first piece other bytes.
fn replace_strings<S: Source>(elf: &mut Elf<S>) -> Result<(), ElfError> {
    let octets = Octets::from_slice(elf.alloc(), b"\0xxyz\0w")?;
    set(elf, STRINGS, Items::Bytes(octets))
}

impl Question for OpenEnd {
    fn is_answered<S: Source>(&self, rt: &HostRuntime, elf: &mut Elf<S>) -> bool {
        are_strings(rt, elf, &IN_HOME)
            && same(rt, &replace_strings(elf), &Ok(()))
            && are_strings(rt, elf, &IN_OWN)
    }
}

#[test]
fn strings_behind_the_last_nul_are_unended(rt: HostRuntime) {
    assert!(rt; is_answered_of(&rt, &OpenEnd, &OPEN_END));
}
