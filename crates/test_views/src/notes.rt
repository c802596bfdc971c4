//! Notes in bytes, and in a piece.

use crate::questions::{Question, add_octets, is_answered};
use elf_descriptor::Elf;
use elf_outside::Source;
use elf_types::{DataId, ElfError, Order};
use gelf_view::{NoteAt, note, note_align, note_in};
use test_kit_rows::{in_row, other, same};

/// A note of type 7 with the name `GNU` and a descriptor of one byte.
static ONE_NOTE: [u8; 17] = [4, 0, 0, 0, 1, 0, 0, 0, 7, 0, 0, 0, b'G', b'N', b'U', 0, 9];

/// Where the parts of the note are.
const PARTS: NoteAt = NoteAt {
    ntype: 7,
    name_at: 12,
    namesz: 4,
    desc_at: 16,
    descsz: 1,
    next: 17,
};

/// Places, and the note there.
static CASES: [(u64, Result<Option<NoteAt>, ElfError>); 5] = [
    (0, Ok(Some(PARTS))),
    (5, Err(ElfError::BadChain { at: 5 })),
    (6, Err(ElfError::BadChain { at: 6 })),
    (17, Ok(None)),
    (18, Err(ElfError::BadChain { at: 18 })),
];

/// Whether a note is there.
fn is_note(rt: &HostRuntime, at: u64, want: Result<Option<NoteAt>, ElfError>) -> bool {
    same(rt, &note_in(&ONE_NOTE, at, 4, Order::Least), &want)
}

/// Whether the note at each place is as stated.
fn are_notes(rt: &HostRuntime) -> bool {
    for (n, (at, want)) in CASES.iter().enumerate() {
        if !in_row(rt, n, is_note(rt, *at, *want)) {
            return false;
        }
    }
    true
}

#[test]
fn notes_lie_in_their_piece(rt: HostRuntime) {
    assert!(rt; are_notes(&rt));
}

/// A note of type 1 with a name of five bytes and no descriptor, and the pad to the next note.
static NAME_ALONE: [u8; 24] = [
    0, 0, 0, 5, 0, 0, 0, 0, 0, 0, 0, 1, b'a', b'b', b'c', b'd', 0, 0, 0, 0, 0, 0, 0, 0,
];

/// The alignment of a section, how many of those bytes it has, and where the descriptor and the
/// next note begin.
static ALIGNED: [(u64, usize, u64); 4] = [(1, 24, 20), (8, 24, 24), (8, 20, 20), (4, 17, 17)];

/// Whether descriptor and next note begin at a place.
fn begins_at(rt: &HostRuntime, addralign: u64, bytes: &[u8], place: u64) -> bool {
    match note_in(bytes, 0, note_align(addralign), Order::Greatest) {
        Ok(Some(note)) => same(rt, &note.desc_at, &place) && same(rt, &note.next, &place),
        _ => other(rt, &place, "a note whose description begins there"),
    }
}

/// Whether descriptor and next note begin at a place in so many first bytes.
fn begins_in(rt: &HostRuntime, addralign: u64, size: usize, place: u64) -> bool {
    match NAME_ALONE.get(..size) {
        Some(bytes) => begins_at(rt, addralign, bytes, place),
        None => other(rt, &size, "a size within the bytes"),
    }
}

/// Whether descriptor and next note begin where they should, for each alignment.
fn are_aligned(rt: &HostRuntime) -> bool {
    for (n, (addralign, size, place)) in ALIGNED.iter().enumerate() {
        if !in_row(rt, n, begins_in(rt, *addralign, *size, *place)) {
            return false;
        }
    }
    true
}

#[test]
fn notes_are_aligned_by_their_section(rt: HostRuntime) {
    assert!(rt; are_aligned(&rt));
}

/// A note of type 3 with the name `GNU` and a descriptor of four bytes.
const NOTE: &[u8] = b"\x04\0\0\0\x04\0\0\0\x03\0\0\0GNU\0\x01\x02\x03\x04";

/// The note without its last byte.
const CUT: &[u8] = b"\x04\0\0\0\x04\0\0\0\x03\0\0\0GNU\0\x01\x02\x03";

/// The note with the greatest length of a name.
const LONG_NAME: &[u8] = b"\xff\xff\xff\xff\x04\0\0\0\x03\0\0\0GNU\0\x01\x02\x03\x04";

/// The note at a place of a piece.
fn note_at<S: Source>(elf: &mut Elf<S>, d: DataId, at: u64) -> Result<Option<NoteAt>, ElfError> {
    note(elf, d, at)
}

/// The type of the first note, and whether no other comes after it.
fn one_note<S: Source>(elf: &mut Elf<S>, d: DataId) -> Result<(u32, bool), ElfError> {
    match note_at(elf, d, 0)? {
        Some(first) => {
            let next = note_at(elf, d, first.next)?;
            Ok((first.ntype, next.is_none()))
        }
        None => Ok((0, true)),
    }
}

/// The type of the first note in a piece of these bytes, and whether no other comes after it.
fn one_note_of<S: Source>(elf: &mut Elf<S>, bytes: &[u8]) -> Result<(u32, bool), ElfError> {
    let d = add_octets(elf, bytes)?;
    one_note(elf, d)
}

/// A note is walked to its end, and one that is a byte shorter is rejected, and so is one whose
/// name passes the end.
struct Walk;

impl Question for Walk {
    fn is_answered<S: Source>(&self, rt: &HostRuntime, elf: &mut Elf<S>) -> bool {
        same(rt, &one_note_of(elf, NOTE), &Ok((3, true)))
            && same(
                rt,
                &one_note_of(elf, CUT),
                &Err(ElfError::BadChain { at: 0 }),
            )
            && same(
                rt,
                &one_note_of(elf, LONG_NAME),
                &Err(ElfError::BadChain { at: 0 }),
            )
    }
}

#[test]
fn notes_end_with_their_piece(rt: HostRuntime) {
    assert!(rt; is_answered(&rt, &Walk));
}
