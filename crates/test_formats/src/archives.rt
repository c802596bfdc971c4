//! Archives as the usual tool writes them, and damaged ones.

use ar_members::{Ar, ArHdr, ArSym};
use elf_outside::reads::read_range;
use elf_outside::{MemSource, Source, Window};
use elf_types::{ElfError, Octets};
use std::alloc::Global;
use test_kit_rows::{failed, in_row, other, same, same_bytes, within};
use test_kit_sources::source;

/// An archive of 290 bytes with a table of symbols at 8, a table of long names at 78, an empty
/// member with a long name at 166, and one of odd size at 226.
const LIBRARY: &[u8] = b"!<arch>\n\
/               1234567890  1000        100644  10        `\n\
\0\0\0\x01\0\0\0\xa6a\0\
//              1234567890  1000        100644  27        `\n\
a_member_with_long_name.o/\n\n\
/0              1234567890  1000        100644  0         `\n\
odd.txt/        1234567890  1000        100644  3         `\n\
abc\n";

/// A member: its place, that of its body, its size and its name.
type Member = (u64, u64, u64, &'static [u8]);

/// The first member of the archive.
const FIRST: Member = (166, 226, 0, b"a_member_with_long_name.o");

/// The second one.
const SECOND: Member = (226, 286, 3, b"odd.txt");

/// The archive over bytes, of which the read of a number fails, or none where that is 0.
fn opened(alloc: Global, bytes: Octets, bad_read: u64) -> Result<Ar<MemSource>, ElfError> {
    match Ar::begin(alloc, source(alloc, bytes, bad_read)?) {
        Ok(archive) => Ok(archive),
        Err((_source, e)) => Err(e),
    }
}

/// The archive of two members.
fn library(alloc: Global, bad_read: u64) -> Result<Ar<MemSource>, ElfError> {
    let bytes = Octets::from_slice(alloc, LIBRARY)?;
    opened(alloc, bytes, bad_read)
}

/// Whether a header has the place, the size and the name of a member.
fn is_placed(rt: &HostRuntime, header: &ArHdr, member: Member) -> bool {
    let (at, body, size, name) = member;
    let stands = same(rt, &header.at, &at)
        && same(rt, &header.body, &body)
        && same(rt, &header.size, &size);
    stands && same_bytes(rt, header.name.as_slice(), name)
}

/// Whether a header has the other numbers of these members.
fn is_owned(rt: &HostRuntime, header: &ArHdr) -> bool {
    let changed = same(rt, &header.date, &1_234_567_890) && same(rt, &header.mode, &0o100644);
    changed && same(rt, &header.uid, &1000) && same(rt, &header.gid, &0)
}

/// Whether the next member is that one.
fn next_is<S: Source>(rt: &HostRuntime, archive: &mut Ar<S>, member: Member) -> bool {
    match archive.next() {
        Ok(Some(header)) => is_placed(rt, &header, member) && is_owned(rt, &header),
        Ok(None) => other(rt, &"the end of the archive", "a member"),
        Err(e) => failed(rt, e),
    }
}

/// Whether there is no member more.
fn is_at_end<S: Source>(rt: &HostRuntime, archive: &mut Ar<S>) -> bool {
    match archive.next() {
        Ok(None) => true,
        Ok(Some(header)) => other(rt, &header.at, "no member more"),
        Err(e) => failed(rt, e),
    }
}

/// Whether both members come, and no more.
fn lists_both<S: Source>(rt: &HostRuntime, archive: &mut Ar<S>) -> bool {
    next_is(rt, archive, FIRST) && next_is(rt, archive, SECOND) && is_at_end(rt, archive)
}

/// What is asked of an archive.
#[derive(Clone, Copy)]
enum Asked {
    /// Whether both members come, and no more.
    Members,
    /// Whether there is one symbol, of the first member.
    Symbol,
    /// Whether the next call is rejected as `Read`, and the one after it gives the first member.
    Waits,
}

/// Whether an archive answers so.
fn answers<S: Source>(rt: &HostRuntime, archive: &mut Ar<S>, asked: Asked) -> bool {
    match asked {
        Asked::Members => lists_both(rt, archive),
        Asked::Symbol => lists_symbol(rt, archive),
        Asked::Waits => waits(rt, archive),
    }
}

/// Whether the archive in memory does, of which the read of a number fails, or none for 0.
fn library_answers(rt: &HostRuntime, bad_read: u64, asked: Asked) -> bool {
    match library(rt.alloc(), bad_read) {
        Ok(mut archive) => answers(rt, &mut archive, asked),
        Err(e) => failed(rt, e),
    }
}

#[test]
fn members_are_listed_with_their_names(rt: HostRuntime) {
    assert!(rt; library_answers(&rt, 0, Asked::Members));
}

/// Whether a symbol is that of the first member.
fn is_symbol(rt: &HostRuntime, symbol: &ArSym) -> bool {
    same(rt, &symbol.at, &166) && same_bytes(rt, symbol.name.as_slice(), b"a".as_slice())
}

/// Whether there is one symbol, of the first member.
fn lists_symbol<S: Source>(rt: &HostRuntime, archive: &mut Ar<S>) -> bool {
    match archive.arsym() {
        Ok(symbols) => same(rt, &symbols.len(), &1)
            && symbols
                .as_slice()
                .first()
                .is_some_and(|symbol| is_symbol(rt, symbol)),
        Err(e) => failed(rt, e),
    }
}

#[test]
fn symbols_are_listed_with_their_members(rt: HostRuntime) {
    assert!(rt; library_answers(&rt, 0, Asked::Symbol));
}

/// Whether a window reads these bytes.
fn reads<S: Source>(rt: &HostRuntime, window: &mut Window<S>, bytes: &[u8]) -> bool {
    let len = window.len();
    match read_range(rt.alloc(), window, 0, len) {
        Ok(read) => same_bytes(rt, read.as_slice(), bytes),
        Err(e) => failed(rt, e),
    }
}

/// The archive, and whether the body of the member at a place is read as these bytes.
fn reads_body<S: Source>(rt: &HostRuntime, archive: Ar<S>, at: u64, bytes: &[u8]) -> (Ar<S>, bool) {
    match archive.member(at) {
        Ok(mut window) => {
            let read = reads(rt, &mut window, bytes);
            (window.into_inner(), read)
        }
        Err((archive, _)) => (archive, false),
    }
}

/// The source, and whether the body of the second member is read between both.
fn reads_between<S: Source>(rt: &HostRuntime, mut archive: Ar<S>) -> (S, bool) {
    let first = next_is(rt, &mut archive, FIRST);
    let (mut archive, read) = reads_body(rt, archive, 226, b"abc");
    let second = next_is(rt, &mut archive, SECOND);
    (archive.end(), first && read && second)
}

/// How many bytes the archive is asked for by that, if it is so.
fn asked_between(rt: &HostRuntime) -> Option<u64> {
    match library(rt.alloc(), 0) {
        Ok(archive) => {
            let (source, read) = reads_between(rt, archive);
            if read { Some(source.asked()) } else { None }
        }
        Err(_) => None,
    }
}

#[test]
fn a_body_is_a_source_and_the_walk_goes_on(rt: HostRuntime) {
    // The first line, four headers of the walk and its long names, and a header and a body besides.
    let due = 8 + 4 * 60 + 27 + 60 + 3;
    assert!(rt; same(&rt, &asked_between(&rt), &Some(due)));
}

/// The place of the bad header at which a walk ends, 0 where it ends well, and 1 where it fails.
fn end_of<S: Source>(archive: &mut Ar<S>) -> u64 {
    for _ in 0..9 {
        match archive.next() {
            Ok(Some(_header)) => {}
            Ok(None) => return 0,
            Err(ElfError::BadMember { at }) => return at,
            Err(_) => return 1,
        }
    }
    1
}

/// Changes a byte, where it is there.
fn change(bytes: &mut [u8], place: usize, byte: u8) {
    if let Some(there) = bytes.get_mut(place) {
        *there = byte;
    }
}

/// The archive with another byte at a place, cut after some bytes.
fn damaged(alloc: Global, damage: Damage) -> Result<Ar<MemSource>, ElfError> {
    let (place, byte, len) = damage;
    let mut bytes = Octets::from_slice(alloc, LIBRARY)?;
    change(bytes.as_mut_slice(), place, byte);
    bytes.truncate(len);
    opened(alloc, bytes, 0)
}

/// A place, the byte there, and the length.
type Damage = (usize, u8, u64);

/// Damages, and the place at which the walk ends. They are the end of a header, its size, its mode,
/// its name, a long name without an end, a header and a body that are cut, and a last pad byte that
/// is.
static DAMAGES: [(Damage, u64); 8] = [
    ((66, 0, 290), 8),
    ((56, b'x', 290), 8),
    ((125, b'z', 290), 78),
    ((167, b'x', 290), 166),
    ((164, b'x', 290), 166),
    ((0, b'!', 285), 226),
    ((0, b'!', 288), 226),
    ((0, b'!', 289), 0),
];

/// Whether the symbols are told.
fn has_symbols<S: Source>(archive: &mut Ar<S>) -> bool {
    archive.arsym().is_ok()
}

/// Whether a walk ends at a place, there again, and has no symbols where that is the first.
fn ends_at<S: Source>(rt: &HostRuntime, archive: &mut Ar<S>, at: u64) -> bool {
    let ended = same(rt, &end_of(archive), &at) && same(rt, &end_of(archive), &at);
    ended && same(rt, &has_symbols(archive), &(at != 8))
}

/// Whether the walk over a damaged archive ends so.
fn is_ended(rt: &HostRuntime, damage: Damage, at: u64) -> bool {
    match damaged(rt.alloc(), damage) {
        Ok(mut archive) => ends_at(rt, &mut archive, at),
        Err(e) => failed(rt, e),
    }
}

/// Whether the walk over each damaged archive ends where it should.
fn are_ended(rt: &HostRuntime, damages: &[(Damage, u64)]) -> bool {
    for (n, (damage, at)) in damages.iter().enumerate() {
        if !in_row(rt, n, is_ended(rt, *damage, *at)) {
            return false;
        }
    }
    true
}

#[test]
fn a_bad_header_ends_the_walk(rt: HostRuntime) {
    assert!(rt; are_ended(&rt, &DAMAGES));
}

/// Texts, and their refusals as archives.
static TEXTS: [(&[u8], Option<ElfError>); 3] = [
    (b"!<arch>", Some(ElfError::Short)),
    (b"!<thin>\n", Some(ElfError::Magic)),
    (b"!<arch>\n", None),
];

/// Whether a text is rejected so as an archive.
fn is_refused(rt: &HostRuntime, text: &[u8], refusal: Option<ElfError>) -> bool {
    match Octets::from_slice(rt.alloc(), text) {
        Ok(bytes) => same(rt, &opened(rt.alloc(), bytes, 0).err(), &refusal),
        Err(e) => failed(rt, e),
    }
}

/// Whether the texts are rejected so.
fn texts_are_refused(rt: &HostRuntime, texts: &[(&[u8], Option<ElfError>)]) -> bool {
    for (n, (text, refusal)) in texts.iter().enumerate() {
        if !in_row(rt, n, is_refused(rt, text, *refusal)) {
            return false;
        }
    }
    true
}

#[test]
fn what_is_no_archive_is_refused(rt: HostRuntime) {
    assert!(rt; texts_are_refused(&rt, &TEXTS));
}

/// Whether the next call is rejected as `Read`, and the one after it gives the first member.
fn waits<S: Source>(rt: &HostRuntime, archive: &mut Ar<S>) -> bool {
    same(rt, &archive.next().err(), &Some(ElfError::Read)) && next_is(rt, archive, FIRST)
}

/// Whether a walk waits where any read of it fails.
fn waits_at_each(rt: &HostRuntime) -> bool {
    // The first line is read, and then two headers, the long names, and the first member's header.
    for bad_read in 2..6 {
        if !within(rt, &bad_read, library_answers(rt, bad_read, Asked::Waits)) {
            return false;
        }
    }
    true
}

#[test]
fn a_failed_read_leaves_the_walk(rt: HostRuntime) {
    assert!(rt; waits_at_each(&rt));
}

#[test]
fn a_failed_first_read_is_named(rt: HostRuntime) {
    assert!(rt; same(&rt, &library(rt.alloc(), 1).err(), &Some(ElfError::Read)));
}

/// Whether an archive is handed back by a read that fails, and its walk is.
fn is_handed_back<S: Source + Drop>(rt: &HostRuntime, archive: Ar<S>) -> bool {
    match archive.member(226) {
        Ok(_) => other(rt, &"a member", "a failed read"),
        Err((mut archive, e)) => same(rt, &e, &ElfError::Read) && next_is(rt, &mut archive, FIRST),
    }
}

/// Whether the archive in memory is handed back so.
fn library_is_handed_back(rt: &HostRuntime) -> bool {
    match library(rt.alloc(), 2) {
        Ok(archive) => is_handed_back(rt, archive),
        Err(e) => failed(rt, e),
    }
}

#[test]
fn a_failed_read_hands_the_archive_back(rt: HostRuntime) {
    assert!(rt; library_is_handed_back(&rt));
}
