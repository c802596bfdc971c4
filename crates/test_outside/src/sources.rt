//! Sources in memory, and reads whose failure is an error.

use crate::steps::{Read, reads_all};
use elf_outside::reads::{read_array, read_range};
use elf_outside::{MemSource, Source};
use elf_types::{Addrs, ElfError, Octets};
use std::alloc::Global;
use test_kit_rows::{failed, other, same, same_bytes};

/// A source of these bytes, of which the reads of these numbers fail.
pub fn failing_source(
    alloc: Global,
    bytes: &[u8],
    bad_reads: &[u64],
) -> Result<MemSource, ElfError> {
    let bytes = Octets::from_slice(alloc, bytes)?;
    let bad_reads = Addrs::from_slice(alloc, bad_reads)?;
    Ok(MemSource::new(bytes, bad_reads))
}

/// Reads of four bytes, of which the second and the fourth are to fail.
static NAMED: [Read; 5] = [
    (0, 2, Some(b"ab")),
    (1, 2, None),
    (1, 2, Some(b"bc")),
    (0, 4, None),
    (4, 0, Some(b"")),
];

/// Empty reads at each place of four bytes.
static EMPTY: [Read; 5] = [
    (0, 0, Some(b"")),
    (1, 0, Some(b"")),
    (2, 0, Some(b"")),
    (3, 0, Some(b"")),
    (4, 0, Some(b"")),
];

/// Whether reads of four bytes are answered so, ask for so much and leave the bytes.
fn reads_are_answered(rt: &HostRuntime, bad_reads: &[u64], rows: &[Read], asked: u64) -> bool {
    match failing_source(rt.alloc(), b"abcd", bad_reads) {
        Ok(mut source) => {
            let stated = ask_for(rt, &mut source, rows, asked);
            same_bytes(rt, source.into_bytes().as_slice(), b"abcd".as_slice()) && stated
        }
        Err(e) => failed(rt, e),
    }
}

/// Whether reads are answered so, and ask for so much.
fn ask_for(rt: &HostRuntime, source: &mut MemSource, rows: &[Read], asked: u64) -> bool {
    reads_all(rt, source, rows) && same(rt, &source.asked(), &asked)
}

#[test]
fn reads_with_the_listed_numbers_fail(rt: HostRuntime) {
    assert!(rt; reads_are_answered(&rt, &[2, 4], &NAMED, 10));
}

#[test]
fn no_read_fails_where_none_is_listed(rt: HostRuntime) {
    assert!(rt; reads_are_answered(&rt, &[], &EMPTY, 0));
}

/// The first four bytes, where the source has six.
fn first_four<S: Source>(source: &mut S) -> Result<[u8; 4], ElfError> {
    if source.len() != 6 {
        return Err(ElfError::Short);
    }
    read_array(source, 0)
}

/// Whether a range of a source with six bytes is read, or rejected, so.
fn is_range<S: Source>(
    rt: &HostRuntime,
    source: &mut S,
    at: u64,
    len: u64,
    wanted: Result<&[u8], ElfError>,
) -> bool {
    if source.len() != 6 || 0 < len && (at > 6 || len > 6 - at) {
        return false;
    }
    match (read_range(rt.alloc(), source, at, len), wanted) {
        (Ok(bytes), Ok(wanted)) => same_bytes(rt, bytes.as_slice(), wanted),
        (Err(e), Err(wanted)) => same(rt, &e, &wanted),
        (Ok(_), Err(_)) => other(rt, &at, "a range that is refused"),
        (Err(e), Ok(_)) => failed(rt, e),
    }
}

/// Whether the ranges of six bytes are read whole; an empty one may be anywhere.
fn ranges_are_read<S: Source>(rt: &HostRuntime, source: &mut S) -> bool {
    let mut stated = same(rt, &first_four(source), &Ok(*b"abcd"));
    stated &= is_range(rt, source, 2, 4, Ok(b"cdef"));
    stated && is_range(rt, source, 99, 0, Ok(b""))
}

/// Whether the reads of those ranges are answered so, and ask for eight bytes; or the read of one
/// fails, and is rejected.
fn is_asked(rt: &HostRuntime, source: &mut MemSource, fails: bool) -> bool {
    if fails {
        return is_range(rt, source, 0, 6, Err(ElfError::Read));
    }
    ranges_are_read(rt, source) && same(rt, &source.asked(), &8)
}

/// Whether the reads are answered so over a source of six bytes, of which the first read fails or
/// none does.
fn six_are_asked(rt: &HostRuntime, bad_reads: &[u64], fails: bool) -> bool {
    match failing_source(rt.alloc(), b"abcdef", bad_reads) {
        Ok(mut source) => is_asked(rt, &mut source, fails),
        Err(e) => failed(rt, e),
    }
}

#[test]
fn ranges_are_read_whole(rt: HostRuntime) {
    assert!(rt; six_are_asked(&rt, &[], false));
}

#[test]
fn a_failed_read_is_an_error(rt: HostRuntime) {
    assert!(rt; six_are_asked(&rt, &[1], true));
}
