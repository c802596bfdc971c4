//! Two sources, one after the other, as a source.

use crate::sources::failing_source;
use crate::steps::{Read, reads_all};
use elf_outside::Source;
use rebuild_join::pair::SourcePair;
use test_kit_rows::{failed, same};

/// Reads of a pair of three bytes and five: of each alone, and across their border, where a read
/// fails of the first and then one of the second; of all bytes, and at the end.
static READS: [Read; 7] = [
    (0, 3, Some(b"abc")),
    (3, 5, Some(b"defgh")),
    (1, 4, None),
    (2, 3, None),
    (0, 8, Some(b"abcdefgh")),
    (8, 0, Some(b"")),
    (3, 1, Some(b"d")),
];

/// Two sources, and whether their pair is read so.
fn reads_pair<S: Source, T: Source>(rt: &HostRuntime, first: S, second: T) -> ((S, T), bool) {
    if first.len() != 3 || second.len() != 5 {
        return ((first, second), false);
    }
    let mut pair = SourcePair::new(first, second);
    let stated = pair.len() == 8 && reads_all(rt, &mut pair, &READS);
    (pair.into_parts(), stated)
}

/// Whether a pair reads both of its sources, across their border also where the first fails, and
/// gives them back.
fn pair_reads(rt: &HostRuntime) -> bool {
    let first = match failing_source(rt.alloc(), b"abc", &[2]) {
        Ok(first) => first,
        Err(e) => return failed(rt, e),
    };
    match failing_source(rt.alloc(), b"defgh", &[3]) {
        Ok(second) => {
            let ((first, second), stated) = reads_pair(rt, first, second);
            stated && same(rt, &first.asked(), &9) && same(rt, &second.asked(), &15)
        }
        Err(e) => failed(rt, e),
    }
}

#[test]
fn a_pair_reads_both_of_its_sources(rt: HostRuntime) {
    assert!(rt; pair_reads(&rt));
}
