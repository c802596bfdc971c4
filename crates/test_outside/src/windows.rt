//! Windows of sources, and the source with no bytes.

use crate::sources::failing_source;
use crate::steps::{Read, reads, reads_all};
use elf_outside::{NoSource, Source, Window};
use test_kit_rows::{failed, same};

/// Reads of a window of four bytes, of which the third is to fail.
static READS: [Read; 3] = [(0, 4, Some(b"cdef")), (3, 1, Some(b"f")), (0, 1, None)];

/// A source, and whether its window of four bytes from the third on is read so.
fn reads_window<S: Source>(rt: &HostRuntime, source: S) -> (S, bool) {
    if source.len() != 8 {
        return (source, false);
    }
    let mut window = Window::new(source, 2, 4);
    let stated = window.len() == 4 && reads_all(rt, &mut window, &READS);
    (window.into_inner(), stated)
}

/// Whether a window reads its range, and gives the whole source back.
fn window_reads(rt: &HostRuntime) -> bool {
    match failing_source(rt.alloc(), b"abcdefgh", &[3]) {
        Ok(source) => {
            let (mut source, stated) = reads_window(rt, source);
            stated
                && same(rt, &source.asked(), &6)
                && reads(rt, &mut source, 0, 8, Some(b"abcdefgh"))
        }
        Err(e) => failed(rt, e),
    }
}

#[test]
fn a_window_reads_its_range(rt: HostRuntime) {
    assert!(rt; window_reads(&rt));
}

#[test]
fn there_is_a_source_with_no_bytes(rt: HostRuntime) {
    assert!(rt; same(&rt, &NoSource.len(), &0) && reads(&rt, &mut NoSource, 0, 0, Some(b"")));
}
