//! The plan and the front of an image of which the headers are listed.

use crate::stream::forms::begun;
use crate::stream::listing::listed;
use elf_types::ElfError;
use rebuild_image::ranges::ByteRange;
use rebuild_image::{FrontRanges, Streamed, stream_listed};
use std::alloc::Global;
use strtab_shared::bytes::SharedBytes;
use test_kit_rows::{failed, holds, same};

/// A range of what is held.
const fn held_at(at: u64, len: u64) -> ByteRange {
    ByteRange {
        held: true,
        at,
        len,
    }
}

/// Plans the image of the five sections of class 64 and their table, and holds its front after what
/// is held.
fn stream_behind(alloc: Global, held: &mut SharedBytes) -> Result<Streamed, ElfError> {
    let x = listed(alloc)?;
    if x.headers.is_empty() || x.headers.len() > 1 << 20 || x.headers.len() != x.sizes.len() {
        return Err(ElfError::TooMany);
    }
    stream_listed(alloc, x, [0; 7], &[], false, 0, held)
}

/// Whether all five sections are planned, and the parts of the front have ranges after three bytes.
fn is_planned(rt: &HostRuntime, streamed: &Streamed) -> bool {
    let front = FrontRanges {
        header: held_at(3, 64),
        segments: held_at(67, 0),
        table: held_at(67, 320),
    };
    same(rt, &streamed.planned.places.end, &424)
        && same(rt, &streamed.planned.parts.len(), &5)
        && same(rt, &streamed.front, &front)
}

/// Whether the front is held after three bytes.
fn is_front_held(rt: &HostRuntime, held: &SharedBytes) -> bool {
    if !same(rt, &held.len(), &387) {
        return false;
    }
    match held.to_octets(rt.alloc()) {
        Ok(bytes) => holds(
            rt,
            "the header is held",
            bytes.as_slice().starts_with(b"abc\x7fELF"),
        ),
        Err(e) => failed(rt, e),
    }
}

/// Whether the image is planned, and its front is held after what is held.
fn is_streamed_behind(rt: &HostRuntime, held: &mut SharedBytes) -> bool {
    match stream_behind(rt.alloc(), held) {
        Ok(streamed) => is_planned(rt, &streamed) && is_front_held(rt, held),
        Err(e) => failed(rt, e),
    }
}

/// Whether the image is planned, and its front is held after three bytes.
fn is_streamed(rt: &HostRuntime) -> bool {
    match begun(rt.alloc()) {
        Ok(mut held) => is_streamed_behind(rt, &mut held),
        Err(e) => failed(rt, e),
    }
}

#[test]
fn an_image_is_planned_and_its_front_is_held(rt: HostRuntime) {
    assert!(rt; is_streamed(&rt));
}
