//! What is held in its file form.

use elf_types::{Class, ElfError, Octets, Order};
use elf_xlate::{Items, get_phdrs, get_shdrs};
use rebuild_image::ranges::ByteRange;
use rebuild_image::{hold_items, hold_sections, hold_segments, hold_shared};
use std::alloc::Global;
use strtab_shared::bytes::SharedBytes;
use test_kit_rows::{failed, holds, same};

/// Three bytes that are held.
pub fn begun(alloc: Global) -> Result<SharedBytes, ElfError> {
    let mut held = SharedBytes::new(alloc);
    held.extend(b"abc")?;
    Ok(held)
}

/// Holds two section headers of class 64, as they are read.
fn hold_read_sections(alloc: Global, held: &mut SharedBytes) -> Result<ByteRange, ElfError> {
    let headers = get_shdrs(alloc, Class::C64, Order::Least, &[7; 128])?;
    hold_sections(held, Class::C64, Order::Least, headers.as_slice())
}

/// Holds two program headers of class 32, as they are read.
fn hold_read_segments(alloc: Global, held: &mut SharedBytes) -> Result<ByteRange, ElfError> {
    let phdrs = get_phdrs(alloc, Class::C32, Order::Greatest, &[5; 64])?;
    hold_segments(held, Class::C32, Order::Greatest, phdrs.as_slice())
}

/// Holds items that are bytes.
#[tactic(auto, unfolding(elf_xlate::specs::Translation::first_unfit))]
fn hold_names(alloc: Global, held: &mut SharedBytes) -> Result<ByteRange, ElfError> {
    let items = Items::Bytes(Octets::from_slice(alloc, b"names")?);
    hold_items(held, Class::C64, Order::Least, &items)
}

/// Bytes, and where each is looked for in the text; `no` is not in it.
static NEAR: [(&[u8], u64); 4] = [(b"names", 0), (b"me", 2), (b"no", 2), (b"ames", 1)];

/// Puts bytes that are ranges of a text.
fn put_ranges(shared: &mut SharedBytes) -> Result<(), ElfError> {
    shared.hold(b"names")?;
    for row in NEAR.iter() {
        shared.extend_near(row.0, row.1)?;
    }
    Ok(())
}

/// Holds bytes that are ranges of a text.
fn hold_ranges(alloc: Global, held: &mut SharedBytes) -> Result<ByteRange, ElfError> {
    let mut shared = SharedBytes::new(alloc);
    match put_ranges(&mut shared) {
        Ok(()) => hold_shared(held, &shared),
        Err(e) => Err(e),
    }
}

/// What is held.
#[derive(Clone, Copy)]
enum Holding {
    /// Two section headers.
    Sections,
    /// Two program headers.
    Segments,
    /// Bytes.
    Names,
    /// Bytes that are ranges of a text.
    Ranges,
}

/// Holds it, and returns its range.
fn hold(alloc: Global, what: Holding, held: &mut SharedBytes) -> Result<ByteRange, ElfError> {
    match what {
        Holding::Sections => hold_read_sections(alloc, held),
        Holding::Segments => hold_read_segments(alloc, held),
        Holding::Names => hold_names(alloc, held),
        Holding::Ranges => hold_ranges(alloc, held),
    }
}

/// Whether these bytes are held after three others.
fn is_behind(rt: &HostRuntime, held: &Octets, bytes: &[u8]) -> bool {
    holds(
        rt,
        "the first bytes stay",
        held.as_slice().starts_with(b"abc"),
    ) && holds(rt, "the bytes are held", held.as_slice().ends_with(bytes))
        && same(rt, &held.len(), &(bytes.len() as u64).saturating_add(3))
}

/// Whether they are held so, and this is their range.
fn is_held(
    rt: &HostRuntime,
    held: &SharedBytes,
    range: &Result<ByteRange, ElfError>,
    bytes: &[u8],
) -> bool {
    let behind = ByteRange {
        held: true,
        at: 3,
        len: bytes.len() as u64,
    };
    if !same(rt, range, &Ok(behind)) {
        return false;
    }
    match held.to_octets(rt.alloc()) {
        Ok(held) => is_behind(rt, &held, bytes),
        Err(e) => failed(rt, e),
    }
}

/// Whether it is held as these bytes after three others.
fn is_held_as(rt: &HostRuntime, what: Holding, bytes: &[u8]) -> bool {
    match begun(rt.alloc()) {
        Ok(mut held) => {
            let range = hold(rt.alloc(), what, &mut held);
            is_held(rt, &held, &range, bytes)
        }
        Err(e) => failed(rt, e),
    }
}

#[test]
fn headers_are_held_as_they_were_read(rt: HostRuntime) {
    assert!(rt; is_held_as(&rt, Holding::Sections, &[7; 128]));
    assert!(rt; is_held_as(&rt, Holding::Segments, &[5; 64]));
}

#[test]
fn items_are_held_in_their_file_form(rt: HostRuntime) {
    assert!(rt; is_held_as(&rt, Holding::Names, b"names"));
    assert!(rt; is_held_as(&rt, Holding::Ranges, b"namesmenoames"));
}
