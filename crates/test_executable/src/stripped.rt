//! The executable after strip: what is loaded keeps its places and its bytes, and elflint finds
//! nothing in what is left.

use crate::halves::made_by;
use crate::image::executable;
use crate::segments::SEGMENTS;
use elf_types::constants::PT_LOAD;
use elf_types::{Octets, Phdr};
use std::alloc::Global;
use test_kit_rows::{failed, holds, other, within};
use test_kit_runs::{DONE, Ending, GivenFiles, ends, same_file};

/// How many bytes the ELF header has, which tells the new place of the section header table.
const HEADER_LEN: u64 = 64;

/// Whether the bytes of a segment that is loaded are the same in both, after the ELF header.
fn keeps(rt: &HostRuntime, made: &[u8], image: &[u8], segment: &Phdr) -> bool {
    let end = segment.offset.saturating_add(segment.filesz);
    for at in segment.offset.max(HEADER_LEN)..end {
        if made.get(at as usize) != image.get(at as usize) {
            return other(rt, &at, "the same byte there in both");
        }
    }
    true
}

/// Whether each segment that is loaded keeps its bytes.
fn keeps_all(rt: &HostRuntime, made: &[u8], image: &[u8]) -> bool {
    for segment in &SEGMENTS {
        let kept = segment.ptype != PT_LOAD || keeps(rt, made, image, segment);
        if !within(rt, segment, kept) {
            return false;
        }
    }
    true
}

/// What strip makes of an image.
fn stripped<G: GivenFiles>(rt: &HostRuntime, image: &G) -> Option<Octets> {
    made_by(rt, "strip -o O F", image, "O")
}

/// What it makes of the executable.
fn stripped_executable(rt: &HostRuntime) -> Option<Octets> {
    match executable(rt.alloc()) {
        Ok(image) => stripped(rt, &image),
        Err(_) => None,
    }
}

/// Whether these bytes are shorter than the executable, and keep what is loaded.
fn are_kept(rt: &HostRuntime, made: &[u8]) -> bool {
    match executable(rt.alloc()) {
        Ok(image) => {
            let whole = image.bytes.as_slice();
            holds(rt, "what is stripped is shorter", made.len() < whole.len())
                && keeps_all(rt, made, whole)
        }
        Err(e) => failed(rt, e),
    }
}

/// Whether what strip makes of the executable is shorter, and keeps what is loaded.
fn is_kept(rt: &HostRuntime) -> bool {
    match stripped_executable(rt) {
        Some(made) => are_kept(rt, made.as_slice()),
        None => false,
    }
}

#[test]
fn what_is_loaded_keeps_its_places_and_bytes(rt: HostRuntime) {
    assert!(rt; is_kept(&rt));
}

/// What elflint says of an image in which it finds nothing.
const CLEAN: Ending = Ending {
    out: b"F: no findings\n",
    ..DONE
};

/// Whether elflint finds nothing in it.
fn is_clean(rt: &HostRuntime) -> bool {
    match stripped_executable(rt) {
        Some(made) => ends(rt, "elflint F", made, &CLEAN),
        None => false,
    }
}

#[test]
fn elflint_finds_nothing_in_what_is_stripped(rt: HostRuntime) {
    assert!(rt; is_clean(&rt));
}

/// Whether strip of these bytes makes the same.
fn is_same(rt: &HostRuntime, made: &Octets) -> bool {
    match stripped(rt, made) {
        Some(again) => same_file(rt, again.as_slice(), made.as_slice()),
        None => false,
    }
}

/// Whether strip of what is stripped already changes nothing.
fn is_at_rest(rt: &HostRuntime) -> bool {
    match stripped_executable(rt) {
        Some(made) => is_same(rt, &made),
        None => false,
    }
}

#[test]
fn a_stripped_image_is_made_the_same_again(rt: HostRuntime) {
    assert!(rt; is_at_rest(&rt));
}
