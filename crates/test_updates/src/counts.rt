//! Objects with as many sections as a header counts, and with one more.

use crate::puts::{has_bytes_at, image_put};
use elf_descriptor::Elf;
use elf_outside::{MemSource, Source};
use elf_types::Octets;
use std::alloc::Global;
use test_kit_images::{ImageStart, OBJECT, Recipe, image_of};
use test_kit_rows::{other, same};
use test_kit_sources::source;

/// A header alone, of class 64 and the least byte first.
static ALONE: Recipe = Recipe {
    start: ImageStart::HeaderAlone,
    ..OBJECT
};

/// Adds so many sections.
pub fn append_sections<S: Source>(elf: &mut Elf<S>, count: u32) -> bool {
    for _ in 0..count {
        if elf.newscn().is_err() {
            return false;
        }
    }
    true
}

/// A source of a header alone.
fn source_alone(alloc: Global) -> Option<MemSource> {
    match image_of(alloc, &ALONE) {
        Ok(image) => source(alloc, image.bytes, 0).ok(),
        Err(_) => None,
    }
}

/// The image of an object with so many sections added.
fn put_with<S: Source>(elf: &mut Elf<S>, count: u32) -> Option<Octets> {
    if append_sections(elf, count) {
        return image_put(elf);
    }
    None
}

/// The image of the header with so many sections added, besides section 0.
fn image_with(alloc: Global, count: u32) -> Option<Octets> {
    match source_alone(alloc) {
        Some(src) => match Elf::begin(alloc, src) {
            Ok(mut elf) => put_with(&mut elf, count),
            Err(_) => None,
        },
        None => None,
    }
}

/// How many sections a source is opened with.
fn count_in(alloc: Global, src: MemSource) -> Option<u32> {
    match Elf::begin(alloc, src) {
        Ok(elf) => Some(elf.ehdr().shnum),
        Err(_) => None,
    }
}

/// How many sections an image is opened with.
fn opened_count(alloc: Global, image: Octets) -> Option<u32> {
    match source(alloc, image, 0) {
        Ok(src) => count_in(alloc, src),
        Err(_) => None,
    }
}

/// Whether the header counts the sections where there are 65,279.
fn are_in_header(rt: &HostRuntime) -> bool {
    match image_with(rt.alloc(), 65_278) {
        Some(image) => {
            let counted = same(rt, &image.len(), &4_177_920)
                && has_bytes_at(rt, &image, 60, &[0xff, 0xfe]);
            counted && same(rt, &opened_count(rt.alloc(), image), &Some(65_279))
        }
        None => other(rt, &"no image", "one"),
    }
}

/// Whether section 0 does where there is one more.
fn are_in_section_0(rt: &HostRuntime) -> bool {
    match image_with(rt.alloc(), 65_279) {
        Some(image) => {
            let counted = same(rt, &image.len(), &4_177_984)
                && has_bytes_at(rt, &image, 60, &[0, 0])
                && has_bytes_at(rt, &image, 96, &[0, 0xff, 0, 0, 0, 0, 0, 0]);
            counted && same(rt, &opened_count(rt.alloc(), image), &Some(65_280))
        }
        None => other(rt, &"no image", "one"),
    }
}

#[test]
fn section_0_counts_the_sections_that_the_header_can_not(rt: HostRuntime) {
    assert!(rt; are_in_header(&rt));
    assert!(rt; are_in_section_0(&rt));
}
