//! Debug halves.

use crate::split::images::{Twist, program, source_of, untold, written};
use elf_descriptor::Elf;
use elf_outside::Source;
use elf_types::constants::{SHT_NOBITS, SHT_NULL, SHT_PROGBITS, SHT_STRTAB};
use elf_types::{ElfError, Octets, ScnId};
use rebuild_debug::debug_of;
use std::alloc::Global;
use test_kit_images::{ClassAndOrder, FORMS, Field, OBJECT, SectionField, image_of};
use test_kit_rows::{failed, in_row, same, same_bytes, within};

/// The image of the debug half of an object, or why there is none. One that is dirty has none.
fn half_of<S: Source>(alloc: Global, elf: &mut Elf<S>) -> Result<Octets, ElfError> {
    if elf.dirty() {
        return Err(ElfError::Reserved);
    }
    match debug_of(alloc, elf) {
        Ok(half) => written(alloc, half),
        Err(e) => Err(e),
    }
}

/// The image of the debug half of a source's object, or why there is none.
fn half_over<S: Source + Drop>(alloc: Global, src: S) -> Result<Octets, ElfError> {
    match Elf::begin(alloc, src) {
        Ok(mut elf) => {
            let half = half_of(alloc, &mut elf);
            let _src = elf.end();
            half
        }
        Err((_src, e)) => Err(e),
    }
}

/// The image of the debug half of an image, or why there is none.
pub fn half_image(alloc: Global, image: &Octets) -> Result<Octets, ElfError> {
    match source_of(alloc, image, 0) {
        Ok(src) => half_over(alloc, src),
        Err(e) => Err(e),
    }
}

/// Whether the debug half of a source has these bytes.
fn is_half_over<S: Source + Drop>(rt: &HostRuntime, src: S, bytes: &Octets) -> bool {
    match half_over(rt.alloc(), src) {
        Ok(half) => same_bytes(rt, half.as_slice(), bytes.as_slice()),
        Err(e) => failed(rt, e),
    }
}

/// Whether an object without loaded sections is its own debug half.
fn is_own_half(rt: &HostRuntime) -> bool {
    let image = match image_of(rt.alloc(), &OBJECT) {
        Ok(image) => image,
        Err(e) => return failed(rt, e),
    };
    match source_of(rt.alloc(), &image.bytes, 0) {
        Ok(src) => is_half_over(rt, src, &image.bytes),
        Err(e) => failed(rt, e),
    }
}

#[test]
fn an_object_without_loaded_sections_is_its_own_debug_file(rt: HostRuntime) {
    assert!(rt; is_own_half(&rt));
}

/// The types and the sizes of the sections of the program's debug half, by number.
static SECTIONS: [(u32, u64); 6] = [
    (SHT_NULL, 0),
    (SHT_NOBITS, 8),
    (SHT_NOBITS, 8),
    (SHT_NOBITS, 32),
    (SHT_PROGBITS, 4),
    (SHT_STRTAB, 1),
];

/// Whether a section has a type and a size.
fn has<S: Source>(rt: &HostRuntime, elf: &Elf<S>, s: u32, section: &(u32, u64)) -> bool {
    match elf.shdr(ScnId(s)) {
        Ok(header) => same(rt, &(header.stype, header.size), section),
        Err(e) => failed(rt, e),
    }
}

/// Whether all sections of a debug half have their types and sizes.
fn have<S: Source>(rt: &HostRuntime, elf: &Elf<S>) -> bool {
    for (s, section) in SECTIONS.iter().enumerate() {
        if !in_row(rt, s, has(rt, elf, s as u32, section)) {
            return false;
        }
    }
    same(rt, &elf.shnum(), &6) && same(rt, &elf.phnum(), &1) && same(rt, &elf.shstrndx(), &5)
}

/// Whether a section has these bytes.
fn holds<S: Source>(rt: &HostRuntime, elf: &mut Elf<S>, s: u32, bytes: &[u8]) -> bool {
    match elf.raw(ScnId(s)) {
        Ok(raw) => same_bytes(rt, raw, bytes),
        Err(e) => failed(rt, e),
    }
}

/// Whether an object is the program's debug half.
fn is_half_of<S: Source>(rt: &HostRuntime, elf: &mut Elf<S>) -> bool {
    have(rt, elf) && holds(rt, elf, 1, b"") && holds(rt, elf, 4, b"dbg\n")
}

/// Whether a source is that of the program's debug half.
fn is_half_in<S: Source + Drop>(rt: &HostRuntime, src: S) -> bool {
    match Elf::begin(rt.alloc(), src) {
        Ok(mut elf) => {
            let half = is_half_of(rt, &mut elf);
            let _src = elf.end();
            half
        }
        Err((_src, e)) => failed(rt, e),
    }
}

/// Whether an image is that of the program's debug half.
fn is_half(rt: &HostRuntime, half: &Octets) -> bool {
    match source_of(rt.alloc(), half, 0) {
        Ok(src) => is_half_in(rt, src),
        Err(e) => failed(rt, e),
    }
}

/// Whether an image is split so, over a source that tells its bytes and over one that does not.
fn are_halves(rt: &HostRuntime, image: Octets) -> bool {
    match half_image(rt.alloc(), &image) {
        Ok(half) => is_half(rt, &half) & is_half_over(rt, untold(image), &half),
        Err(e) => failed(rt, e),
    }
}

/// Whether the program is split so in a form.
fn is_split_in(rt: &HostRuntime, form: ClassAndOrder) -> bool {
    match program(rt.alloc(), form, &[]) {
        Ok(image) => are_halves(rt, image),
        Err(e) => failed(rt, e),
    }
}

/// Whether the program is split so in all forms.
fn is_split(rt: &HostRuntime) -> bool {
    for form in FORMS.iter() {
        if !within(rt, form, is_split_in(rt, *form)) {
            return false;
        }
    }
    true
}

#[test]
fn loaded_sections_have_no_bytes_in_the_debug_file(rt: HostRuntime) {
    assert!(rt; is_split(&rt));
}

/// A place outside of the file, for section 1, which is loaded.
const CODE_OUT: Twist = (Field::Section(1, SectionField::Offset), 1_000_000);

/// Whether a section that has no bytes in the half may lie outside of the file.
fn may_lie_outside(rt: &HostRuntime) -> bool {
    match program(rt.alloc(), FORMS[2], &[CODE_OUT]) {
        Ok(image) => match half_image(rt.alloc(), &image) {
            Ok(half) => is_half(rt, &half),
            Err(e) => failed(rt, e),
        },
        Err(e) => failed(rt, e),
    }
}

#[test]
fn a_loaded_section_is_not_read(rt: HostRuntime) {
    assert!(rt; may_lie_outside(&rt));
}
