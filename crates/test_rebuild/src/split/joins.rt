//! Halves that are joined.

use crate::split::halves::half_image;
use crate::split::images::{is_program, program, source_of, untold, written};
use elf_descriptor::Elf;
use elf_outside::Source;
use elf_types::{ElfError, Octets};
use rebuild_join::joined::{UnstripFault, unstrip};
use std::alloc::Global;
use test_kit_images::{
    ClassAndOrder, FORMS, Field, ImageStart, OBJECT, Put, Recipe, SectionField, WIDE, image_of,
};
use test_kit_rows::{failed, failed_by, holds, same, same_bytes, within};

/// The image of two halves, or why there is none. Those that are dirty have none.
fn joined<S: Source, T: Source>(
    alloc: Global,
    stripped: &mut Elf<S>,
    debug: &mut Elf<T>,
) -> Result<Octets, UnstripFault> {
    if stripped.dirty() {
        return Err(UnstripFault::Elf(ElfError::Reserved));
    }
    if debug.dirty() {
        return Err(UnstripFault::Debug(ElfError::Reserved));
    }
    match unstrip(alloc, stripped, debug) {
        Ok(made) => match written(alloc, made.elf) {
            Ok(bytes) => Ok(bytes),
            Err(e) => Err(UnstripFault::Elf(e)),
        },
        Err(fault) => Err(fault),
    }
}

/// The image of a stripped half and of a source of the debug half, or why there is none.
fn joined_with<S: Source, T: Source + Drop>(
    alloc: Global,
    stripped: &mut Elf<S>,
    debug: T,
) -> Result<Octets, UnstripFault> {
    match Elf::begin(alloc, debug) {
        Ok(mut debug) => {
            let made = joined(alloc, stripped, &mut debug);
            let _src = debug.end();
            made
        }
        Err((_src, e)) => Err(UnstripFault::Debug(e)),
    }
}

/// The image of sources of both halves, the first stripped, or why there is none.
fn joined_over<S: Source + Drop, T: Source + Drop>(
    alloc: Global,
    stripped: S,
    debug: T,
) -> Result<Octets, UnstripFault> {
    match Elf::begin(alloc, stripped) {
        Ok(mut stripped) => {
            let made = joined_with(alloc, &mut stripped, debug);
            let _src = stripped.end();
            made
        }
        Err((_src, e)) => Err(UnstripFault::Elf(e)),
    }
}

/// The image of two images of halves, the first stripped, or why there is none: the read of a
/// number of the first fails, or none where that is 0.
pub fn joined_images(
    alloc: Global,
    stripped: &Octets,
    debug: &Octets,
    bad_read: u64,
) -> Result<Octets, UnstripFault> {
    let one = match source_of(alloc, stripped, bad_read) {
        Ok(one) => one,
        Err(e) => return Err(UnstripFault::Elf(e)),
    };
    match source_of(alloc, debug, 0) {
        Ok(other) => joined_over(alloc, one, other),
        Err(e) => Err(UnstripFault::Debug(e)),
    }
}

/// Whether these bytes were made.
fn is_made(rt: &HostRuntime, made: Result<Octets, UnstripFault>, whole: &Octets) -> bool {
    match made {
        Ok(made) => same_bytes(rt, made.as_slice(), whole.as_slice()),
        Err(fault) => failed_by(rt, &fault),
    }
}

/// Whether an image and the debug half of a second one are joined to the second.
fn is_joined_again(rt: &HostRuntime, stripped: &Octets, whole: &Octets) -> bool {
    match half_image(rt.alloc(), whole) {
        Ok(half) => is_made(rt, joined_images(rt.alloc(), stripped, &half, 0), whole),
        Err(e) => failed(rt, e),
    }
}

/// The object with two symbols without its symbol table and without names: section 1 has a byte.
static STRIPPED: Recipe = Recipe {
    form: WIDE,
    start: ImageStart::Table(72, 2, 1),
    puts: &[
        Put::Bytes(64, &[0, 0, 0, 0, 0, 0, 0, 0]),
        Put::Bytes(72, &[0; 128]),
        Put::Field(Field::Section(1, SectionField::Type), 3),
        Put::Field(Field::Section(1, SectionField::Offset), 64),
        Put::Field(Field::Section(1, SectionField::Size), 1),
        Put::Field(Field::Section(1, SectionField::Addralign), 1),
    ],
};

/// Whether the object with two symbols, split, is joined byte for byte.
fn is_whole_again(rt: &HostRuntime) -> bool {
    let whole = match image_of(rt.alloc(), &OBJECT) {
        Ok(whole) => whole,
        Err(e) => return failed(rt, e),
    };
    match image_of(rt.alloc(), &STRIPPED) {
        Ok(stripped) => is_joined_again(rt, &stripped.bytes, &whole.bytes),
        Err(e) => failed(rt, e),
    }
}

#[test]
fn an_object_is_split_and_merged(rt: HostRuntime) {
    assert!(rt; is_whole_again(&rt));
}

/// Whether the program in a form is joined of itself and its debug half.
fn is_joined_in(rt: &HostRuntime, form: ClassAndOrder) -> bool {
    match program(rt.alloc(), form, &[]) {
        Ok(whole) => is_joined_again(rt, &whole, &whole),
        Err(e) => failed(rt, e),
    }
}

/// Whether the program is joined in all forms.
fn is_joined(rt: &HostRuntime) -> bool {
    for form in FORMS.iter() {
        if !within(rt, form, is_joined_in(rt, *form)) {
            return false;
        }
    }
    true
}

#[test]
fn a_program_is_split_and_merged(rt: HostRuntime) {
    assert!(rt; is_joined(&rt));
}

/// Whether two halves that do not tell their bytes are joined to the program.
fn are_joined_untold(rt: &HostRuntime, stripped: Octets, debug: Octets) -> bool {
    match joined_over(rt.alloc(), untold(stripped), untold(debug)) {
        Ok(made) => is_program(rt, &made),
        Err(fault) => failed_by(rt, &fault),
    }
}

/// Whether the program and its debug half are joined so.
fn is_joined_untold(rt: &HostRuntime) -> bool {
    let whole = match program(rt.alloc(), WIDE, &[]) {
        Ok(whole) => whole,
        Err(e) => return failed(rt, e),
    };
    match half_image(rt.alloc(), &whole) {
        Ok(half) => are_joined_untold(rt, whole, half),
        Err(e) => failed(rt, e),
    }
}

#[test]
fn halves_that_tell_nothing_are_joined(rt: HostRuntime) {
    assert!(rt; is_joined_untold(&rt));
}

/// Whether a failed read ends it, or comes after the last one.
fn ends_or_fails(rt: &HostRuntime, whole: &Octets, bad_read: u64) -> bool {
    match joined_images(rt.alloc(), whole, whole, bad_read) {
        Ok(made) => holds(rt, "one of the first three reads ends it", bad_read > 3)
            && same_bytes(rt, made.as_slice(), whole.as_slice()),
        Err(fault) => same(rt, &fault, &UnstripFault::Elf(ElfError::Read)),
    }
}

/// Whether each failed read of an image ends it.
fn each_read_of(rt: &HostRuntime, whole: &Octets) -> bool {
    for bad_read in 1..12u64 {
        if !within(rt, &bad_read, ends_or_fails(rt, whole, bad_read)) {
            return false;
        }
    }
    true
}

/// Whether each failed read of the program does.
fn each_read_counts(rt: &HostRuntime) -> bool {
    match program(rt.alloc(), WIDE, &[]) {
        Ok(whole) => each_read_of(rt, &whole),
        Err(e) => failed(rt, e),
    }
}

#[test]
fn a_failed_read_ends_it(rt: HostRuntime) {
    assert!(rt; each_read_counts(&rt));
}
