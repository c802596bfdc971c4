//! Each refusal of a front, in its order.

use elf_ident::read_front;
use elf_types::ElfError;
use elf_types::constants::{EI_CLASS, EI_DATA, EI_VERSION, MAX_IMAGE, MAX_SECTIONS};
use elf_xlate::{ehdr_size, phdr_size, shdr_size};
use std::alloc::Global;
use test_kit_images::{
    BuiltImage, ClassAndOrder, FORMS, Field, HeaderField, SectionField, numbers_in_section_0,
    two_tables,
};
use test_kit_rows::{failed, in_row, same, within};
use test_kit_sources::Sparse;

const VERSION: Field = Field::Header(HeaderField::Version);

const PHOFF: Field = Field::Header(HeaderField::Phoff);

const SHOFF: Field = Field::Header(HeaderField::Shoff);

const PHENTSIZE: Field = Field::Header(HeaderField::Phentsize);

const PHNUM: Field = Field::Header(HeaderField::Phnum);

const SHENTSIZE: Field = Field::Header(HeaderField::Shentsize);

const SHNUM: Field = Field::Header(HeaderField::Shnum);

const FIRST_SIZE: Field = Field::Section(0, SectionField::Size);

const FIRST_INFO: Field = Field::Section(0, SectionField::Info);

/// A field of an image, a number for it, and the refusal of the image then.
type Change = (Field, u64, ElfError);

/// Changes of an image whose numbers are in its header.
static CHANGES: [Change; 10] = [
    (VERSION, 2, ElfError::Version),
    (SHOFF, 0, ElfError::ShTable),
    (SHOFF, 0xffff_ffff, ElfError::ShTable),
    (SHENTSIZE, 63, ElfError::ShTable),
    (SHENTSIZE, 0, ElfError::ShTable),
    (SHNUM, 4, ElfError::ShTable),
    (PHOFF, 0xffff_ffff, ElfError::PhTable),
    (PHENTSIZE, 63, ElfError::PhTable),
    (PHENTSIZE, 0, ElfError::PhTable),
    (PHNUM, 99, ElfError::PhTable),
];

/// Changes of an image whose numbers are in section 0.
static EXTENDED_CHANGES: [Change; 5] = [
    (SHOFF, 0, ElfError::PhTable),
    (SHOFF, 0xffff_ffff, ElfError::ShTable),
    (SHENTSIZE, 0, ElfError::ShTable),
    (FIRST_SIZE, 4, ElfError::ShTable),
    (FIRST_INFO, 99, ElfError::PhTable),
];

/// What is rejected of an image, of which a source has a length and tells nothing.
fn refusal_of(alloc: Global, image: BuiltImage, len: u64) -> Option<ElfError> {
    read_front(alloc, &mut Sparse::new(image.bytes, len)).err()
}

/// Sets the fields of some changes.
fn change_all(image: &mut BuiltImage, changes: &[Change]) {
    for (field, value, _) in changes {
        image.put_field(*field, *value);
    }
}

/// Whether a change of an image is rejected as stated.
fn is_refused(rt: &HostRuntime, mut image: BuiltImage, change: &Change) -> bool {
    let len = image.bytes.len();
    image.put_field(change.0, change.1);
    same(rt, &refusal_of(rt.alloc(), image, len), &Some(change.2))
}

/// An image whose numbers are in its header, or in section 0.
fn image_of(alloc: Global, form: ClassAndOrder, extended: bool) -> Result<BuiltImage, ElfError> {
    if extended {
        return numbers_in_section_0(alloc, form.0, form.1);
    }
    two_tables(alloc, form.0, form.1)
}

/// Whether a change of that image is rejected as stated.
fn is_refused_of(rt: &HostRuntime, form: ClassAndOrder, extended: bool, change: &Change) -> bool {
    match image_of(rt.alloc(), form, extended) {
        Ok(image) => is_refused(rt, image, change),
        Err(e) => failed(rt, e),
    }
}

/// Whether each change of the image is rejected, in a form.
fn are_refused_in(
    rt: &HostRuntime,
    form: ClassAndOrder,
    extended: bool,
    changes: &[Change],
) -> bool {
    for (n, change) in changes.iter().enumerate() {
        if !in_row(rt, n, is_refused_of(rt, form, extended, change)) {
            return false;
        }
    }
    true
}

/// Whether each change of the image is rejected, in all forms.
fn are_refused(rt: &HostRuntime, extended: bool, changes: &[Change]) -> bool {
    for form in FORMS.iter() {
        if !within(rt, form, are_refused_in(rt, *form, extended, changes)) {
            return false;
        }
    }
    true
}

#[test]
fn a_damaged_field_is_refused(rt: HostRuntime) {
    assert!(rt; are_refused(&rt, false, &CHANGES));
    assert!(rt; are_refused(&rt, true, &EXTENDED_CHANGES));
}

/// Faults in the order of their refusals, but for those of the length.
static FAULTS: [Change; 8] = [
    (Field::Ident(0), 0x7e, ElfError::Magic),
    (Field::Ident(EI_CLASS), 3, ElfError::Class),
    (Field::Ident(EI_DATA), 0, ElfError::Order),
    (Field::Ident(EI_VERSION), 2, ElfError::Version),
    (VERSION, 2, ElfError::Version),
    (SHENTSIZE, 63, ElfError::ShTable),
    (PHENTSIZE, 0, ElfError::PhTable),
    (FIRST_SIZE, MAX_SECTIONS + 1, ElfError::TooMany),
];

/// What is rejected of an image in which changes are put, of which a source has a length.
fn refusal_with_all(
    alloc: Global,
    mut image: BuiltImage,
    changes: &[Change],
    len: u64,
) -> Option<ElfError> {
    change_all(&mut image, changes);
    refusal_of(alloc, image, len)
}

/// Whether an image that has these faults, of which a source has a length, is rejected so.
fn is_refused_by(
    rt: &HostRuntime,
    form: ClassAndOrder,
    faults: &[Change],
    len: u64,
    refusal: Option<ElfError>,
) -> bool {
    match image_of(rt.alloc(), form, true) {
        Ok(image) => same(
            rt,
            &refusal_with_all(rt.alloc(), image, faults, len),
            &refusal,
        ),
        Err(e) => failed(rt, e),
    }
}

/// The faults from one on.
fn from(faults: &[Change], first: usize) -> &[Change] {
    faults.get(first..).unwrap_or(&[])
}

/// Whether each fault is rejected before those after it, and an image without faults is read.
fn faults_come_in_order(rt: &HostRuntime, form: ClassAndOrder, faults: &[Change]) -> bool {
    for (i, fault) in faults.iter().enumerate() {
        if !in_row(
            rt,
            i,
            is_refused_by(rt, form, from(faults, i), MAX_IMAGE, Some(fault.2)),
        ) {
            return false;
        }
    }
    is_refused_by(rt, form, &[], MAX_IMAGE, None)
}

/// Whether the length is looked at before the identification, before `e_version`, and after it.
fn lengths_come_in_order(rt: &HostRuntime, form: ClassAndOrder, faults: &[Change]) -> bool {
    let cut = ehdr_size(form.0) as u64 - 1;
    let (version, after) = (from(faults, 4), from(faults, 5));
    is_refused_by(rt, form, faults, 15, Some(ElfError::Short))
        && is_refused_by(rt, form, from(faults, 3), cut, Some(ElfError::Version))
        && is_refused_by(rt, form, version, cut, Some(ElfError::Short))
        && is_refused_by(rt, form, version, MAX_IMAGE + 1, Some(ElfError::Version))
        && is_refused_by(rt, form, after, MAX_IMAGE + 1, Some(ElfError::TooLarge))
}

/// Whether all come in order in all forms.
fn all_come_in_order(rt: &HostRuntime, faults: &[Change]) -> bool {
    for form in FORMS.iter() {
        let so = faults_come_in_order(rt, *form, faults)
            && lengths_come_in_order(rt, *form, faults);
        if !within(rt, form, so) {
            return false;
        }
    }
    true
}

#[test]
fn the_first_refusal_is_the_answer(rt: HostRuntime) {
    assert!(rt; all_come_in_order(&rt, &FAULTS));
}

/// Whether an image with too many entries in a field of section 0, of which a source has a length,
/// is rejected so.
fn is_refused_with(
    rt: &HostRuntime,
    form: ClassAndOrder,
    count: Field,
    len: u64,
    refusal: ElfError,
) -> bool {
    match image_of(rt.alloc(), form, true) {
        Ok(image) => {
            let many = [(count, MAX_SECTIONS + 1, refusal)];
            same(
                rt,
                &refusal_with_all(rt.alloc(), image, &many, len),
                &Some(refusal),
            )
        }
        Err(e) => failed(rt, e),
    }
}

/// Whether a table of too many entries of a size, from a place on, is rejected as such only where
/// it lies in the image.
fn lies_first(
    rt: &HostRuntime,
    form: ClassAndOrder,
    count: Field,
    at: u64,
    size: usize,
    past: ElfError,
) -> bool {
    let many = MAX_SECTIONS + 1;
    let end = at.saturating_add(many.saturating_mul(size as u64));
    is_refused_with(rt, form, count, end.saturating_sub(1), past)
        && is_refused_with(rt, form, count, end, ElfError::TooMany)
}

/// Whether both tables of too many entries are rejected as such only where they lie in the image,
/// in all forms.
fn tables_lie_first(rt: &HostRuntime) -> bool {
    for form in FORMS.iter() {
        let (segment, section) = (phdr_size(form.0), shdr_size(form.0));
        let so = lies_first(rt, *form, FIRST_INFO, 64, segment, ElfError::PhTable)
            && lies_first(rt, *form, FIRST_SIZE, 192, section, ElfError::ShTable);
        if !within(rt, form, so) {
            return false;
        }
    }
    true
}

#[test]
fn a_table_of_too_many_entries_lies_in_the_image(rt: HostRuntime) {
    assert!(rt; tables_lie_first(&rt));
}
