//! Images that are opened, and written again.

use crate::created::{CreatedObject, image_of_made};
use crate::puts::puts;
use elf_descriptor::Elf;
use elf_outside::{MemSource, Source};
use elf_types::{Class, DIRTY, DataId, ElfError, LAYOUT, Octets, Order, Part, ScnId};
use elf_xlate::Items;
use std::alloc::Global;
use test_kit_images::{BuiltImage, ClassAndOrder, FORMS, ImageStart, OBJECT, Recipe, image_in};
use test_kit_rows::{failed, in_row, other, same, within};
use test_kit_sources::{Sparse, source};

/// Five sections one after the other.
const FIVE: Recipe = Recipe {
    form: (Class::C64, Order::Least),
    start: ImageStart::FiveSections,
    puts: &[],
};

/// What is edited before an update.
#[derive(Clone, Copy)]
enum Edit {
    /// Nothing.
    Nothing,
    /// The object is marked.
    Mark,
    /// It is marked, and its parts keep their places.
    Layout,
    /// Section 3 gets the number 7 in place of its bytes.
    Replace,
    /// The bytes of section 3 are loaded and marked.
    Load,
}

/// Section 3, and its piece.
const THIRD: ScnId = ScnId(3);

const THIRD_PIECE: DataId = DataId {
    section: 3,
    piece: 0,
};

/// Puts other bytes in place of a piece.
fn replace<S: Source>(elf: &mut Elf<S>, d: DataId) -> Result<(), ElfError> {
    let bytes = Octets::from_slice(elf.alloc(), &[7; 8])?;
    match elf.replace(d, Items::Bytes(bytes)) {
        Ok(_) => Ok(()),
        Err((_, e)) => Err(e),
    }
}

/// Whether an edit is done.
fn is_made<S: Source>(elf: &mut Elf<S>, how: Edit) -> bool {
    match how {
        Edit::Nothing => true,
        Edit::Mark => elf.flag(Part::Object, true, DIRTY).is_ok(),
        Edit::Layout => elf.flag(Part::Object, true, DIRTY | LAYOUT).is_ok(),
        Edit::Replace => replace(elf, THIRD_PIECE).is_ok(),
        Edit::Load => elf.raw(THIRD).is_ok() && elf.flag(Part::Piece(3, 0), true, DIRTY).is_ok(),
    }
}

/// Whether an object that is edited is written twice as these bytes.
fn is_written_by<S: Source + Drop>(rt: &HostRuntime, src: S, how: Edit, bytes: &[u8]) -> bool {
    match Elf::begin(rt.alloc(), src) {
        Ok(mut elf) => {
            is_made(&mut elf, how) && puts(rt, &mut elf, bytes) && puts(rt, &mut elf, bytes)
        }
        Err((_src, e)) => failed(rt, e),
    }
}

/// Whether an object of these bytes is, over a source that tells them and over one that does not.
fn is_written_of(rt: &HostRuntime, bytes: Octets, how: Edit, expected: &[u8]) -> bool {
    match Octets::from_slice(rt.alloc(), bytes.as_slice()) {
        Ok(copy) => {
            let len = copy.len();
            is_written_told(rt, bytes, how, expected)
                && is_written_by(rt, Sparse::new(copy, len), how, expected)
        }
        Err(e) => failed(rt, e),
    }
}

/// Whether an object of these bytes is written so over a source that tells them.
fn is_written_told(rt: &HostRuntime, bytes: Octets, how: Edit, expected: &[u8]) -> bool {
    match source(rt.alloc(), bytes, 0) {
        Ok(src) => is_written_by(rt, src, how, expected),
        Err(e) => failed(rt, e),
    }
}

/// Puts what an edit is to leave into the bytes of an image.
fn expect(image: &mut BuiltImage, how: Edit) -> Result<(), ElfError> {
    let start = match image.header.class {
        Class::C32 => 56,
        Class::C64 => 64,
    };
    match how {
        Edit::Replace => image.put_bytes(start + 16, &[7; 8]),
        _ => Ok(()),
    }
}

/// Whether an object of these bytes is written as the image that it is of, once that has what the
/// edit leaves.
fn is_written_as(rt: &HostRuntime, bytes: Octets, how: Edit, image: &mut BuiltImage) -> bool {
    same(rt, &expect(image, how), &Ok(())) && is_written_of(rt, bytes, how, image.bytes.as_slice())
}

/// Whether an image is written so in a form, over sources that tell their bytes and that do not.
fn is_written_in(rt: &HostRuntime, form: ClassAndOrder, recipe: &Recipe, how: Edit) -> bool {
    match image_in(rt.alloc(), form, recipe) {
        Ok(mut image) => match Octets::from_slice(rt.alloc(), image.bytes.as_slice()) {
            Ok(bytes) => is_written_as(rt, bytes, how, &mut image),
            Err(e) => failed(rt, e),
        },
        Err(e) => failed(rt, e),
    }
}

/// Whether an image is written so in all forms.
fn is_written(rt: &HostRuntime, recipe: &Recipe, how: Edit) -> bool {
    for form in FORMS.iter() {
        if !within(rt, form, is_written_in(rt, *form, recipe, how)) {
            return false;
        }
    }
    true
}

/// Whether images are written so.
fn are_written(rt: &HostRuntime, rows: &[(Recipe, Edit)]) -> bool {
    for (n, (recipe, how)) in rows.iter().enumerate() {
        if !in_row(rt, n, is_written(rt, recipe, *how)) {
            return false;
        }
    }
    true
}

/// Objects that are not edited.
static COPIED: [(Recipe, Edit); 2] = [(OBJECT, Edit::Nothing), (FIVE, Edit::Nothing)];

#[test]
fn an_object_that_is_not_edited_is_copied(rt: HostRuntime) {
    assert!(rt; are_written(&rt, &COPIED));
}

/// Objects that are marked.
static MARKED: [(Recipe, Edit); 4] = [
    (FIVE, Edit::Mark),
    (OBJECT, Edit::Layout),
    (FIVE, Edit::Layout),
    (FIVE, Edit::Load),
];

#[test]
fn a_marked_object_is_written_again(rt: HostRuntime) {
    assert!(rt; are_written(&rt, &MARKED));
}

/// One that is edited.
static EDITED: [(Recipe, Edit); 1] = [(FIVE, Edit::Replace)];

#[test]
fn an_edit_is_in_the_image(rt: HostRuntime) {
    assert!(rt; are_written(&rt, &EDITED));
}

/// A source of the same bytes.
fn source_of(alloc: Global, image: &Octets) -> Result<MemSource, ElfError> {
    match Octets::from_slice(alloc, image.as_slice()) {
        Ok(bytes) => source(alloc, bytes, 0),
        Err(e) => Err(e),
    }
}

/// Whether an image, opened and marked, is written as it was.
fn is_written_again(rt: &HostRuntime, image: &Octets) -> bool {
    match source_of(rt.alloc(), image) {
        Ok(src) => is_written_by(rt, src, Edit::Mark, image.as_slice()),
        Err(e) => failed(rt, e),
    }
}

/// Whether the image of many sections, opened and marked, is written as it was.
fn are_written_again(rt: &HostRuntime) -> bool {
    match image_of_made(rt.alloc(), CreatedObject::ManySections) {
        Some(image) => is_written_again(rt, &image),
        None => other(rt, &"no image", "one of many sections"),
    }
}

#[test]
fn more_sections_than_a_header_counts_are_opened_and_written_again(rt: HostRuntime) {
    assert!(rt; are_written_again(&rt));
}
