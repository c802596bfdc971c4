//! Updates in place that end.

use crate::in_place::edits::{Edit, are_made};
use crate::in_place::rows::{ALL, UpdateRow, Which, expect, table, update_ends};
use crate::in_place::tasks::Task;
use elf_descriptor::Elf;
use elf_outside::{Device, Source};
use elf_types::constants::SHT_PROGBITS;
use elf_types::{Octets, Shdr};
use test_kit_descriptors::{Setting, is_as_opened, is_done, is_done_in};
use test_kit_images::{BuiltImage, ImageStart, NULL_SECTION, OBJECT, Put, Recipe, WIDE, image_of};
use test_kit_rows::{failed, in_row, same};
use test_kit_sources::source;

/// Whether each update ends, in class 64.
fn are_ended(rt: &HostRuntime, setting: &Setting, rows: &[UpdateRow]) -> bool {
    for (n, row) in rows.iter().enumerate() {
        if !in_row(rt, n, is_done_in(rt, setting, WIDE, &Task::Ends(*row))) {
            return false;
        }
    }
    true
}

/// Whether each update ends in all forms.
fn are_ended_in_all_forms(rt: &HostRuntime, setting: &Setting, rows: &[UpdateRow]) -> bool {
    for (n, row) in rows.iter().enumerate() {
        if !in_row(rt, n, is_done(rt, setting, &Task::Ends(*row))) {
            return false;
        }
    }
    true
}

/// Whether all do, those for any class in all forms.
fn all_are_ended(rt: &HostRuntime) -> bool {
    for which in ALL.iter() {
        let made = table(*which);
        if !are_ended(rt, &made.setting, made.rows) {
            return false;
        }
    }
    let five = table(Which::Five);
    are_ended_in_all_forms(rt, &five.setting, five.rows)
}

#[test]
fn the_device_holds_the_image(rt: HostRuntime) {
    assert!(rt; all_are_ended(&rt));
}

/// Makes edits of an object that is opened on the image of another one, and takes its image for
/// what the device is to hold.
fn expect_next<S: Source>(
    rt: &HostRuntime,
    elf: &Elf<S>,
    edits: &[Edit],
    image: &mut BuiltImage,
) -> bool {
    let Ok(bytes) = Octets::from_slice(elf.alloc(), image.bytes.as_slice()) else {
        return false;
    };
    let Ok(src) = source(elf.alloc(), bytes, 0) else {
        return false;
    };
    match Elf::begin(elf.alloc(), src) {
        Ok(mut opened) => {
            opened.set_fill(elf.fill());
            expect(rt, &mut opened, edits, image)
        }
        Err((_src, e)) => failed(rt, e),
    }
}

/// Whether an update ends, and the object behaves as one that is opened on its image.
fn is_settled<D: Device>(rt: &HostRuntime, elf: &mut Elf<D>, image: &BuiltImage) -> bool {
    update_ends(rt, elf, image) && is_as_opened(rt, elf, image.bytes.as_slice())
}

/// Whether an object is written after edits, and written again after others.
pub fn is_written_twice<D: Device, F: Source>(
    rt: &HostRuntime,
    elf: &mut Elf<D>,
    fresh: &mut Elf<F>,
    image: &mut BuiltImage,
    first: &[Edit],
    second: &[Edit],
) -> bool {
    expect(rt, fresh, first, image)
        && are_made(rt, elf, first)
        && is_settled(rt, elf, image)
        && expect_next(rt, elf, second, image)
        && are_made(rt, elf, second)
        && is_settled(rt, elf, image)
}

/// Whether an object that was written after these edits is edited and written again, by each row.
fn is_written_again(
    rt: &HostRuntime,
    setting: &Setting,
    first: &'static [Edit],
    rows: &[UpdateRow],
) -> bool {
    for (n, row) in rows.iter().enumerate() {
        if !in_row(
            rt,
            n,
            is_done_in(rt, setting, WIDE, &Task::Twice(first, row.edits)),
        ) {
            return false;
        }
    }
    true
}

/// Whether one that was written after the edits of each row is.
fn are_written_again(rt: &HostRuntime, setting: &Setting, rows: &[UpdateRow]) -> bool {
    for (n, row) in rows.iter().enumerate() {
        if !in_row(rt, n, is_written_again(rt, setting, row.edits, rows)) {
            return false;
        }
    }
    true
}

#[test]
fn an_object_that_was_written_is_edited_and_written_again(rt: HostRuntime) {
    let five = table(Which::Five);
    assert!(rt; are_written_again(&rt, &five.setting, five.rows));
}

#[test]
fn an_object_that_is_not_edited_is_left(rt: HostRuntime) {
    assert!(rt; is_done(&rt, &table(Which::Five).setting, &Task::Left));
}

/// Eight bytes at a place.
const EIGHT: Shdr = Shdr {
    stype: SHT_PROGBITS,
    size: 8,
    addralign: 8,
    ..NULL_SECTION
};

/// The five sections, of which the third has eight bytes 51 after its own.
static AFTER: Recipe = Recipe {
    start: ImageStart::Table(112, 6, 0),
    puts: &[
        Put::Sections(&[
            NULL_SECTION,
            Shdr {
                offset: 64,
                ..EIGHT
            },
            Shdr {
                offset: 72,
                ..EIGHT
            },
            Shdr {
                offset: 80,
                size: 16,
                ..EIGHT
            },
            Shdr {
                offset: 96,
                ..EIGHT
            },
            Shdr {
                offset: 104,
                ..EIGHT
            },
        ]),
        Put::Bytes(64, &[1; 8]),
        Put::Bytes(72, &[2; 8]),
        Put::Bytes(80, &[3; 8]),
        Put::Bytes(88, &[51; 8]),
        Put::Bytes(96, &[4; 8]),
        Put::Bytes(104, &[5; 8]),
    ],
    ..OBJECT
};

/// Whether a section gets a second piece, and those after it move.
pub fn grows<D: Device>(rt: &HostRuntime, elf: &mut Elf<D>, image: &mut BuiltImage) -> bool {
    match image_of(elf.alloc(), &AFTER) {
        Ok(made) => {
            image.bytes = made.bytes;
            are_made(rt, elf, &[Edit::Piece(3)])
                && same(rt, &image.bytes.len(), &496)
                && update_ends(rt, elf, image)
        }
        Err(e) => failed(rt, e),
    }
}

#[test]
fn the_sections_behind_one_that_grows_are_moved(rt: HostRuntime) {
    assert!(rt; is_done_in(&rt, &table(Which::Five).setting, WIDE, &Task::Grows));
}
