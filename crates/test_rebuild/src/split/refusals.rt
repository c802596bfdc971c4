//! What is rejected, in its order.

use crate::split::answers::{UnstripAnswer, comes_of, comes_of_twists};
use crate::split::halves::half_image;
use crate::split::images::{Twist, program};
use elf_types::{ElfError, NULL_SECTION, Octets, Shdr};
use rebuild_join::joined::UnstripFault;
use test_kit_images::{
    Field, HeaderField, ImageStart, OBJECT, Put, Recipe, SectionField, WIDE, image_of,
};
use test_kit_rows::{failed, in_row, other, same};

/// A place outside of the file.
const OUT: u64 = 1_000_000;

/// Section 1, which is loaded, and section 4, which is not, outside of the file.
const CODE_OUT: Twist = (Field::Section(1, SectionField::Offset), OUT);

const NOTES_OUT: Twist = (Field::Section(4, SectionField::Offset), OUT);

/// A string index that is no section's number.
const NO_NAMES: Twist = (Field::Header(HeaderField::Shstrndx), 9);

/// An alignment by which the next section is too high.
const TOO_HIGH: Twist = (Field::Section(4, SectionField::Addralign), 1 << 40);

/// Another machine.
const OTHER: Twist = (Field::Header(HeaderField::Machine), 3);

/// Two programs with such fields, the first stripped, and what comes of them.
struct Row {
    stripped: &'static [Twist],
    debug: &'static [Twist],
    answer: UnstripAnswer,
}

/// The refusals, each with one that comes later.
static ROWS: [Row; 6] = [
    Row {
        stripped: &[CODE_OUT],
        debug: &[OTHER, NOTES_OUT],
        answer: UnstripAnswer::Fault(UnstripFault::Mismatch),
    },
    Row {
        stripped: &[CODE_OUT],
        debug: &[NOTES_OUT],
        answer: UnstripAnswer::Fault(UnstripFault::Elf(ElfError::OutOfFile { section: 1 })),
    },
    Row {
        stripped: &[],
        debug: &[NOTES_OUT, NO_NAMES],
        answer: UnstripAnswer::Fault(UnstripFault::Debug(ElfError::OutOfFile { section: 4 })),
    },
    Row {
        stripped: &[NO_NAMES],
        debug: &[TOO_HIGH, NO_NAMES],
        answer: UnstripAnswer::Fault(UnstripFault::Debug(ElfError::NoSection {
            index: 9,
            count: 6,
        })),
    },
    Row {
        stripped: &[NOTES_OUT],
        debug: &[TOO_HIGH],
        answer: UnstripAnswer::Fault(UnstripFault::Elf(ElfError::TooLarge)),
    },
    Row {
        stripped: &[],
        debug: &[OTHER],
        answer: UnstripAnswer::Fault(UnstripFault::Mismatch),
    },
];

/// The loaded sections of the debug half and the others of the stripped one are not looked at, nor
/// is the string index of the stripped one.
static UNREAD: [Row; 1] = [Row {
    stripped: &[NOTES_OUT, NO_NAMES],
    debug: &[CODE_OUT],
    answer: UnstripAnswer::Program,
}];

/// Whether the fault of each row comes of its images.
fn are_answered(rt: &HostRuntime, rows: &[Row]) -> bool {
    for (n, row) in rows.iter().enumerate() {
        let so = comes_of_twists(rt, row.stripped, row.debug, row.answer);
        if !in_row(rt, n, so) {
            return false;
        }
    }
    true
}

#[test]
fn stripped_and_debug_files_are_rejected_in_order(rt: HostRuntime) {
    assert!(rt; are_answered(&rt, &ROWS));
}

#[test]
fn each_of_both_files_gives_its_own_part(rt: HostRuntime) {
    assert!(rt; are_answered(&rt, &UNREAD));
}

/// Whether an image has no debug half, for that reason.
fn is_half_refused(rt: &HostRuntime, image: &Octets, e: ElfError) -> bool {
    match half_image(rt.alloc(), image) {
        Ok(_) => other(rt, &"a debug half", "an error"),
        Err(came) => same(rt, &came, &e),
    }
}

/// Whether the program with such fields has none.
fn has_no_half(rt: &HostRuntime, twists: &[Twist], e: ElfError) -> bool {
    match program(rt.alloc(), WIDE, twists) {
        Ok(image) => is_half_refused(rt, &image, e),
        Err(came) => failed(rt, came),
    }
}

/// Whether sections out of the file are rejected before a string index, and whether that is.
fn halves_are_refused(rt: &HostRuntime) -> bool {
    let out = ElfError::OutOfFile { section: 4 };
    let names = ElfError::NoSection { index: 9, count: 6 };
    has_no_half(rt, &[NO_NAMES, NOTES_OUT], out) && has_no_half(rt, &[NO_NAMES], names)
}

#[test]
fn a_debug_file_is_rejected_in_order(rt: HostRuntime) {
    assert!(rt; halves_are_refused(&rt));
}

/// Section 0 that counts the program headers.
const COUNTING: Shdr = Shdr {
    info: 65_535,
    ..NULL_SECTION
};

/// A file with one program header more than may be made.
static CROWDED: Recipe = Recipe {
    start: ImageStart::Table(64 + 65_535 * 56, 1, 0),
    puts: &[
        Put::Field(Field::Header(HeaderField::Phoff), 64),
        Put::Field(Field::Header(HeaderField::Phentsize), 56),
        Put::Field(Field::Header(HeaderField::Phnum), 65_535),
        Put::Section(0, COUNTING),
    ],
    ..OBJECT
};

/// Whether too many program headers are rejected, by both.
fn are_too_many(rt: &HostRuntime) -> bool {
    let many = UnstripAnswer::Fault(UnstripFault::Elf(ElfError::TooMany));
    match image_of(rt.alloc(), &CROWDED) {
        Ok(image) => {
            comes_of(rt, &image.bytes, &image.bytes, many)
                && is_half_refused(rt, &image.bytes, ElfError::TooMany)
        }
        Err(e) => failed(rt, e),
    }
}

#[test]
fn program_headers_are_not_too_many(rt: HostRuntime) {
    assert!(rt; are_too_many(&rt));
}
