//! What strip leaves: its message, and the file that it makes, or none.

use crate::calls::OLD;
use test_kit_images::{
    Field, HeaderField, ImageStart, NARROW, NARROW_OBJECT, OBJECT, Put, Recipe, SectionField, WIDE,
};
use test_kit_runs::cases::{Case, HeldAfter, RUN, Stored, are_so};
use test_kit_runs::{Ending, REFUSED};

/// A run over the object with two symbols, which leaves the file O as it was.
pub const KEPT: Case = Case {
    line: "strip -o O F",
    file: Stored::Image(OBJECT),
    held: HeldAfter::Before,
    ..RUN
};

/// Words and images that are rejected, by name and in their order: the file that is there, its
/// front, the homes of the sections that are kept, and the index of the names.
static UNWRITTEN: [Case; 5] = [
    Case {
        line: "strip -o O G",
        ending: Ending {
            err: b"strip: G: not found\n",
            ..REFUSED
        },
        ..KEPT
    },
    Case {
        file: Stored::Changed(OBJECT, Put::Bytes(0, b"no")),
        ending: Ending {
            err: b"strip: F: not an ELF image\n",
            ..REFUSED
        },
        ..KEPT
    },
    Case {
        line: "strip -g -o O F",
        file: Stored::Changed(
            OBJECT,
            Put::Field(Field::Section(2, SectionField::Offset), u64::MAX),
        ),
        ending: Ending {
            err: b"strip: F: section 2 out of file\n",
            ..REFUSED
        },
        ..KEPT
    },
    Case {
        line: "strip -g -o O F",
        file: Stored::Changed(
            OBJECT,
            Put::Field(Field::Section(2, SectionField::Size), 47),
        ),
        ending: Ending {
            err: b"strip: F: section 2 ragged\n",
            ..REFUSED
        },
        ..KEPT
    },
    Case {
        file: Stored::Changed(OBJECT, Put::Field(Field::Header(HeaderField::Shstrndx), 9)),
        ending: Ending {
            err: b"strip: F: no section 9 of 1\n",
            ..REFUSED
        },
        ..KEPT
    },
];

#[test]
fn what_is_refused_makes_no_file(rt: HostRuntime) {
    assert!(rt; are_so(&rt, &OLD, &UNWRITTEN));
}

/// The symbols go. The ELF header is left, the table of the names, which is the empty one, and the
/// headers of that and of section 0.
static SYMBOLS_GO: [Case; 2] = [
    Case {
        held: HeldAfter::Length(200),
        ..KEPT
    },
    Case {
        file: Stored::Image(NARROW_OBJECT),
        held: HeldAfter::Length(136),
        ..KEPT
    },
];

#[test]
fn symbols_go_with_their_strings(rt: HostRuntime) {
    assert!(rt; are_so(&rt, &OLD, &SYMBOLS_GO));
}

/// An executable without sections.
const ALONE: Recipe = Recipe {
    form: WIDE,
    start: ImageStart::HeaderAlone,
    puts: &[],
};

/// An executable without sections in class 32, the greatest byte first.
const NARROW_ALONE: Recipe = Recipe {
    form: NARROW,
    ..ALONE
};

/// Executables without sections, in two forms, and the same again.
static WITHOUT_SECTIONS: [Case; 2] = [
    Case {
        file: Stored::Image(ALONE),
        held: HeldAfter::Now(Stored::Image(ALONE)),
        ..KEPT
    },
    Case {
        file: Stored::Image(NARROW_ALONE),
        held: HeldAfter::Now(Stored::Image(NARROW_ALONE)),
        ..KEPT
    },
];

#[test]
fn an_image_without_sections_is_made_the_same(rt: HostRuntime) {
    assert!(rt; are_so(&rt, &OLD, &WITHOUT_SECTIONS));
}
