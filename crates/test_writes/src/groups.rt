//! The groups that strip leaves, told byte by byte: members that are removed go, and those that
//! stay have their new numbers.

use crate::calls::OLD;
use crate::strip::KEPT;
use elf_types::Shdr;
use elf_types::constants::{SHT_GROUP, SHT_PROGBITS, SHT_STRTAB};
use test_kit_images::{Content, Field, ImageStart, NULL_SECTION, Put, Recipe, SectionField, WIDE};
use test_kit_runs::cases::{Case, HeldAfter, Stored, are_so, is_so};
use test_kit_runs::{Ending, REFUSED};

/// Bytes with a name.
const BODY: Shdr = Shdr {
    name: 1,
    stype: SHT_PROGBITS,
    addralign: 1,
    ..NULL_SECTION
};

/// A group.
const GROUP: Shdr = Shdr {
    stype: SHT_GROUP,
    addralign: 4,
    entsize: 4,
    ..NULL_SECTION
};

/// The names.
const NAMES: Shdr = Shdr {
    stype: SHT_STRTAB,
    addralign: 1,
    ..NULL_SECTION
};

/// The sections `.a` and `.b`, a group of both, and the names.
const SECTIONS: [Shdr; 5] = [NULL_SECTION, BODY, Shdr { name: 4, ..BODY }, GROUP, NAMES];

/// The parts of an object with these sections, after its headers.
const PARTS: [Put; 5] = [
    Put::Sections(&SECTIONS),
    Put::Home(1, Content::Bytes(b"aa")),
    Put::Home(2, Content::Bytes(b"bb")),
    Put::Home(3, Content::Words(&[1, 1, 2])),
    Put::Home(4, Content::Bytes(b"\0.a\0.b\0")),
];

/// The object with these sections.
const GROUPED: Recipe = Recipe {
    form: WIDE,
    start: ImageStart::Table(64, 5, 4),
    puts: &PARTS,
};

/// What is left without `.a`.
const ONE_LEFT: [Put; 4] = [
    Put::Bytes(64, b"bb"),
    Put::Content(68, Content::Words(&[1, 1])),
    Put::Bytes(76, b"\0.b\0"),
    Put::Sections(&[
        NULL_SECTION,
        Shdr {
            offset: 64,
            size: 2,
            ..BODY
        },
        Shdr {
            offset: 68,
            size: 8,
            ..GROUP
        },
        Shdr {
            offset: 76,
            size: 4,
            ..NAMES
        },
    ]),
];

/// What is left without `.a` and `.b`.
const NONE_LEFT: [Put; 3] = [
    Put::Content(64, Content::Words(&[1])),
    Put::Bytes(68, b"\0"),
    Put::Sections(&[
        NULL_SECTION,
        Shdr {
            offset: 64,
            size: 4,
            ..GROUP
        },
        Shdr {
            offset: 68,
            size: 1,
            ..NAMES
        },
    ]),
];

/// Words, and the image that they make of that object: a group of one member, and one of its flags
/// alone.
static MADE: [Case; 2] = [
    Case {
        line: "strip -R .a -o O F",
        file: Stored::Image(GROUPED),
        held: HeldAfter::Now(Stored::Image(Recipe {
            form: WIDE,
            start: ImageStart::Table(80, 4, 3),
            puts: &ONE_LEFT,
        })),
        ..KEPT
    },
    Case {
        line: "strip -R .a -R .b -o O F",
        file: Stored::Image(GROUPED),
        held: HeldAfter::Now(Stored::Image(Recipe {
            form: WIDE,
            start: ImageStart::Table(72, 3, 2),
            puts: &NONE_LEFT,
        })),
        ..KEPT
    },
];

#[test]
fn a_group_keeps_the_members_that_stay(rt: HostRuntime) {
    assert!(rt; are_so(&rt, &OLD, &MADE));
}

/// A group that is no whole number of words.
static RAGGED: Case = Case {
    line: "strip -R .a -o O F",
    file: Stored::Changed(
        GROUPED,
        Put::Field(Field::Section(3, SectionField::Size), 11),
    ),
    ending: Ending {
        err: b"strip: F: section 3 ragged\n",
        ..REFUSED
    },
    ..KEPT
};

#[test]
fn a_ragged_group_makes_no_file(rt: HostRuntime) {
    assert!(rt; is_so(&rt, &OLD, &RAGGED));
}
