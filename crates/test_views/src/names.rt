//! The names of sections: whole, by their first bytes, and whether a section has one.

use crate::questions::{Question, STRINGS, is_answered_of, set};
use elf_descriptor::Elf;
use elf_outside::Source;
use elf_types::constants::SHT_STRTAB;
use elf_types::{ElfError, NULL_SECTION, Octets, ScnId, Shdr};
use elf_xlate::Items;
use gelf_view::{is_named, section_name, section_name_front};
use test_kit_images::{Content, ImageStart, OBJECT, Put, Recipe};
use test_kit_rows::{in_row, same};

/// An object whose section 1 has the names. No NUL ends the last one, section 5's, and section 6's
/// begins past the table.
static NAMED: Recipe = Recipe {
    start: ImageStart::Table(64, 7, 1),
    puts: &[
        Put::Sections(&[
            NULL_SECTION,
            Shdr {
                name: 1,
                stype: SHT_STRTAB,
                ..NULL_SECTION
            },
            Shdr {
                name: 7,
                ..NULL_SECTION
            },
            Shdr {
                name: 10,
                ..NULL_SECTION
            },
            Shdr {
                name: 13,
                ..NULL_SECTION
            },
            Shdr {
                name: 14,
                ..NULL_SECTION
            },
            Shdr {
                name: 15,
                ..NULL_SECTION
            },
        ]),
        Put::Home(1, Content::Bytes(b"\0short\0longer\0x")),
    ],
    ..OBJECT
};

/// What is looked at of a section's name.
#[derive(Clone, Copy)]
enum Look {
    /// All of it.
    Whole,
    /// So many bytes and one more.
    Front(usize),
}

/// A section, what is looked at of its name, and what is seen.
type Seen = (u32, Look, Option<&'static [u8]>);

/// The first name is looked at before the table is read.
static SEEN: [Seen; 13] = [
    (2, Look::Front(4), Some(b"longe")),
    (1, Look::Front(3), Some(b"shor")),
    (1, Look::Front(4), Some(b"short")),
    (1, Look::Front(5), Some(b"short")),
    (2, Look::Front(0), Some(b"l")),
    (3, Look::Front(usize::MAX), Some(b"ger")),
    (0, Look::Front(0), Some(b"")),
    (4, Look::Front(2), Some(b"")),
    (5, Look::Front(2), None),
    (6, Look::Front(2), None),
    (2, Look::Whole, Some(b"longer")),
    (4, Look::Whole, Some(b"")),
    (5, Look::Whole, None),
];

/// Once the table holds other bytes, in which no NUL ends section 2's name.
static SEEN_THEN: [Seen; 4] = [
    (0, Look::Front(1), Some(b"ab")),
    (0, Look::Front(9), Some(b"abcd")),
    (1, Look::Front(1), Some(b"bc")),
    (2, Look::Front(1), None),
];

/// A section, a name, and whether the section has it.
type Row = (u32, &'static [u8], bool);

/// The first is asked for before the table is read.
static ROWS: [Row; 9] = [
    (1, b"short", true),
    (1, b"shor", false),
    (1, b"shorty", false),
    (3, b"ger", true),
    (0, b"", true),
    (4, b"", true),
    (5, b"", false),
    (5, b"x", false),
    (6, b"", false),
];

/// Whether a section's name is seen as a row says.
fn is_seen<S: Source>(rt: &HostRuntime, elf: &mut Elf<S>, row: &Seen) -> bool {
    if row.0 >= elf.shnum() {
        return false;
    }
    match row.1 {
        Look::Whole => same(rt, &section_name(elf, ScnId(row.0)), &Ok(row.2)),
        Look::Front(longest) => same(
            rt,
            &section_name_front(elf, ScnId(row.0), longest),
            &Ok(row.2),
        ),
    }
}

/// Whether the name of each section is seen as its row says.
fn are_seen<S: Source>(rt: &HostRuntime, elf: &mut Elf<S>, rows: &[Seen]) -> bool {
    for (n, row) in rows.iter().enumerate() {
        if !in_row(rt, n, is_seen(rt, elf, row)) {
            return false;
        }
    }
    true
}

/// Whether a section has a name exactly where it should.
fn is_so<S: Source>(rt: &HostRuntime, elf: &mut Elf<S>, row: &Row) -> bool {
    if row.0 >= elf.shnum() {
        return false;
    }
    same(rt, &is_named(elf, ScnId(row.0), row.1), &Ok(row.2))
}

/// Whether each section has a name exactly where it should.
fn are_so<S: Source>(rt: &HostRuntime, elf: &mut Elf<S>) -> bool {
    for (n, row) in ROWS.iter().enumerate() {
        if !in_row(rt, n, is_so(rt, elf, row)) {
            return false;
        }
    }
    true
}

/// Gives the table other bytes.
fn replace_names<S: Source>(elf: &mut Elf<S>) -> Result<(), ElfError> {
    let octets = Octets::from_slice(elf.alloc(), b"abcd\0efghijk")?;
    set(elf, STRINGS, Items::Bytes(octets))
}

/// What is seen of the names.
struct Names;

impl Question for Names {
    fn is_answered<S: Source>(&self, rt: &HostRuntime, elf: &mut Elf<S>) -> bool {
        are_seen(rt, elf, &SEEN)
            && same(rt, &replace_names(elf), &Ok(()))
            && are_seen(rt, elf, &SEEN_THEN)
    }
}

#[test]
fn the_first_bytes_of_a_name_tell_whether_it_is_longer(rt: HostRuntime) {
    assert!(rt; is_answered_of(&rt, &Names, &NAMED));
}

/// Whether sections have names.
struct Called;

impl Question for Called {
    fn is_answered<S: Source>(&self, rt: &HostRuntime, elf: &mut Elf<S>) -> bool {
        are_so(rt, elf)
    }
}

#[test]
fn a_section_has_its_name_alone(rt: HostRuntime) {
    assert!(rt; is_answered_of(&rt, &Called, &NAMED));
}
