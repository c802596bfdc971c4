//! What lines shows, and which tables it rejects.

use elf_types::constants::{SHF_COMPRESSED, SHT_PROGBITS, SHT_STRTAB};
use elf_types::{ElfError, Shdr};
use test_kit_images::{
    Field, ImageStart, NARROW, NULL_SECTION, Put, Recipe, SectionField, WIDE, image_of,
};
use test_kit_rows::same;
use test_kit_runs::cases::{Case, RUN, Stored, are_so};
use test_kit_runs::{DONE, Ending, Lines, REFUSED, said_by};

/// The names of the sections.
const NAMES: &[u8] = b"\0.debug_line\0";

/// The header of the section of the names.
const NAMES_HEADER: Shdr = Shdr {
    stype: SHT_STRTAB,
    offset: 64,
    size: 13,
    ..NULL_SECTION
};

/// The header of a line table, but for its size.
const TABLE: Shdr = Shdr {
    name: 1,
    stype: SHT_PROGBITS,
    offset: 512,
    ..NULL_SECTION
};

/// A unit of version 2 with one file, which makes two rows.
const UNIT: &[u8] = b"\x2e\0\0\0\x02\0\x17\0\0\0\x01\x01\xfb\x0e\x0a\0\x01\x01\x01\x01\0\0\0\x01\
    \0a.c\0\0\0\0\0\0\x09\x02\0\x10\x40\0\0\0\0\0\x14\x02\x04\0\x01\x01";

/// The unit without its last byte.
const CUT: &[u8] = b"\x2e\0\0\0\x02\0\x17\0\0\0\x01\x01\xfb\x0e\x0a\0\x01\x01\x01\x01\0\0\0\x01\
    \0a.c\0\0\0\0\0\0\x09\x02\0\x10\x40\0\0\0\0\0\x14\x02\x04\0\x01";

/// The unit, and after it the unit without its last byte.
const TWO_UNITS: &[u8] =
    b"\x2e\0\0\0\x02\0\x17\0\0\0\x01\x01\xfb\x0e\x0a\0\x01\x01\x01\x01\0\0\0\x01\
    \0a.c\0\0\0\0\0\0\x09\x02\0\x10\x40\0\0\0\0\0\x14\x02\x04\0\x01\x01\
    \x2e\0\0\0\x02\0\x17\0\0\0\x01\x01\xfb\x0e\x0a\0\x01\x01\x01\x01\0\0\0\x01\
    \0a.c\0\0\0\0\0\0\x09\x02\0\x10\x40\0\0\0\0\0\x14\x02\x04\0\x01";

/// The lines of a unit at 0.
const LINES: &[u8] = b"Line table of section 1 [.debug_line]\n  unit at 0 version 2\n    \
    file 1 [a.c]\n    0x401000 file 1 line 6 column 0 stmt\n    \
    0x401004 file 1 line 6 column 0 stmt end\n";

/// A unit of version 4 of class 32, the greatest byte first, with two files. Its program sets each
/// register: an address, a file, a column, whether a row is a statement, and a line; then come rows
/// by `DW_LNS_copy`, by a special opcode and, after `DW_LNS_const_add_pc`, by the sequence's end.
const NARROW_UNIT: &[u8] = b"\0\0\0\x3f\0\x04\0\0\0\x24\x02\x01\0\xff\x04\x0d\0\x01\x01\x01\x01\
    \0\0\0\x01\0\0\x01d\0\0a.c\0\x01\0\0b.h\0\0\0\0\0\0\x05\x02\0\0\x10\0\x04\x02\x05\x07\x06\
    \x03\x09\x01\x06\x13\x08\0\x01\x01";

/// An object whose section 1 is named `.debug_line` and has the unit at the end of the image.
/// Section 2 has the names.
const WITH_UNIT: Recipe = Recipe {
    form: WIDE,
    start: ImageStart::Table(80, 3, 2),
    puts: &[
        Put::Bytes(64, NAMES),
        Put::Sections(&[
            NULL_SECTION,
            Shdr {
                size: UNIT.len() as u64,
                ..TABLE
            },
            NAMES_HEADER,
        ]),
        Put::Bytes(512, UNIT),
    ],
};

/// The object with the unit that is cut.
const WITH_CUT: Recipe = Recipe {
    form: WIDE,
    start: ImageStart::Table(80, 3, 2),
    puts: &[
        Put::Bytes(64, NAMES),
        Put::Sections(&[
            NULL_SECTION,
            Shdr {
                size: CUT.len() as u64,
                ..TABLE
            },
            NAMES_HEADER,
        ]),
        Put::Bytes(512, CUT),
    ],
};

/// The object with both units.
const WITH_TWO: Recipe = Recipe {
    form: WIDE,
    start: ImageStart::Table(80, 3, 2),
    puts: &[
        Put::Bytes(64, NAMES),
        Put::Sections(&[
            NULL_SECTION,
            Shdr {
                size: TWO_UNITS.len() as u64,
                ..TABLE
            },
            NAMES_HEADER,
        ]),
        Put::Bytes(512, TWO_UNITS),
    ],
};

/// The object with the unit of class 32.
const WITH_NARROW: Recipe = Recipe {
    form: NARROW,
    start: ImageStart::Table(80, 3, 2),
    puts: &[
        Put::Bytes(64, NAMES),
        Put::Sections(&[
            NULL_SECTION,
            Shdr {
                size: NARROW_UNIT.len() as u64,
                ..TABLE
            },
            NAMES_HEADER,
        ]),
        Put::Bytes(512, NARROW_UNIT),
    ],
};

/// How lines ends over these tables.
static TABLES: [Case; 4] = [
    Case {
        line: "lines F",
        file: Stored::Image(WITH_UNIT),
        ending: Ending { out: LINES, ..DONE },
        ..RUN
    },
    Case {
        line: "lines F",
        file: Stored::Image(WITH_CUT),
        ending: Ending {
            out: b"Line table of section 1 [.debug_line]\n",
            err: b"lines: F: section 1: bad line table at 0: cut\n",
            ..REFUSED
        },
        ..RUN
    },
    Case {
        line: "lines F",
        file: Stored::Image(WITH_TWO),
        ending: Ending {
            out: LINES,
            err: b"lines: F: section 1: bad line table at 50: cut\n",
            ..REFUSED
        },
        ..RUN
    },
    Case {
        line: "lines F",
        file: Stored::Image(WITH_NARROW),
        ending: Ending {
            out: b"Line table of section 1 [.debug_line]\n  unit at 0 version 4\n    \
                file 1 [a.c]\n    file 2 [b.h]\n    0x1000 file 2 line 10 column 7 stmt\n    \
                0x1002 file 2 line 11 column 7\n    0x107a file 2 line 11 column 7 end\n",
            ..DONE
        },
        ..RUN
    },
];

#[test]
fn units_of_both_forms_are_shown_up_to_one_that_is_cut(rt: HostRuntime) {
    assert!(rt; are_so(&rt, &[], &TABLES));
}

/// A field of section 1, what is put there, and how the run ends then, without output; and a file
/// that is not there.
static CHANGES: [Case; 4] = [
    Case {
        line: "lines F",
        file: Stored::Changed(
            WITH_UNIT,
            Put::Field(Field::Section(1, SectionField::Flags), SHF_COMPRESSED),
        ),
        ending: Ending {
            err: b"lines: F: section 1: compressed\n",
            ..REFUSED
        },
        ..RUN
    },
    Case {
        line: "lines F",
        file: Stored::Changed(
            WITH_UNIT,
            Put::Field(Field::Section(1, SectionField::Size), 51),
        ),
        ending: Ending {
            err: b"lines: F: section 1 out of file\n",
            ..REFUSED
        },
        ..RUN
    },
    Case {
        line: "lines F",
        file: Stored::Changed(
            WITH_UNIT,
            Put::Field(Field::Section(1, SectionField::Name), 2),
        ),
        ending: DONE,
        ..RUN
    },
    Case {
        line: "lines G",
        file: Stored::Bytes(b""),
        ending: Ending {
            err: b"lines: G: not found\n",
            ..REFUSED
        },
        ..RUN
    },
];

#[test]
fn other_sections_are_refused_or_passed_over(rt: HostRuntime) {
    assert!(rt; are_so(&rt, &[], &CHANGES));
}

/// The object with the unit, which is lent.
static OWN: Recipe = Recipe { ..WITH_UNIT };

/// Whether the own call of lines shows the rows of a table.
fn own_call_shows_the_rows(rt: &HostRuntime) -> Result<bool, ElfError> {
    let object = image_of(rt.alloc(), &OWN)?;
    Ok(said_by(rt.alloc(), &Lines, object)?.is(rt, false, LINES, b""))
}

#[test]
fn the_own_call_shows_rows_over_two_outputs(rt: HostRuntime) {
    assert!(rt; same(&rt, &own_call_shows_the_rows(&rt), &Ok(true)));
}
