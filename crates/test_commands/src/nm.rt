//! What nm shows: the names before its rows, their order, and what has none. `letters` has the
//! forms of the rows and their letters.

use crate::archives::{BACK, CUT_ARCHIVE, FRONT, LIBRARY};
use elf_types::constants::{SHT_STRTAB, SHT_SYMTAB, SHT_SYMTAB_SHNDX};
use elf_types::{ElfError, Shdr};
use test_kit_images::{
    Field, ImageStart, NARROW, NULL_SECTION, OBJECT, Put, Recipe, SectionField, WIDE, image_of,
};
use test_kit_rows::same;
use test_kit_runs::cases::{Case, Portion, RUN, Stored, are_so};
use test_kit_runs::prelude::NmOptions;
use test_kit_runs::{DONE, Ending, Nm, REFUSED, said_by};
use tool_text::Radix;

/// The object as it is, of which nothing is listed.
pub const SAME: Case = Case {
    line: "nm F",
    file: Stored::Image(OBJECT),
    ..RUN
};

/// No options.
const PLAIN: NmOptions = NmOptions {
    name_each: false,
    globals: false,
    undefined: false,
    by_value: false,
    portable: false,
    radix: Radix::Hex,
};

/// Whether nm's own call shows the row of the object.
fn own_call_shows_the_row(rt: &HostRuntime) -> Result<bool, ElfError> {
    let object = image_of(rt.alloc(), &OBJECT)?;
    Ok(said_by(rt.alloc(), &Nm(&PLAIN), object)?.is(rt, false, b"0000000000001000 A a\n", b""))
}

#[test]
fn the_own_call_shows_rows_over_two_outputs(rt: HostRuntime) {
    assert!(rt; same(&rt, &own_call_shows_the_row(&rt), &Ok(true)));
}

/// The row of the object of class 32, greatest byte first; a missing file, whose message is before
/// the title of the next one; and the row of an operand that begins with a dash.
static NAMES: [Case; 3] = [
    Case {
        file: Stored::Image(Recipe {
            form: NARROW,
            ..OBJECT
        }),
        ending: Ending {
            out: b"00001000 A a\n",
            ..DONE
        },
        ..SAME
    },
    Case {
        line: "nm none F",
        ending: Ending {
            out: b"F:\n0000000000001000 A a\n",
            err: b"nm: none: not found\n",
            ..REFUSED
        },
        ..SAME
    },
    Case {
        line: "nm -gP -- -x",
        names: ("-x", "S"),
        ending: Ending {
            out: b"a A 1000 4\n",
            ..DONE
        },
        ..SAME
    },
];

#[test]
fn files_have_titles_and_names_dashes(rt: HostRuntime) {
    assert!(rt; are_so(&rt, &[], &NAMES));
}

/// What nm says of an archive whose third member is whole, and where it is cut.
static MEMBERS: [Case; 2] = [
    Case {
        line: "nm -A F",
        file: LIBRARY,
        ending: Ending {
            out: b"F[a_member_with_long_name.o]: 0000000000001000 A a\n",
            err: b"nm: F[empty.o]: too short\nnm: F[odd.txt]: too short\n",
            ..REFUSED
        },
        ..RUN
    },
    Case {
        line: "nm F",
        file: CUT_ARCHIVE,
        ending: Ending {
            out: b"F[a_member_with_long_name.o]:\n0000000000001000 A a\n",
            err: b"nm: F[empty.o]: too short\nnm: F: bad member at 598\n",
            ..REFUSED
        },
        ..RUN
    },
];

#[test]
fn members_have_their_own_names(rt: HostRuntime) {
    assert!(rt; are_so(&rt, &[], &MEMBERS));
}

/// No symbols, which rejects nothing.
const NO_SYMBOLS: Ending = Ending {
    err: b"nm: F: no symbols\n",
    ..DONE
};

/// A table of symbols that is ragged, out of the file, compressed; and an object without sections.
static UNREAD: [Case; 4] = [
    Case {
        file: Stored::Changed(
            OBJECT,
            Put::Field(Field::Section(2, SectionField::Size), 25),
        ),
        ending: Ending {
            err: b"nm: F: section 2 ragged\n",
            ..REFUSED
        },
        ..SAME
    },
    Case {
        file: Stored::Changed(
            OBJECT,
            Put::Field(Field::Section(2, SectionField::Offset), 1 << 63),
        ),
        ending: Ending {
            err: b"nm: F: section 2 out of file\n",
            ..REFUSED
        },
        ..SAME
    },
    Case {
        file: Stored::Changed(
            OBJECT,
            Put::Field(Field::Section(2, SectionField::Flags), 0x800),
        ),
        ending: NO_SYMBOLS,
        ..SAME
    },
    Case {
        file: Stored::Image(Recipe {
            start: ImageStart::HeaderAlone,
            ..OBJECT
        }),
        ending: NO_SYMBOLS,
        ..SAME
    },
];

#[test]
fn tables_that_can_not_be_read_have_a_message(rt: HostRuntime) {
    assert!(rt; are_so(&rt, &[], &UNREAD));
}

/// Symbols with extended indexes: a zero symbol, two that are alike, and one whose name is past the names.
const SYMBOLS: &[u8] = b"\0\0\0\0\0\0\0\0\0\0\0\0\0\0\0\0\0\0\0\0\0\0\0\0\
    \x01\0\0\0\x12\0\xff\xff\x10\0\0\0\0\0\0\0\0\0\0\0\0\0\0\0\
    \x01\0\0\0\x12\0\xff\xff\x10\0\0\0\0\0\0\0\0\0\0\0\0\0\0\0\
    \x09\0\0\0\x12\0\xff\xff\x10\0\0\0\0\0\0\0\0\0\0\0\0\0\0\0";

/// The sections of these symbols: the names, the symbols, and one that is not there.
const INDEXES: &[u8] = b"\0\0\0\0\x01\0\0\0\x02\0\0\0\x09\0\0\0";

/// An object with them: names, symbols, indexes. Its section 2 holds code.
const EXTENDED: Recipe = Recipe {
    form: WIDE,
    start: ImageStart::Table(64, 4, 1),
    puts: &[
        Put::Sections(&[
            NULL_SECTION,
            Shdr {
                stype: SHT_STRTAB,
                offset: 320,
                size: 3,
                ..NULL_SECTION
            },
            Shdr {
                stype: SHT_SYMTAB,
                flags: 6,
                offset: 328,
                size: 96,
                link: 1,
                ..NULL_SECTION
            },
            Shdr {
                stype: SHT_SYMTAB_SHNDX,
                offset: 424,
                size: 16,
                link: 2,
                ..NULL_SECTION
            },
        ]),
        Put::Bytes(320, b"\0a\0"),
        Put::Bytes(328, SYMBOLS),
        Put::Bytes(424, INDEXES),
    ],
};

/// Its rows, of which two differ by their index alone.
const ROWS: Ending = Ending {
    out: b"0000000000000010 ? <none>\n0000000000000010 N a\n0000000000000010 T a\n",
    ..DONE
};

/// Both orders of them.
static ORDERS: [Case; 2] = [
    Case {
        line: "nm F",
        file: Stored::Image(EXTENDED),
        ending: ROWS,
        ..RUN
    },
    Case {
        line: "nm -v F",
        file: Stored::Image(EXTENDED),
        ending: ROWS,
        ..RUN
    },
];

#[test]
fn extended_indexes_are_followed_and_twins_stay(rt: HostRuntime) {
    assert!(rt; are_so(&rt, &[], &ORDERS));
}
