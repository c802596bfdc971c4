//! What size shows of images, and its first line.

use elf_types::constants::{SHT_NOBITS, SHT_PROGBITS};
use elf_types::{ElfError, Shdr};
use test_kit_images::{Field, HeaderField, ImageStart, NULL_SECTION, Put, Recipe, WIDE, image_of};
use test_kit_rows::same;
use test_kit_runs::cases::{Case, FileFaults, GOOD, RUN, Stored, are_so, are_so_in_all_forms};
use test_kit_runs::{DONE, Ending, REFUSED, Size, said_by};
use tool_output::Status;

/// An object of four sections, of which the file need not hold the bytes.
const BARE: Recipe = Recipe {
    form: WIDE,
    start: ImageStart::Table(64, 4, 0),
    puts: &[],
};

/// Code, data, and memory without bytes in the file.
const THREE: Recipe = Recipe {
    puts: &[Put::Sections(&[
        NULL_SECTION,
        Shdr {
            stype: SHT_PROGBITS,
            flags: 6,
            size: 32,
            ..NULL_SECTION
        },
        Shdr {
            stype: SHT_PROGBITS,
            flags: 3,
            size: 16,
            ..NULL_SECTION
        },
        Shdr {
            stype: SHT_NOBITS,
            flags: 3,
            size: 256,
            ..NULL_SECTION
        },
    ])],
    ..BARE
};

/// A section that is code and can be written, one that is not loaded, and constants.
const CODE: Recipe = Recipe {
    puts: &[Put::Sections(&[
        NULL_SECTION,
        Shdr {
            stype: SHT_PROGBITS,
            flags: 7,
            size: 1,
            ..NULL_SECTION
        },
        Shdr {
            stype: SHT_PROGBITS,
            flags: 1,
            size: 10,
            ..NULL_SECTION
        },
        Shdr {
            stype: SHT_PROGBITS,
            flags: 2,
            size: 12345678,
            ..NULL_SECTION
        },
    ])],
    ..BARE
};

/// Two sections of the greatest size, without bytes in the file.
const GREATEST: Recipe = Recipe {
    puts: &[Put::Sections(&[
        NULL_SECTION,
        Shdr {
            stype: SHT_NOBITS,
            flags: 2,
            size: u64::MAX,
            ..NULL_SECTION
        },
        Shdr {
            stype: SHT_NOBITS,
            flags: 2,
            size: u64::MAX,
            ..NULL_SECTION
        },
        Shdr {
            stype: SHT_PROGBITS,
            flags: 2,
            ..NULL_SECTION
        },
    ])],
    ..BARE
};

/// What size shows of them.
static SIZES: [Case; 3] = [
    Case {
        line: "size F",
        file: Stored::Image(THREE),
        ending: Ending {
            out: b"   text\t   data\t    bss\t    dec\t    hex\tfilename\n     \
                32\t     16\t    256\t    304\t    130\tF\n",
            ..DONE
        },
        ..RUN
    },
    Case {
        line: "size F",
        file: Stored::Image(CODE),
        ending: Ending {
            out: b"   text\t   data\t    bss\t    dec\t    hex\tfilename\n\
                12345679\t      0\t      0\t12345679\t bc614f\tF\n",
            ..DONE
        },
        ..RUN
    },
    Case {
        line: "size F",
        file: Stored::Image(GREATEST),
        ending: Ending {
            out: b"   text\t   data\t    bss\t    dec\t    hex\tfilename\n      0\t      0\t\
                36893488147419103230\t36893488147419103230\t1fffffffffffffffe\tF\n",
            ..DONE
        },
        ..RUN
    },
];

#[test]
fn loaded_sections_are_added_up(rt: HostRuntime) {
    assert!(rt; are_so(&rt, &[], &SIZES));
}

/// An object of 100 sections, which are more than the headers that are read at once: those that are
/// loaded are the last and the first of what is read together. Section 0 tells their number too.
const MANY: Recipe = Recipe {
    form: WIDE,
    start: ImageStart::Table(64, 100, 0),
    puts: &[
        Put::Section(
            0,
            Shdr {
                size: 100,
                ..NULL_SECTION
            },
        ),
        Put::Section(
            1,
            Shdr {
                stype: SHT_PROGBITS,
                flags: 6,
                size: 32,
                ..NULL_SECTION
            },
        ),
        Put::Section(
            31,
            Shdr {
                stype: SHT_PROGBITS,
                flags: 2,
                size: 1,
                ..NULL_SECTION
            },
        ),
        Put::Section(
            32,
            Shdr {
                stype: SHT_PROGBITS,
                flags: 3,
                size: 16,
                ..NULL_SECTION
            },
        ),
        Put::Section(
            64,
            Shdr {
                stype: SHT_PROGBITS,
                flags: 3,
                size: 4,
                ..NULL_SECTION
            },
        ),
        Put::Section(
            99,
            Shdr {
                stype: SHT_NOBITS,
                flags: 3,
                size: 256,
                ..NULL_SECTION
            },
        ),
    ],
};

/// What size shows of it.
const SHOWN: &[u8] = b"   text\t   data\t    bss\t    dec\t    hex\tfilename\n     \
    33\t     20\t    256\t    309\t    135\tF\n";

/// The number of sections is in the header, or in section 0 alone.
static COUNTS: [Case; 2] = [
    Case {
        line: "size F",
        file: Stored::Image(MANY),
        ending: Ending { out: SHOWN, ..DONE },
        ..RUN
    },
    Case {
        line: "size F",
        file: Stored::Changed(MANY, Put::Field(Field::Header(HeaderField::Shnum), 0)),
        ending: Ending { out: SHOWN, ..DONE },
        ..RUN
    },
];

#[test]
fn many_sections_are_added_up_in_each_form(rt: HostRuntime) {
    assert!(rt; are_so_in_all_forms(&rt, &[], &COUNTS));
}

/// The run over two files, of the second of which a read fails.
const UNREAD: Case = Case {
    line: "size S F",
    file: Stored::Image(MANY),
    script: Stored::Image(THREE),
    ending: Ending {
        status: Status::ReadFailed,
        out: b"   text\t   data\t    bss\t    dec\t    hex\tfilename\n     \
            32\t     16\t    256\t    304\t    130\tS\n",
        ..DONE
    },
    ..RUN
};

/// The fourth read of F, since three are of its kind and of its header.
const FIRST_READ: FileFaults = FileFaults {
    name: "F",
    read: 4,
    ..GOOD
};

/// The first of the four reads of its section headers fails, or the last.
static LATE: [Case; 2] = [
    Case {
        bad: FIRST_READ,
        ..UNREAD
    },
    Case {
        bad: FileFaults {
            read: 7,
            ..FIRST_READ
        },
        ..UNREAD
    },
];

#[test]
fn a_failed_read_of_section_headers_keeps_what_was_shown(rt: HostRuntime) {
    assert!(rt; are_so(&rt, &[], &LATE));
}

/// The first line comes before any file is looked at; and there is no file.
static FIRST_LINE: [Case; 2] = [
    Case {
        line: "size F G",
        file: Stored::Bytes(b"abc"),
        ending: Ending {
            out: b"   text\t   data\t    bss\t    dec\t    hex\tfilename\n",
            err: b"size: F: too short\nsize: G: not found\n",
            ..REFUSED
        },
        ..RUN
    },
    Case {
        line: "size",
        file: Stored::Bytes(b""),
        ending: Ending {
            status: Status::BadWords,
            out: b"",
            err: b"usage: elfkit size FILE..\n",
        },
        ..RUN
    },
];

#[test]
fn the_first_line_stands_where_all_is_refused(rt: HostRuntime) {
    assert!(rt; are_so(&rt, &[], &FIRST_LINE));
}

/// The object of code, data and memory, which is lent.
static OWN: Recipe = Recipe { ..THREE };

/// The row of the object.
const ROW: &[u8] = b"     32\t     16\t    256\t    304\t    130\tF\n";

/// Whether size's own call shows the row of an object, without the first line.
fn own_call_shows_the_row(rt: &HostRuntime) -> Result<bool, ElfError> {
    let object = image_of(rt.alloc(), &OWN)?;
    Ok(said_by(rt.alloc(), &Size, object)?.is(rt, false, ROW, b""))
}

#[test]
fn the_own_call_shows_a_row_over_two_outputs(rt: HostRuntime) {
    assert!(rt; same(&rt, &own_call_shows_the_row(&rt), &Ok(true)));
}
