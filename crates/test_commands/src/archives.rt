//! What readelf shows of the members of an archive.

use elf_types::ElfError;
use std::alloc::Global;
use test_kit_images::{NARROW_OBJECT, OBJECT};
use test_kit_rows::same;
use test_kit_runs::cases::{Case, Portion, RUN, Stored, are_so, bytes_of};
use test_kit_runs::prelude::ReadelfParts;
use test_kit_runs::{DONE, Ending, REFUSED, asked};

/// The begin of an archive of 662 bytes: a table of symbols at 8, a table of long names at 78, and
/// at 166 the header of a member with a long name, whose object is at 226.
pub const FRONT: &[u8] = b"!<arch>\n\
    /                                               10        `\n\0\0\0\x01\0\0\0\xa6a\0\
    //                                              27        `\na_member_with_long_name.o/\n\n\
    /0                                              312       `\n";

/// Its end after that object: an empty member at 538 and three bytes at 598.
pub const BACK: &[u8] = b"empty.o/                                        0         `\n\
    odd.txt/                                        3         `\nabc\n";

/// An archive of three members, the first of which is an object.
pub const LIBRARY: Stored = Stored::Portions(&[
    Portion::Bytes(FRONT),
    Portion::Image(OBJECT),
    Portion::Bytes(BACK),
]);

/// The archive up to the header of its last member.
pub const CUT_ARCHIVE: Stored = Stored::Portions(&[
    Portion::Bytes(FRONT),
    Portion::Image(OBJECT),
    Portion::Bytes(BACK),
    Portion::Length(657),
]);

/// The line of an archive.
const HEADERS: Case = Case {
    line: "readelf -h F",
    ..RUN
};

/// The object of the archive under its title.
const SHOWN: &[u8] = b"File: F[a_member_with_long_name.o]\nELF header\n  class: 64\n  \
      order: least\n  osabi: 0\n  abiversion: 0\n  type: REL\n  machine: X86_64\n  version: 1\n  \
      entry: 0x0\n  phoff: 0\n  shoff: 120\n  flags: 0x0\n  ehsize: 64\n  phentsize: 0\n  \
      phnum: 0\n  shentsize: 64\n  shnum: 3\n  shstrndx: 1\n";

/// Nothing is damaged; a body, the end of the first header, its size, a long name without a text.
static DAMAGES: [Case; 5] = [
    Case {
        file: LIBRARY,
        ending: Ending {
            out: SHOWN,
            err: b"readelf: F[empty.o]: too short\nreadelf: F[odd.txt]: too short\n",
            ..REFUSED
        },
        ..HEADERS
    },
    Case {
        file: CUT_ARCHIVE,
        ending: Ending {
            out: SHOWN,
            err: b"readelf: F[empty.o]: too short\nreadelf: F: bad member at 598\n",
            ..REFUSED
        },
        ..HEADERS
    },
    Case {
        file: Stored::Portions(&[
            Portion::Bytes(FRONT),
            Portion::Image(OBJECT),
            Portion::Bytes(BACK),
            Portion::Byte(66, 0),
        ]),
        ending: Ending {
            err: b"readelf: F: bad member at 8\n",
            ..REFUSED
        },
        ..HEADERS
    },
    Case {
        file: Stored::Portions(&[
            Portion::Bytes(FRONT),
            Portion::Image(OBJECT),
            Portion::Bytes(BACK),
            Portion::Byte(56, b'x'),
        ]),
        ending: Ending {
            err: b"readelf: F: bad member at 8\n",
            ..REFUSED
        },
        ..HEADERS
    },
    Case {
        file: Stored::Portions(&[
            Portion::Bytes(FRONT),
            Portion::Byte(167, b'9'),
            Portion::Byte(168, b'9'),
            Portion::Image(OBJECT),
            Portion::Bytes(BACK),
        ]),
        ending: Ending {
            err: b"readelf: F: bad member at 166\n",
            ..REFUSED
        },
        ..HEADERS
    },
];

#[test]
fn members_are_shown_up_to_a_bad_header(rt: HostRuntime) {
    assert!(rt; are_so(&rt, &[], &DAMAGES));
}

/// The header of a member with that object.
const TWIN: &[u8] = b"a.o/                                            208       `\n";

/// An archive with an archive, and an object twice under one name; and one without members.
static INNER: [Case; 2] = [
    Case {
        line: "readelf -l F",
        file: Stored::Portions(&[
            Portion::Bytes(
                b"!<arch>\n\
                inner.a/                                        662       `\n",
            ),
            Portion::Bytes(FRONT),
            Portion::Image(OBJECT),
            Portion::Bytes(BACK),
            Portion::Bytes(TWIN),
            Portion::Image(NARROW_OBJECT),
            Portion::Bytes(TWIN),
            Portion::Image(NARROW_OBJECT),
        ]),
        ending: Ending {
            out: b"File: F[a.o]\nProgram headers: 0\nFile: F[a.o]\nProgram headers: 0\n",
            err: b"readelf: F[inner.a]: not an ELF image\n",
            ..REFUSED
        },
        ..RUN
    },
    Case {
        line: "readelf -hl F",
        file: Stored::Bytes(b"!<arch>\n"),
        ending: DONE,
        ..RUN
    },
];

#[test]
fn an_inner_archive_is_no_image_and_an_empty_one_shows_nothing(rt: HostRuntime) {
    assert!(rt; are_so(&rt, &[], &INNER));
}

/// The parts of `readelf -h`.
const HEADER: ReadelfParts = ReadelfParts {
    header: true,
    segments: false,
    sections: false,
    symbols: false,
    relocations: false,
    dynamic: false,
    notes: false,
    versions: false,
};

/// The archive above, which is lent.
static ARCHIVE: Stored = LIBRARY;

/// How many bytes of it are asked for when its members' headers are shown.
fn asked_of_library(alloc: Global) -> Result<u64, ElfError> {
    match bytes_of(alloc, &ARCHIVE) {
        Ok(archive) => asked(alloc, archive.as_slice(), &HEADER),
        Err(e) => Err(e),
    }
}

/// The first line for the kind and for the walk, five headers and the long names, and of the object
/// its header and three section headers.
const DUE: u64 = 8 + 8 + 5 * 60 + 27 + 64 + 3 * 64;

#[test]
fn a_body_is_not_read_whole(rt: HostRuntime) {
    assert!(rt; same(&rt, &asked_of_library(rt.alloc()), &Ok(DUE)));
}
