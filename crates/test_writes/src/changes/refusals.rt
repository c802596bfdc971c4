//! What keeps a file from being written.

use crate::changes::edits::{KEPT, OTHER, UNTOUCHED};
use test_kit_images::{Field, NARROW_OBJECT, OBJECT, Put, SectionField};
use test_kit_runs::cases::{Case, Stored, are_so, is_so};
use test_kit_runs::{Ending, Failing, NOTHING, REFUSED};

/// Updates that are rejected: two parts share a byte, an item does not fit class 32, the image gets
/// too large, and a section that is not read passes the end of the file.
static UNWRITTEN: [Case; 4] = [
    Case {
        script: Stored::Bytes(b"flag object set 4\nset shdr 1 offset 8\n"),
        ending: Ending {
            out: b"flags 0x4\nok\nrefused overlap header section 1\n",
            ..REFUSED
        },
        ..UNTOUCHED
    },
    Case {
        file: Stored::Image(NARROW_OBJECT),
        script: Stored::Bytes(b"addall 2 0 4294967296\n"),
        ending: Ending {
            out: b"changed 2\nrefused unfit piece 2 0 index 0\n",
            ..REFUSED
        },
        ..UNTOUCHED
    },
    Case {
        file: Stored::Image(NARROW_OBJECT),
        script: Stored::Bytes(b"flag object set 4\nset shdr 1 offset 0xffffffff\n"),
        ending: Ending {
            out: b"flags 0x4\nok\nrefused too large\n",
            ..REFUSED
        },
        ..UNTOUCHED
    },
    Case {
        file: Stored::Changed(
            OBJECT,
            Put::Field(Field::Section(2, SectionField::Offset), u64::MAX),
        ),
        script: Stored::Bytes(b"set shdr 1 flags 2\n"),
        ending: Ending {
            out: b"ok\nrefused section 2 out of file\n",
            ..REFUSED
        },
        ..UNTOUCHED
    },
];

#[test]
fn a_refused_update_writes_nothing(rt: HostRuntime) {
    assert!(rt; are_so(&rt, &OTHER, &UNWRITTEN));
}

/// The script is not there, or a line of it is no call; the file is not there, is no image, or is
/// an archive.
static COMPLAINTS: [Case; 6] = [
    Case {
        line: "calls -i F G",
        file: Stored::Bytes(b""),
        script: Stored::Bytes(b""),
        ending: Ending {
            err: b"calls: G: not found\n",
            ..REFUSED
        },
        ..UNTOUCHED
    },
    Case {
        line: "calls -i G S",
        file: Stored::Bytes(b""),
        script: Stored::Bytes(b"raw\n"),
        ending: Ending {
            err: b"calls: S: line 1: wrong words\n",
            ..REFUSED
        },
        ..UNTOUCHED
    },
    Case {
        line: "calls -i G S",
        file: Stored::Bytes(b""),
        script: Stored::Bytes(b""),
        ending: Ending {
            err: b"calls: G: not found\n",
            ..REFUSED
        },
        ..UNTOUCHED
    },
    Case {
        line: "calls -i F F",
        file: Stored::Bytes(b"abcdefgh"),
        script: Stored::Bytes(b""),
        ending: Ending {
            err: b"calls: F: line 1: no such call\n",
            ..REFUSED
        },
        ..UNTOUCHED
    },
    Case {
        file: Stored::Bytes(b"abc"),
        script: Stored::Bytes(b"ehdr\n"),
        ending: Ending {
            err: b"calls: F: too short\n",
            ..REFUSED
        },
        ..UNTOUCHED
    },
    Case {
        file: Stored::Bytes(b"!<arch>\n"),
        script: Stored::Bytes(b"newscn\n"),
        ending: Ending {
            err: b"calls: F: not an ELF image\n",
            ..REFUSED
        },
        ..UNTOUCHED
    },
];

#[test]
fn without_calls_or_an_image_the_file_stays(rt: HostRuntime) {
    assert!(rt; are_so(&rt, &OTHER, &COMPLAINTS));
}

/// A script without calls has its message where the file would not be handed out: it is not opened.
static UNOPENED: Case = Case {
    file: Stored::Bytes(b"abc"),
    script: Stored::Bytes(b"ehdr\nraw\n"),
    failing: Failing { open: 2, ..NOTHING },
    ending: Ending {
        err: b"calls: S: line 2: wrong words\n",
        ..REFUSED
    },
    ..UNTOUCHED
};

#[test]
fn a_script_without_calls_opens_no_file(rt: HostRuntime) {
    assert!(rt; is_so(&rt, &OTHER, &UNOPENED));
}

/// A file that is not there stays away.
static AWAY: Case = Case {
    line: "calls -i G S",
    file: Stored::Bytes(b""),
    script: Stored::Bytes(b"newscn\n"),
    ending: Ending {
        err: b"calls: G: not found\n",
        ..REFUSED
    },
    name: "G",
    ..KEPT
};

#[test]
fn a_file_that_is_not_there_is_not_made(rt: HostRuntime) {
    assert!(rt; is_so(&rt, &OTHER, &AWAY));
}
