//! What calls with -o leaves: its lines, and the file that is made of the image that the calls
//! leave, or none.

use test_kit_images::{Field, NARROW, NARROW_OBJECT, OBJECT, Put, Recipe, SectionField};
use test_kit_runs::cases::{
    Case, FailingCall, FoundFile, HeldAfter, Outcome, RUN, State, Stored, are_so, fail_so,
};
use test_kit_runs::{DONE, Ending, Failing, NOTHING, REFUSED};
use tool_output::Status;

/// A file O, which is there before each run.
pub static OLD: [FoundFile; 1] = [FoundFile {
    name: "O",
    stored: Stored::Bytes(b"old"),
}];

/// A run over the object with two symbols, which leaves the file O as it was.
pub const SCRIPTED: Case = Case {
    line: "calls -o O F S",
    file: Stored::Image(OBJECT),
    held: HeldAfter::Before,
    ..RUN
};

/// The object with two symbols, where the value of the second one is 0x1234.
const CHANGED: Recipe = Recipe {
    puts: &[Put::Bytes(104, b"\x34\x12")],
    ..OBJECT
};

/// The changed object in class 32, the greatest byte first.
const NARROW_CHANGED: Recipe = Recipe {
    form: NARROW,
    puts: &[Put::Bytes(76, b"\0\0\x12\x34")],
    ..OBJECT
};

/// Scripts whose update is not rejected: an image with nothing changed is the same, and a rejected
/// call does not keep the file from being made.
static WRITTEN: [Case; 5] = [
    Case {
        script: Stored::Bytes(b""),
        ending: Ending {
            out: b"size 312\n",
            ..DONE
        },
        held: HeldAfter::Now(Stored::Image(OBJECT)),
        ..SCRIPTED
    },
    Case {
        script: Stored::Bytes(b"set sym 2 0 1 value 0x1234\nnull\n"),
        ending: Ending {
            out: b"ok\nsize 312\nsize 312\n",
            ..DONE
        },
        held: HeldAfter::Now(Stored::Image(CHANGED)),
        ..SCRIPTED
    },
    Case {
        file: Stored::Image(NARROW_OBJECT),
        script: Stored::Bytes(SCRIPT),
        ending: Ending {
            out: b"ok\nsize 208\n",
            ..DONE
        },
        held: HeldAfter::Now(Stored::Image(NARROW_CHANGED)),
        ..SCRIPTED
    },
    Case {
        file: Stored::Image(NARROW_OBJECT),
        script: Stored::Bytes(b"flag object set 5\n"),
        ending: Ending {
            out: b"flags 0x5\nsize 208\n",
            ..DONE
        },
        held: HeldAfter::Now(Stored::Image(NARROW_OBJECT)),
        ..SCRIPTED
    },
    Case {
        script: Stored::Bytes(b"raw 9\nset sym 2 0 1 value 0x1234\n"),
        ending: Ending {
            out: b"refused no section 9 of 3\nok\nsize 312\n",
            ..REFUSED
        },
        held: HeldAfter::Now(Stored::Image(CHANGED)),
        ..SCRIPTED
    },
];

#[test]
fn the_image_that_the_calls_leave_is_written(rt: HostRuntime) {
    assert!(rt; are_so(&rt, &OLD, &WRITTEN));
}

/// Scripts whose update is rejected: two parts share a byte, the image gets too large, and a
/// section passes the end of the file, in an object that is changed elsewhere.
static UNWRITTEN: [Case; 3] = [
    Case {
        script: Stored::Bytes(b"flag object set 4\nset shdr 1 offset 8\n"),
        ending: Ending {
            out: b"flags 0x4\nok\nrefused overlap header section 1\n",
            ..REFUSED
        },
        ..SCRIPTED
    },
    Case {
        file: Stored::Image(NARROW_OBJECT),
        script: Stored::Bytes(b"flag object set 4\nset shdr 1 offset 0xffffffff\n"),
        ending: Ending {
            out: b"flags 0x4\nok\nrefused too large\n",
            ..REFUSED
        },
        ..SCRIPTED
    },
    Case {
        file: Stored::Changed(
            OBJECT,
            Put::Field(Field::Section(2, SectionField::Offset), u64::MAX),
        ),
        script: Stored::Bytes(b"set shdr 1 flags 2\nnull\n"),
        ending: Ending {
            out: b"ok\nrefused section 2 out of file\nrefused section 2 out of file\n",
            ..REFUSED
        },
        ..SCRIPTED
    },
];

#[test]
fn a_refused_update_makes_no_file(rt: HostRuntime) {
    assert!(rt; are_so(&rt, &OLD, &UNWRITTEN));
}

/// Words, files that are no script or no image, and the message.
static COMPLAINTS: [Case; 6] = [
    Case {
        line: "calls -o O F G",
        file: Stored::Bytes(b""),
        script: Stored::Bytes(b""),
        ending: Ending {
            err: b"calls: G: not found\n",
            ..REFUSED
        },
        ..SCRIPTED
    },
    Case {
        line: "calls -o O G S",
        file: Stored::Bytes(b""),
        script: Stored::Bytes(b""),
        ending: Ending {
            err: b"calls: G: not found\n",
            ..REFUSED
        },
        ..SCRIPTED
    },
    Case {
        line: "calls -oO F S",
        file: Stored::Bytes(b""),
        script: Stored::Bytes(b"raw\n"),
        ending: Ending {
            err: b"calls: S: line 1: wrong words\n",
            ..REFUSED
        },
        ..SCRIPTED
    },
    Case {
        file: Stored::Bytes(b"abc"),
        script: Stored::Bytes(b"ehdr\n"),
        ending: Ending {
            err: b"calls: F: too short\n",
            ..REFUSED
        },
        ..SCRIPTED
    },
    Case {
        file: Stored::Bytes(b"!<arch>\n"),
        script: Stored::Bytes(b""),
        ending: Ending {
            err: b"calls: F: not an ELF image\n",
            ..REFUSED
        },
        ..SCRIPTED
    },
    Case {
        line: "calls -o P -o O F S",
        file: Stored::Bytes(b"0123456789abcdef"),
        script: Stored::Bytes(b""),
        ending: Ending {
            err: b"calls: F: not an ELF image\n",
            ..REFUSED
        },
        ..SCRIPTED
    },
];

#[test]
fn without_calls_or_an_image_no_file_is_made(rt: HostRuntime) {
    assert!(rt; are_so(&rt, &OLD, &COMPLAINTS));
}

/// A script that sets the other value.
const SCRIPT: &[u8] = b"set sym 2 0 1 value 0x1234\n";

/// A run of it, which leaves the file O as it was.
const SET: Case = Case {
    script: Stored::Bytes(SCRIPT),
    ..SCRIPTED
};

/// The script, the file or the new file is not handed out; the new file can not be written; or a
/// put fails: that of what waits when the file should be made, or that of the last line.
static FAULTS: [Case; 6] = [
    Case {
        failing: Failing { open: 1, ..NOTHING },
        ending: Ending {
            status: Status::ReadFailed,
            ..DONE
        },
        ..SET
    },
    Case {
        failing: Failing { open: 2, ..NOTHING },
        ending: Ending {
            status: Status::ReadFailed,
            ..DONE
        },
        ..SET
    },
    Case {
        failing: Failing { open: 3, ..NOTHING },
        ending: Ending {
            status: Status::WriteFailed,
            out: b"ok\n",
            ..DONE
        },
        ..SET
    },
    Case {
        failing: Failing {
            write: 1,
            ..NOTHING
        },
        ending: Ending {
            status: Status::WriteFailed,
            out: b"ok\n",
            ..DONE
        },
        held: HeldAfter::Now(Stored::Bytes(b"")),
        ..SET
    },
    Case {
        failing: Failing { out: 1, ..NOTHING },
        ending: Ending {
            status: Status::WriteFailed,
            ..DONE
        },
        ..SET
    },
    Case {
        failing: Failing { out: 2, ..NOTHING },
        ending: Ending {
            status: Status::WriteFailed,
            out: b"ok\n",
            ..DONE
        },
        held: HeldAfter::Now(Stored::Image(CHANGED)),
        ..SET
    },
];

#[test]
fn a_failing_call_leaves_the_old_file_or_a_prefix(rt: HostRuntime) {
    assert!(rt; are_so(&rt, &OLD, &FAULTS));
}

/// A run that writes the other value.
static MADE: Case = Case {
    ending: Ending {
        out: b"ok\nsize 312\n",
        ..DONE
    },
    held: HeldAfter::Now(Stored::Image(CHANGED)),
    ..SET
};

/// Reads of the front and of the symbols stop a run before the new file is made; that of the
/// strings, which only the update needs, while it is written.
static UNREAD: [Outcome; 2] = [
    Outcome {
        status: Status::ReadFailed,
        held: State::Before,
        also: State::Any,
        least: 3,
        most: 8,
    },
    Outcome {
        status: Status::ReadFailed,
        held: State::Front,
        also: State::Any,
        least: 1,
        most: 1,
    },
];

#[test]
fn a_failing_read_leaves_the_old_file_or_a_prefix(rt: HostRuntime) {
    assert!(rt; fail_so(&rt, &OLD, &MADE, &FailingCall::Read("F"), 8, &UNREAD));
}
