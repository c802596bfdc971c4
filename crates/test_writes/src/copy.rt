//! What copy leaves: its message, and the file that it makes, or none.

use crate::copy_images::{
    ADDED, CHANGED, NAMED, NARROW_ADDED, NARROW_UNLINKED, PROGRAM, PROGRAM_CHANGED, UNLINKED,
};
use test_kit_images::OBJECT;
use test_kit_runs::cases::{
    Case, FailingCall, FileFaults, FoundFile, GOOD, HeldAfter, Outcome, RUN, State, Stored, are_so,
    fail_so,
};
use test_kit_runs::{DONE, Ending, Failing, NOTHING, REFUSED};
use tool_output::Status;

/// Two bytes as the file G, four as the file W, the empty file E, and a file O.
static BESIDE: [FoundFile; 4] = [
    FoundFile {
        name: "G",
        stored: Stored::Bytes(b"hi"),
    },
    FoundFile {
        name: "W",
        stored: Stored::Bytes(b"wxyz"),
    },
    FoundFile {
        name: "E",
        stored: Stored::Bytes(b""),
    },
    FoundFile {
        name: "O",
        stored: Stored::Bytes(b"old"),
    },
];

/// A run over an object with four names, which leaves the file O as it was.
const KEPT: Case = Case {
    line: "copy -a .x=G -o O F",
    file: Stored::Image(NAMED),
    held: HeldAfter::Before,
    ..RUN
};

// ---- Files that are made

/// Words, an image, and the image that is made of it.
static MADE: [Case; 6] = [
    Case {
        file: Stored::Image(UNLINKED),
        held: HeldAfter::Now(Stored::Image(ADDED)),
        ..KEPT
    },
    Case {
        file: Stored::Image(NARROW_UNLINKED),
        held: HeldAfter::Now(Stored::Image(NARROW_ADDED)),
        ..KEPT
    },
    Case {
        line: "copy -R .none -o O F",
        file: Stored::Image(ADDED),
        held: HeldAfter::Now(Stored::Image(ADDED)),
        ..KEPT
    },
    Case {
        line: "copy -a .x=G -f .uno=0x4 -n .one=.uno -u .one=G -R .two -a .y=E -o O F",
        file: Stored::Image(NAMED),
        held: HeldAfter::Now(Stored::Image(CHANGED)),
        ..KEPT
    },
    Case {
        line: "copy -u .text=W -u .data=W -u .data=G -o O F",
        file: Stored::Image(PROGRAM),
        held: HeldAfter::Now(Stored::Image(PROGRAM_CHANGED)),
        ..KEPT
    },
    Case {
        line: "copy -f .text=2 -f .data=0 -o O F",
        file: Stored::Image(PROGRAM),
        held: HeldAfter::Now(Stored::Image(PROGRAM)),
        ..KEPT
    },
];

#[test]
fn changes_make_the_stated_image(rt: HostRuntime) {
    assert!(rt; are_so(&rt, &BESIDE, &MADE));
}

// ---- Messages

/// Words, an image, and the message that says why no file is made.
static REFUSALS: [Case; 19] = [
    Case {
        line: "copy -u .q=G -o O F",
        file: Stored::Image(OBJECT),
        ending: Ending {
            err: b"copy: F: no section .q\n",
            ..REFUSED
        },
        ..KEPT
    },
    Case {
        line: "copy -n .q=.z -o O F",
        ending: Ending {
            err: b"copy: F: no section .q\n",
            ..REFUSED
        },
        ..KEPT
    },
    Case {
        line: "copy -f .q=1 -o O F",
        ending: Ending {
            err: b"copy: F: no section .q\n",
            ..REFUSED
        },
        ..KEPT
    },
    Case {
        file: Stored::Image(OBJECT),
        ending: Ending {
            err: b"copy: F: no name table of its own\n",
            ..REFUSED
        },
        ..KEPT
    },
    Case {
        line: "copy -u .bss=G -o O F",
        ending: Ending {
            err: b"copy: F: section .bss has no bytes\n",
            ..REFUSED
        },
        ..KEPT
    },
    Case {
        line: "copy -u .text=G -o O F",
        file: Stored::Image(PROGRAM),
        ending: Ending {
            err: b"copy: F: section .text is allocated\n",
            ..REFUSED
        },
        ..KEPT
    },
    Case {
        line: "copy -f .text=4 -o O F",
        file: Stored::Image(PROGRAM),
        ending: Ending {
            err: b"copy: F: allocation of .text is fixed\n",
            ..REFUSED
        },
        ..KEPT
    },
    Case {
        line: "copy -f .data=2 -o O F",
        file: Stored::Image(PROGRAM),
        ending: Ending {
            err: b"copy: F: allocation of .data is fixed\n",
            ..REFUSED
        },
        ..KEPT
    },
    // the first kind of change fails first, and in a kind the first of the arguments
    Case {
        line: "copy -f .r=1 -u .q=G -o O F",
        ending: Ending {
            err: b"copy: F: no section .q\n",
            ..REFUSED
        },
        ..KEPT
    },
    Case {
        line: "copy -u .p=G -u .q=G -o O F",
        ending: Ending {
            err: b"copy: F: no section .p\n",
            ..REFUSED
        },
        ..KEPT
    },
    // a section that is removed or renamed has its old name no more
    Case {
        line: "copy -R .two -u .two=G -o O F",
        ending: Ending {
            err: b"copy: F: no section .two\n",
            ..REFUSED
        },
        ..KEPT
    },
    Case {
        line: "copy -n .two=.z -f .two=1 -o O F",
        ending: Ending {
            err: b"copy: F: no section .two\n",
            ..REFUSED
        },
        ..KEPT
    },
    // the files come first: those of -u, those of -a, and then the file itself
    Case {
        line: "copy -o O X",
        ending: Ending {
            err: b"copy: X: not found\n",
            ..REFUSED
        },
        ..KEPT
    },
    Case {
        line: "copy -a .x=Y -o O Z",
        ending: Ending {
            err: b"copy: Y: not found\n",
            ..REFUSED
        },
        ..KEPT
    },
    Case {
        line: "copy -a .x=Y -u .q=X -o O Z",
        ending: Ending {
            err: b"copy: X: not found\n",
            ..REFUSED
        },
        ..KEPT
    },
    Case {
        line: "copy -u .q=G -u .q=X -u .q=Y -o O F",
        ending: Ending {
            err: b"copy: X: not found\n",
            ..REFUSED
        },
        ..KEPT
    },
    Case {
        line: "copy -a .x=G -a .x=X -a .x=Y -o O F",
        ending: Ending {
            err: b"copy: X: not found\n",
            ..REFUSED
        },
        ..KEPT
    },
    // the file of a change may be the file itself
    Case {
        line: "copy -u .q=F -o O F",
        ending: Ending {
            err: b"copy: F: no section .q\n",
            ..REFUSED
        },
        ..KEPT
    },
    Case {
        line: "copy -o O E",
        ending: Ending {
            err: b"copy: E: too short\n",
            ..REFUSED
        },
        ..KEPT
    },
];

#[test]
fn what_is_refused_makes_no_file(rt: HostRuntime) {
    assert!(rt; are_so(&rt, &BESIDE, &REFUSALS));
}

/// The usage line of copy.
const USAGE: Ending = Ending {
    status: Status::BadWords,
    out: b"",
    err: b"usage: elfkit copy [-R NAME].. [-u NAME=FILE].. [-n OLD=NEW].. [-f NAME=BITS].. [-a NAME=FILE].. -o OUT FILE\n",
};

/// The output is the file, or a file of a change.
static SAME_WORDS: [Case; 3] = [
    Case {
        line: "copy -o F F",
        ending: USAGE,
        ..KEPT
    },
    Case {
        line: "copy -u .one=O -o O F",
        ending: USAGE,
        ..KEPT
    },
    Case {
        line: "copy -a .x=O -o O F",
        ending: USAGE,
        ..KEPT
    },
];

#[test]
fn the_output_is_no_file_that_is_read(rt: HostRuntime) {
    assert!(rt; are_so(&rt, &BESIDE, &SAME_WORDS));
}

// ---- Stops

/// A run over an object that adds a section, which leaves the file O as it was.
const UNMADE: Case = Case {
    file: Stored::Image(UNLINKED),
    ..KEPT
};

/// A read failed.
const UNREAD: Ending = Ending {
    status: Status::ReadFailed,
    ..DONE
};

/// A write failed.
const UNWRITTEN: Ending = Ending {
    status: Status::WriteFailed,
    ..DONE
};

/// The file of the bytes, the file or the new file is not handed out; the new file is made and can
/// not be written; and files want more memory than there is.
static FAULTS: [Case; 5] = [
    Case {
        failing: Failing { open: 1, ..NOTHING },
        ending: UNREAD,
        ..UNMADE
    },
    Case {
        failing: Failing { open: 2, ..NOTHING },
        ending: UNREAD,
        ..UNMADE
    },
    Case {
        failing: Failing { open: 3, ..NOTHING },
        ending: UNWRITTEN,
        ..UNMADE
    },
    Case {
        failing: Failing {
            write: 1,
            ..NOTHING
        },
        ending: UNWRITTEN,
        held: HeldAfter::Now(Stored::Bytes(b"")),
        ..UNMADE
    },
    Case {
        failing: Failing {
            memory: true,
            ..NOTHING
        },
        ending: Ending {
            status: Status::NoMemory,
            ..DONE
        },
        ..UNMADE
    },
];

#[test]
fn a_failing_call_leaves_the_old_file_or_a_prefix(rt: HostRuntime) {
    assert!(rt; are_so(&rt, &BESIDE, &FAULTS));
}

/// A run over that object, whose new file has the section.
static WITH_SECTION: Case = Case {
    held: HeldAfter::Now(Stored::Image(ADDED)),
    ..UNMADE
};

/// The first read of the bytes fails, and the second, which there is not.
static BYTES: [Case; 2] = [
    Case {
        bad: FileFaults {
            name: "G",
            read: 1,
            ..GOOD
        },
        ending: UNREAD,
        ..UNMADE
    },
    Case {
        bad: FileFaults {
            name: "G",
            read: 2,
            ..GOOD
        },
        held: HeldAfter::Now(Stored::Image(ADDED)),
        ..UNMADE
    },
];

/// Some reads of the file stop a run before the new file is made.
static BEFORE: [Outcome; 1] = [Outcome {
    status: Status::ReadFailed,
    held: State::Before,
    also: State::Any,
    least: 3,
    most: 9,
}];

#[test]
fn a_read_that_fails_leaves_the_old_file(rt: HostRuntime) {
    assert!(rt; are_so(&rt, &BESIDE, &BYTES));
    assert!(rt;
        fail_so(
            &rt,
            &BESIDE,
            &WITH_SECTION,
            &FailingCall::Read("F"),
            9,
            &BEFORE
        )
    );
}
