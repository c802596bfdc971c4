//! Runs of calls -o that stop: what the new file holds then.

use crate::calls::{OLD, SCRIPTED};
use test_kit_images::OBJECT;
use test_kit_runs::cases::{
    Case, Earlier, FIVE, FailingCall, GROWN, HeldAfter, Outcome, State, Stored, fail_so, is_so,
};
use test_kit_runs::{DONE, Ending, Failing, NOTHING};
use tool_output::Status;

/// A script whose image has two pages: a piece is at 262,144 in section 1, after fill bytes.
const SCRIPT: &[u8] = b"fill 0xaa\nnewdata 1 62 262144\n";

/// A run of that script, which leaves its image.
const LONG: Case = Case {
    script: Stored::Bytes(SCRIPT),
    ending: Ending {
        out: b"ok\npiece 1 1\nsize 262456\n",
        ..DONE
    },
    held: HeldAfter::Now(Stored::Left(Earlier {
        line: "calls -o O F S",
        file: OBJECT,
        script: SCRIPT,
        name: "O",
    })),
    ..SCRIPTED
};

/// The run of that script, of which calls fail.
static WHOLE: Case = Case { ..LONG };

/// The run of that script, of which calls fail; the image has so many bytes.
static LENGTH: Case = Case {
    held: HeldAfter::Length(262_456),
    ..LONG
};

/// Some writes stop a run with a prefix of the image in the new file.
static FRONTS: [Outcome; 1] = [Outcome {
    status: Status::WriteFailed,
    held: State::Front,
    also: State::Any,
    least: 2,
    most: 8,
}];

#[test]
fn each_failing_write_leaves_a_prefix(rt: HostRuntime) {
    assert!(rt; is_so(&rt, &OLD, &LENGTH));
    assert!(rt; fail_so(&rt, &OLD, &WHOLE, &FailingCall::Made, 8, &FRONTS));
}

/// A piece is appended to the third of five sections; the file F is looked at beside the new one.
const APPENDED: Case = Case {
    file: Stored::Image(FIVE),
    script: Stored::Bytes(b"newdata 3 3333333333333333\n"),
    ending: Ending {
        out: b"piece 3 1\nsize 496\n",
        ..DONE
    },
    held: HeldAfter::Now(Stored::Image(GROWN)),
    second: "F",
    also: HeldAfter::Before,
    ..SCRIPTED
};

/// The run that appends a piece, of which calls fail.
static GROWING: Case = Case { ..APPENDED };

/// The writes of the new file: each that fails leaves a prefix of the image, which may be empty.
static WRITES: [Outcome; 1] = [Outcome {
    status: Status::WriteFailed,
    held: State::Front,
    also: State::Before,
    least: 1,
    most: 15,
}];

/// The put of what waits when the file should be made leaves the old one, and that of the last line
/// the whole image.
static PUTS: [Outcome; 2] = [
    Outcome {
        status: Status::WriteFailed,
        held: State::Before,
        also: State::Before,
        least: 1,
        most: 1,
    },
    Outcome {
        status: Status::WriteFailed,
        held: State::After,
        also: State::Before,
        least: 1,
        most: 1,
    },
];

#[test]
fn each_failing_write_and_put_leaves_the_old_file_or_a_prefix(rt: HostRuntime) {
    assert!(rt; fail_so(&rt, &OLD, &GROWING, &FailingCall::Made, 16, &WRITES));
    assert!(rt; fail_so(&rt, &OLD, &GROWING, &FailingCall::Put, 8, &PUTS));
}

/// Files want more memory than there is: nothing is said, and the file that was there is left.
static WANTING: Case = Case {
    failing: Failing {
        memory: true,
        ..NOTHING
    },
    ending: Ending {
        status: Status::NoMemory,
        ..DONE
    },
    held: HeldAfter::Before,
    ..LONG
};

#[test]
fn a_run_without_memory_leaves_the_old_file(rt: HostRuntime) {
    assert!(rt; is_so(&rt, &OLD, &WANTING));
}
