//! Calls of the outside that fail, one after the other.

use crate::changes::edits::{APPENDED, OTHER, WriteRow, written_rows};
use test_kit_rows::in_row;
use test_kit_runs::cases::{
    Case, FailingCall, FileFaults, GOOD, HeldAfter, Outcome, State, are_so, fail_so, is_so,
};
use test_kit_runs::{DONE, Ending, Failing, NOTHING};
use tool_output::Status;

/// A write failed, and each byte of the file is that before or that after; the other file is as it
/// was: so many times.
fn torn(times: u64) -> Outcome {
    Outcome {
        status: Status::WriteFailed,
        held: State::Torn,
        also: State::Before,
        least: times,
        most: times,
    }
}

/// Whether of the first sixteen writes of each row those fail so that it takes.
fn tear(rt: &HostRuntime, rows: &[WriteRow]) -> bool {
    for (n, row) in rows.iter().enumerate() {
        let outcomes = [torn(row.writes)];
        let so = fail_so(
            rt,
            &OTHER,
            &row.case,
            &FailingCall::Write("F"),
            16,
            &outcomes,
        );
        if !in_row(rt, n, so) {
            return false;
        }
    }
    true
}

#[test]
fn a_write_that_fails_leaves_each_byte_old_or_new(rt: HostRuntime) {
    assert!(rt; tear(&rt, written_rows()));
}

/// How many reads the front of an image takes: of the first eight bytes, of the ELF header, and of
/// the section headers.
const FRONT_READS: u64 = 4;

/// A read failed, and both files are as before: so many times besides those of the front.
fn unread(times: u64) -> Outcome {
    let reads = FRONT_READS.saturating_add(times);
    Outcome {
        status: Status::ReadFailed,
        held: State::Before,
        also: State::Before,
        least: reads,
        most: reads,
    }
}

/// Whether of the first sixteen reads of each row those fail so of the front and of the homes.
fn leave_unread(rt: &HostRuntime, rows: &[WriteRow]) -> bool {
    for (n, row) in rows.iter().enumerate() {
        let outcomes = [unread(row.homes)];
        let so = fail_so(
            rt,
            &OTHER,
            &row.case,
            &FailingCall::Read("F"),
            16,
            &outcomes,
        );
        if !in_row(rt, n, so) {
            return false;
        }
    }
    true
}

#[test]
fn a_read_that_fails_leaves_the_file(rt: HostRuntime) {
    assert!(rt; leave_unread(&rt, written_rows()));
}

/// A run of which a call fails, which leaves the file as it was.
const STOPPED: Case = Case {
    held: HeldAfter::Before,
    ..APPENDED
};

/// A file was not handed out.
const UNOPENED: Ending = Ending {
    status: Status::ReadFailed,
    ..DONE
};

/// The script or the file is not handed out; or a put fails: that of what waits before the file is
/// written, or that of the last line.
static FAULTS: [Case; 4] = [
    Case {
        failing: Failing { open: 1, ..NOTHING },
        ending: UNOPENED,
        ..STOPPED
    },
    Case {
        failing: Failing { open: 2, ..NOTHING },
        ending: UNOPENED,
        ..STOPPED
    },
    Case {
        failing: Failing { out: 1, ..NOTHING },
        ending: Ending {
            status: Status::WriteFailed,
            ..DONE
        },
        ..STOPPED
    },
    Case {
        failing: Failing { out: 2, ..NOTHING },
        ending: SAID,
        ..APPENDED
    },
];

#[test]
fn a_file_that_is_not_handed_out_or_a_put_that_fails_stops_the_run(rt: HostRuntime) {
    assert!(rt; are_so(&rt, &OTHER, &FAULTS));
}

/// How a run ends where a piece is appended and the first write fails: all that was said before is
/// on standard output.
const SAID: Ending = Ending {
    status: Status::WriteFailed,
    out: b"piece 3 1\n",
    ..DONE
};

/// A run that ends with the first write failed.
static FIRST_WRITE: Case = Case {
    bad: FileFaults {
        name: "F",
        write: 1,
        ..GOOD
    },
    ending: SAID,
    held: HeldAfter::Any,
    ..APPENDED
};

#[test]
fn a_write_that_fails_costs_nothing_of_what_was_said(rt: HostRuntime) {
    assert!(rt; is_so(&rt, &OTHER, &FIRST_WRITE));
}
