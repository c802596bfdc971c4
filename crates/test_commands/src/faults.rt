//! Calls of the outside that fail.

use test_kit_images::{ImageStart, OBJECT, Recipe};
use test_kit_runs::cases::{Case, FileFaults, GOOD, RUN, Stored, are_so};
use test_kit_runs::{DONE, Ending, Failing, NOTHING};
use tool_output::Status;

/// The run stops before anything is written.
const UNREAD: Ending = Ending {
    status: Status::ReadFailed,
    ..DONE
};

/// Nothing can be written.
const UNWRITTEN: Ending = Ending {
    status: Status::WriteFailed,
    ..DONE
};

/// readelf over an executable that has nothing but its header, and over it again.
const TWICE: Case = Case {
    line: "readelf -l F F",
    file: Stored::Image(Recipe {
        start: ImageStart::HeaderAlone,
        ..OBJECT
    }),
    ..RUN
};

/// A call that fails, and how that ends.
static FAULTS: [Case; 5] = [
    Case {
        failing: Failing { open: 1, ..NOTHING },
        ending: UNREAD,
        ..TWICE
    },
    Case {
        failing: Failing { open: 2, ..NOTHING },
        ending: Ending {
            out: b"File: F\nProgram headers: 0\n",
            ..UNREAD
        },
        ..TWICE
    },
    Case {
        bad: FileFaults {
            name: "F",
            read: 2,
            ..GOOD
        },
        ending: UNREAD,
        ..TWICE
    },
    Case {
        failing: Failing { out: 1, ..NOTHING },
        ending: UNWRITTEN,
        ..TWICE
    },
    Case {
        failing: Failing {
            open: 2,
            out: 1,
            ..NOTHING
        },
        ending: UNWRITTEN,
        ..TWICE
    },
];

#[test]
fn faults_end_the_run_and_keep_what_was_shown(rt: HostRuntime) {
    assert!(rt; are_so(&rt, &[], &FAULTS));
}

/// A run over the empty file F whose first put to standard error fails.
const FULL: Case = Case {
    file: Stored::Bytes(b""),
    failing: Failing { err: 1, ..NOTHING },
    ending: UNWRITTEN,
    ..RUN
};

/// Lines of which each has a message.
static LINES: [Case; 3] = [
    Case {
        line: "readelf",
        ..FULL
    },
    Case {
        line: "readelf -h G",
        ..FULL
    },
    Case {
        line: "strip -oO F",
        ..FULL
    },
];

#[test]
fn a_full_standard_error_ends_the_run(rt: HostRuntime) {
    assert!(rt; are_so(&rt, &[], &LINES));
}
