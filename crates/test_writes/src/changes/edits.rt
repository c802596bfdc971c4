//! Scripts whose image is written into the file.

use crate::changes::images::{ADDED, CUT_IMAGE, NARROW_ADDED, NARROW_FIVE, NARROW_GROWN};
use test_kit_images::{NARROW_OBJECT, OBJECT, Put};
use test_kit_rows::in_row;
use test_kit_runs::cases::{
    Case, FIVE, FileFaults, FoundFile, GOOD, GROWN, HeldAfter, RUN, Stored, are_so, is_so,
};
use test_kit_runs::{DONE, Ending, REFUSED};

/// A file O.
pub static OTHER: [FoundFile; 1] = [FoundFile {
    name: "O",
    stored: Stored::Bytes(b"other"),
}];

/// A run over the object with two symbols, which leaves that as it was.
pub const KEPT: Case = Case {
    line: "calls -i F S",
    file: Stored::Image(OBJECT),
    name: "F",
    held: HeldAfter::Before,
    second: "O",
    ..RUN
};

/// A run that writes. How many writes it takes, the call that sets the length among them, and how
/// many homes are read for it.
pub struct WriteRow {
    /// The run, with the images before and after it.
    pub case: Case,
    /// The number of writes.
    pub writes: u64,
    /// The number of homes.
    pub homes: u64,
}

/// A piece is appended to the third of five sections: it and what follows it move.
pub const APPENDED: Case = Case {
    file: Stored::Image(FIVE),
    script: Stored::Bytes(b"newdata 3 3333333333333333\n"),
    ending: Ending {
        out: b"piece 3 1\nsize 496\n",
        ..DONE
    },
    held: HeldAfter::Now(Stored::Image(GROWN)),
    ..KEPT
};

/// A piece that is appended, also in class 32; bytes that go cut the file; numbers that are added
/// stay in their places, and so do all others under the caller's layout; a rejected call does not
/// keep the file from being written.
static WRITTEN: [WriteRow; 7] = [
    WriteRow {
        case: APPENDED,
        writes: 7,
        homes: 3,
    },
    WriteRow {
        case: Case {
            file: Stored::Image(NARROW_FIVE),
            script: Stored::Bytes(b"newdata 3 3333333333333333\n"),
            ending: Ending {
                out: b"piece 3 1\nsize 344\n",
                ..DONE
            },
            held: HeldAfter::Now(Stored::Image(NARROW_GROWN)),
            ..KEPT
        },
        writes: 8,
        homes: 3,
    },
    WriteRow {
        case: Case {
            file: Stored::Image(FIVE),
            script: Stored::Bytes(b"replace 5 0 -\n"),
            ending: Ending {
                out: b"ok\nsize 480\n",
                ..DONE
            },
            held: HeldAfter::Now(Stored::Image(CUT_IMAGE)),
            ..KEPT
        },
        writes: 3,
        homes: 1,
    },
    WriteRow {
        case: Case {
            script: Stored::Bytes(b"addall 2 0 16\n"),
            ending: Ending {
                out: b"changed 2\nsize 312\n",
                ..DONE
            },
            held: HeldAfter::Now(Stored::Image(ADDED)),
            ..KEPT
        },
        writes: 3,
        homes: 1,
    },
    WriteRow {
        case: Case {
            script: Stored::Bytes(b"flag object set 4\naddall 2 0 16\n"),
            ending: Ending {
                out: b"flags 0x4\nchanged 2\nsize 312\n",
                ..DONE
            },
            held: HeldAfter::Now(Stored::Image(ADDED)),
            ..KEPT
        },
        writes: 2,
        homes: 1,
    },
    WriteRow {
        case: Case {
            file: Stored::Image(NARROW_OBJECT),
            script: Stored::Bytes(b"raw 9\naddall 2 0 16\n"),
            ending: Ending {
                out: b"refused no section 9 of 3\nchanged 2\nsize 208\n",
                ..REFUSED
            },
            held: HeldAfter::Now(Stored::Image(NARROW_ADDED)),
            ..KEPT
        },
        writes: 3,
        homes: 1,
    },
    WriteRow {
        case: Case {
            script: Stored::Bytes(b"item 2 0 1\n"),
            ending: Ending {
                out: b"sym name 1 value 0x1000 size 4 info 0x12 other 0x0 shndx 0xfff1\nsize 312\n",
                ..DONE
            },
            held: HeldAfter::Now(Stored::Image(OBJECT)),
            ..KEPT
        },
        writes: 0,
        homes: 1,
    },
];

/// The runs above, told once: each function that names them itself would take some seconds more to
/// prove.
pub fn written_rows() -> &'static [WriteRow] {
    &WRITTEN
}

/// Whether each run writes the image after it into the file.
fn are_written(rt: &HostRuntime, rows: &[WriteRow]) -> bool {
    for (n, row) in rows.iter().enumerate() {
        if !in_row(rt, n, is_so(rt, &OTHER, &row.case)) {
            return false;
        }
    }
    true
}

#[test]
fn the_file_holds_the_image_that_the_calls_leave(rt: HostRuntime) {
    assert!(rt; are_written(&rt, written_rows()));
}

/// The script and the file O stay.
static BESIDE: Case = Case {
    name: "O",
    held: HeldAfter::Before,
    second: "S",
    also: HeldAfter::Before,
    ..APPENDED
};

#[test]
fn no_other_file_changes(rt: HostRuntime) {
    assert!(rt; is_so(&rt, &OTHER, &BESIDE));
}

/// A run that leaves a file of which the first write would fail.
pub const UNTOUCHED: Case = Case {
    bad: FileFaults {
        name: "F",
        write: 1,
        ..GOOD
    },
    ..KEPT
};

/// No calls, also on an image with bytes after its section headers, and calls that mark nothing.
static UNCHANGED: [Case; 3] = [
    Case {
        script: Stored::Bytes(b""),
        ending: Ending {
            out: b"size 312\n",
            ..DONE
        },
        ..UNTOUCHED
    },
    Case {
        file: Stored::Changed(OBJECT, Put::Bytes(312, b"tail\n")),
        script: Stored::Bytes(b""),
        ending: Ending {
            out: b"size 317\n",
            ..DONE
        },
        ..UNTOUCHED
    },
    Case {
        file: Stored::Image(FIVE),
        script: Stored::Bytes(b"pieces 3\nflag object set 4\nfill 7\n"),
        ending: Ending {
            out: b"pieces 1\nflags 0x4\nok\nsize 488\n",
            ..DONE
        },
        ..UNTOUCHED
    },
];

#[test]
fn where_nothing_is_changed_nothing_is_written(rt: HostRuntime) {
    assert!(rt; are_so(&rt, &OTHER, &UNCHANGED));
}
