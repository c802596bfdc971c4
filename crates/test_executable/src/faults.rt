//! Runs over the executable of which one call of the outside after the other fails: both outputs,
//! and the file that is made, hold a prefix of what they hold where none does.

use crate::image::executable;
use elf_outside::MemFiles;
use elf_types::{Addrs, ElfError, Octets};
use std::alloc::Global;
use test_kit_images::BuiltImage;
use test_kit_rows::{failed, in_row, other, same};
use test_kit_runs::{Failing, GivenFiles, NOTHING, RunAndFile, numbered, run_leaving};
use tool_output::Status;

/// An image, the file F, of which the read with a number fails; none does where that is 0.
#[derive(Drop)]
struct Unread<'a> {
    image: &'a BuiltImage,
    read: u64,
}

impl GivenFiles for Unread<'_> {
    fn add_to(&self, alloc: Global, files: &mut MemFiles) -> Result<(), ElfError> {
        let reads = match numbered(alloc, self.read) {
            Ok(reads) => reads,
            Err(e) => return Err(e),
        };
        match Octets::from_slice(alloc, self.image.bytes.as_slice()) {
            Ok(bytes) => files.add("F", bytes, reads, Addrs::new(alloc)),
            Err(e) => Err(e),
        }
    }
}

/// Which calls fail, one in each run.
#[derive(Clone, Copy)]
enum Call {
    /// The reads of the file F.
    Read,
    /// The writes of the file that is made.
    Write,
}

/// A line, the calls that fail, and how a run ends then. At least so many calls there are.
struct Row {
    line: &'static str,
    call: Call,
    status: Status,
    least: u64,
}

/// The front of the executable takes four reads, and each section that is shown, looked at or kept
/// has a home: eleven that readelf shows, and two tables of strings; the symbols and their strings
/// for nm; and of strip the names.
static ROWS: [Row; 5] = [
    Row {
        line: "readelf -hlSsrdnV F",
        call: Call::Read,
        status: Status::ReadFailed,
        least: 17,
    },
    Row {
        line: "nm F",
        call: Call::Read,
        status: Status::ReadFailed,
        least: 6,
    },
    Row {
        line: "elflint F",
        call: Call::Read,
        status: Status::ReadFailed,
        least: 17,
    },
    Row {
        line: "strip -o O F",
        call: Call::Read,
        status: Status::ReadFailed,
        least: 6,
    },
    Row {
        line: "strip -o O F",
        call: Call::Write,
        status: Status::WriteFailed,
        least: 1,
    },
];

/// What a run of a line leaves where the call with a number fails, or none where that is 0.
fn left_at(
    alloc: Global,
    image: &BuiltImage,
    row: &Row,
    number: u64,
) -> Result<RunAndFile, ElfError> {
    match row.call {
        Call::Read => {
            let given = Unread {
                image,
                read: number,
            };
            run_leaving(alloc, row.line, &given, NOTHING, "O")
        }
        Call::Write => {
            let failing = Failing {
                write: number,
                ..NOTHING
            };
            run_leaving(alloc, row.line, image, failing, "O")
        }
    }
}

/// Whether a file is not there, or holds a prefix of what it holds where no call fails.
fn is_front(held: &Option<Octets>, whole: &Option<Octets>) -> bool {
    match held {
        Some(held) => match whole {
            Some(whole) => whole.as_slice().starts_with(held.as_slice()),
            None => false,
        },
        None => true,
    }
}

/// Whether a run stopped with a status, and left prefixes of what is left where no call fails.
fn is_stopped(left: &RunAndFile, whole: &RunAndFile, status: Status) -> bool {
    left.ran.status == status
        && whole
            .ran
            .out
            .as_slice()
            .starts_with(left.ran.out.as_slice())
        && whole
            .ran
            .err
            .as_slice()
            .starts_with(left.ran.err.as_slice())
        && is_front(&left.held, &whole.held)
}

/// Whether a file is as it is where no call fails.
fn is_same(held: &Option<Octets>, whole: &Option<Octets>) -> bool {
    match held {
        Some(held) => match whole {
            Some(whole) => held.as_slice() == whole.as_slice(),
            None => false,
        },
        None => whole.is_none(),
    }
}

/// Whether a run left what is left where no call fails.
fn is_whole(left: &RunAndFile, whole: &RunAndFile) -> bool {
    left.ran.status == whole.ran.status
        && left.ran.out.as_slice() == whole.ran.out.as_slice()
        && left.ran.err.as_slice() == whole.ran.err.as_slice()
        && is_same(&left.held, &whole.held)
}

/// How a run ended of which a call was to fail.
#[derive(Clone, Copy)]
enum End {
    /// It stopped as it should.
    Stopped,
    /// It did not make so many calls.
    Whole,
    /// Otherwise.
    Wrong,
}

/// How one ended.
fn end_of(left: &RunAndFile, whole: &RunAndFile, status: Status) -> End {
    if is_stopped(left, whole, status) {
        return End::Stopped;
    }
    if is_whole(left, whole) {
        End::Whole
    } else {
        End::Wrong
    }
}

/// How a run of a row ends of which the call with a number fails.
fn end_at(rt: &HostRuntime, image: &BuiltImage, row: &Row, whole: &RunAndFile, number: u64) -> End {
    match left_at(rt.alloc(), image, row, number) {
        Ok(left) => end_of(&left, whole, row.status),
        Err(e) => {
            let _said = failed(rt, e);
            End::Wrong
        }
    }
}

/// More calls than a run makes.
const CALLS: u64 = 128;

/// How many runs are to make fewer calls, once one does.
const BEYOND: u64 = 4;

/// How many runs stop: each of which one of the first calls fails, up to one that makes fewer
/// calls, as those after it do. None where a run ends otherwise.
fn count_of(rt: &HostRuntime, image: &BuiltImage, row: &Row, whole: &RunAndFile) -> Option<u64> {
    let mut count = 0u64;
    let mut beyond = 0u64;
    for before in 0..CALLS {
        match end_at(rt, image, row, whole, before.saturating_add(1)) {
            End::Stopped => {
                if beyond > 0 {
                    let _said = other(rt, &before, "no run more that stops, behind that call");
                    return None;
                }
                count = count.saturating_add(1);
            }
            End::Whole => {
                beyond = beyond.saturating_add(1);
                if beyond == BEYOND {
                    return Some(count);
                }
            }
            End::Wrong => {
                let _said = other(rt, &before, "a run that stops, behind so many calls");
                return None;
            }
        }
    }
    None
}

/// Whether the runs of a row end so, and at least so many stop.
fn is_so(rt: &HostRuntime, image: &BuiltImage, row: &Row) -> bool {
    match left_at(rt.alloc(), image, row, 0) {
        Ok(whole) => match count_of(rt, image, row, &whole) {
            Some(count) => {
                same(rt, &whole.ran.status, &Status::Done)
                    && (count >= row.least || other(rt, &count, "more runs that stop"))
            }
            None => false,
        },
        Err(e) => failed(rt, e),
    }
}

/// Whether each row is so of an image.
fn are_so_of(rt: &HostRuntime, image: &BuiltImage, rows: &[Row]) -> bool {
    for (n, row) in rows.iter().enumerate() {
        if !in_row(rt, n, is_so(rt, image, row)) {
            return false;
        }
    }
    true
}

/// Whether each row is so of the executable.
fn are_so(rt: &HostRuntime, rows: &[Row]) -> bool {
    match executable(rt.alloc()) {
        Ok(image) => are_so_of(rt, &image, rows),
        Err(e) => failed(rt, e),
    }
}

#[test]
fn each_failing_call_leaves_a_prefix(rt: HostRuntime) {
    assert!(rt; are_so(&rt, &ROWS));
}
