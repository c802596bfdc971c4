//! What a command leaves of the files that it makes, where a call fails and where none does.

use crate::files::texts::TextImage;
use elf_outside::{MemFiles, MemSink, NoSource, Sink};
use elf_types::{Addrs, ElfError, Octets};
use std::alloc::Global;
use test_kit_rows::{failed, in_row, other, same, same_bytes, within};
use tool_files::{write_image, write_images};
use tool_output::{Outputs, Stop};

/// The numbers of the calls that fail: those that hand a file out, the writes of each file that is
/// made, and the put to standard output, or none where that is 0. What comes of it: how the step
/// ends, and what the names hold, of which `a` held a text before.
#[derive(Clone, Copy)]
struct Row {
    bad_opens: &'static [u64],
    bad_writes: &'static [u64],
    bad_put: u64,
    ended: Result<bool, Stop>,
    first: Option<&'static [u8]>,
    second: Option<&'static [u8]>,
}

/// No call fails.
const WHOLE: Row = Row {
    bad_opens: &[],
    bad_writes: &[],
    bad_put: 0,
    ended: Ok(false),
    first: Some(b"one"),
    second: Some(b"second"),
};

/// A call fails: the put of what waits, the first or the second file that is made, or the write of
/// the first one.
const FAILING: [Row; 4] = [
    Row {
        bad_put: 1,
        ended: Err(Stop::Write),
        first: Some(b"old"),
        second: None,
        ..WHOLE
    },
    Row {
        bad_opens: &[1],
        ended: Err(Stop::Write),
        first: Some(b"old"),
        second: None,
        ..WHOLE
    },
    Row {
        bad_opens: &[2],
        ended: Err(Stop::Write),
        second: None,
        ..WHOLE
    },
    Row {
        bad_writes: &[1],
        ended: Err(Stop::Write),
        first: Some(b""),
        second: None,
        ..WHOLE
    },
];

/// The files of a row, of which one holds a text.
fn files_of(alloc: Global, row: &Row) -> Result<MemFiles, ElfError> {
    let bad_opens = Addrs::from_slice(alloc, row.bad_opens)?;
    let bad_writes = Addrs::from_slice(alloc, row.bad_writes)?;
    let mut files = MemFiles::new(alloc, 64, bad_opens, bad_writes);
    let old = Octets::from_slice(alloc, b"old")?;
    files.add("a", old, Addrs::new(alloc), Addrs::new(alloc))?;
    Ok(files)
}

/// A line is said, and then two files are made.
fn write_two<O: Sink, E: Sink>(
    alloc: Global,
    files: &mut MemFiles,
    outputs: &mut Outputs<'_, O, E>,
) -> Result<bool, Stop> {
    let mut first = TextImage {
        bytes: b"one",
        from: NoSource,
    };
    let mut second = TextImage {
        bytes: b"second",
        from: NoSource,
    };
    outputs.show(&"said\n")?;
    write_images(alloc, &mut first, "a", &mut second, "b", files, outputs)
}

/// A line is said, and then one file is made.
fn write_one<O: Sink, E: Sink>(
    alloc: Global,
    files: &mut MemFiles,
    outputs: &mut Outputs<'_, O, E>,
) -> Result<bool, Stop> {
    let mut text = TextImage {
        bytes: b"one",
        from: NoSource,
    };
    outputs.show(&"said\n")?;
    write_image(alloc, &mut text, "a", files, outputs)
}

/// How the making of one file or of two ends, over outputs whose put with this number fails.
fn ended_by(
    alloc: Global,
    two: bool,
    files: &mut MemFiles,
    bad_put: u64,
) -> Result<Result<bool, Stop>, ElfError> {
    let mut out = MemSink::new(alloc, 64, Addrs::from_slice(alloc, &[bad_put])?)?;
    let mut err = MemSink::new(alloc, 64, Addrs::new(alloc))?;
    let mut page = Octets::new(alloc);
    let mut outputs = Outputs::new(&mut out, &mut err, &mut page);
    let last = if two {
        write_two(alloc, files, &mut outputs)
    } else {
        write_one(alloc, files, &mut outputs)
    };
    Ok(outputs.end(last))
}

/// Whether a file has these bytes, or is not there where there are none.
fn is_left(rt: &HostRuntime, files: &MemFiles, name: &str, wanted: Option<&[u8]>) -> bool {
    match files.bytes(name) {
        Some(bytes) => match wanted {
            Some(wanted) => same_bytes(rt, bytes, wanted),
            None => other(rt, &"a file", "none"),
        },
        None => match wanted {
            Some(_) => other(rt, &"no file", "one"),
            None => true,
        },
    }
}

/// Whether the making of one file or of two ends so, and leaves these.
fn leaves_in(
    rt: &HostRuntime,
    files: &mut MemFiles,
    row: &Row,
    two: bool,
    second: Option<&'static [u8]>,
) -> bool {
    match ended_by(rt.alloc(), two, files, row.bad_put) {
        Ok(ended) => {
            same(rt, &ended, &row.ended)
                && within(rt, &"a", is_left(rt, files, "a", row.first))
                && within(rt, &"b", is_left(rt, files, "b", second))
        }
        Err(e) => failed(rt, e),
    }
}

/// Whether two files are left as a row says.
fn leaves_two(rt: &HostRuntime, row: &Row) -> bool {
    match files_of(rt.alloc(), row) {
        Ok(mut files) => leaves_in(rt, &mut files, row, true, row.second),
        Err(e) => failed(rt, e),
    }
}

/// Whether one file is left as a row says of the first.
fn leaves_one(rt: &HostRuntime, row: &Row) -> bool {
    match files_of(rt.alloc(), row) {
        Ok(mut files) => leaves_in(rt, &mut files, row, false, None),
        Err(e) => failed(rt, e),
    }
}

/// Whether two files are left as each row says.
fn are_left(rt: &HostRuntime, rows: &[Row]) -> bool {
    for (n, row) in rows.iter().enumerate() {
        if !in_row(rt, n, leaves_two(rt, row)) {
            return false;
        }
    }
    true
}

#[test]
fn two_files_hold_their_images(rt: HostRuntime) {
    assert!(rt; leaves_two(&rt, &WHOLE));
}

#[test]
fn one_file_is_made_where_another_was(rt: HostRuntime) {
    assert!(rt; leaves_one(&rt, &WHOLE));
}

#[test]
fn a_failed_call_leaves_the_other_files(rt: HostRuntime) {
    assert!(rt; are_left(&rt, &FAILING));
}
