//! Sets of files in memory.

use crate::steps::DeviceStep::{Append, Read, SetLen};
use crate::visits::{OpenMode, Told, hand_out, is_visited};
use elf_outside::{Files, MemFiles, OpenFault};
use elf_types::{Addrs, ElfError, Octets};
use std::alloc::Global;
use test_kit_rows::{failed, failed_by, in_step, same};

/// What is asked of a set, and what it should return.
#[derive(Clone, Copy)]
enum Call {
    /// A file of a name is handed out, used and closed, or is not handed out.
    Visit(OpenMode, &'static str, Told),
    /// The bytes of a name.
    Bytes(&'static str, Option<&'static [u8]>),
}

/// A set with one name, in which each file has room for four bytes or for its own: the name's bytes
/// and the numbers of the reads that fail of a file of that name; the numbers of the calls that
/// fail, and of the writes that fail of a file that is made; and calls.
struct Row {
    bytes: &'static [u8],
    bad_reads: &'static [u64],
    bad_opens: &'static [u64],
    bad_writes: &'static [u64],
    calls: &'static [Call],
}

/// Files that are changed, made and read.
static KEPT: Row = Row {
    bytes: b"abcdef",
    bad_reads: &[1],
    bad_opens: &[],
    bad_writes: &[],
    calls: &[
        Call::Visit(
            OpenMode::Edit,
            "a",
            Ok(&[
                Read(0, 2, None),
                Read(0, 2, Some(b"ab")),
                Append(b"g", false),
                SetLen(3, true),
            ]),
        ),
        Call::Bytes("a", Some(b"abc")),
        Call::Visit(OpenMode::Create, "b", Ok(&[Append(b"wxyz", true)])),
        Call::Bytes("b", Some(b"wxyz")),
        Call::Bytes("a", Some(b"abc")),
        Call::Visit(OpenMode::Open, "b", Ok(&[Read(1, 2, Some(b"xy"))])),
    ],
};

/// Calls that fail.
static FAILING: Row = Row {
    bytes: b"abc",
    bad_reads: &[],
    bad_opens: &[1, 3, 4],
    bad_writes: &[1],
    calls: &[
        Call::Visit(OpenMode::Open, "none", Err(OpenFault::NotThere)),
        Call::Visit(OpenMode::Create, "a", Ok(&[Append(b"x", false)])),
        Call::Bytes("a", Some(b"")),
        Call::Visit(OpenMode::Edit, "a", Err(OpenFault::Failed)),
        Call::Visit(OpenMode::Create, "b", Err(OpenFault::Failed)),
        Call::Bytes("b", None),
        Call::Visit(OpenMode::Create, "b", Ok(&[])),
        Call::Bytes("b", Some(b"")),
    ],
};

/// The set of a row without its name.
fn empty_set(alloc: Global, row: &Row) -> Result<MemFiles, ElfError> {
    let bad_opens = Addrs::from_slice(alloc, row.bad_opens)?;
    let bad_writes = Addrs::from_slice(alloc, row.bad_writes)?;
    Ok(MemFiles::new(alloc, 4, bad_opens, bad_writes))
}

/// Adds the name of a row.
fn add_name(alloc: Global, files: &mut MemFiles, row: &Row) -> Result<(), ElfError> {
    let bytes = Octets::from_slice(alloc, row.bytes)?;
    let bad_reads = Addrs::from_slice(alloc, row.bad_reads)?;
    files.add("a", bytes, bad_reads, Addrs::new(alloc))
}

/// Whether a call is answered so.
fn answers(rt: &HostRuntime, files: &mut MemFiles, call: Call) -> bool {
    match call {
        Call::Visit(way, name, told) => is_visited(rt, files, way, name, told),
        Call::Bytes(name, bytes) => same(rt, &files.bytes(name), &bytes),
    }
}

/// Whether the name can be added, and the calls are answered so, one after another.
fn answers_all(rt: &HostRuntime, files: &mut MemFiles, row: &Row) -> bool {
    if let Err(e) = add_name(rt.alloc(), files, row) {
        return failed(rt, e);
    }
    for (n, call) in row.calls.iter().enumerate() {
        if !in_step(rt, n, answers(rt, files, *call)) {
            return false;
        }
    }
    true
}

/// Whether the set of a row answers its calls.
fn is_answered(rt: &HostRuntime, row: &Row) -> bool {
    match empty_set(rt.alloc(), row) {
        Ok(mut files) => answers_all(rt, &mut files, row),
        Err(e) => failed(rt, e),
    }
}

#[test]
fn a_name_holds_what_was_closed_under_it(rt: HostRuntime) {
    assert!(rt; is_answered(&rt, &KEPT));
}

#[test]
fn calls_with_the_listed_numbers_fail(rt: HostRuntime) {
    assert!(rt; is_answered(&rt, &FAILING));
}

/// Whether a file that was made under one name can be closed under another, which stays away.
fn stays_away(rt: &HostRuntime, files: &mut MemFiles) -> bool {
    match hand_out(rt.alloc(), files, OpenMode::Create, "a") {
        Ok(file) => {
            files.close("other", file);
            same(rt, &files.bytes("other"), &None)
        }
        Err(e) => failed_by(rt, &e),
    }
}

/// Whether a set in memory without names closes such a file, which stays away.
fn stays_away_in_memory(rt: &HostRuntime, row: &Row) -> bool {
    match empty_set(rt.alloc(), row) {
        Ok(mut files) => stays_away(rt, &mut files),
        Err(e) => failed(rt, e),
    }
}

#[test]
fn a_name_that_is_not_there_stays_away(rt: HostRuntime) {
    assert!(rt; stays_away_in_memory(&rt, &KEPT));
}
