//! The edge to the system: files, what is no file, and streams.

use crate::scripts::{Act, FileLocation, FileStep, OpenFileSteps, are_taken, are_taken_while};
use crate::steps::DeviceStep::{Append, AppendZeros, Read, SetLen, Write};
use crate::steps::{puts_all, zeros_all};
use crate::visits::OpenMode;
use elf_outside::{Attempt, OpenFault, RealSink, take_streams};
use std::fs;
use std::io::ErrorKind;
use test_kit_rows::{failed_by, other, same};

/// A file.
const FILE: FileLocation = FileLocation::Own("file");

/// The file is cut to nothing, written, read, changed, not created again and removed, and then is
/// not there.
static FILE_STEPS: [FileStep; 9] = [
    (FILE, Act::Stream(&[(b"what was there before", true)])),
    (
        FILE,
        Act::Visit(
            OpenMode::Create,
            Ok(&[
                Append(b"abcdef", true),
                Write(2, b"XY", true),
                SetLen(8, true),
                SetLen(7, true),
                Read(0, 7, Some(b"abXYef\0")),
                Append(b"!", true),
            ]),
        ),
    ),
    (
        FILE,
        Act::Visit(
            OpenMode::Open,
            Ok(&[
                Read(1, 2, Some(b"bX")),
                Read(0, 8, Some(b"abXYef\0!")),
                Append(b"?", false),
            ]),
        ),
    ),
    (
        FILE,
        Act::Visit(
            OpenMode::Edit,
            Ok(&[Append(b"?", true), Read(7, 2, Some(b"!?"))]),
        ),
    ),
    (FILE, Act::Visit(OpenMode::Create, Err(OpenFault::Failed))),
    (FILE, Act::Holds(b"abXYef\0!?")),
    (FILE, Act::Remove),
    (FILE, Act::Visit(OpenMode::Open, Err(OpenFault::NotThere))),
    (FILE, Act::Visit(OpenMode::Edit, Err(OpenFault::NotThere))),
];

#[test]
fn a_file_is_created_changed_and_read_back(rt: HostRuntime) {
    assert!(rt; are_taken(&rt, &FILE_STEPS));
}

/// A file with a gap of zeros.
const GAPPED: FileLocation = FileLocation::Own("gap");

/// The length of the gap.
const GAP: u64 = 1 << 20;

/// The file with a gap is made and read, takes no blocks, or hardly any, and is removed.
static GAP_STEPS: [FileStep; 4] = [
    (
        GAPPED,
        Act::Visit(
            OpenMode::Create,
            Ok(&[
                AppendZeros(GAP, true),
                AppendZeros(u64::MAX, false),
                AppendZeros(0, true),
            ]),
        ),
    ),
    (
        GAPPED,
        Act::Visit(
            OpenMode::Open,
            Ok(&[Read(GAP - 2, 2, Some(b"\0\0")), Read(GAP, 0, Some(b""))]),
        ),
    ),
    (GAPPED, Act::Hole(GAP)),
    (GAPPED, Act::Remove),
];

#[test]
fn a_gap_of_zeros_in_a_file_is_a_hole(rt: HostRuntime) {
    assert!(rt; are_taken(&rt, &GAP_STEPS));
}

/// A file whose length is told as 0 is read to its end as it is opened. What has no length gets its
/// zeros written, gives none of them, and may be made again and again.
static NO_LENGTH: [FileStep; 4] = [
    (
        FileLocation::At("/proc/version"),
        Act::Visit(OpenMode::Open, Ok(&[Read(0, 5, Some(b"Linux"))])),
    ),
    (
        FileLocation::At("/dev/null"),
        Act::Visit(
            OpenMode::Create,
            Ok(&[AppendZeros(5000, true), Append(b"a", true)]),
        ),
    ),
    (
        FileLocation::At("/dev/null"),
        Act::Visit(OpenMode::Open, Ok(&[Read(0, 0, Some(b""))])),
    ),
    (
        FileLocation::At("/dev/null"),
        Act::Visit(OpenMode::Create, Ok(&[Append(b"a", true)])),
    ),
];

#[test]
fn what_has_no_length_is_read_to_its_end(rt: HostRuntime) {
    assert!(rt; are_taken(&rt, &NO_LENGTH));
}

/// A folder.
const FOLDER: FileLocation = FileLocation::Own("folder");

/// A folder is rejected as a file, and no file is made in one that is not there.
static FOLDER_STEPS: [FileStep; 6] = [
    (FOLDER, Act::MakeFolder),
    (FOLDER, Act::Visit(OpenMode::Open, Err(OpenFault::Failed))),
    (FOLDER, Act::Visit(OpenMode::Edit, Err(OpenFault::Failed))),
    (FOLDER, Act::Visit(OpenMode::Create, Err(OpenFault::Failed))),
    (FOLDER, Act::RemoveFolder),
    (
        FileLocation::Own("none/file"),
        Act::Visit(OpenMode::Create, Err(OpenFault::Failed)),
    ),
];

#[test]
fn a_directory_is_not_a_file(rt: HostRuntime) {
    assert!(rt; are_taken(&rt, &FOLDER_STEPS));
}

/// A file of which a stream is made.
const STREAM: FileLocation = FileLocation::Own("stream");

/// What is put into the stream reaches the file.
static STREAM_STEPS: [FileStep; 3] = [
    (
        STREAM,
        Act::Stream(&[(b"abc", true), (b"", true), (b"d", true)]),
    ),
    (STREAM, Act::Holds(b"abcd")),
    (STREAM, Act::Remove),
];

#[test]
fn a_put_reaches_the_stream(rt: HostRuntime) {
    assert!(rt; are_taken(&rt, &STREAM_STEPS));
}

/// Whether a stream takes neither bytes nor zeros, and says why then alone.
fn says_full(rt: &HostRuntime, stream: &mut RealSink<fs::File>) -> bool {
    let silent = stream.failure().is_none();
    let refused = puts_all(rt, stream, &[(b"a", false)]) && zeros_all(rt, stream, &[(1, false)]);
    match stream.failure() {
        Some(why) => silent && refused && same(rt, &why.kind(), &ErrorKind::StorageFull),
        None => other(rt, &"nothing said", "why the stream is full"),
    }
}

/// Whether the stream of a full device says so.
fn full_device_says_so(rt: &HostRuntime) -> bool {
    match fs::File::create(rt, "/dev/full") {
        Ok(file) => says_full(rt, &mut RealSink::new(file)),
        Err(e) => failed_by(rt, &e),
    }
}

/// A folder that is there.
const DEV: FileLocation = FileLocation::At("/dev");

/// A device that takes nothing.
const FULL: FileLocation = FileLocation::At("/dev/full");

/// The last call that failed is kept: one that hands out no file, and one on a closed file.
static FAILURES: [FileStep; 7] = [
    (DEV, Act::Unsaid),
    (DEV, Act::Visit(OpenMode::Open, Err(OpenFault::Failed))),
    (DEV, Act::Said(Attempt::Read, ErrorKind::IsADirectory)),
    (DEV, Act::Visit(OpenMode::Create, Err(OpenFault::Failed))),
    (DEV, Act::Said(Attempt::Create, ErrorKind::IsADirectory)),
    (FULL, Act::Visit(OpenMode::Edit, Ok(&[Append(b"a", false)]))),
    (FULL, Act::Said(Attempt::Write, ErrorKind::StorageFull)),
];

#[test]
fn what_the_system_says_is_kept(rt: HostRuntime) {
    assert!(rt; full_device_says_so(&rt));
    assert!(rt; are_taken(&rt, &FAILURES));
}

/// A file that is open.
const OPEN: FileLocation = FileLocation::Own("open");

/// Its other name.
const OTHER: FileLocation = FileLocation::Own("link");

/// A file that is open is not created again under another name, and neither is it once it was
/// closed.
static LINKED: OpenFileSteps = OpenFileSteps {
    before: &[
        (
            OPEN,
            Act::Visit(OpenMode::Create, Ok(&[Append(b"abc", true)])),
        ),
        (OPEN, Act::Link("link")),
    ],
    open: OPEN,
    during: &[
        (OTHER, Act::Visit(OpenMode::Create, Err(OpenFault::Failed))),
        (OTHER, Act::Said(Attempt::Create, ErrorKind::InvalidInput)),
    ],
    after: &[
        (
            OTHER,
            Act::Visit(OpenMode::Open, Ok(&[Read(0, 3, Some(b"abc"))])),
        ),
        (OTHER, Act::Visit(OpenMode::Create, Err(OpenFault::Failed))),
        (OTHER, Act::Holds(b"abc")),
        (OPEN, Act::Remove),
        (OTHER, Act::Remove),
    ],
};

#[test]
fn an_open_file_is_not_created_again_under_another_name(rt: HostRuntime) {
    assert!(rt; are_taken_while(&rt, &LINKED));
}

/// A file that was made, another name of it, and a link that leads to it.
const FIRST: FileLocation = FileLocation::Own("first");

const FIRST_LINK: FileLocation = FileLocation::Own("first-link");

const FIRST_POINTER: FileLocation = FileLocation::Own("first-pointer");

/// A file that was made, under its own name or by a link to it, and closed, is not created again
/// under any name.
static MADE_STEPS: [FileStep; 13] = [
    (FIRST, Act::Symlink("first-pointer")),
    (
        FIRST_POINTER,
        Act::Visit(OpenMode::Create, Ok(&[Append(b"abc", true)])),
    ),
    (FIRST, Act::Holds(b"abc")),
    (FIRST, Act::Visit(OpenMode::Create, Err(OpenFault::Failed))),
    (FIRST, Act::Said(Attempt::Create, ErrorKind::InvalidInput)),
    (FIRST, Act::Link("first-link")),
    (
        FIRST_LINK,
        Act::Visit(OpenMode::Create, Err(OpenFault::Failed)),
    ),
    (
        FIRST_POINTER,
        Act::Visit(OpenMode::Create, Err(OpenFault::Failed)),
    ),
    (FIRST_POINTER, Act::Holds(b"abc")),
    (FIRST_LINK, Act::Holds(b"abc")),
    (FIRST_POINTER, Act::Remove),
    (FIRST_LINK, Act::Remove),
    (FIRST, Act::Remove),
];

/// A file that is read, another name of it, and a link that leads to it.
const READ: FileLocation = FileLocation::Own("read");

const READ_LINK: FileLocation = FileLocation::Own("read-link");

const READ_POINTER: FileLocation = FileLocation::Own("read-pointer");

/// A file that was read and closed is not created again under any name, and can be changed under
/// each.
static READ_STEPS: [FileStep; 13] = [
    (READ, Act::Stream(&[(b"abc", true)])),
    (READ, Act::Link("read-link")),
    (READ, Act::Symlink("read-pointer")),
    (
        READ,
        Act::Visit(OpenMode::Open, Ok(&[Read(0, 3, Some(b"abc"))])),
    ),
    (READ, Act::Visit(OpenMode::Create, Err(OpenFault::Failed))),
    (
        READ_LINK,
        Act::Visit(OpenMode::Create, Err(OpenFault::Failed)),
    ),
    (
        READ_POINTER,
        Act::Visit(OpenMode::Create, Err(OpenFault::Failed)),
    ),
    (READ, Act::Holds(b"abc")),
    (
        READ_POINTER,
        Act::Visit(OpenMode::Edit, Ok(&[Append(b"d", true)])),
    ),
    (READ_LINK, Act::Holds(b"abcd")),
    (READ_POINTER, Act::Remove),
    (READ_LINK, Act::Remove),
    (READ, Act::Remove),
];

#[test]
fn a_file_that_was_created_or_read_is_not_created_again_under_another_name(rt: HostRuntime) {
    assert!(rt; are_taken(&rt, &MADE_STEPS));
    assert!(rt; are_taken(&rt, &READ_STEPS));
}

/// A file that is made after the streams were taken.
const LATER: FileLocation = FileLocation::Own("later");

/// The later file is made and read back.
static LATER_STEPS: [FileStep; 3] = [
    (
        LATER,
        Act::Visit(OpenMode::Create, Ok(&[Append(b"abc", true)])),
    ),
    (LATER, Act::Holds(b"abc")),
    (LATER, Act::Remove),
];

#[test]
fn files_are_handed_out_once_the_streams_are_taken(rt: HostRuntime) {
    assert!(rt; take_streams(&rt).is_ok());
    assert!(rt; are_taken(&rt, &LATER_STEPS));
}

/// A program, and a file that is made while it is open.
const PROGRAM: FileLocation = FileLocation::Own("program");

const MADE: FileLocation = FileLocation::Own("made");

/// A file that is made while a program is open can be run as that, and the program, which was made
/// while none was open, could not before it got the permissions.
static RUNNABLE: OpenFileSteps = OpenFileSteps {
    before: &[
        (
            PROGRAM,
            Act::Visit(OpenMode::Create, Ok(&[Append(b"abc", true)])),
        ),
        (PROGRAM, Act::Mode(0o111, 0)),
        (PROGRAM, Act::SetMode(0o700)),
    ],
    open: PROGRAM,
    during: &[(
        MADE,
        Act::Visit(OpenMode::Create, Ok(&[Append(b"abc", true)])),
    )],
    after: &[
        (MADE, Act::Mode(0o777, 0o700)),
        (PROGRAM, Act::Remove),
        (MADE, Act::Remove),
    ],
};

#[test]
fn what_is_made_of_a_program_can_be_run(rt: HostRuntime) {
    assert!(rt; are_taken_while(&rt, &RUNNABLE));
}
