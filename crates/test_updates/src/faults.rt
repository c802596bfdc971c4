//! Reads that fail.

use crate::puts::{put_by, puts};
use elf_descriptor::Elf;
use elf_outside::MemSource;
use elf_types::{DIRTY, ElfError, Octets, Part};
use std::alloc::Global;
use test_kit_images::{OBJECT, image_of};
use test_kit_rows::{other, same};
use test_kit_sources::source;

/// What came of an update over a source of which a read fails.
#[derive(Clone, Copy)]
enum Outcome {
    /// The object was not opened.
    NotOpened,
    /// The update ended and put the image.
    Ended,
    /// It failed to read, had put a prefix, and the next one put the image.
    Failed,
    /// Anything else.
    Other,
}

/// What comes of an update that answered so and put a prefix of the image.
fn outcome_by(
    rt: &HostRuntime,
    elf: &mut Elf<MemSource>,
    answer: Result<u64, ElfError>,
    front: &[u8],
    bytes: &[u8],
) -> Outcome {
    if answer.is_ok() && front == bytes {
        return Outcome::Ended;
    }
    let stopped = answer == Err(ElfError::Read) && bytes.starts_with(front);
    if stopped && puts(rt, elf, bytes) {
        return Outcome::Failed;
    }
    Outcome::Other
}

/// What comes of an update of an object.
fn outcome_of(rt: &HostRuntime, elf: &mut Elf<MemSource>, bytes: &[u8]) -> Outcome {
    match put_by(elf, 0) {
        Ok((answer, front)) => outcome_by(rt, elf, answer, front.as_slice(), bytes),
        Err(_) => Outcome::Other,
    }
}

/// Marks an object, and says what comes of its update.
fn marked_outcome(rt: &HostRuntime, elf: &mut Elf<MemSource>, bytes: &[u8], mark: bool) -> Outcome {
    if mark && elf.flag(Part::Object, true, DIRTY).is_err() {
        return Outcome::Other;
    }
    outcome_of(rt, elf, bytes)
}

/// What comes of the update of an object over a source.
fn source_outcome(rt: &HostRuntime, src: MemSource, bytes: &[u8], mark: bool) -> Outcome {
    match Elf::begin(rt.alloc(), src) {
        Ok(mut elf) => marked_outcome(rt, &mut elf, bytes, mark),
        Err(_) => Outcome::NotOpened,
    }
}

/// A source of these bytes, of which the read of a number fails.
fn source_of(alloc: Global, bytes: &[u8], bad_read: u64) -> Option<MemSource> {
    match Octets::from_slice(alloc, bytes) {
        Ok(copy) => source(alloc, copy, bad_read).ok(),
        Err(_) => None,
    }
}

/// What comes of an update over one.
fn bytes_outcome(rt: &HostRuntime, bytes: &[u8], bad_read: u64, mark: bool) -> Outcome {
    match source_of(rt.alloc(), bytes, bad_read) {
        Some(src) => source_outcome(rt, src, bytes, mark),
        None => Outcome::Other,
    }
}

/// What comes of the update of the image.
fn image_outcome(rt: &HostRuntime, bad_read: u64, mark: bool) -> Outcome {
    match image_of(rt.alloc(), &OBJECT) {
        Ok(image) => bytes_outcome(rt, image.bytes.as_slice(), bad_read, mark),
        Err(_) => Outcome::Other,
    }
}

/// How many reads of the first twenty fail in an update; none where one does anything else.
fn failures(rt: &HostRuntime, mark: bool) -> u32 {
    let mut failed = 0u32;
    for bad_read in 1..21 {
        match image_outcome(rt, bad_read, mark) {
            Outcome::Failed => failed = failed.saturating_add(1),
            Outcome::NotOpened | Outcome::Ended => {}
            Outcome::Other => {
                let _said = other(rt, &bad_read, "a read that fails and is named");
                return 0;
            }
        }
    }
    failed
}

#[test]
fn an_update_stops_at_a_read_that_fails(rt: HostRuntime) {
    assert!(rt; same(&rt, &failures(&rt, false), &1));
    assert!(rt; same(&rt, &failures(&rt, true), &2));
}
