//! Small reads that are served from a window.

use crate::devices::{DeviceRecipe, device};
use crate::steps::DeviceStep::{Append, Read, SetLen, Write};
use crate::steps::{DeviceStep, Read as Reading, device_answers_all, reads_all};
use elf_outside::real::read_ahead::ReadAhead;
use elf_outside::{Device, MemSource, Source};
use elf_types::{Addrs, ElfError, Octets};
use std::alloc::Global;
use test_kit_rows::same;

/// A device with eight bytes and room for one more.
static EIGHT: DeviceRecipe = DeviceRecipe {
    bytes: b"abcdefgh",
    room: 9,
    bad_reads: &[],
    bad_writes: &[],
};

/// Steps over that device: each read that follows another is served from its window, and each write
/// drops it.
static STEPS: [DeviceStep; 9] = [
    Read(1, 2, Some(b"bc")),
    Read(5, 3, Some(b"fgh")),
    Write(2, b"XY", true),
    Read(1, 4, Some(b"bXYe")),
    Append(b"i", true),
    Read(7, 2, Some(b"hi")),
    SetLen(4, true),
    SetLen(6, true),
    Read(0, 6, Some(b"abXY\0\0")),
];

/// A device, and whether it answers the steps after a window.
fn answers_ahead<D: Device>(rt: &HostRuntime, device: D, steps: &[DeviceStep]) -> (D, bool) {
    let mut ahead = ReadAhead::new(rt.alloc(), device);
    let stated = device_answers_all(rt, &mut ahead, steps);
    (ahead.into_inner(), stated)
}

/// How many bytes the device is asked for by the steps, if they are answered so.
fn asked_by_steps(rt: &HostRuntime, made: &DeviceRecipe, steps: &[DeviceStep]) -> Option<u64> {
    match device(rt.alloc(), made) {
        Ok(device) => {
            let (device, stated) = answers_ahead(rt, device, steps);
            if stated { Some(device.asked()) } else { None }
        }
        Err(_) => None,
    }
}

#[test]
fn small_reads_are_served_from_one_window(rt: HostRuntime) {
    assert!(rt;
        same(
            &rt,
            &asked_by_steps(&rt, &EIGHT, &STEPS),
            &Some(7 + 7 + 2 + 6)
        )
    );
}

/// A source of 100,000 bytes, each 7, of which the reads of these numbers fail.
fn sevens(alloc: Global, bad_reads: &[u64]) -> Result<MemSource, ElfError> {
    let bytes = vec![in alloc; 7u8; 100_000]?;
    let bad_reads = Addrs::from_slice(alloc, bad_reads)?;
    Ok(MemSource::new(Octets::from_vec(bytes), bad_reads))
}

/// A source, and whether it answers the reads after a window.
fn reads_ahead<S: Source>(rt: &HostRuntime, source: S, rows: &[Reading]) -> (S, bool) {
    let mut ahead = ReadAhead::new(rt.alloc(), source);
    let stated = reads_all(rt, &mut ahead, rows);
    (ahead.into_inner(), stated)
}

/// How many bytes the source of sevens is asked for by these reads, if they are answered so.
fn asked(rt: &HostRuntime, bad_reads: &[u64], rows: &[Reading]) -> Option<u64> {
    match sevens(rt.alloc(), bad_reads) {
        Ok(source) => {
            let (source, stated) = reads_ahead(rt, source, rows);
            if stated { Some(source.asked()) } else { None }
        }
        Err(_) => None,
    }
}

/// A read whose window fails, and which is then read alone.
static ALONE: [Reading; 1] = [(0, 2, Some(&[7, 7]))];

/// Reads of which the first has no window, and the last fails alone too.
static LOST: [Reading; 3] = [
    (0, 2, Some(&[7, 7])),
    (0, 2, Some(&[7, 7])),
    (4096, 2, None),
];

#[test]
fn a_window_that_fails_loses_no_read(rt: HostRuntime) {
    assert!(rt; same(&rt, &asked(&rt, &[1], &ALONE), &Some(4096 + 2)));
    let windows = 4096 + 4096 + 8192;
    assert!(rt; same(&rt, &asked(&rt, &[1, 4, 5], &LOST), &Some(windows + 2 + 2)));
}

/// A walk over the source.
static WALK: [Reading; 6] = [
    (0, 1, Some(&[7])),
    (4090, 1, Some(&[7])),
    (4096, 1, Some(&[7])),
    (12000, 1, Some(&[7])),
    (12288, 1, Some(&[7])),
    (99999, 1, Some(&[7])),
];

#[test]
fn a_walk_takes_ever_larger_windows(rt: HostRuntime) {
    assert!(rt; same(&rt, &asked(&rt, &[], &WALK), &Some(4096 + 8192 + 16384 + 1)));
}
