//! Devices in memory.

use crate::steps::DeviceStep::{Append, AppendZeros, Read, SetLen, Write};
use crate::steps::{DeviceStep, device_answers_all, reads};
use elf_outside::writes::{set_len, write_at};
use elf_outside::{Device, MemDevice};
use elf_types::{Addrs, ElfError};
use std::alloc::Global;
use test_kit_rows::{failed, other, same, same_bytes};

/// A device in memory: its bytes, its room, and the numbers of the reads and the writes that fail.
pub struct DeviceRecipe {
    pub bytes: &'static [u8],
    pub room: u64,
    pub bad_reads: &'static [u64],
    pub bad_writes: &'static [u64],
}

/// A device, or `TooLarge` where the bytes pass the room.
pub fn device(alloc: Global, made: &DeviceRecipe) -> Result<MemDevice, ElfError> {
    if made.bytes.len() as u64 > made.room {
        return Err(ElfError::TooLarge);
    }
    let bad_reads = Addrs::from_slice(alloc, made.bad_reads)?;
    let bad_writes = Addrs::from_slice(alloc, made.bad_writes)?;
    MemDevice::new(alloc, made.bytes, made.room, bad_reads, bad_writes)
}

/// A device, steps, how many bytes they ask for, and the bytes that they leave.
struct Row {
    made: DeviceRecipe,
    steps: &'static [DeviceStep],
    asked: u64,
    left: &'static [u8],
}

/// A device that grows up to its room.
static GROWING: Row = Row {
    made: DeviceRecipe {
        bytes: b"ab",
        room: 7,
        bad_reads: &[],
        bad_writes: &[],
    },
    steps: &[
        Append(b"cde", true),
        Append(b"fgh", false),
        Append(b"fg", true),
        Append(b"", true),
        Write(5, b"XY", true),
        Read(3, 4, Some(b"deXY")),
        SetLen(8, false),
        SetLen(2, true),
        SetLen(7, true),
    ],
    asked: 4,
    left: b"ab\0\0\0\0\0",
};

/// A device whose first read and second, third and fourth write fail.
static FAILING: Row = Row {
    made: DeviceRecipe {
        bytes: b"ab",
        room: 8,
        bad_reads: &[1],
        bad_writes: &[2, 3, 4],
    },
    steps: &[
        Read(0, 2, None),
        Write(0, b"x", true),
        Write(1, b"y", false),
        Read(0, 2, Some(b"xb")),
        SetLen(1, false),
        Append(b"z", false),
        Append(b"z", true),
        Read(1, 2, Some(b"bz")),
    ],
    asked: 6,
    left: b"xbz",
};

/// A device that grows by zeros up to its room, and whose third write fails.
static ZEROS: Row = Row {
    made: DeviceRecipe {
        bytes: b"ab",
        room: 8,
        bad_reads: &[],
        bad_writes: &[3],
    },
    steps: &[
        AppendZeros(3, true),
        AppendZeros(4, false),
        AppendZeros(1, false),
        AppendZeros(0, true),
        Append(b"c", true),
        AppendZeros(u64::MAX, false),
        AppendZeros(2, true),
        AppendZeros(1, false),
    ],
    asked: 0,
    left: b"ab\0\0\0c\0\0",
};

/// Whether the steps are answered and ask for so much.
fn is_answered(rt: &HostRuntime, device: &mut MemDevice, row: &Row) -> bool {
    device_answers_all(rt, device, row.steps) && same(rt, &device.asked(), &row.asked)
}

/// Whether the steps of a row are answered, and leave these bytes.
fn is_left(rt: &HostRuntime, row: &Row) -> bool {
    match device(rt.alloc(), &row.made) {
        Ok(mut device) => {
            let stated = is_answered(rt, &mut device, row);
            same_bytes(rt, device.into_bytes().as_slice(), row.left) && stated
        }
        Err(e) => failed(rt, e),
    }
}

#[test]
fn a_device_grows_up_to_its_capacity(rt: HostRuntime) {
    assert!(rt; is_left(&rt, &GROWING));
}

#[test]
fn a_device_grows_by_zeros_up_to_its_capacity(rt: HostRuntime) {
    assert!(rt; is_left(&rt, &ZEROS));
}

#[test]
fn reads_and_writes_with_the_listed_numbers_fail(rt: HostRuntime) {
    assert!(rt; is_left(&rt, &FAILING));
}

/// A device whose third write fails.
static PATCHED: DeviceRecipe = DeviceRecipe {
    bytes: b"abcd",
    room: 6,
    bad_reads: &[],
    bad_writes: &[3],
};

/// Whether a write over a range that lies in a device is answered so.
fn patches<D: Device>(
    rt: &HostRuntime,
    device: &mut D,
    at: u64,
    piece: &[u8],
    told: Result<(), ElfError>,
) -> bool {
    let len = device.len();
    if at > len || piece.len() as u64 > len - at {
        return other(rt, &len, "room for the piece");
    }
    same(rt, &write_at(device, at, piece), &told)
}

/// Whether a device of four bytes is patched, and a write that fails is an error.
fn is_patched<D: Device>(rt: &HostRuntime, device: &mut D) -> bool {
    let refused = Err(ElfError::Write);
    let mut stated = patches(rt, device, 1, b"XY", Ok(()));
    stated &= same(rt, &set_len(device, 6), &Ok(()));
    stated &= patches(rt, device, 4, b"ef", refused);
    stated &= same(rt, &set_len(device, 7), &refused);
    stated && reads(rt, device, 0, 6, Some(b"aXYd\0\0"))
}

/// Whether a device in memory is patched so.
fn memory_is_patched(rt: &HostRuntime) -> bool {
    match device(rt.alloc(), &PATCHED) {
        Ok(mut device) => is_patched(rt, &mut device),
        Err(e) => failed(rt, e),
    }
}

#[test]
fn a_device_is_patched(rt: HostRuntime) {
    assert!(rt; memory_is_patched(&rt));
}
