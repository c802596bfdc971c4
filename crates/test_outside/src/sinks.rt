//! Sinks in memory, and devices as sinks.

use crate::devices::{DeviceRecipe, device};
use crate::steps::{PutStep, Zeros, puts_all, zeros_all};
use elf_outside::writes::{put, put_zeros};
use elf_outside::{DeviceSink, MemSink, Sink};
use elf_types::{Addrs, ElfError};
use std::alloc::Global;
use test_kit_rows::{failed, same, same_bytes};

/// A sink with a room, of which the puts of these numbers fail.
fn sink(alloc: Global, room: u64, bad_puts: &[u64]) -> Result<MemSink, ElfError> {
    let bad_puts = Addrs::from_slice(alloc, bad_puts)?;
    MemSink::new(alloc, room, bad_puts)
}

/// What is put into a sink.
enum Fill {
    /// Pieces.
    Pieces(&'static [PutStep]),
    /// Zeros.
    Zeros(&'static [Zeros]),
    /// Two bytes at a time, of which the second put is an error, and then zeros, of which three are
    /// an error and two have room.
    Checked,
}

/// Whether what is put is answered so.
fn is_taken<K: Sink>(rt: &HostRuntime, sink: &mut K, fill: &Fill) -> bool {
    match fill {
        Fill::Pieces(puts) => puts_all(rt, sink, puts),
        Fill::Zeros(puts) => zeros_all(rt, sink, puts),
        Fill::Checked => second_is_an_error(rt, sink),
    }
}

/// Whether a sink with a room, of which the second put fails, takes what is put so, and leaves what
/// was taken.
fn leaves(rt: &HostRuntime, room: u64, fill: &Fill, left: &[u8]) -> bool {
    match sink(rt.alloc(), room, &[2]) {
        Ok(mut sink) => {
            let stated = is_taken(rt, &mut sink, fill);
            same_bytes(rt, sink.into_bytes().as_slice(), left) && stated
        }
        Err(e) => failed(rt, e),
    }
}

/// Puts into a room of five bytes, of which the second is to fail.
static PUTS: Fill = Fill::Pieces(&[
    (b"ab", true),
    (b"cd", false),
    (b"cdef", false),
    (b"cde", true),
    (b"f", false),
    (b"", true),
]);

#[test]
fn puts_fail_where_listed_or_past_the_capacity(rt: HostRuntime) {
    assert!(rt; leaves(&rt, 5, &PUTS, b"abcde"));
}

/// Zeros put into a room of five bytes, of which the second put is to fail.
static ZEROS: Fill = Fill::Zeros(&[
    (2, true),
    (1, false),
    (4, false),
    (3, true),
    (1, false),
    (0, true),
]);

#[test]
fn zeros_fail_where_listed_or_past_the_capacity(rt: HostRuntime) {
    assert!(rt; leaves(&rt, 5, &ZEROS, b"\0\0\0\0\0"));
}

/// Whether the second of three puts is an error, and so are three zeros where two have room.
fn second_is_an_error<K: Sink>(rt: &HostRuntime, sink: &mut K) -> bool {
    let mut stated = same(rt, &put(sink, b"ab"), &Ok(()));
    stated &= same(rt, &put(sink, b"cd"), &Err(ElfError::Write));
    stated &= same(rt, &put(sink, b"ef"), &Ok(()));
    stated &= same(rt, &put_zeros(sink, 3), &Err(ElfError::Write));
    stated &= same(rt, &put_zeros(sink, 2), &Ok(()));
    stated
}

#[test]
fn a_refused_put_is_an_error(rt: HostRuntime) {
    assert!(rt; leaves(&rt, 6, &Fill::Checked, b"abef\0\0"));
}

/// A device with two bytes and room for six.
static SHORT: DeviceRecipe = DeviceRecipe {
    bytes: b"ab",
    room: 6,
    bad_reads: &[],
    bad_writes: &[],
};

/// Puts into that device.
static APPENDED: [PutStep; 2] = [(b"cd", true), (b"efg", false)];

/// Zeros that are put into it then.
static LENGTHENED: [Zeros; 3] = [(3, false), (2, true), (1, false)];

/// Whether a sink takes pieces and then zeros as stated.
fn are_taken<K: Sink>(rt: &HostRuntime, sink: &mut K, puts: &[PutStep], zeros: &[Zeros]) -> bool {
    puts_all(rt, sink, puts) && zeros_all(rt, sink, zeros)
}

/// Whether a sink over a device does, and the device has these bytes then.
fn device_sink_leaves(
    rt: &HostRuntime,
    made: &DeviceRecipe,
    puts: &[PutStep],
    zeros: &[Zeros],
    left: &[u8],
) -> bool {
    match device(rt.alloc(), made) {
        Ok(device) => {
            let mut sink = DeviceSink::new(device);
            let stated = are_taken(rt, &mut sink, puts, zeros);
            same_bytes(rt, sink.into_inner().into_bytes().as_slice(), left) && stated
        }
        Err(e) => failed(rt, e),
    }
}

#[test]
fn a_sink_over_a_device_appends(rt: HostRuntime) {
    assert!(rt; device_sink_leaves(&rt, &SHORT, &APPENDED, &LENGTHENED, b"abcd\0\0"));
}
