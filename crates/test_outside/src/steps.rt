//! Steps over sources, devices and sinks that are lent, with what each call should return.

ghost use Rattle.std.specs.Prelude.{◌+◌, ◌≤◌, length};

use elf_outside::{Device, Failed, Sink, Source};
use test_kit_rows::{in_step, other, same, same_bytes};

/// A read of a length from a place on, and its bytes, or None where it is to fail.
pub type Read = (u64, usize, Option<&'static [u8]>);

/// A piece that is put, and whether it is taken.
pub type PutStep = (&'static [u8], bool);

/// So many zeros that are put, and whether they are taken.
pub type Zeros = (u64, bool);

/// A call on a device, and what it should return.
#[derive(Clone, Copy)]
pub enum DeviceStep {
    /// A read.
    Read(u64, usize, Option<&'static [u8]>),
    /// A piece over the bytes at a place, and whether the write succeeds.
    Write(u64, &'static [u8], bool),
    /// A length, and whether the device takes it.
    SetLen(u64, bool),
    /// A piece after the last byte, and whether the write succeeds.
    Append(&'static [u8], bool),
    /// So many zeros after the last byte, and whether the write succeeds.
    AppendZeros(u64, bool),
}

/// The most bytes that a step reads.
const MOST: usize = 8;

/// Whether a read into a buffer gives these bytes, or fails where there are none.
fn gives<S: Source>(
    rt: &HostRuntime,
    source: &mut S,
    at: u64,
    buf: &mut [u8],
    wanted: Option<&[u8]>,
) -> bool
    requires { at + length buf.old ≤ S.size source.old }
{
    match (source.read_at(at, buf), wanted) {
        (Ok(()), Some(bytes)) => same_bytes(rt, buf, bytes),
        (Err(Failed), None) => true,
        (Ok(()), None) => other(rt, &"bytes", "a failed read"),
        (Err(Failed), Some(_)) => other(rt, &"a failed read", "bytes"),
    }
}

/// Whether a range lies in a source, and a read of it is answered so.
pub fn reads<S: Source>(
    rt: &HostRuntime,
    source: &mut S,
    at: u64,
    n: usize,
    wanted: Option<&[u8]>,
) -> bool {
    let mut buf = [0u8; MOST];
    let len = source.len();
    if n > MOST || at > len || n as u64 > len - at {
        return other(rt, &len, "a length that holds the read");
    }
    gives(rt, source, at, &mut buf[..n], wanted)
}

/// Whether the reads are answered so, one after another.
pub fn reads_all<S: Source>(rt: &HostRuntime, source: &mut S, rows: &[Read]) -> bool {
    let mut stated = true;
    for (k, (at, n, wanted)) in rows.iter().enumerate() {
        stated &= in_step(rt, k, reads(rt, source, *at, *n, *wanted));
    }
    stated
}

/// Whether a range lies in a device, and a write over it is answered so.
fn writes<D: Device>(rt: &HostRuntime, device: &mut D, at: u64, piece: &[u8], done: bool) -> bool {
    let len = device.len();
    if at > len || piece.len() as u64 > len - at {
        return other(rt, &len, "a length that holds the write");
    }
    same(rt, &device.write_at(at, piece).is_ok(), &done)
}

/// Whether a step is answered so.
fn answers<D: Device>(rt: &HostRuntime, device: &mut D, step: DeviceStep) -> bool {
    match step {
        DeviceStep::Read(at, n, wanted) => reads(rt, device, at, n, wanted),
        DeviceStep::Write(at, piece, done) => writes(rt, device, at, piece, done),
        DeviceStep::SetLen(n, done) => same(rt, &device.set_len(n).is_ok(), &done),
        DeviceStep::Append(piece, done) => same(rt, &device.append(piece).is_ok(), &done),
        DeviceStep::AppendZeros(n, done) => same(rt, &device.append_zeros(n).is_ok(), &done),
    }
}

/// Whether the steps are answered so, one after another.
pub fn device_answers_all<D: Device>(
    rt: &HostRuntime,
    device: &mut D,
    steps: &[DeviceStep],
) -> bool {
    let mut stated = true;
    for (k, step) in steps.iter().enumerate() {
        stated &= in_step(rt, k, answers(rt, device, *step));
    }
    stated
}

/// Whether the puts are answered so, one after another.
pub fn puts_all<K: Sink>(rt: &HostRuntime, sink: &mut K, puts: &[PutStep]) -> bool {
    let mut stated = true;
    for (k, (piece, done)) in puts.iter().enumerate() {
        stated &= in_step(rt, k, same(rt, &sink.put(*piece).is_ok(), done));
    }
    stated
}

/// Whether the puts of zeros are answered so, one after another.
pub fn zeros_all<K: Sink>(rt: &HostRuntime, sink: &mut K, puts: &[Zeros]) -> bool {
    let mut stated = true;
    for (k, (n, done)) in puts.iter().enumerate() {
        stated &= in_step(rt, k, same(rt, &sink.put_zeros(*n).is_ok(), done));
    }
    stated
}
