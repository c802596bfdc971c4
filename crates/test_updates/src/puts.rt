//! What an update puts into memory.

use elf_descriptor::Elf;
use elf_outside::{MemSink, Source};
use elf_types::{Addrs, ElfError, Octets};
use elf_update_to::update_to;
use std::alloc::Global;
use test_kit_rows::{failed, holds, other, same, same_bytes, within};

/// Room for each image of these tests.
const ROOM: u64 = 5_000_000;

/// A sink of which the put of a number fails, or none where that is 0.
pub fn sink(alloc: Global, bad_put: u64) -> Result<MemSink, ElfError> {
    let bad_puts = Addrs::from_slice(alloc, &[bad_put])?;
    MemSink::new(alloc, ROOM, bad_puts)
}

/// What an update answers, and what it put, where the put of a number fails.
pub fn put_by<S: Source>(
    elf: &mut Elf<S>,
    bad_put: u64,
) -> Result<(Result<u64, ElfError>, Octets), ElfError> {
    let mut sink = sink(elf.alloc(), bad_put)?;
    let answer = update_to(elf, &mut sink);
    Ok((answer, sink.into_bytes()))
}

/// The bytes that an update puts, which ends and returns how many they are.
pub fn image_put<S: Source>(elf: &mut Elf<S>) -> Option<Octets> {
    match put_by(elf, 0) {
        Ok((Ok(len), bytes)) => {
            if len == bytes.len() {
                return Some(bytes);
            }
            None
        }
        _ => None,
    }
}

/// Whether an update ends and puts these bytes.
pub fn puts<S: Source>(rt: &HostRuntime, elf: &mut Elf<S>, bytes: &[u8]) -> bool {
    match image_put(elf) {
        Some(image) => same_bytes(rt, image.as_slice(), bytes),
        None => other(rt, &"no image", "an update that ends"),
    }
}

/// Whether the put of a number fails in an update, which then has put a prefix of these bytes, and
/// the next update puts them all.
pub fn stops<S: Source>(rt: &HostRuntime, elf: &mut Elf<S>, bad_put: u64, bytes: &[u8]) -> bool {
    match put_by(elf, bad_put) {
        Ok((answer, front)) => {
            same(rt, &answer, &Err(ElfError::Write))
                && holds(rt, "a prefix is put", bytes.starts_with(front.as_slice()))
                && puts(rt, elf, bytes)
        }
        Err(e) => failed(rt, e),
    }
}

/// Whether these bytes are in others at a place.
pub fn has_bytes_at(rt: &HostRuntime, bytes: &Octets, at: u64, piece: &[u8]) -> bool {
    for (i, byte) in piece.iter().enumerate() {
        let place = at.saturating_add(i as u64);
        if !within(
            rt,
            &("byte", place),
            same(rt, &bytes.get(place), &Some(*byte)),
        ) {
            return false;
        }
    }
    true
}

/// Whether all bytes from one place to another are one.
pub fn are_all(rt: &HostRuntime, bytes: &Octets, from: u64, to: u64, byte: u8) -> bool {
    for at in from..to {
        if bytes.get(at) != Some(byte) {
            return within(rt, &("byte", at), same(rt, &bytes.get(at), &Some(byte)));
        }
    }
    true
}
