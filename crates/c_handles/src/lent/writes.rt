//! Writes that are kept.

ghost use Rattle.std.specs.Prelude.{◌≡◌, ◌+◌, ◌^◌, ◌≤◌, ◌<◌, ℕ, List, length, take, drop, slice_index_or};
ghost use Rattle.c_handles.specs.Lent.Writes.{with_write, with_writes, IsSoundWrite, AreSound};

use elf_types::Octets;

/// A write that is kept in place of being done: the length that what is written has from then on,
/// and bytes that are put over it at a place.
#[derive(Drop)]
pub struct KeptWrite {
    /// The length, to which what is there is cut or lengthened by zeros.
    pub size: u64,
    /// Where the bytes are put.
    pub at: u64,
    /// The bytes.
    pub bytes: Octets,
}

/// The byte at a place; 0 where there is none.
fn byte_or_zero(bytes: &[u8], place: u64) -> u8
    ensures { result ≡ slice_index_or bytes.now place 0 }
{
    match bytes.get(place as usize) {
        Some(byte) => *byte,
        None => 0,
    }
}

impl KeptWrite {
    /// The byte at a place after the write, where that before it is known; 0 where there is none.
    fn byte_at(&self, byte: u8, place: u64) -> u8
        requires { IsSoundWrite self.now }
        ensures { (bytes : List ℕ) → byte ≡ slice_index_or bytes place 0
            → result ≡ slice_index_or (with_write bytes self.now) place 0 }
    {
        if self.size <= place {
            return 0;
        }
        if place < self.at {
            return byte;
        }
        match self.bytes.get(place - self.at) {
            Some(own) => own,
            None => byte,
        }
    }
}

/// The byte at a place after writes; 0 where there is none.
fn byte_after(bytes: &[u8], writes: &[KeptWrite], place: u64) -> u8
    requires { AreSound writes.now }
    ensures { result ≡ slice_index_or (with_writes writes.now bytes.now) place 0 }
{
    let mut byte = byte_or_zero(bytes, place);
    for write in writes {
        byte = write.byte_at(byte, place);
    }
    byte
}

/// Fills `buf` with the bytes from a place on. The range lies in them.
fn copy_range(bytes: &[u8], at: usize, buf: &mut [u8])
    requires { at + length buf.old ≤ length bytes.now }
    ensures { buf.new ≡ take (length buf.old) (drop at bytes.now) }
{
    let (_, from_place) = bytes.split_at(at);
    let (wanted, _) = from_place.split_at(buf.len());
    buf.copy_from_slice(wanted);
}

/// Fills `buf` with the bytes from a place on, as they are after writes. The range lies in them.
pub(crate) fn copy_after(bytes: &[u8], writes: &[KeptWrite], at: u64, buf: &mut [u8])
    requires sound { AreSound writes.now }
    requires range { at + length buf.old ≤ length (with_writes writes.now bytes.now) }
    requires small { at + length buf.old < 2 ^ 64 }
    ensures { buf.new ≡ take (length buf.old) (drop at (with_writes writes.now bytes.now)) }
{
    if writes.is_empty() {
        copy_range(bytes, at as usize, buf);
        return;
    }
    for i in 0..buf.len() {
        buf[i] = byte_after(bytes, writes, at + i as u64);
    }
}
