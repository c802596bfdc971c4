//! The buffer in which an image waits for its sink: small parts share a buffer, and a sink gets few
//! large pieces.

ghost use Rattle.std.specs.Prelude.{◌≡◌, ◌+◌, ◌-◌, ◌^◌, ◌≤◌, ◌<◌, ◌++◌, [], length, take, drop, OnOk, OnErr, IfOk, IfErr};
ghost use Rattle.std.proofs.Math.ListN.{replicate};
ghost use Rattle.elf_types.specs.declared.errors.ElfError.TheVariants.{Memory, Read, Write};
ghost use Rattle.elf_update_to.specs.Texts.{Flows};
ghost use Rattle.elf_update_to.specs.Origins.{ReadyFor};
ghost use Rattle.elf_update_to.specs.Emits.{origin_text, due_in, UsesParts, WaitsMore};

use crate::parts::{ImageParts, Origin};
use elf_types::ElfError;
use elf_update_plan::prelude::{Sink, put};
use std::alloc::Global;
use std::marker::Model;

/// How many bytes fill a buffer.
pub const PAGE_SIZE: usize = 262144;

/// How many bytes of an image go over a device at a time where it is updated in place.
const PIECE_SIZE: usize = 65536;

/// So many zeros. It fails with `Memory` alone.
fn zero_bytes(alloc: Global, count: usize) -> Result<Vec<u8>, ElfError>
    ensures ok { IfOk result (λ bytes. length bytes.items ≡ count) }
    ensures err { IfErr result (λ e. e ≡ Memory) }
{
    let bytes = vec![in alloc; 0u8; count]?;
    Ok(bytes)
}

/// The bytes by which an update in place goes over the device. It fails with `Memory` alone.
pub fn page_bytes(alloc: Global) -> Result<Vec<u8>, ElfError>
    ensures ok { IfOk result (λ bytes. length bytes.items ≡ 65536) }
    ensures err { IfErr result (λ e. e ≡ Memory) }
{
    zero_bytes(alloc, PIECE_SIZE)
}

/// A buffer. Contracts see it as the bytes that wait in it, which are at most [`PAGE_SIZE`].
#[derive(Drop)]
pub struct Page {
    bytes: Vec<u8>,
    used: usize,
}

impl Model for Page {
    ghost use Rattle.std.specs.Prelude.{ℕ, List, take, length, ◌≤◌, ◌≡◌};

    ghost Value = { List ℕ };

    ghost view = { λ p. take p.used p.bytes.items };

    ghost invariant = { λ p. (p.used ≤ 262144) × (length p.bytes.items ≡ 262144) };
}

impl Page {
    /// A buffer in which nothing waits. It fails with `Memory` alone.
    pub fn new(alloc: Global) -> Result<Page, ElfError>
        ensures ok { IfOk result (λ page. page ≡ []) }
        ensures err { IfErr result (λ e. e ≡ Memory) }
    {
        match zero_bytes(alloc, PAGE_SIZE) {
            Ok(bytes) => Ok(Page { bytes, used: 0 }),
            Err(e) => Err(e),
        }
    }

    /// How many bytes more fit.
    pub fn room(&self) -> usize
        ensures room { result ≡ 262144 - length self.now }
        ensures fits { length self.now ≤ 262144 }
    {
        PAGE_SIZE - self.used
    }

    /// Puts what waits, if anything does. It fails with `Write` alone and takes no memory.
    pub fn flush<K: Sink>(&mut self, sink: &mut K) -> Result<(), ElfError>
        ensures flows { Flows K.Sink result sink.old sink.new self.old self.new [] }
        ensures empty { OnOk result (self.new ≡ []) }
        ensures err { IfErr result (λ e. e ≡ Write) }
    {
        if self.used == 0 {
            return Ok(());
        }
        if let Err(e) = put(sink, &self.bytes[..self.used]) {
            return Err(e);
        }
        self.used = 0;
        Ok(())
    }

    /// Puts the buffer where it is full. It fails with `Write` alone and takes no memory.
    pub fn turn<K: Sink>(&mut self, sink: &mut K) -> Result<(), ElfError>
        ensures flows { Flows K.Sink result sink.old sink.new self.old self.new [] }
        ensures room { OnOk result (length self.new < 262144) }
        ensures err { IfErr result (λ e. e ≡ Write) }
    {
        if self.used < PAGE_SIZE {
            return Ok(());
        }
        self.flush(sink)
    }

    /// Has so many times a byte wait, which fit.
    pub fn push_same(&mut self, byte: u8, count: usize)
        requires { length self.old + count ≤ 262144 }
        ensures { self.new ≡ self.old ++ replicate count byte }
    {
        let used = self.used;
        self.bytes[used..used + count].fill(byte);
        self.used = used + count;
    }

    /// Has a range of bytes of a piece or of the base wait, which fit. It fails with `Read` alone,
    /// takes no memory, and after a refusal what waits is as before.
    pub fn fill_by<P: ImageParts>(
        &mut self,
        parts: &mut P,
        of: Origin,
        from: u64,
        count: usize,
    ) -> Result<(), ElfError>
        requires ready { ReadyFor (P.ready (P.kept parts.old)) of }
        requires there { from + count ≤ length (origin_text P.ImageParts parts.old of) }
        requires small { from + count < 2 ^ 64 }
        requires room { length self.old + count ≤ 262144 }
        ensures waits { OnOk result (WaitsMore (P.told (P.kept parts.old))
            (take count (drop from (origin_text P.ImageParts parts.old of))) self.old self.new) }
        ensures unchanged { OnErr result (self.new ≡ self.old) }
        ensures parts { UsesParts P.ImageParts result parts.old parts.new
            (due_in P.ImageParts parts.old of from (from + count)) }
        ensures err { IfErr result (λ e. e ≡ Read) }
    {
        let used = self.used;
        if let Err(e) = parts.copy(of, from, &mut self.bytes[used..used + count]) {
            return Err(e);
        }
        self.used = used + count;
        Ok(())
    }
}
