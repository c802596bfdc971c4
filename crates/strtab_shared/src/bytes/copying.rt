//! Shared bytes, copied.

ghost use Rattle.std.specs.Prelude.{◌≡◌, ◌+◌, ◌<◌, ◌≤◌, ◌++◌, length, take, drop, IfOk, IfErr};
ghost use Rattle.elf_types.specs.declared.errors.ElfError.TheVariants.{Memory};
ghost use Rattle.strtab_shared.specs.Bytes.Pieces.{IsCopiedToBuffer};

use crate::bytes::bytes::SharedBytes;
use elf_types::{ElfError, Octets};
use std::alloc::Global;

/// Puts bytes over those from a place on. The range lies in the buffer.
fn put_at(buf: &mut [u8], at: usize, bytes: &[u8])
    requires { at + length bytes.now ≤ length buf.old }
    ensures { buf.new ≡ (take at buf.old ++ bytes.now) ++ drop (at + length bytes.now) buf.old }
{
    buf[at..at + bytes.len()].copy_from_slice(bytes);
}

impl SharedBytes {
    /// Copies some more of the bytes from a place on, of which so many are in the buffer, and
    /// returns how many are then.
    fn copy_more(&self, at: u64, done: usize, buf: &mut [u8]) -> usize
        requires inside { at + length buf.old ≤ length self.now }
        requires more { done < length buf.old }
        requires same { take done buf.old ≡ take done (drop at self.now) }
        ensures more { done < result }
        ensures copied { IsCopiedToBuffer self.now at buf.old buf.new result }
    {
        let _count = self.len();
        let room = buf.len() - done;
        let piece = self.piece_at(at + done as u64);
        let n = piece.len().min(room);
        put_at(buf, done, &piece[..n]);
        done + n
    }

    /// Copies the bytes from the place `at` on into the whole of `buf`. It takes no memory, and
    /// looks for each stretch of the text among all of them, in as many steps as their number has
    /// digits.
    pub fn copy_at(&self, at: u64, buf: &mut [u8])
        requires { at + length buf.old ≤ length self.now }
        ensures { buf.new ≡ take (length buf.old) (drop at self.now) }
    {
        let mut done = 0;
        while done < buf.len() {
            done = self.copy_more(at, done, buf);
        }
    }

    /// So many bytes from a place on, which are there, copied.
    fn copy_within(&self, alloc: Global, at: u64, n: u64) -> Result<Octets, ElfError>
        requires { at + n ≤ length self.now }
        ensures ok { IfOk result (λ bytes. bytes ≡ take n (drop at self.now)) }
        ensures err { IfErr result (λ e. e ≡ Memory) }
    {
        let mut bytes = vec![in alloc; 0u8; n as usize]?;
        self.copy_at(at, bytes.as_mut_slice());
        Ok(Octets::from_vec(bytes))
    }

    /// So many bytes from a place on, or those that are there, copied. It fails with `Memory`
    /// alone.
    pub fn octets_at(&self, alloc: Global, at: u64, len: u64) -> Result<Octets, ElfError>
        ensures ok { IfOk result (λ bytes. bytes ≡ take len (drop at self.now)) }
        ensures err { IfErr result (λ e. e ≡ Memory) }
    {
        let count = self.len();
        let start = at.min(count);
        let n = len.min(count - start);
        self.copy_within(alloc, start, n)
    }

    /// All bytes, copied. It fails with `Memory` alone.
    pub fn to_octets(&self, alloc: Global) -> Result<Octets, ElfError>
        ensures ok { IfOk result (λ bytes. bytes ≡ self.now) }
        ensures err { IfErr result (λ e. e ≡ Memory) }
    {
        self.copy_within(alloc, 0, self.len())
    }
}
