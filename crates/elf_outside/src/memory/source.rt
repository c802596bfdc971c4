//! A source in memory.

ghost use Rattle.std.specs.Prelude.{refl, ◌≡◌, ◌↔◌, ◌+◌, ◌≤◌, ◌∷◌, [], Some, Contains, IsErr, length, take, drop, OnOk, OnErr};
ghost use Rattle.elf_outside.specs.Counts.{HasCause, RaisedBy, next_count, faults_after};

use crate::memory::calls::Calls;
use crate::ranges::copy_range;
use crate::sources::{Failed, Source};
use elf_types::{Addrs, Octets};

/// Bytes in memory, to be read. The reads are numbered from 1, and those whose number is in the
/// list of failing reads fail; they leave the buffer as it was.
#[derive(Drop)]
pub struct MemSource {
    bytes: Octets,
    reads: Calls,
    faults: u64,
    taken: u64,
    /// Where no read is to fail, none has failed.
    pub ghost quiet: { reads.bad ≡ [] → faults ≡ 0 },
}

impl MemSource {
    /// A source of these bytes, whose counts are 0. It takes no memory.
    pub fn new(bytes: Octets, bad_reads: Addrs) -> MemSource
        ensures bytes { result.bytes ≡ bytes }
        ensures reads { (result.reads.bad ≡ bad_reads) × (result.reads.made ≡ 0) }
        ensures counts { (result.faults ≡ 0) × (result.taken ≡ 0) }
    {
        MemSource {
            bytes,
            reads: Calls::new(bad_reads),
            faults: 0,
            taken: 0,
        }
    }

    /// The number of bytes that were asked for so far. It takes no memory.
    pub fn asked(&self) -> u64
        ensures { result ≡ self.now.taken }
    {
        self.taken
    }

    /// The bytes. It takes no memory.
    pub fn into_bytes(self) -> Octets
        ensures { result ≡ self.bytes }
    {
        self.bytes
    }
}

impl Source for MemSource {
    ghost size = { λ s. length s.bytes };

    ghost holds = { λ s. Some s.bytes };

    ghost rest = { λ s. s.reads.bad ∷ [] };

    ghost faults = { λ s. s.faults };

    ghost taken = { λ s. s.taken };

    fn len(&self) -> u64 {
        let bytes = self.bytes.as_slice();
        bytes.len() as u64
    }

    fn read_at(&mut self, at: u64, buf: &mut [u8]) -> Result<(), Failed>
        requires { at + length buf.old ≤ length self.old.bytes }
        ensures leaves { (self.new.bytes ≡ self.old.bytes)
            × (self.new.reads.bad ≡ self.old.reads.bad) }
        ensures bytes { OnOk result (buf.new ≡ take (length buf.old) (drop at self.old.bytes)) }
        ensures cause { HasCause self.old.faults self.new.faults result }
        ensures taken { RaisedBy self.old.taken self.new.taken (length buf.old) }

        // which reads fail, and what such a read changes
        ensures number { self.new.reads.made ≡ next_count self.old.reads.made }
        ensures fails { IsErr result ↔ Contains self.old.reads.bad self.new.reads.made }
        ensures counted { self.new.faults ≡ faults_after result self.old.faults }
        ensures untouched { OnErr result (buf.new ≡ buf.old) }
    {
        self.taken = self.taken.saturating_add(buf.len() as u64);
        self.reads.next(&mut self.faults)?;
        copy_range(self.bytes.as_slice(), at as usize, buf);
        Ok(())
    }

    ghost sized = { λ _. refl };
}
