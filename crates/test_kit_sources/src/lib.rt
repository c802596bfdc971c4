//! Sources for the tests of all crates: over bytes in memory, with reads that fail, or that do not
//! tell their bytes.
#![tactic(auto)]

ghost use Rattle.std.specs.Prelude.{◌≡◌, [], None, IfOk};

mod hidden;

use elf_outside::{Failed, MemSource, Source};
use elf_types::{Addrs, ElfError, Octets};
pub use hidden::Hidden;
use std::alloc::Global;

/// A source of these bytes, of which the read of a number fails, or none where that is 0. It fails
/// with `Memory` alone.
pub fn source(alloc: Global, bytes: Octets, bad_read: u64) -> Result<MemSource, ElfError>
    ensures { IfOk result (λ s. s.bytes ≡ bytes) }
{
    let bad_reads = Addrs::from_slice(alloc, &[bad_read])?;
    Ok(MemSource::new(bytes, bad_reads))
}

/// A source of a length that holds its first bytes alone; all others are zero. It does not tell its
/// bytes.
#[derive(Drop)]
pub struct Sparse {
    start: Octets,
    len: u64,
    taken: u64,
}

impl Sparse {
    /// The source of that length that begins with these bytes.
    pub fn new(start: Octets, len: u64) -> Sparse {
        Sparse {
            start,
            len,
            taken: 0,
        }
    }
}

impl Source for Sparse {
    ghost size = { λ s. s.len };

    ghost holds = { λ _. None };

    ghost rest = { λ _. [] };

    ghost faults = { λ _. 0 };

    ghost taken = { λ s. s.taken };

    ghost sized = { λ _. tt };

    fn len(&self) -> u64 {
        self.len
    }

    fn read_at(&mut self, at: u64, buf: &mut [u8]) -> Result<(), Failed> {
        self.taken = self.taken.saturating_add(buf.len() as u64);
        for (i, byte) in buf.iter_mut().enumerate() {
            *byte = match self.start.get(at.saturating_add(i as u64)) {
                Some(there) => there,
                None => 0,
            };
        }
        Ok(())
    }
}
