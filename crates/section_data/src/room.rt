//! Memory that is kept for bytes to come.

ghost use Rattle.std.specs.Prelude.{◌≡◌, ◌≤◌, length, IfOk, IfErr};
ghost use Rattle.elf_types.specs.declared.errors.ElfError.TheVariants.{Memory};

use elf_types::{ElfError, Octets};
use std::alloc::Global;
use std::marker::Model;

/// Memory for so many bytes at most. Contracts see it as that number.
#[derive(Drop)]
pub(crate) struct Room {
    bytes: Vec<u8>,
}

impl Model for Room {
    ghost use Rattle.std.specs.Prelude.{◌≡◌, ℕ, [], vec_capacity};

    ghost Value = { ℕ };

    ghost view = { λ r. vec_capacity r.bytes };

    ghost invariant = { λ r. r.bytes.items ≡ [] };
}

impl Room {
    /// Memory for so many bytes. It fails with `Memory` alone.
    pub(crate) fn of(alloc: Global, len: u64) -> Result<Room, ElfError>
        ensures ok { IfOk result (λ room. room ≡ len) }
        ensures err { IfErr result (λ e. e ≡ Memory) }
    {
        let bytes = Vec::with_capacity(alloc, len as usize)?;
        Ok(Room { bytes })
    }

    /// A copy of bytes for which there is room. It takes no memory.
    pub(crate) fn fill(self, bytes: &[u8]) -> Octets
        requires { length bytes.now ≤ self }
        ensures { result ≡ bytes.now }
    {
        let mut copy = self.bytes;
        let Ok(()) = copy.extend_from_slice(bytes) else {
            unreachable!()
        };
        Octets::from_vec(copy)
    }
}
