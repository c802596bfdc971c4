//! Memory that an image is put into.

ghost use Rattle.std.specs.Prelude.{◌≡◌, ◌+◌, ◌<◌, ◌≤◌, ◌∷◌, [], Some, vec_len, vec_capacity, IfOk, IfErr};

use elf_outside::{Failed, Sink};
use elf_types::ElfError;
use std::alloc::Global;

/// Memory for so many bytes, which are put one after the other. A put that does not fit fills it,
/// and is counted; so where one failed, it is full.
#[derive(Drop)]
pub(crate) struct Room {
    bytes: Vec<u8>,
    room: u64,
    faults: u64,
    pub ghost fits: { vec_len bytes ≤ room },
    pub ghost reserved: { room ≤ vec_capacity bytes },
    pub ghost full: { 0 < faults → vec_len bytes ≡ room },
}

impl Room {
    /// Empty memory for so many bytes. It fails with `Memory` alone.
    pub fn new(alloc: Global, room: u64) -> Result<Room, ElfError>
        ensures bytes { IfOk result (λ r. r.bytes.items ≡ []) }
        ensures room { IfOk result (λ r. r.room ≡ room) }
        ensures faults { IfOk result (λ r. r.faults ≡ 0) }
        ensures err { IfErr result (λ e. e ≡ ElfError.Memory) }
    {
        let bytes = Vec::with_capacity(alloc, room as usize)?;
        Ok(Room {
            bytes,
            room,
            faults: 0,
        })
    }

    /// What was put. It takes no memory.
    pub fn as_slice(&self) -> &[u8]
        ensures { result.now ≡ self.now.bytes.items }
    {
        self.bytes.as_slice()
    }

    /// How many bytes fit still. It takes no memory.
    fn left(&self) -> u64
        ensures { result + vec_len self.now.bytes ≡ self.now.room }
    {
        self.room - self.bytes.len() as u64
    }
}

impl Sink for Room {
    ghost wrote = { λ r. Some r.bytes.items };

    ghost faults = { λ r. r.faults };

    ghost rest = { λ r. (r.room ∷ []) ∷ [] };

    fn put(&mut self, buf: &[u8]) -> Result<(), Failed> {
        let left = self.left();
        if left < buf.len() as u64 {
            let (front, _) = buf.split_at(left as usize);
            self.bytes.extend_from_slice(front).unwrap();
            self.faults = self.faults.saturating_add(1);
            return Err(Failed);
        }
        self.bytes.extend_from_slice(buf).unwrap();
        Ok(())
    }

    fn put_zeros(&mut self, n: u64) -> Result<(), Failed> {
        if self.left() < n {
            self.bytes.resize(self.room as usize, 0).unwrap();
            self.faults = self.faults.saturating_add(1);
            return Err(Failed);
        }
        let longer = self.bytes.len() + n as usize;
        self.bytes.resize(longer, 0).unwrap();
        Ok(())
    }
}
