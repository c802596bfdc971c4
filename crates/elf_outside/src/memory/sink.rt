//! A sink in memory.

ghost use Rattle.std.specs.Prelude.{◌≡◌, ◌⊎◌, ◌↔◌, ◌+◌, ◌≤◌, ◌<◌, ◌++◌, [], Some, Contains, IsErr, length, replicate, vec_len, vec_capacity, OnOk, OnErr, IfOk, IfErr};
ghost use Rattle.elf_outside.specs.Counts.{HasCause, next_count, faults_after};

use crate::memory::calls::Calls;
use crate::sinks::Sink;
use crate::sources::Failed;
use elf_types::{Addrs, ElfError, Octets};
use std::alloc::Global;

/// Bytes in memory that grow at their end, up to a room for which memory is taken at the start. The
/// puts are numbered from 1, and those whose number is in the list of failing puts fail. A put that
/// fails, or would pass the room, changes nothing but the counts.
#[derive(Drop)]
pub struct MemSink {
    bytes: Vec<u8>,
    room: u64,
    puts: Calls,
    faults: u64,
    pub ghost fits: { vec_len bytes ≤ room },
    pub ghost reserved: { room ≤ vec_capacity bytes },
}

impl MemSink {
    /// An empty sink, whose count of faults is 0. It fails with `Memory` alone.
    pub fn new(alloc: Global, room: u64, bad_puts: Addrs) -> Result<MemSink, ElfError>
        ensures bytes { IfOk result (λ s. s.bytes.items ≡ []) }
        ensures room { IfOk result (λ s. s.room ≡ room) }
        ensures puts { IfOk result (λ s. (s.puts.bad ≡ bad_puts) × (s.puts.made ≡ 0)) }
        ensures faults { IfOk result (λ s. s.faults ≡ 0) }
        ensures err { IfErr result (λ e. e ≡ ElfError.Memory) }
    {
        let bytes = Vec::with_capacity(alloc, room as usize)?;
        Ok(MemSink {
            bytes,
            room,
            puts: Calls::new(bad_puts),
            faults: 0,
        })
    }

    /// What was put. It takes no memory.
    pub fn into_bytes(self) -> Octets
        ensures { result ≡ self.bytes.items }
    {
        Octets::from_vec(self.bytes)
    }
}

impl Sink for MemSink {
    ghost wrote = { λ s. Some s.bytes.items };

    ghost faults = { λ s. s.faults };

    ghost rest = { λ _. [] };

    fn put(&mut self, buf: &[u8]) -> Result<(), Failed>
        ensures ok { OnOk result (self.new.bytes.items ≡ self.old.bytes.items ++ buf.now) }
        ensures err { OnErr result (self.new.bytes.items ≡ self.old.bytes.items) }
        ensures leaves { (self.new.room ≡ self.old.room) × (self.new.puts.bad ≡ self.old.puts.bad) }
        ensures cause { HasCause self.old.faults self.new.faults result }

        // which puts fail
        ensures number { self.new.puts.made ≡ next_count self.old.puts.made }
        ensures fails { IsErr result
            ↔ (Contains self.old.puts.bad self.new.puts.made
            ⊎ self.old.room < vec_len self.old.bytes + length buf.now) }
        ensures counted { self.new.faults ≡ faults_after result self.old.faults }
    {
        let room_left = self.room - self.bytes.len() as u64;
        if self.puts.next_fails() || room_left < buf.len() as u64 {
            self.faults = self.faults.saturating_add(1);
            return Err(Failed);
        }
        self.bytes.extend_from_slice(buf).unwrap();
        Ok(())
    }

    fn put_zeros(&mut self, n: u64) -> Result<(), Failed>
        ensures ok { OnOk result (self.new.bytes.items ≡ self.old.bytes.items ++ replicate n 0) }
        ensures err { OnErr result (self.new.bytes.items ≡ self.old.bytes.items) }
        ensures leaves { (self.new.room ≡ self.old.room) × (self.new.puts.bad ≡ self.old.puts.bad) }
        ensures cause { HasCause self.old.faults self.new.faults result }

        // which puts fail
        ensures number { self.new.puts.made ≡ next_count self.old.puts.made }
        ensures fails { IsErr result
            ↔ (Contains self.old.puts.bad self.new.puts.made
            ⊎ self.old.room < vec_len self.old.bytes + n) }
        ensures counted { self.new.faults ≡ faults_after result self.old.faults }
    {
        let room_left = self.room - self.bytes.len() as u64;
        if self.puts.next_fails() || room_left < n {
            self.faults = self.faults.saturating_add(1);
            return Err(Failed);
        }
        let longer = self.bytes.len() + n as usize;
        self.bytes.resize(longer, 0).unwrap();
        Ok(())
    }
}
