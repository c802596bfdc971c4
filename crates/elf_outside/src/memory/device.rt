//! A device in memory.

ghost use Rattle.std.specs.Prelude.{refl, ◌≡◌, ◌⊎◌, ◌↔◌, ◌+◌, ◌≤◌, ◌<◌, ◌++◌, ◌∷◌, [], Some, Contains, IsErr, length, take, drop, replicate, vec_len, vec_capacity, OnOk, OnErr, IfOk, IfErr};
ghost use Rattle.std.proofs.Common.{rules};
ghost use Rattle.elf_outside.specs.Counts.{HasCause, RaisedBy, next_count, faults_after};
ghost use Rattle.elf_outside.specs.Writes.{written_over, resized};

use crate::devices::Device;
use crate::memory::calls::Calls;
use crate::ranges::{copy_range, put_over};
use crate::sources::{Failed, Source};
use elf_types::{Addrs, ElfError, Octets};
use std::alloc::Global;

/// Bytes in memory, to be read and written, that grow up to a room for which memory is taken at the
/// start. The reads and the writes are numbered from 1, each for themselves, and those whose number
/// is in the list of failing reads or of failing writes fail. A call that fails, or would pass the
/// room, changes nothing but the counts.
#[derive(Drop)]
pub struct MemDevice {
    bytes: Vec<u8>,
    room: u64,
    reads: Calls,
    writes: Calls,
    pub(super) faults: u64,
    pub(super) write_faults: u64,
    pub(super) taken: u64,
    pub(super) given: u64,
    pub ghost fits: { vec_len bytes ≤ room },
    pub ghost reserved: { room ≤ vec_capacity bytes },
    /// Where no read is to fail, none has failed.
    pub ghost quiet: { reads.bad ≡ [] → faults ≡ 0 },
}

impl MemDevice {
    /// A device with a copy of the bytes, whose counts are 0. It fails with `Memory` alone.
    pub fn new(
        alloc: Global,
        bytes: &[u8],
        room: u64,
        bad_reads: Addrs,
        bad_writes: Addrs,
    ) -> Result<MemDevice, ElfError>
        requires { length bytes.now ≤ room }
        ensures bytes { IfOk result (λ d. d.bytes.items ≡ bytes.now) }
        ensures room { IfOk result (λ d. d.room ≡ room) }
        ensures reads { IfOk result (λ d. (d.reads.bad ≡ bad_reads) × (d.reads.made ≡ 0)) }
        ensures writes { IfOk result (λ d. (d.writes.bad ≡ bad_writes) × (d.writes.made ≡ 0)) }
        ensures faults { IfOk result (λ d. (d.faults ≡ 0) × (d.write_faults ≡ 0)) }
        ensures numbers { IfOk result (λ d. (d.taken ≡ 0) × (d.given ≡ 0)) }
        ensures err { IfErr result (λ e. e ≡ ElfError.Memory) }
    {
        let mut held = Vec::with_capacity(alloc, room as usize)?;
        held.extend_from_slice(bytes)?;
        Ok(MemDevice {
            bytes: held,
            room,
            reads: Calls::new(bad_reads),
            writes: Calls::new(bad_writes),
            faults: 0,
            write_faults: 0,
            taken: 0,
            given: 0,
        })
    }

    /// The number of bytes that were asked for so far. It takes no memory.
    pub fn asked(&self) -> u64
        ensures { result ≡ self.now.taken }
    {
        self.taken
    }

    /// The bytes. It takes no memory.
    pub fn into_bytes(self) -> Octets
        ensures { result ≡ self.bytes.items }
    {
        Octets::from_vec(self.bytes)
    }
}

impl Source for MemDevice {
    ghost size = { λ d. vec_len d.bytes };

    ghost holds = { λ d. Some d.bytes.items };

    ghost rest = { λ d. (d.given ∷ d.write_faults ∷ []) ∷ d.reads.bad ∷ [] };

    ghost faults = { λ d. d.faults };

    ghost taken = { λ d. d.taken };

    fn len(&self) -> u64 {
        let bytes = self.bytes.as_slice();
        bytes.len() as u64
    }

    fn read_at(&mut self, at: u64, buf: &mut [u8]) -> Result<(), Failed>
        requires { at + length buf.old ≤ vec_len self.old.bytes }
        ensures leaves { (self.new.bytes ≡ self.old.bytes)
            × (self.new.reads.bad ≡ self.old.reads.bad) }
        ensures leaves_writes { (self.new.given ≡ self.old.given)
            × (self.new.write_faults ≡ self.old.write_faults)
            × (self.new.writes ≡ self.old.writes) × (self.new.room ≡ self.old.room) }
        ensures bytes { OnOk result
            (buf.new ≡ take (length buf.old) (drop at self.old.bytes.items)) }
        ensures cause { HasCause self.old.faults self.new.faults result }
        ensures taken { RaisedBy self.old.taken self.new.taken (length buf.old) }

        // which reads fail, and what such a read changes
        ensures number { self.new.reads.made ≡ next_count self.old.reads.made }
        ensures fails { IsErr result ↔ Contains self.old.reads.bad self.new.reads.made }
        ensures counted { self.new.faults ≡ faults_after result self.old.faults }
        ensures untouched { OnErr result (buf.new ≡ buf.old) }
    {
        self.taken = self.taken.saturating_add(buf.len() as u64);
        self.reads.next(&mut self.faults)?;
        copy_range(self.bytes.as_slice(), at as usize, buf);
        Ok(())
    }

    ghost sized = { Prim.search rules };
}

impl Device for MemDevice {
    ghost write_faults = { λ d. d.write_faults };

    ghost given = { λ d. d.given };

    ghost rest_after = { λ d. d.reads.bad ∷ [] };

    fn write_at(&mut self, at: u64, buf: &[u8]) -> Result<(), Failed>
        requires { at + length buf.now ≤ vec_len self.old.bytes }
        ensures ok { OnOk result
            (self.new.bytes.items ≡ written_over self.old.bytes.items at buf.now) }
        ensures err { OnErr result (self.new.bytes.items ≡ self.old.bytes.items) }
        ensures cause { HasCause self.old.write_faults self.new.write_faults result }
        ensures given { RaisedBy self.old.given self.new.given (length buf.now) }
        ensures leaves { (self.new.reads ≡ self.old.reads) × (self.new.faults ≡ self.old.faults)
            × (self.new.taken ≡ self.old.taken) × (self.new.room ≡ self.old.room) }

        // which writes fail
        ensures number { self.new.writes.made ≡ next_count self.old.writes.made }
        ensures bad { self.new.writes.bad ≡ self.old.writes.bad }
        ensures fails { IsErr result ↔ Contains self.old.writes.bad self.new.writes.made }
        ensures counted { self.new.write_faults ≡ faults_after result self.old.write_faults }
    {
        self.given = self.given.saturating_add(buf.len() as u64);
        self.writes.next(&mut self.write_faults)?;
        put_over(self.bytes.as_mut_slice(), at as usize, buf);
        Ok(())
    }

    fn set_len(&mut self, n: u64) -> Result<(), Failed>
        ensures ok { OnOk result (self.new.bytes.items ≡ resized n self.old.bytes.items) }
        ensures err { OnErr result (self.new.bytes.items ≡ self.old.bytes.items) }
        ensures cause { HasCause self.old.write_faults self.new.write_faults result }
        ensures given { self.new.given ≡ self.old.given }
        ensures leaves { (self.new.reads ≡ self.old.reads) × (self.new.faults ≡ self.old.faults)
            × (self.new.taken ≡ self.old.taken) × (self.new.room ≡ self.old.room) }

        // which writes fail
        ensures number { self.new.writes.made ≡ next_count self.old.writes.made }
        ensures bad { self.new.writes.bad ≡ self.old.writes.bad }
        ensures fails { IsErr result
            ↔ (Contains self.old.writes.bad self.new.writes.made ⊎ self.old.room < n) }
        ensures counted { self.new.write_faults ≡ faults_after result self.old.write_faults }
    {
        if self.writes.next_fails() || self.room < n {
            self.write_faults = self.write_faults.saturating_add(1);
            return Err(Failed);
        }
        self.bytes.resize(n as usize, 0).unwrap();
        Ok(())
    }

    fn append(&mut self, buf: &[u8]) -> Result<(), Failed>
        ensures ok { OnOk result (self.new.bytes.items ≡ self.old.bytes.items ++ buf.now) }
        ensures err { OnErr result (self.new.bytes.items ≡ self.old.bytes.items) }
        ensures cause { HasCause self.old.write_faults self.new.write_faults result }
        ensures given { RaisedBy self.old.given self.new.given (length buf.now) }
        ensures leaves { (self.new.reads ≡ self.old.reads) × (self.new.faults ≡ self.old.faults)
            × (self.new.taken ≡ self.old.taken) × (self.new.room ≡ self.old.room) }

        // which writes fail
        ensures number { self.new.writes.made ≡ next_count self.old.writes.made }
        ensures bad { self.new.writes.bad ≡ self.old.writes.bad }
        ensures fails { IsErr result
            ↔ (Contains self.old.writes.bad self.new.writes.made
            ⊎ self.old.room < vec_len self.old.bytes + length buf.now) }
        ensures counted { self.new.write_faults ≡ faults_after result self.old.write_faults }
    {
        self.given = self.given.saturating_add(buf.len() as u64);
        let room_left = self.room - self.bytes.len() as u64;
        if self.writes.next_fails() || room_left < buf.len() as u64 {
            self.write_faults = self.write_faults.saturating_add(1);
            return Err(Failed);
        }
        self.bytes.extend_from_slice(buf).unwrap();
        Ok(())
    }

    fn append_zeros(&mut self, n: u64) -> Result<(), Failed>
        ensures ok { OnOk result (self.new.bytes.items ≡ self.old.bytes.items ++ replicate n 0) }
        ensures err { OnErr result (self.new.bytes.items ≡ self.old.bytes.items) }
        ensures cause { HasCause self.old.write_faults self.new.write_faults result }
        ensures given { RaisedBy self.old.given self.new.given n }
        ensures leaves { (self.new.reads ≡ self.old.reads) × (self.new.faults ≡ self.old.faults)
            × (self.new.taken ≡ self.old.taken) × (self.new.room ≡ self.old.room) }

        // which writes fail
        ensures number { self.new.writes.made ≡ next_count self.old.writes.made }
        ensures bad { self.new.writes.bad ≡ self.old.writes.bad }
        ensures fails { IsErr result
            ↔ (Contains self.old.writes.bad self.new.writes.made
            ⊎ self.old.room < vec_len self.old.bytes + n) }
        ensures counted { self.new.write_faults ≡ faults_after result self.old.write_faults }
    {
        self.given = self.given.saturating_add(n);
        let room_left = self.room - self.bytes.len() as u64;
        if self.writes.next_fails() || room_left < n {
            self.write_faults = self.write_faults.saturating_add(1);
            return Err(Failed);
        }
        let longer = self.bytes.len() + n as usize;
        self.bytes.resize(longer, 0).unwrap();
        Ok(())
    }

    ghost rest_begins = { λ _. refl };
}
