//! A set of files in memory.

ghost use Rattle.std.specs.Prelude.{◌≡◌, ℕ, [], true, List, Some, None, IfOk, IfErr, OnOk, OnErr};
ghost use Rattle.std.specs.Option.{option_copied};
ghost use Rattle.elf_outside.specs.Kept.{kept, bytes_kept, SameKept, SetsKept};
ghost use Rattle.elf_outside.specs.MemFiles.{SameSettings, IsFileOf, IsUntouched, HandsOut, Creates, TakesBack, emptied};

use crate::file_sets::{Files, OpenFault};
use crate::memory::calls::Calls;
use crate::memory::device::MemDevice;
use elf_types::{Addrs, ElfError, Octets};
use std::alloc::Global;
use std::collections::BTreeMap;

/// The bytes of a name, and the calls that are to fail of each file that is opened under it.
#[derive(Drop)]
struct Kept {
    bytes: Octets,
    bad_reads: Addrs,
    bad_writes: Addrs,
}

/// Names with their bytes in memory.
///
/// - `room` is the room of each file that is opened or made, or the length of its bytes where that
///   is greater.
/// - The calls of `open`, `edit` and `create` are numbered together, from 1, and those whose number
///   is in the list of failing ones fail; but a name that is not there is always answered as such.
/// - `bad_writes` numbers the failing writes of each file that `create` makes. No read of such a
///   file fails.
#[derive(Drop)]
pub struct MemFiles {
    alloc: Global,
    room: u64,
    names: BTreeMap<String, Kept>,
    opens: Calls,
    bad_writes: Addrs,
    read_faults: u64,
    write_faults: u64,
    taken: u64,
    given: u64,
    live: u64,
}

impl MemFiles {
    /// A set with no names, whose counts are 0. It takes no memory.
    pub fn new(alloc: Global, room: u64, bad_opens: Addrs, bad_writes: Addrs) -> MemFiles
        ensures names { (name : List ℕ) → kept result.names name ≡ None }
        ensures room { result.room ≡ room }
        ensures opens { (result.opens.bad ≡ bad_opens) × (result.opens.made ≡ 0) }
        ensures bad_writes { result.bad_writes ≡ bad_writes }
        ensures faults { (result.read_faults ≡ 0) × (result.write_faults ≡ 0) }
        ensures numbers { (result.taken ≡ 0) × (result.given ≡ 0) }
        ensures live { result.live ≡ 0 }
    {
        MemFiles {
            alloc,
            room,
            names: BTreeMap::new(alloc),
            opens: Calls::new(bad_opens),
            bad_writes,
            read_faults: 0,
            write_faults: 0,
            taken: 0,
            given: 0,
            live: 0,
        }
    }

    /// Sets a name's bytes, and the failing reads and writes of each file that is opened under it.
    /// It fails with `Memory` alone, and then the map is as before.
    pub fn add(
        &mut self,
        name: &str,
        bytes: Octets,
        bad_reads: Addrs,
        bad_writes: Addrs,
    ) -> Result<(), ElfError>
        ensures ok { OnOk result (SetsKept self.old.names self.new.names name.now
            (Some (record { bytes = bytes; bad_reads = bad_reads; bad_writes = bad_writes }))) }
        ensures unchanged { OnErr result (SameKept self.old.names self.new.names) }
        ensures err { IfErr result (λ e. e ≡ ElfError.Memory) }
        ensures leaves { (self.new.room ≡ self.old.room) × (self.new.opens ≡ self.old.opens)
            × (self.new.bad_writes ≡ self.old.bad_writes) }
        ensures faults { (self.new.read_faults ≡ self.old.read_faults)
            × (self.new.write_faults ≡ self.old.write_faults) }
        ensures numbers { (self.new.taken ≡ self.old.taken) × (self.new.given ≡ self.old.given) }
        ensures live { self.new.live ≡ self.old.live }
    {
        let key = String::from_str(self.alloc, name)?;
        let kept = Kept {
            bytes,
            bad_reads,
            bad_writes,
        };
        self.names.insert(key, kept)?;
        Ok(())
    }

    /// The bytes of a name, or None exactly where the name is not there. It takes no memory.
    pub fn bytes(&self, name: &str) -> Option<&[u8]>
        ensures { option_copied result ≡ bytes_kept self.now.names name.now }
    {
        match self.names.get(name) {
            Some(kept) => Some(kept.bytes.as_slice()),
            None => None,
        }
    }
}

impl MemFiles {
    /// Hands out a file under a name.
    fn hand_out(&mut self, alloc: Global, name: &str) -> Result<MemDevice, OpenFault>
        ensures { HandsOut self.old self.new name.now result }
    {
        let fails = self.opens.next_fails();
        let Some(kept) = self.names.get(name) else {
            return Err(OpenFault::NotThere);
        };
        if fails {
            self.read_faults = self.read_faults.saturating_add(1);
            return Err(OpenFault::Failed);
        }
        let file = file_of(alloc, self.room, kept)?;
        self.live = self.live.saturating_add(1);
        Ok(file)
    }
}

impl Files for MemFiles {
    type File = MemDevice;

    ghost tells = { λ _. true };

    ghost named = { λ f. bytes_kept f.names };

    ghost read_faults = { λ f. f.read_faults };

    ghost write_faults = { λ f. f.write_faults };

    ghost taken = { λ f. f.taken };

    ghost given = { λ f. f.given };

    ghost live = { λ f. f.live };

    fn open(&mut self, alloc: Global, name: &str) -> Result<MemDevice, OpenFault>
        ensures call { HandsOut self.old self.new name.now result }
    {
        self.hand_out(alloc, name)
    }

    fn edit(&mut self, alloc: Global, name: &str) -> Result<MemDevice, OpenFault>
        ensures call { HandsOut self.old self.new name.now result }
    {
        self.hand_out(alloc, name)
    }

    fn create(&mut self, alloc: Global, name: &str) -> Result<MemDevice, OpenFault>
        ensures call { Creates self.old self.new name.now result }
    {
        if self.opens.next_fails() {
            self.write_faults = self.write_faults.saturating_add(1);
            return Err(OpenFault::Failed);
        }
        let file = new_file(alloc, self.room, &self.bad_writes)?;
        set_empty(&mut self.names, alloc, name)?;
        self.live = self.live.saturating_add(1);
        Ok(file)
    }

    fn close(&mut self, name: &str, file: MemDevice)
        ensures call { TakesBack self.old self.new name.now file }
    {
        self.read_faults = self.read_faults.saturating_add(file.faults);
        self.write_faults = self.write_faults.saturating_add(file.write_faults);
        self.taken = self.taken.saturating_add(file.taken);
        self.given = self.given.saturating_add(file.given);
        self.live = self.live.saturating_sub(1);
        if let Some(kept) = self.names.get_mut(name) {
            kept.bytes = file.into_bytes();
        }
    }
}

/// A file of what is kept of its name. It fails with `Memory` alone.
fn file_of(alloc: Global, room: u64, kept: &Kept) -> Result<MemDevice, OpenFault>
    ensures ok { IfOk result (IsFileOf room kept.now) }
    ensures err { IfErr result (λ e. e ≡ OpenFault.Memory) }
{
    let room = room.max(kept.bytes.len());
    let bad_reads = copy_of(alloc, &kept.bad_reads)?;
    let bad_writes = copy_of(alloc, &kept.bad_writes)?;
    match MemDevice::new(alloc, kept.bytes.as_slice(), room, bad_reads, bad_writes) {
        Ok(file) => Ok(file),
        Err(_) => Err(OpenFault::Memory),
    }
}

/// A copy of a list of numbers. It fails with `Memory` alone.
fn copy_of(alloc: Global, numbers: &Addrs) -> Result<Addrs, OpenFault>
    ensures ok { IfOk result (λ copy. copy ≡ numbers.now) }
    ensures err { IfErr result (λ e. e ≡ OpenFault.Memory) }
{
    match Vec::from_slice(alloc, numbers.as_slice()) {
        Ok(copy) => Ok(Addrs::from_vec(copy)),
        Err(_) => Err(OpenFault::Memory),
    }
}

/// An empty file, as `create` makes it. It fails with `Memory` alone.
fn new_file(alloc: Global, room: u64, bad_writes: &Addrs) -> Result<MemDevice, OpenFault>
    ensures bytes { IfOk result (λ f. f.bytes.items ≡ []) }
    ensures room { IfOk result (λ f. f.room ≡ room) }
    ensures failing { IfOk result (λ f. (f.reads.bad ≡ []) × (f.writes.bad ≡ bad_writes.now)) }
    ensures untouched { IfOk result IsUntouched }
    ensures err { IfErr result (λ e. e ≡ OpenFault.Memory) }
{
    let bad_writes = copy_of(alloc, bad_writes)?;
    match MemDevice::new(alloc, &[], room, Addrs::new(alloc), bad_writes) {
        Ok(file) => Ok(file),
        Err(_) => Err(OpenFault::Memory),
    }
}

/// What is kept of a new name. It takes no memory.
fn nothing_kept(alloc: Global) -> Kept
    ensures { result ≡ emptied None }
{
    Kept {
        bytes: Octets::new(alloc),
        bad_reads: Addrs::new(alloc),
        bad_writes: Addrs::new(alloc),
    }
}

/// Sets what is kept of a name. It fails with `Memory` alone, and then every name is as before.
fn keep(names: &mut BTreeMap<String, Kept>, name: String, kept: Kept) -> Result<(), OpenFault>
    ensures ok { OnOk result (SetsKept names.old names.new name.bytes.items (Some kept)) }
    ensures unchanged { OnErr result (SameKept names.old names.new) }
    ensures err { IfErr result (λ e. e ≡ OpenFault.Memory) }
{
    match names.insert(name, kept) {
        Ok(_) => Ok(()),
        Err(_) => Err(OpenFault::Memory),
    }
}

/// Adds a name with the empty text. It fails with `Memory` alone, and then every name is as before.
fn add_empty(names: &mut BTreeMap<String, Kept>, alloc: Global, name: &str) -> Result<(), OpenFault>
    ensures ok { OnOk result (SetsKept names.old names.new name.now (Some (emptied None))) }
    ensures unchanged { OnErr result (SameKept names.old names.new) }
    ensures err { IfErr result (λ e. e ≡ OpenFault.Memory) }
{
    match String::from_str(alloc, name) {
        Ok(key) => keep(names, key, nothing_kept(alloc)),
        Err(_) => Err(OpenFault::Memory),
    }
}

/// Sets a name to the empty text, and leaves the failing calls of a name that is there. It fails
/// with `Memory` alone, and then every name is as before.
fn set_empty(names: &mut BTreeMap<String, Kept>, alloc: Global, name: &str) -> Result<(), OpenFault>
    ensures ok { OnOk result
        (SetsKept names.old names.new name.now (Some (emptied (kept names.old name.now)))) }
    ensures unchanged { OnErr result (SameKept names.old names.new) }
    ensures err { IfErr result (λ e. e ≡ OpenFault.Memory) }
{
    if let Some(kept) = names.get_mut(name) {
        kept.bytes = Octets::new(alloc);
        return Ok(());
    }
    match add_empty(names, alloc, name) {
        Ok(()) => Ok(()),
        Err(e) => Err(e),
    }
}
