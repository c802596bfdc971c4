//! A string table that is built name by name.

ghost use Rattle.std.specs.Prelude.{◌≡◌, ◌≢◌, ℕ, ◌+◌, ◌-◌, ◌^◌, ◌<◌, ◌≤◌, ◌↔◌, ◌⊎◌, List, [], ◌∷◌, ◌++◌, length, All, OnOk, OnErr, IfOk, IfErr, IsErrOf, IsTrue};
ghost use Rattle.strtab_build.specs.Names.{hash_of, key_after, IsHeld, IsNew};
ghost use Rattle.strtab_build.specs.Table.{distinct, table, place_of, string_at};

use crate::entries::Entry;
use elf_types::{ElfError, List, Octets};
use indexmap::IndexMap;
use std::alloc::{AllocError, Global};
use std::hash::{FoldHasher, Hasher};
use std::marker::Model;

/// The largest string table, in bytes: an offset into it has four bytes (gABI chapter 4, `sh_name`
/// and `st_name`).
const LIMIT: usize = u32::MAX as usize;

/// The names of a string table in the making, which contracts see as their list: each name that is
/// not empty once, in order of first use.
///
/// A name's bytes are once, in the table. A map in order of insertion has an entry for each name,
/// so its own order is that of first use. The key of a name is its hash, and how many names before
/// it have that hash. The hash has a fixed seed, so whoever picks the names can make them collide,
/// and each of these is then compared with those before.
#[derive(Drop)]
pub struct Strings {
    /// The table without its last NUL, so that a name follows its NUL, and no name takes no memory.
    bytes: Vec<u8>,
    /// Where each name is, in order of first use.
    entries: IndexMap<(u64, u32), Entry>,
}

impl Model for Strings {
    ghost use Rattle.std.specs.Prelude.{ℕ, List as Seq};

    ghost Value = { Seq (Seq ℕ) };

    ghost use Rattle.strtab_build.specs.Names.{names_in, IsKept};

    ghost view = { λ s. names_in s.bytes.items s.entries.entries };

    ghost invariant = { λ s. IsKept s.bytes.items s.entries.entries
        (names_in s.bytes.items s.entries.entries) };
}

/// The hash by which a name is found again.
#[tactic(auto, unfolding(crate::specs::Names::hash_of))]
fn hash_of(name: &[u8]) -> u64
    ensures { result ≡ hash_of name.now }
{
    let mut hasher = FoldHasher::default();
    hasher.write(name);
    hasher.finish()
}

impl Strings {
    /// The table with no name: one NUL is to come. It takes no memory.
    pub fn new(alloc: Global) -> Strings
        ensures { result ≡ [] }
    {
        Strings {
            bytes: Vec::new(alloc),
            entries: IndexMap::new(alloc),
        }
    }

    /// The offset of a name in the table. An equal name has one offset, the empty name has 0, and a
    /// new name goes last.
    ///
    /// It fails with `TooLarge` exactly where the table would pass 2^32 - 1 bytes, and else
    /// `Memory` where there is none. Then nothing changed.
    pub fn add(&mut self, bytes: &[u8]) -> Result<u32, ElfError>
        requires { All (λ b. b ≢ 0) bytes.now }
        ensures names { OnOk result (self.new ≡ distinct (self.old ++ bytes.now ∷ [])) }
        ensures place { IfOk result (λ offset. offset ≡ place_of bytes.now self.new) }
        ensures reads { IfOk result (λ offset. string_at (table self.new) offset ≡ bytes.now) }
        ensures too_large { IsErrOf result ElfError.TooLarge
            ↔ (2 ^ 32 - 1 < length (table (self.old ++ bytes.now ∷ []))) }
        ensures refusals { IfErr result (λ e. (e ≡ ElfError.TooLarge) ⊎ (e ≡ ElfError.Memory)) }
        ensures unchanged { OnErr result (self.new ≡ self.old) }
    {
        let key = match self.find(bytes) {
            Ok(offset) => return Ok(offset),
            Err(key) => key,
        };
        if !self.fits(bytes) {
            return Err(ElfError::TooLarge);
        }
        let offset = self.append(bytes, key)?;
        Ok(offset)
    }

    /// The table: a NUL and the names in order of first use, each with its NUL (gABI chapter 4,
    /// "String Table"). It fails with `Memory` alone.
    pub fn finish(self) -> Result<Octets, ElfError>
        ensures ok { IfOk result (λ bytes. bytes ≡ table self) }
        ensures err { IfErr result (λ e. e ≡ ElfError.Memory) }
    {
        let Strings {
            mut bytes,
            entries: _entries,
        } = self;
        bytes.push(0)?;
        Ok(List::from_vec(bytes))
    }

    /// The offset of a name that the table holds, or of the empty one; the key of a new one.
    fn find(&self, name: &[u8]) -> Result<u32, (u64, u32)>
        ensures held { IfOk result (IsHeld name.now self.now) }
        ensures new { OnErr result (IsNew name.now self.now) }
        ensures key { IfErr result (λ key. key ≡ key_after self.now name.now) }
    {
        let bytes = self.bytes.as_slice();
        if name.is_empty() {
            return Ok(0);
        }
        let hash = hash_of(name);
        // The names with this hash, the oldest first.
        let mut repeat = 0;
        while let Some(entry) = self.entries.get(&(hash, repeat)).copied() {
            let start = entry.start as usize;
            if name == &bytes[start..start + entry.len as usize] {
                return Ok(entry.start);
            }
            repeat += 1;
        }
        Err((hash, repeat))
    }

    /// Whether the table with a new name stays within its limit.
    fn fits(&self, name: &[u8]) -> bool
        requires { IsNew name.now self.now }
        ensures { IsTrue result ↔ (length (table (self.now ++ name.now ∷ [])) < 2 ^ 32) }
    {
        // Beside the name there are two NULs to come: the one before it and the table's last.
        name.len() + 2 <= LIMIT - self.bytes.len()
    }

    /// Puts a new name last.
    fn append(&mut self, name: &[u8], key: (u64, u32)) -> Result<u32, AllocError>
        requires key { key ≡ key_after self.old name.now }
        requires new { IsNew name.now self.old }
        requires fits { length (table (self.old ++ name.now ∷ [])) < 2 ^ 32 }
        ensures names { OnOk result (self.new ≡ distinct (self.old ++ name.now ∷ [])) }
        ensures place { IfOk result (λ offset. offset ≡ place_of name.now self.new) }
        ensures unchanged { OnErr result (self.new ≡ self.old) }
    {
        let start = self.bytes.len() as u32 + 1;
        let len = name.len() as u32;
        // All that can fail comes before the first change.
        self.bytes.reserve(name.len() + 1)?;
        self.entries.insert(key, Entry { start, len })?;
        self.bytes.push(0).unwrap();
        self.bytes.extend_from_slice(name).unwrap();
        Ok(start)
    }
}

#[cfg(test)]
mod tests;
