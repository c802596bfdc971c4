//! A string table that is built name by name, of names that are in an older table.

ghost use Rattle.std.specs.Prelude.{◌≡◌, ◌≢◌, ◌+◌, ◌-◌, ◌^◌, ◌<◌, ◌↔◌, ◌⊎◌, [], ◌∷◌, ◌++◌, length, All, OnOk, OnErr, IfOk, IfErr, IsErrOf, IsTrue};
ghost use Rattle.elf_types.specs.declared.errors.ElfError.TheVariants.{Memory};
ghost use Rattle.strtab_build.specs.Names.{unclosed};
ghost use Rattle.strtab_build.specs.Table.{distinct, table, place_of, string_at};

use crate::bytes::SharedBytes;
use crate::finding::find;
pub use crate::parts::NOWHERE;
use crate::parts::{StrtabParts, no_parts};
use crate::placing::place;
use elf_types::ElfError;
use std::alloc::Global;
use std::marker::Model;

/// The largest string table, in bytes: an offset into it has four bytes (gABI chapter 4, `sh_name`
/// and `st_name`).
const LIMIT: u64 = u32::MAX as u64;

/// The names of a string table in the making, which contracts see as their list: each name that is
/// not empty once, in order of first use.
///
/// It holds the text of an older table once, and of each name where it is there, so that names that
/// share their bytes take no more memory than where they are; a name that is not there is held
/// besides. A name is found again in as many steps as the number of names has digits, whichever
/// they are: by a hash, and names that are chosen to have one by their SHA-256.
#[derive(Drop)]
pub struct SharedStrings {
    parts: StrtabParts,
}

impl Model for SharedStrings {
    ghost use Rattle.std.specs.Prelude.{ℕ, List as Seq};

    ghost Value = { Seq (Seq ℕ) };

    ghost use Rattle.strtab_shared.specs.Kept.{names_of, AreKept};

    ghost view = { λ s. names_of s.parts };

    ghost invariant = { λ s. AreKept s.parts };
}

impl SharedStrings {
    /// The table with no name: one NUL is to come. It takes no memory.
    pub fn new(alloc: Global) -> SharedStrings
        ensures { result ≡ [] }
    {
        SharedStrings {
            parts: no_parts(alloc),
        }
    }

    /// The number of the table's bytes so far, without its last NUL. It takes no memory.
    pub fn len(&self) -> u64
        ensures { result ≡ length (unclosed self.now) }
    {
        self.parts.bytes.len()
    }

    /// Holds the text of an older table, in which names may be; it is copied. It fails with
    /// `Memory` alone, and changes no name.
    pub fn hold(&mut self, text: &[u8]) -> Result<(), ElfError>
        ensures same { self.new ≡ self.old }
        ensures err { IfErr result (λ e. e ≡ Memory) }
    {
        match self.parts.bytes.hold(text) {
            Ok(place) => {
                self.parts.text_at = place;
                Ok(())
            }
            Err(e) => Err(e),
        }
    }

    /// Whether the text of an older table is held. It takes no memory.
    fn holds_text(&self) -> bool {
        self.parts.text_at != NOWHERE
    }

    /// Holds the text of an older table once the table is as long, and never another one; until
    /// then the names take less. It fails with `Memory` alone, and changes no name.
    pub fn hold_late(&mut self, text: &[u8]) -> Result<(), ElfError>
        ensures same { self.new ≡ self.old }
        ensures err { IfErr result (λ e. e ≡ Memory) }
    {
        if self.holds_text() {
            return Ok(());
        }
        if self.len() < text.len() as u64 {
            return Ok(());
        }
        self.hold(text)
    }

    /// The offset of a name in the table. An equal name has one offset, the empty name has 0, and a
    /// new name goes last. `near` is where it may be in the text that is held: nothing but the
    /// memory depends on it.
    ///
    /// It fails with `TooLarge` exactly where the table would pass 2^32 - 1 bytes, and then nothing
    /// changed; and else `Memory` where there is none, and then nothing changed or no name is left.
    pub fn add(&mut self, bytes: &[u8], near: u64) -> Result<u32, ElfError>
        requires { All (λ b. b ≢ 0) bytes.now }
        ensures names { OnOk result (self.new ≡ distinct (self.old ++ bytes.now ∷ [])) }
        ensures place { IfOk result (λ offset. offset ≡ place_of bytes.now self.new) }
        ensures reads { IfOk result (λ offset. string_at (table self.new) offset ≡ bytes.now) }
        ensures too_large { IsErrOf result ElfError.TooLarge
            ↔ (2 ^ 32 - 1 < length (table (self.old ++ bytes.now ∷ []))) }
        ensures refusals { IfErr result (λ e. (e ≡ ElfError.TooLarge) ⊎ (e ≡ ElfError.Memory)) }
        ensures left { OnErr result ((self.new ≡ self.old) ⊎ (self.new ≡ [])) }
    {
        if self.fits(bytes) {
            return place(&mut self.parts, bytes, near);
        }
        find(&self.parts, bytes).ok_or(ElfError::TooLarge)
    }

    /// The table: a NUL and the names in order of first use, each with its NUL (gABI chapter 4,
    /// "String Table"). It fails with `Memory` alone.
    pub fn finish(self) -> Result<SharedBytes, ElfError>
        ensures ok { IfOk result (λ bytes. bytes ≡ table self) }
        ensures err { IfErr result (λ e. e ≡ Memory) }
    {
        let SharedStrings { parts } = self;
        let StrtabParts { mut bytes, .. } = parts;
        match bytes.extend_near(&[0], 0) {
            Ok(()) => Ok(bytes),
            Err(e) => Err(e),
        }
    }

    /// Whether the table with a name, where it is a new one, stays within its limit.
    fn fits(&self, name: &[u8]) -> bool
        ensures { IsTrue result ↔ (length (unclosed self.now) + length name.now + 2 < 2 ^ 32) }
    {
        // Beside the name there are two NULs to come: the one before it and the table's last.
        let room = LIMIT - self.parts.bytes.len();
        room >= 2 && name.len() as u64 <= room - 2
    }
}
