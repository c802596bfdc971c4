//! What a string table in the making is made of.

ghost use Rattle.std.specs.Prelude.{◌≡◌, ◌+◌, ◌<◌, ◌^◌, ◌++◌, ◌∷◌, length, OnOk, OnErr, IfErr};
ghost use Rattle.elf_types.specs.declared.errors.ElfError.TheVariants.{Memory};
ghost use Rattle.strtab_shared.specs.Kept.{IsNothing, PutsLast};

use crate::bytes::SharedBytes;
use crate::entries::NameEntry;
use elf_types::ElfError;
use std::alloc::Global;
use std::collections::BTreeMap;

/// The place of no text, after all that can be held: no name is there.
pub const NOWHERE: u64 = u64::MAX;

/// The names of a table, each once and in order of first use, and what finds them again.
///
/// A name is looked for by its hash, and by its digest where the first name with the hash is
/// another one: names that are chosen to have one hash cost a digest each. Both are found in as
/// many steps as the number of names has digits, whichever they are.
#[derive(Drop)]
pub struct StrtabParts {
    /// The table without its last NUL, so that a name follows its NUL, and no name takes no memory.
    pub bytes: SharedBytes,
    /// What is known of each name, in order of first use.
    pub entries: Vec<NameEntry>,
    /// The index of the first entry whose name has a hash.
    pub first: BTreeMap<u32, u32>,
    /// The index of the last entry whose name has a digest, of those that are not the first with
    /// their hash.
    pub newest: BTreeMap<u64, u32>,
    /// Where the text of an older table begins in that of `bytes`; `NOWHERE` before one is held.
    pub text_at: u64,
}

/// The parts of a table without names. It takes no memory.
pub(crate) fn no_parts(alloc: Global) -> StrtabParts
    ensures { IsNothing result }
{
    StrtabParts {
        bytes: SharedBytes::new(alloc),
        entries: Vec::new(alloc),
        first: BTreeMap::new(alloc),
        newest: BTreeMap::new(alloc),
        text_at: NOWHERE,
    }
}

/// Frees all names and of the text.
fn clear_parts(parts: &mut StrtabParts)
    ensures { IsNothing parts.new }
{
    parts.bytes.clear();
    parts.entries.clear();
    parts.first.clear();
    parts.newest.clear();
    parts.text_at = NOWHERE;
}

/// Puts a NUL and a name after the bytes of a table, which may be at a place of its text. It fails
/// with `Memory` alone.
fn put_name(bytes: &mut SharedBytes, name: &[u8], near: u64) -> Result<(), ElfError>
    ensures ok { OnOk result (bytes.new ≡ bytes.old ++ 0 ∷ name.now) }
    ensures err { IfErr result (λ e. e ≡ Memory) }
{
    // Names mostly are one after the other, so a NUL is before this one.
    match bytes.extend_near(&[0], near.saturating_sub(1)) {
        Ok(()) => bytes.extend_near(name, near),
        Err(e) => Err(e),
    }
}

/// Puts a name and its entry last, after so many bytes. It fails with `Memory` alone.
fn push_name(
    parts: &mut StrtabParts,
    name: &[u8],
    older: Option<u32>,
    near: u64,
) -> Result<u32, ElfError>
    requires { length parts.old.bytes + length name.now + 2 < 2 ^ 32 }
    ensures ok { PutsLast name.now older result parts.old parts.new }
    ensures err { IfErr result (λ e. e ≡ Memory) }
{
    let start = parts.bytes.len() as u32 + 1;
    let near = near.saturating_add(parts.text_at);
    match put_name(&mut parts.bytes, name, near) {
        Ok(()) => {
            parts.entries.push(NameEntry {
                start,
                len: name.len() as u32,
                older,
            })?;
            Ok(start)
        }
        Err(e) => Err(e),
    }
}

/// Puts a name and its entry last, and returns its place. It fails with `Memory` alone, and then no
/// name is left.
pub(crate) fn put_last(
    parts: &mut StrtabParts,
    name: &[u8],
    older: Option<u32>,
    near: u64,
) -> Result<u32, ElfError>
    requires { length parts.old.bytes + length name.now + 2 < 2 ^ 32 }
    ensures ok { PutsLast name.now older result parts.old parts.new }
    ensures none { OnErr result (IsNothing parts.new) }
    ensures err { IfErr result (λ e. e ≡ Memory) }
{
    match push_name(parts, name, older, near) {
        Ok(start) => Ok(start),
        Err(e) => {
            clear_parts(parts);
            Err(e)
        }
    }
}
