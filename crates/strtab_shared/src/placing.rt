//! How a name is put into a table in the making.

ghost use Rattle.std.specs.Prelude.{◌≡◌, ◌+◌, ◌<◌, ◌^◌, ◌==◌, ℕ, Some, false, length, OnOk, OnErr, IfOk, IfErr};
ghost use Rattle.std.specs.Ordering.{nat_cmp};
ghost use Rattle.std.specs.BTreeMap.{get};
ghost use Rattle.elf_types.specs.declared.errors.ElfError.TheVariants.{Memory};
ghost use Rattle.strtab_shared.specs.Hashes.{quick_hash_of};
ghost use Rattle.strtab_shared.specs.Kept.{with_first, names_of, AreKept, Places};

use crate::finding::find_hashed;
use crate::hashes::hash_of;
use crate::parts::{StrtabParts, put_last};
use elf_types::ElfError;
use std::collections::BTreeMap;

/// The index of the next name.
fn next_index(parts: &StrtabParts) -> u32
    requires { AreKept parts.now }
    ensures { result ≡ length (names_of parts.now) }
{
    parts.entries.len() as u32
}

/// Notes an index for a hash, unless one is noted, and returns that one. It fails with `Memory`
/// alone, and then all is as before.
fn note_first(
    first: &mut BTreeMap<u32, u32>,
    hash: u32,
    index: u32,
) -> Result<Option<u32>, ElfError>
    ensures noted { IfOk result (λ noted. noted ≡ get nat_cmp first.old hash) }
    ensures notes { OnOk result ((q : ℕ)
        → get nat_cmp first.new q ≡ with_first (get nat_cmp first.old) hash index q) }
    ensures unchanged { OnErr result ((q : ℕ)
        → get nat_cmp first.new q ≡ get nat_cmp first.old q) }
    ensures err { IfErr result (λ e. e ≡ Memory) }
{
    let noted = first.insert(hash, index)?;
    if let Some(older) = noted {
        first.insert(hash, older)?;
    }
    Ok(noted)
}

/// The offset of a name whose hash the name at an index has; a new one is put last.
fn place_follower(
    parts: &mut StrtabParts,
    name: &[u8],
    first: u32,
    near: u64,
) -> Result<u32, ElfError>
    requires kept { AreKept parts.old }
    requires full { (length name.now == 0) ≡ false }
    requires fits { length parts.old.bytes + length name.now + 2 < 2 ^ 32 }
    requires first { get nat_cmp parts.old.first (quick_hash_of name.now) ≡ Some first }
    ensures places { Places name.now result parts.old parts.new }
    ensures err { IfErr result (λ e. e ≡ Memory) }
{
    let digest = match find_hashed(parts, name, first) {
        Ok(offset) => return Ok(offset),
        Err(digest) => digest,
    };
    let index = next_index(parts);
    let older = parts.newest.insert(digest, index)?;
    put_last(parts, name, older, near)
}

/// The offset of a name; a new one is put last. `near` is where it may be in the text that is held.
/// It fails with `Memory` alone, and then nothing changed or no name is left.
pub(crate) fn place(parts: &mut StrtabParts, name: &[u8], near: u64) -> Result<u32, ElfError>
    requires kept { AreKept parts.old }
    requires fits { length parts.old.bytes + length name.now + 2 < 2 ^ 32 }
    ensures places { Places name.now result parts.old parts.new }
    ensures err { IfErr result (λ e. e ≡ Memory) }
{
    if name.is_empty() {
        return Ok(0);
    }
    let index = next_index(parts);
    let noted = note_first(&mut parts.first, hash_of(name), index)?;
    match noted {
        Some(first) => place_follower(parts, name, first, near),
        None => put_last(parts, name, None, near),
    }
}
