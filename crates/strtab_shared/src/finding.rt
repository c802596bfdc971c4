//! How a name is found in a table in the making.

ghost use Rattle.std.specs.Prelude.{◌≡◌, ◌+◌, ◌≤◌, ◌==◌, Some, false, length, take, drop, MatchOption, IfOk, IfErr, OnErr};
ghost use Rattle.std.specs.BTreeMap.{get};
ghost use Rattle.std.specs.Ordering.{nat_cmp};
ghost use Rattle.std.specs.Str.{bytes_eq};
ghost use Rattle.strtab_build.specs.Names.{IsHeld, IsNew};
ghost use Rattle.strtab_shared.specs.Hashes.{quick_hash_of, digest_of};
ghost use Rattle.strtab_shared.specs.Kept.{names_of, AreKept, IsNoFollower};

use crate::bytes::SharedBytes;
use crate::entries::NameEntry;
use crate::hashes::{digest_of, hash_of};
use crate::parts::StrtabParts;

/// Whether a name is that of an entry.
fn is_at(bytes: &SharedBytes, entry: NameEntry, name: &[u8]) -> bool
    requires { entry.start + entry.len ≤ length bytes.now }
    ensures { result ≡ bytes_eq name.now (take entry.len (drop entry.start bytes.now)) }
{
    if name.len() as u64 != u64::from(entry.len) {
        return false;
    }
    bytes.has_at(u64::from(entry.start), name)
}

/// The offset of a name with a digest among those that are not the first with their hash.
fn find_follower(parts: &StrtabParts, name: &[u8], digest: u64) -> Option<u32>
    requires kept { AreKept parts.now }
    requires digest { digest ≡ digest_of name.now }
    ensures { MatchOption result (IsNoFollower name.now parts.now)
        (IsHeld name.now (names_of parts.now)) }
{
    // The names with this digest, the newest first.
    let mut next = parts.newest.get(&digest).copied();
    while let Some(index) = next {
        let entry = parts.entries[index as usize];
        if is_at(&parts.bytes, entry, name) {
            return Some(entry.start);
        }
        next = entry.older;
    }
    None
}

/// The offset of a name that the table holds, by the first index with its hash; the digest of a new
/// one.
pub(crate) fn find_hashed(parts: &StrtabParts, name: &[u8], first: u32) -> Result<u32, u64>
    requires kept { AreKept parts.now }
    requires full { (length name.now == 0) ≡ false }
    requires first { get nat_cmp parts.now.first (quick_hash_of name.now) ≡ Some first }
    ensures held { IfOk result (IsHeld name.now (names_of parts.now)) }
    ensures new { OnErr result (IsNew name.now (names_of parts.now)) }
    ensures digest { IfErr result (λ digest. digest ≡ digest_of name.now) }
{
    let entry = parts.entries[first as usize];
    if is_at(&parts.bytes, entry, name) {
        return Ok(entry.start);
    }
    let digest = digest_of(name);
    match find_follower(parts, name, digest) {
        Some(offset) => Ok(offset),
        None => Err(digest),
    }
}

/// The offset of a name that the table holds, or of the empty one.
pub(crate) fn find(parts: &StrtabParts, name: &[u8]) -> Option<u32>
    requires { AreKept parts.now }
    ensures { MatchOption result (IsNew name.now (names_of parts.now))
        (IsHeld name.now (names_of parts.now)) }
{
    if name.is_empty() {
        return Some(0);
    }
    let first = parts.first.get(&hash_of(name)).copied()?;
    match find_hashed(parts, name, first) {
        Ok(offset) => Some(offset),
        Err(_digest) => None,
    }
}
