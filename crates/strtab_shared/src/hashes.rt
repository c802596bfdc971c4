//! What names are found by.

ghost use Rattle.std.specs.Prelude.{◌≡◌};
ghost use Rattle.strtab_shared.specs.Hashes.{quick_hash_of, digest_of};

use sha2::{Digest, Sha256};
use std::hash::{FoldHasher, Hasher};

/// The hash of a name. It is quick, and its seed is fixed: whoever picks names can give as many of
/// them as he likes one hash.
#[tactic(auto, unfolding(crate::specs::Hashes::quick_hash_of))]
pub(crate) fn hash_of(name: &[u8]) -> u32
    ensures { result ≡ quick_hash_of name.now }
{
    let mut hasher = FoldHasher::default();
    hasher.write(name);
    (hasher.finish() >> 32) as u32
}

/// The digest of a name: the first eight bytes of its SHA-256. Nobody knows how to pick many names
/// that have one.
#[tactic(auto, unfolding(crate::specs::Hashes::digest_of))]
pub(crate) fn digest_of(name: &[u8]) -> u64
    ensures { result ≡ digest_of name.now }
{
    let digest = Sha256::digest(name);
    match digest.as_slice().first_chunk::<8>() {
        Some(first) => u64::from_be_bytes(*first),
        None => unreachable!(),
    }
}
