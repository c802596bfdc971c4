//! The buckets of GNU's hash section, and the order of the symbols in which they are chains.

ghost use Rattle.std.specs.Prelude.{◌≡◌, ◌<◌, ◌≤◌, ◌-◌, ◌^◌, length, not, is_none, slice_index_or, IfSome, None};
ghost use Rattle.symbol_lookup.specs.hash_model.BuiltHashes as rules;
ghost use Rattle.hash_build.specs.Hashed.{buckets_by, first_set, zeros_of};
ghost use Rattle.hash_build.specs.Gnu.{first_hashed, firsts_of};

use crate::words::{bucket_of, hash_at, set_word};
use elf_types::{List, Words};

/// Whether a symbol is listed.
fn is_listed(hash: Option<u32>) -> bool
    ensures { result ≡ not (is_none hash) }
{
    match hash {
        Some(_) => true,
        None => false,
    }
}

/// The first symbol that is listed, or the number of symbols.
pub fn first_hashed(hashes: &List<Option<u32>>) -> u64
    ensures value { result ≡ first_hashed hashes.now }
    ensures within { result ≤ length hashes.now }
{
    let count = hashes.len();
    for i in 0..count {
        let hash = hash_at(hashes, i);
        if is_listed(hash) {
            return i;
        }
    }
    count
}

/// Whether a symbol is out of the order after one with another bucket, or with none.
fn is_unsorted_after(before: Option<u64>, next: Option<u64>) -> bool
    ensures { result ≡ rules.is_unsorted_after before next }
{
    match before {
        None => false,
        Some(bucket) => match next {
            None => true,
            Some(b) => b < bucket,
        },
    }
}

/// Whether symbol `i` is out of the order after the one before it.
fn is_unsorted_at(hashes: &List<Option<u32>>, nbuckets: u32, i: u64) -> bool
    requires some { 0 < nbuckets }
    requires from { 1 ≤ i }
    ensures { result ≡ rules.is_unsorted_after
        (slice_index_or (buckets_by nbuckets hashes.now) (i - 1) None)
        (slice_index_or (buckets_by nbuckets hashes.now) i None) }
{
    let earlier = hash_at(hashes, i - 1);
    let hash = hash_at(hashes, i);
    let before = bucket_of(earlier, nbuckets);
    let next = bucket_of(hash, nbuckets);
    is_unsorted_after(before, next)
}

/// The first symbol that is not listed after a listed one, or whose bucket is below its
/// predecessor's.
pub fn first_unsorted(hashes: &List<Option<u32>>, nbuckets: u32) -> Option<u64>
    requires { 0 < nbuckets }
    ensures { result ≡ rules.first_unsorted (buckets_by nbuckets hashes.now) }
{
    let count = hashes.len();
    for i in 1..count {
        if is_unsorted_at(hashes, nbuckets, i) {
            return Some(i);
        }
    }
    None
}

/// Makes a symbol the first of its bucket.
fn set_first(buckets: &mut Words, bucket: Option<u64>, i: u64)
    requires bucket { IfSome bucket (λ b. b < length buckets.old) }
    requires few { i < 2 ^ 32 }
    ensures { buckets.new ≡ first_set buckets.old bucket i }
{
    match bucket {
        Some(b) => set_word(buckets, b, i as u32),
        None => {}
    }
}

/// The first symbol of each bucket, of which there are so many; the last symbol is looked at first.
pub fn first_symbols(hashes: &List<Option<u32>>, nbuckets: u32, buckets: &mut Words)
    requires some { 0 < nbuckets }
    requires few { length hashes.now < 2 ^ 32 }
    requires none { buckets.old ≡ zeros_of nbuckets }
    ensures { buckets.new ≡ firsts_of nbuckets hashes.now }
{
    let count = hashes.len();
    for done in 0..count {
        let i = count - 1 - done;
        let hash = hash_at(hashes, i);
        let bucket = bucket_of(hash, nbuckets);
        set_first(buckets, bucket, i);
    }
}
