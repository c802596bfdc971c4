//! The chain words of GNU's hash section.

ghost use Rattle.std.specs.Prelude.{◌≡◌, ◌<◌, ◌≤◌, ◌++◌, ◌^◌, length, OnOk, IfOk, IfErr};
ghost use Rattle.elf_types.specs.declared.errors.ElfError.TheVariants.{Memory};
ghost use Rattle.symbol_lookup.specs.hash_model.BuiltHashes as rules;
ghost use Rattle.symbol_lookup.specs.elf_object.Sections.{number_or_0};
ghost use Rattle.hash_build.specs.Hashed.{buckets_by, zeros_of};
ghost use Rattle.hash_build.specs.Gnu.{chains_from, ends_before, firsts_of};

use crate::buckets::first_symbols;
use crate::words::{bucket_of, hash_at, zeros};
use elf_types::{ElfError, List, Words};
use std::alloc::Global;

/// Whether another symbol is in a bucket.
fn is_in(bucket: u64, other: Option<u64>) -> bool
    ensures { result ≡ rules.is_in bucket other }
{
    match other {
        Some(b) => b == bucket,
        None => false,
    }
}

/// Whether a symbol is the last one of its chain, by its bucket and that of the next symbol.
fn ends_before(bucket: Option<u64>, next: Option<u64>) -> bool
    ensures { result ≡ ends_before bucket next }
{
    match bucket {
        Some(b) => !is_in(b, next),
        None => true,
    }
}

/// Whether symbol `i` is the last one of its chain: the next one has another bucket, or there is
/// none.
fn ends_chain(hashes: &List<Option<u32>>, nbuckets: u32, i: u64) -> bool
    requires some { 0 < nbuckets }
    requires near { i < 2 ^ 32 }
    ensures { result ≡ rules.ends_chain (buckets_by nbuckets hashes.now) i }
{
    let hash = hash_at(hashes, i);
    let later = hash_at(hashes, i + 1);
    let bucket = bucket_of(hash, nbuckets);
    let next = bucket_of(later, nbuckets);
    ends_before(bucket, next)
}

/// A hash, or 0 where there is none.
fn hash_or_0(hash: Option<u32>) -> u32
    ensures { result ≡ number_or_0 hash }
{
    match hash {
        Some(h) => h,
        None => 0,
    }
}

/// The chain word of symbol `i`: its hash, with the low bit as the end mark.
fn chain_word(hashes: &List<Option<u32>>, nbuckets: u32, i: u64) -> u32
    requires some { 0 < nbuckets }
    requires near { i < 2 ^ 32 }
    ensures { result ≡ rules.chain_word hashes.now (buckets_by nbuckets hashes.now) i }
{
    let listed = hash_at(hashes, i);
    let hash = hash_or_0(listed);
    if ends_chain(hashes, nbuckets, i) {
        return hash / 2 * 2 + 1;
    }
    hash / 2 * 2
}

/// Appends the chain words of the symbols from one on. It fails with `Memory` alone.
fn append_chains(
    hashes: &List<Option<u32>>,
    nbuckets: u32,
    from: u64,
    words: &mut Words,
) -> Result<(), ElfError>
    requires some { 0 < nbuckets }
    requires few { length hashes.now < 2 ^ 32 }
    requires within { from ≤ length hashes.now }
    ensures ok { OnOk result (words.new ≡ words.old ++ chains_from from nbuckets hashes.now) }
    ensures err { IfErr result (λ e. e ≡ Memory) }
{
    let all = hashes.len();
    let count = all - from;
    for k in 0..count {
        words.push(chain_word(hashes, nbuckets, from + k))?;
    }
    Ok(())
}

/// Puts the first symbol of each bucket over zeros, and appends the chain words. It fails with
/// `Memory` alone.
fn fill_words(
    hashes: &List<Option<u32>>,
    nbuckets: u32,
    from: u64,
    words: &mut Words,
) -> Result<(), ElfError>
    requires some { 0 < nbuckets }
    requires few { length hashes.now < 2 ^ 32 }
    requires within { from ≤ length hashes.now }
    requires none { words.old ≡ zeros_of nbuckets }
    ensures ok { OnOk result (words.new
        ≡ firsts_of nbuckets hashes.now ++ chains_from from nbuckets hashes.now) }
    ensures err { IfErr result (λ e. e ≡ Memory) }
{
    first_symbols(hashes, nbuckets, words);
    append_chains(hashes, nbuckets, from, words)
}

/// The buckets of a section, and then its chain words, from that of a symbol on. It fails with
/// `Memory` alone.
pub fn chained_words(
    alloc: Global,
    hashes: &List<Option<u32>>,
    nbuckets: u32,
    from: u64,
) -> Result<Words, ElfError>
    requires some { 0 < nbuckets }
    requires few { length hashes.now < 2 ^ 32 }
    requires within { from ≤ length hashes.now }
    ensures ok { IfOk result (λ words. words
        ≡ firsts_of nbuckets hashes.now ++ chains_from from nbuckets hashes.now) }
    ensures err { IfErr result (λ e. e ≡ Memory) }
{
    let mut words = zeros(alloc, u64::from(nbuckets))?;
    fill_words(hashes, nbuckets, from, &mut words)?;
    Ok(words)
}
