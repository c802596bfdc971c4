//! The section of type `SHT_HASH`, rebuilt.

ghost use Rattle.std.specs.Prelude.{◌≡◌, ◌<◌, ◌+◌, ◌^◌, length, map, slice_index_or, slice_set, IsTrue, IfOk, IfErr, IfSome};
ghost use Rattle.std.specs.List.{range_with_len};
ghost use Rattle.elf_types.specs.declared.errors.ElfError.TheVariants.{Memory};
ghost use Rattle.symbol_lookup.specs.elf_object.Words.{Answers};
ghost use Rattle.symbol_lookup.specs.elf_descriptor.Reads.{Looks, wanted};
ghost use Rattle.symbol_lookup.specs.hash_model.HashSections.{sysv_words};
ghost use Rattle.symbol_lookup.specs.hash_model.BuiltHashes.{first_in, next_in, sysv_built};
ghost use Rattle.symbol_lookup.specs.hash_model.Listed.{listed_names};
ghost use Rattle.hash_build.specs.Calls as calls;
ghost use Rattle.hash_build.specs.Hashed.{buckets_by, first_set, next_set, sysv_of, zeros_of};
ghost use Rattle.hash_build.specs.Tables.{IsSymbolTable, ReadsTable};

use crate::hashing::Hashing;
use crate::listed::read_hashes;
use crate::tables::{SymbolTable, table_of};
use crate::words::{bucket_of, hash_at, hash_word_at, set_word, zeros};
use elf_outside::Source;
use elf_types::{ElfError, List, ScnId, Words};
use std::alloc::Global;
use symbol_lookup::prelude::Elf;

/// Puts symbol `i` before those of its bucket that follow it.
fn link_in(buckets: &mut Words, chains: &mut Words, bucket: u64, i: u64)
    requires bucket { bucket < length buckets.old }
    requires there { i < length chains.old }
    requires few { i < 2 ^ 32 }
    ensures buckets { buckets.new ≡ slice_set buckets.old bucket i }
    ensures chains { chains.new ≡ slice_set chains.old i (slice_index_or buckets.old bucket 0) }
{
    let first = hash_word_at(buckets, bucket);
    set_word(chains, i, first);
    set_word(buckets, bucket, i as u32);
}

/// Puts symbol `i` into its bucket, where it is in one.
fn link_symbol(buckets: &mut Words, chains: &mut Words, bucket: Option<u64>, i: u64)
    requires bucket { IfSome bucket (λ b. b < length buckets.old) }
    requires there { i < length chains.old }
    requires few { i < 2 ^ 32 }
    ensures buckets { buckets.new ≡ first_set buckets.old bucket i }
    ensures chains { chains.new ≡ next_set chains.old buckets.old bucket i }
{
    match bucket {
        Some(b) => link_in(buckets, chains, b, i),
        None => {}
    }
}

/// Chains the symbols of each bucket, of which there are so many: the last symbol first, so that
/// each chain is ascending.
fn link_symbols(hashes: &List<Option<u32>>, nbucket: u32, buckets: &mut Words, chains: &mut Words)
    requires some { 0 < nbucket }
    requires few { length hashes.now < 2 ^ 32 }
    requires buckets { buckets.old ≡ zeros_of nbucket }
    requires chains { chains.old ≡ zeros_of (length hashes.now) }
    ensures buckets { buckets.new
        ≡ map (first_in (buckets_by nbucket hashes.now)) (range_with_len 0 nbucket) }
    ensures chains { chains.new
        ≡ map (next_in (buckets_by nbucket hashes.now)) (range_with_len 0 (length hashes.now)) }
{
    let count = hashes.len();
    for done in 0..count {
        let i = count - 1 - done;
        let hash = hash_at(hashes, i);
        let bucket = bucket_of(hash, nbucket);
        link_symbol(buckets, chains, bucket, i);
    }
}

/// The words of a section: the two counts, the buckets, the chain words. It fails with `Memory`
/// alone.
#[tactic(auto, unfolding(symbol_lookup::specs::Passed::sysv_words))]
fn join_words(alloc: Global, buckets: &Words, chains: &Words) -> Result<Words, ElfError>
    requires buckets { length buckets.now < 2 ^ 32 }
    requires chains { length chains.now < 2 ^ 32 }
    ensures ok { IfOk result (λ words.
        words ≡ sysv_words (record { buckets = buckets.now; chains = chains.now })) }
    ensures err { IfErr result (λ e. e ≡ Memory) }
{
    let mut words = Words::with_capacity(alloc, 2 + buckets.len() + chains.len())?;
    words.push(buckets.len() as u32)?;
    words.push(chains.len() as u32)?;
    words.extend(buckets.as_slice())?;
    words.extend(chains.as_slice())?;
    Ok(words)
}

/// The words of a section with these buckets, which are zeros. It fails with `Memory` alone.
fn words_with(
    alloc: Global,
    hashes: &List<Option<u32>>,
    nbucket: u32,
    buckets: &mut Words,
) -> Result<Words, ElfError>
    requires some { 0 < nbucket }
    requires few { length hashes.now < 2 ^ 32 }
    requires buckets { buckets.old ≡ zeros_of nbucket }
    ensures ok { IfOk result (λ words. words ≡ sysv_words (sysv_of nbucket hashes.now)) }
    ensures err { IfErr result (λ e. e ≡ Memory) }
{
    match zeros(alloc, hashes.len()) {
        Ok(mut chains) => {
            link_symbols(hashes, nbucket, buckets, &mut chains);
            join_words(alloc, buckets, &chains)
        }
        Err(e) => Err(e),
    }
}

/// The words of the section for symbols with these hashes, with so many buckets. It fails with
/// `Memory` alone.
fn words_of(alloc: Global, hashes: &List<Option<u32>>, nbucket: u32) -> Result<Words, ElfError>
    requires some { 0 < nbucket }
    requires few { length hashes.now < 2 ^ 32 }
    ensures ok { IfOk result (λ words. words ≡ sysv_words (sysv_of nbucket hashes.now)) }
    ensures err { IfErr result (λ e. e ≡ Memory) }
{
    match zeros(alloc, u64::from(nbucket)) {
        Ok(mut buckets) => words_with(alloc, hashes, nbucket, &mut buckets),
        Err(e) => Err(e),
    }
}

/// The words of the section for the symbols of a table.
fn words_for<S: Source>(elf: &mut Elf<S>, t: SymbolTable, nbucket: u32) -> Result<Words, ElfError>
    requires table { IsSymbolTable elf.old.o t }
    requires some { 0 < nbucket }
    ensures told { IsTrue elf.old.told → IfOk result (λ words.
        words ≡ sysv_words (sysv_built nbucket (listed_names elf.old.o t.section.0))) }
    ensures long { IfOk result (λ words.
        length words ≡ 2 + nbucket + length (listed_names elf.old.o t.section.0)) }
    ensures reads { ReadsTable S.Source t.section.0 result elf.old elf.new }
{
    let alloc = elf.alloc();
    match read_hashes(elf, t, Hashing::Sysv) {
        Ok(hashes) => words_of(alloc, &hashes, nbucket),
        Err(e) => Err(e),
    }
}

/// The words of a section of type `SHT_HASH` for the symbols in piece 0 of a symbol table, with so
/// many buckets: the number of buckets, the number of symbols, the buckets, and a chain word for
/// each symbol. The chain of each bucket has its listed symbols in ascending order.
///
/// It fails as `find_linear` does, in this order: `NoSection`, `NoData`, `WrongKind`, and for the
/// clean home piece `OutOfFile` and `Ragged`; then `TooMany` exactly where there are 2^32 symbols
/// or more; then `Memory` or `Read`, at any step. It reads the table and its strings at the first
/// use, each once, and marks nothing dirty.
///
/// Source: gABI chapter 5, "Hash Table".
pub fn build_sysv<S: Source>(elf: &mut Elf<S>, s: ScnId, nbucket: u32) -> Result<Words, ElfError>
    requires { 0 < nbucket }
    ensures answer { Answers elf.old.told (wanted (calls.build_sysv s.0 nbucket) elf.old) result
        ((calls.build_sysv s.0 nbucket).answer elf.old.o) }
    ensures looks { Looks S.Source (calls.build_sysv s.0 nbucket) result elf.old elf.new }
    ensures long { IfOk result (λ words.
        length words ≡ 2 + nbucket + length (listed_names elf.old.o s.0)) }
{
    match table_of(elf, s) {
        Ok(t) => words_for(elf, t, nbucket),
        Err(e) => Err(e),
    }
}
