//! Hash sections of type `SHT_HASH`: a number of buckets, a number of chain words, the buckets, and
//! the chain words.

ghost use Rattle.std.specs.Prelude.{◌≡◌, ◌<◌, ◌+◌, ◌%◌, ◌^◌, IsTrue, IfOk, IfErr, None};
ghost use Rattle.elf_types.specs.Answers.{Follows};
ghost use Rattle.elf_types.specs.declared.records.Kind.TheVariants as kinds;
ghost use Rattle.hash_model.specs.elf_object.Answers.{items_at, lend_refusal, words_of};
ghost use Rattle.symbol_lookup.specs.Walks as walks;
ghost use Rattle.symbol_lookup.specs.Lookups.{IsBad, Needs};
ghost use Rattle.symbol_lookup.specs.Searches.{HasWords, IsIndex, IsSysvStart, Searches, ObjectStays};

use crate::fetching::hash_word;
use crate::walks::{Links, WalkStart, WalkStep};
use elf_types::{ElfError, ScnId};
use gelf_view::prelude::Elf;
use hash_model::prelude::Source;

/// A count at a place, which is not 0; else a bad chain there.
#[tactic(auto, unfolding(crate::specs::Walks::nonzero_count))]
fn counted(at: u64, count: u32) -> Result<u32, ElfError>
    ensures value { result ≡ walks.nonzero_count at count }
    ensures some { IfOk result (λ count. 0 < count) }
    ensures bad { IfErr result IsBad }
{
    if count == 0 {
        return Err(ElfError::BadChain { at });
    }
    Ok(count)
}

/// The number of buckets, which is not 0.
fn bucket_count<S: Source>(elf: &mut Elf<S>, h: ScnId) -> Result<u32, ElfError>
    requires passed { lend_refusal elf.old.o kinds.Word h.0 0 ≡ None }
    ensures follows { IsTrue elf.old.told → Follows result
        (walks.sysv_buckets (words_of (items_at elf.old.o h.0 0))) }
    ensures some { IfOk result (λ nbucket. 0 < nbucket) }
    ensures stays { ObjectStays elf.old elf.new }
    ensures searches { (n : Needs) → HasWords n elf.old.o h.0
        → Searches S.Source n result elf.old elf.new }
{
    match hash_word(elf, h, 0) {
        Ok(nbucket) => counted(0, nbucket),
        Err(e) => Err(e),
    }
}

/// The index of a hash's bucket, after the two counts.
fn bucket_index(nbucket: u32, hash: u32) -> u64
    requires { 0 < nbucket }
    ensures value { result ≡ 2 + hash % nbucket }
    ensures near { result < 2 ^ 60 }
{
    2 + u64::from(hash % nbucket)
}

/// The index of a symbol's chain word, after the buckets.
fn chain_index(nbucket: u32, i: u64) -> u64
    requires { IsIndex i }
    ensures value { result ≡ 2 + nbucket + i }
    ensures near { result < 2 ^ 62 }
{
    2 + u64::from(nbucket) + i
}

/// The step to a symbol that a word at a place holds.
fn step_at(at: u64, word: u32) -> WalkStep
    ensures at { result.at ≡ at }
    ensures symbol { result.symbol ≡ word }
    ensures index { IsIndex result.symbol }
{
    WalkStep {
        at,
        symbol: u64::from(word),
    }
}

/// Reads the word of a hash's bucket, in a section of so many buckets and chain words, and gives
/// the step with which the walk of the hash begins. It fails as `hash_word` does.
fn read_bucket<S: Source>(
    elf: &mut Elf<S>,
    h: ScnId,
    hash: u32,
    nbucket: u32,
    nchain: u32,
) -> Result<WalkStart, ElfError>
    requires passed { lend_refusal elf.old.o kinds.Word h.0 0 ≡ None }
    requires some { 0 < nbucket }
    ensures follows { IsTrue elf.old.told → Follows result
        (walks.sysv_bucket (words_of (items_at elf.old.o h.0 0)) hash nbucket nchain) }
    ensures searches { (n : Needs) → HasWords n elf.old.o h.0
        → Searches S.Source n result elf.old elf.new }
    ensures begins { IfOk result (IsSysvStart) }
{
    let index = bucket_index(nbucket, hash);
    match hash_word(elf, h, index) {
        Ok(first) => Ok(WalkStart {
            links: Links::Sysv { nbucket, nchain },
            step: step_at(4 * index, first),
        }),
        Err(e) => Err(e),
    }
}

/// Where the walk of a hash begins, in a section of so many buckets.
fn behind<S: Source>(
    elf: &mut Elf<S>,
    h: ScnId,
    hash: u32,
    nbucket: u32,
) -> Result<WalkStart, ElfError>
    requires passed { lend_refusal elf.old.o kinds.Word h.0 0 ≡ None }
    requires some { 0 < nbucket }
    ensures follows { IsTrue elf.old.told → Follows result
        (walks.sysv_behind (words_of (items_at elf.old.o h.0 0)) hash nbucket) }
    ensures searches { (n : Needs) → HasWords n elf.old.o h.0
        → Searches S.Source n result elf.old elf.new }
    ensures begins { IfOk result (IsSysvStart) }
{
    match hash_word(elf, h, 1) {
        Ok(nchain) => read_bucket(elf, h, hash, nbucket, nchain),
        Err(e) => Err(e),
    }
}

/// Where the walk of a hash begins; else a bad chain at the first word that is needed and is not
/// there.
pub fn sysv_start<S: Source>(elf: &mut Elf<S>, h: ScnId, hash: u32) -> Result<WalkStart, ElfError>
    requires passed { lend_refusal elf.old.o kinds.Word h.0 0 ≡ None }
    ensures follows { IsTrue elf.old.told → Follows result
        (walks.sysv_start (words_of (items_at elf.old.o h.0 0)) hash) }
    ensures searches { (n : Needs) → HasWords n elf.old.o h.0
        → Searches S.Source n result elf.old elf.new }
    ensures begins { IfOk result (IsSysvStart) }
{
    match bucket_count(elf, h) {
        Ok(nbucket) => behind(elf, h, hash, nbucket),
        Err(e) => Err(e),
    }
}

/// The step from a symbol; else a bad chain at the place of its chain word.
pub fn sysv_next<S: Source>(
    elf: &mut Elf<S>,
    h: ScnId,
    nbucket: u32,
    nchain: u32,
    i: u64,
) -> Result<WalkStep, ElfError>
    requires passed { lend_refusal elf.old.o kinds.Word h.0 0 ≡ None }
    requires index { IsIndex i }
    ensures follows { IsTrue elf.old.told → Follows result
        (walks.sysv_next (words_of (items_at elf.old.o h.0 0)) nbucket nchain i) }
    ensures stays { ObjectStays elf.old elf.new }
    ensures searches { (n : Needs) → HasWords n elf.old.o h.0
        → Searches S.Source n result elf.old elf.new }
    ensures index { IfOk result (λ step. IsIndex step.symbol) }
{
    let index = chain_index(nbucket, i);
    if i >= u64::from(nchain) {
        return Err(ElfError::BadChain { at: 4 * index });
    }
    match hash_word(elf, h, index) {
        Ok(next) => Ok(step_at(4 * index, next)),
        Err(e) => Err(e),
    }
}
