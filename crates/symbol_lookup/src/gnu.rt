//! GNU's hash sections: four numbers, the words of a bloom, the buckets, and the chain words.

ghost use Rattle.std.specs.Prelude.{◌≡◌, ◌<◌, ◌+◌, ◌^◌, IsTrue, IfOk, IfErr, None};
ghost use Rattle.elf_types.specs.Answers.{Follows};
ghost use Rattle.elf_types.specs.declared.records.Kind.TheVariants as kinds;
ghost use Rattle.hash_model.specs.elf_object.Answers.{bytes_of, items_at, lend_refusal};
ghost use Rattle.hash_model.specs.HashSections as sections;
ghost use Rattle.symbol_lookup.specs.Walks as walks;
ghost use Rattle.symbol_lookup.specs.Lookups.{IsBad, Needs};
ghost use Rattle.symbol_lookup.specs.Searches.{HasBytes, IsGnuStart, IsIndex, Searches, ObjectStays};

use crate::fetching::form;
use crate::walks::{GnuHead, Links, WalkStart, WalkStep};
use elf_types::{Class, DataId, ElfError, Order, ScnId};
use gelf_view::bytes;
use gelf_view::prelude::Elf;
use hash_model::prelude::Source;
use symbol_hashes::{bloom_bits, bloom_bytes, bloom_word, has_bit, shifted, word_in};

/// The four-byte number at a place of bytes; else a bad chain there.
#[tactic(auto, unfolding(crate::specs::Walks::hash_number_in))]
fn number_in(bytes: &[u8], at: u64, order: Order) -> Result<u32, ElfError>
    ensures value { result ≡ walks.hash_number_in order bytes.now at 4 }
    ensures within { IfOk result (λ _. at + 4 < 2 ^ 63) }
    ensures bad { IfErr result IsBad }
{
    match word_in(bytes, at, order) {
        Some(number) => Ok(number),
        None => Err(ElfError::BadChain { at }),
    }
}

/// A word of a bloom, of four bytes in class 32 and of eight in class 64; else a bad chain at its
/// place.
#[tactic(auto, unfolding(crate::specs::Walks::hash_number_in))]
fn bloom_in(bytes: &[u8], at: u64, class: Class, order: Order) -> Result<u64, ElfError>
    ensures value { result ≡ walks.hash_number_in order bytes.now at (sections.bloom_bytes class) }
    ensures bad { IfErr result IsBad }
{
    match bloom_word(bytes, at, class, order) {
        Some(word) => Ok(word),
        None => Err(ElfError::BadChain { at }),
    }
}

/// A count at a place of bytes, which is not 0; else a bad chain there.
#[tactic(auto, unfolding(crate::specs::Walks::hash_count_in, crate::specs::Walks::nonzero_count))]
fn count_in(bytes: &[u8], at: u64, order: Order) -> Result<u32, ElfError>
    ensures value { result ≡ walks.hash_count_in order bytes.now at }
    ensures some { IfOk result (λ count. 0 < count) }
    ensures bad { IfErr result IsBad }
{
    match number_in(bytes, at, order) {
        Ok(0) => Err(ElfError::BadChain { at }),
        Ok(count) => Ok(count),
        Err(e) => Err(e),
    }
}

/// The four numbers with which a section begins.
#[tactic(auto, unfolding(crate::specs::Walks::gnu_head_in))]
fn head_in(bytes: &[u8], order: Order) -> Result<GnuHead, ElfError>
    ensures value { result ≡ walks.gnu_head_in order bytes.now }
    ensures buckets { IfOk result (λ head. 0 < head.nbuckets) }
    ensures size { IfOk result (λ head. 0 < head.size) }
    ensures bad { IfErr result IsBad }
{
    let nbuckets = count_in(bytes, 0, order)?;
    let symoffset = number_in(bytes, 4, order)?;
    let size = count_in(bytes, 8, order)?;
    let shift = number_in(bytes, 12, order)?;
    Ok(GnuHead {
        nbuckets,
        symoffset,
        size,
        shift,
    })
}

/// Whether the word of a hash has both of its bits.
#[tactic(auto, unfolding(crate::specs::Walks::has_bits))]
fn has_bits(class: Class, head: GnuHead, hash: u32, word: u64) -> bool
    ensures { result ≡ walks.has_bits class head hash word }
{
    let bits = bloom_bits(class);
    has_bit(word, hash % bits) && has_bit(word, shifted(hash, head.shift) % bits)
}

/// Where the buckets begin.
#[tactic(auto, unfolding(crate::specs::Walks::buckets_at))]
fn buckets_at(class: Class, head: GnuHead) -> u64
    ensures value { result ≡ walks.buckets_at class head }
    ensures near { result < 2 ^ 36 }
{
    16 + bloom_bytes(class) * u64::from(head.size)
}

/// Where the chain words begin.
#[tactic(auto, unfolding(crate::specs::Walks::chains_at))]
fn chains_at(class: Class, head: GnuHead) -> u64
    ensures value { result ≡ walks.chains_at class head }
    ensures near { result < 2 ^ 40 }
{
    buckets_at(class, head) + 4 * u64::from(head.nbuckets)
}

/// The walk from a bucket at a place, or a bad chain there.
#[tactic(auto, unfolding(crate::specs::Walks::first_from))]
fn first_from(class: Class, head: GnuHead, at: u64, first: u32) -> Result<WalkStart, ElfError>
    ensures value { result ≡ walks.first_from class head at first }
    ensures begins { IfOk result IsGnuStart }
    ensures bad { IfErr result IsBad }
{
    if first != 0 && first < head.symoffset {
        return Err(ElfError::BadChain { at });
    }
    Ok(WalkStart {
        links: Links::Gnu {
            symoffset: head.symoffset,
            chains: chains_at(class, head),
        },
        step: WalkStep {
            at,
            symbol: u64::from(first),
        },
    })
}

/// The walk from the bucket of a hash.
#[tactic(auto, unfolding(crate::specs::Walks::bucket_in))]
fn bucket_in(
    bytes: &[u8],
    class: Class,
    order: Order,
    hash: u32,
    head: GnuHead,
) -> Result<WalkStart, ElfError>
    requires { 0 < head.nbuckets }
    ensures value { result ≡ walks.bucket_in class order bytes.now hash head }
    ensures begins { IfOk result IsGnuStart }
    ensures bad { IfErr result IsBad }
{
    let at = buckets_at(class, head) + 4 * u64::from(hash % head.nbuckets);
    match number_in(bytes, at, order) {
        Ok(first) => first_from(class, head, at, first),
        Err(e) => Err(e),
    }
}

/// The place of a hash's word in the bloom.
#[tactic(auto, unfolding(crate::specs::Walks::bloom_at))]
fn bloom_at(class: Class, head: GnuHead, hash: u32) -> u64
    requires { 0 < head.size }
    ensures { result ≡ walks.bloom_at class head hash }
{
    16 + bloom_bytes(class) * u64::from(hash / bloom_bits(class) % head.size)
}

/// The walk of a hash that passes the bloom.
#[tactic(auto, unfolding(crate::specs::Walks::behind_head))]
fn behind_head(
    bytes: &[u8],
    class: Class,
    order: Order,
    hash: u32,
    head: GnuHead,
) -> Result<WalkStart, ElfError>
    requires buckets { 0 < head.nbuckets }
    requires size { 0 < head.size }
    ensures value { result ≡ walks.behind_head class order bytes.now hash head }
    ensures begins { IfOk result IsGnuStart }
    ensures bad { IfErr result IsBad }
{
    match bloom_in(bytes, bloom_at(class, head, hash), class, order) {
        Ok(word) => {
            if has_bits(class, head, hash, word) {
                bucket_in(bytes, class, order, hash, head)
            } else {
                Ok(nowhere())
            }
        }
        Err(e) => Err(e),
    }
}

/// A walk that has no symbol to begin with.
fn nowhere() -> WalkStart
    ensures value { result ≡ walks.nowhere }
{
    WalkStart {
        links: Links::Gnu {
            symoffset: 0,
            chains: 0,
        },
        step: WalkStep { at: 0, symbol: 0 },
    }
}

/// Where the walk of a hash begins in bytes.
#[tactic(auto, unfolding(crate::specs::Walks::gnu_start))]
fn start_in(bytes: &[u8], class: Class, order: Order, hash: u32) -> Result<WalkStart, ElfError>
    ensures value { result ≡ walks.gnu_start class order bytes.now hash }
    ensures begins { IfOk result IsGnuStart }
    ensures bad { IfErr result IsBad }
{
    match head_in(bytes, order) {
        Ok(head) => behind_head(bytes, class, order, hash, head),
        Err(e) => Err(e),
    }
}

/// The step from a symbol in bytes: the next one, up to the end mark.
#[tactic(auto, unfolding(crate::specs::Walks::gnu_next))]
fn next_in(
    bytes: &[u8],
    order: Order,
    symoffset: u32,
    chains: u64,
    i: u64,
) -> Result<WalkStep, ElfError>
    requires chains { chains < 2 ^ 40 }
    requires index { IsIndex i }
    ensures value { result ≡ walks.gnu_next order bytes.now symoffset chains i }
    ensures bad { IfErr result IsBad }
    ensures index { IfOk result (λ step. IsIndex step.symbol) }
{
    let at = chains + 4 * i.saturating_sub(u64::from(symoffset));
    match number_in(bytes, at, order) {
        Ok(word) => Ok(WalkStep {
            at,
            symbol: if word % 2 == 1 { 0 } else { i + 1 },
        }),
        Err(e) => Err(e),
    }
}

/// Where the walk of a hash begins; else a bad chain at the first word that is needed and is not
/// there.
pub fn gnu_start<S: Source>(elf: &mut Elf<S>, h: ScnId, hash: u32) -> Result<WalkStart, ElfError>
    requires passed { lend_refusal elf.old.o kinds.Bytes h.0 0 ≡ None }
    ensures follows { IsTrue elf.old.told → Follows result
        (walks.gnu_start elf.old.o.header.class elf.old.o.header.order
        (bytes_of (items_at elf.old.o h.0 0)) hash) }
    ensures searches { (n : Needs) → HasBytes n elf.old.o h.0
        → Searches S.Source n result elf.old elf.new }
    ensures begins { IfOk result IsGnuStart }
{
    let (class, order) = form(elf);
    let d = DataId {
        section: h.0,
        piece: 0,
    };
    match bytes(elf, d) {
        Ok(bytes) => start_in(bytes, class, order, hash),
        Err(e) => Err(e),
    }
}

/// The step from a symbol; else a bad chain at the place of its chain word.
pub fn gnu_next<S: Source>(
    elf: &mut Elf<S>,
    h: ScnId,
    symoffset: u32,
    chains: u64,
    i: u64,
) -> Result<WalkStep, ElfError>
    requires passed { lend_refusal elf.old.o kinds.Bytes h.0 0 ≡ None }
    requires chains { chains < 2 ^ 40 }
    requires index { IsIndex i }
    ensures follows { IsTrue elf.old.told → Follows result
        (walks.gnu_next elf.old.o.header.order (bytes_of (items_at elf.old.o h.0 0)) symoffset
        chains i) }
    ensures stays { ObjectStays elf.old elf.new }
    ensures searches { (n : Needs) → HasBytes n elf.old.o h.0
        → Searches S.Source n result elf.old elf.new }
    ensures index { IfOk result (λ step. IsIndex step.symbol) }
{
    let (_, order) = form(elf);
    let d = DataId {
        section: h.0,
        piece: 0,
    };
    match bytes(elf, d) {
        Ok(bytes) => next_in(bytes, order, symoffset, chains, i),
        Err(e) => Err(e),
    }
}
