//! GNU's hash sections, and whether one is whole: four numbers, the words of a bloom, the buckets,
//! and the chain words, of which those of a chain are in a row up to the end mark. All of it is
//! told of bytes; nothing is read, and nothing takes memory.
//!
//! No chain is walked. Chain words are in the order of their symbols, so a chain ends where an end
//! mark follows its first symbol, and a symbol is on it where none is between the two. So all of it
//! takes one look at each bucket, at each chain word and at each symbol, whatever the buckets are.

ghost use Rattle.std.specs.Prelude.{◌≡◌, ◌<◌, ◌≤◌, ◌+◌, ◌*◌, ◌/◌, ◌%◌, ◌==◌, ◌&&◌, ◌^◌, length, nat_le, slice_index_or, if◌then◌else◌, IfSome, MatchOption, None, Some, true};
ghost use Rattle.std.specs.List.{list_all};
ghost use Rattle.elf_xlate.specs.Numbers.{number_at};
ghost use Rattle.hash_model.specs.HashSections as sections;
ghost use Rattle.hash_model.specs.HashSections.{ends, gnu_chain_from, gnu_word, passes};
ghost use Rattle.elf_lint_hashes.specs.Gnu as gnu;
ghost use Rattle.elf_lint_hashes.specs.Gnu.{chain_ends_before, has_hash, gnu_section_of, IsEnd, IsSoundIn, IsGnuTableIn, GnuTableFitsIn};

use elf_types::{Class, Order};
use symbol_hashes::{bloom_bits, bloom_bytes, bloom_word, has_bit, shifted, word_in};

/// What is at the beginning of a section whose bloom and buckets lie in it, and by what its bytes
/// are read.
#[derive(Clone, Copy)]
pub struct GnuTable {
    /// The class of the image.
    pub class: Class,
    /// Its byte order.
    pub order: Order,
    /// The number of symbols.
    pub count: u64,
    /// The number of buckets, which is not 0.
    pub nbuckets: u32,
    /// The first symbol that the section knows.
    pub symoffset: u32,
    /// The number of bloom words, which is not 0.
    pub size: u32,
    /// How far a hash is shifted for its second bit in the bloom.
    pub shift: u32,
    /// Where the chain words begin, in bytes from the start of the section.
    pub chains: u64,
}

/// Where the chain words begin.
fn chains_at(class: Class, size: u32, nbuckets: u32) -> u64
    ensures value { result ≡ 16 + sections.bloom_bytes class * size + 4 * nbuckets }
    ensures near { result < 2 ^ 40 }
{
    16 + bloom_bytes(class) * u64::from(size) + 4 * u64::from(nbuckets)
}

/// One of the four numbers at the beginning, or None where it does not lie in the bytes.
fn head_word(bytes: &[u8], at: u64, order: Order) -> Option<u32>
    ensures { MatchOption result (length bytes.now < at + 4)
        (λ n. (at + 4 ≤ length bytes.now) × (n ≡ number_at order bytes.now at 4)) }
{
    word_in(bytes, at, order)
}

/// What is at the beginning of a section for so many symbols, or None where it has no bucket or no
/// bloom word, or they do not lie in it.
#[tactic(auto, using(crate::proofs::GnuWords::table_rules))]
pub fn table_in(bytes: &[u8], class: Class, order: Order, count: u64) -> Option<GnuTable>
    ensures is { IsGnuTableIn class order bytes.now count result }
    ensures lies { IfSome result (GnuTableFitsIn (length bytes.now)) }
{
    let nbuckets = head_word(bytes, 0, order)?;
    let symoffset = head_word(bytes, 4, order)?;
    let size = head_word(bytes, 8, order)?;
    let shift = head_word(bytes, 12, order)?;
    if nbuckets == 0 || size == 0 {
        return None;
    }
    let chains = chains_at(class, size, nbuckets);
    if chains > bytes.len() as u64 {
        return None;
    }
    Some(GnuTable {
        class,
        order,
        count,
        nbuckets,
        symoffset,
        size,
        shift,
        chains,
    })
}

/// The chain word of a symbol, or None where the section does not know it, it is not there, or its
/// word does not lie in the section.
#[tactic(auto, using(crate::proofs::GnuWords::word_rules))]
fn chain_word(bytes: &[u8], t: &GnuTable, i: u64) -> Option<u32>
    requires { GnuTableFitsIn (length bytes.now) t.now }
    ensures { result ≡ gnu_word (gnu_section_of t.now bytes.now) t.now.count i }
{
    let first = u64::from(t.symoffset);
    if i < first || i >= t.count {
        return None;
    }
    let words = (bytes.len() as u64 - t.chains) / 4;
    if i - first >= words {
        return None;
    }
    word_in(bytes, t.chains + 4 * (i - first), t.order)
}

/// Whether the chain word of a symbol is there and has the end mark.
#[tactic(auto, unfolding(crate::specs::Gnu::is_end_marked))]
fn is_marked(bytes: &[u8], t: &GnuTable, i: u64) -> bool
    requires { GnuTableFitsIn (length bytes.now) t.now }
    ensures { result ≡ gnu.is_end_marked (gnu_section_of t.now bytes.now) t.now.count i }
{
    match chain_word(bytes, t, i) {
        Some(word) => word % 2 == 1,
        None => false,
    }
}

/// One past the last symbol with an end mark, or 0 where there is none.
fn end_of(bytes: &[u8], t: &GnuTable) -> u64
    requires { GnuTableFitsIn (length bytes.now) t.now }
    ensures { IsEnd (gnu_section_of t.now bytes.now) t.now.count result }
{
    let mut end = 0;
    for i in u64::from(t.symoffset)..t.count {
        if is_marked(bytes, t, i) {
            end = i + 1;
        }
    }
    end
}

/// Whether the chain from a bucket's symbol on ends; 0 is no symbol.
fn ends_before(symoffset: u32, end: u64, first: u32) -> bool
    ensures { result ≡ (if first == 0 then true
        else nat_le symoffset first && nat_le (first + 1) end) }
{
    first == 0 || (symoffset <= first && u64::from(first) < end)
}

/// The first symbol of a bucket.
#[tactic(auto, using(crate::proofs::GnuWords::bucket_rules))]
fn bucket_at(bytes: &[u8], t: &GnuTable, bucket: u32) -> u32
    requires lies { GnuTableFitsIn (length bytes.now) t.now }
    requires there { bucket < t.now.nbuckets }
    ensures { result ≡ slice_index_or (gnu_section_of t.now bytes.now).buckets bucket 0 }
{
    let at = 16 + bloom_bytes(t.class) * u64::from(t.size) + 4 * u64::from(bucket);
    match word_in(bytes, at, t.order) {
        Some(first) => first,
        None => 0,
    }
}

/// Whether the chain of each bucket has an end.
pub fn chains_end(bytes: &[u8], t: &GnuTable) -> bool
    requires { GnuTableFitsIn (length bytes.now) t.now }
    ensures { let h = gnu_section_of t.now bytes.now in result
        ≡ list_all (λ first. ends (gnu_chain_from h t.now.count first)) h.buckets }
{
    let end = end_of(bytes, t);
    for bucket in 0..t.nbuckets {
        if !ends_before(t.symoffset, end, bucket_at(bytes, t, bucket)) {
            return false;
        }
    }
    true
}

/// The bloom word of a hash.
#[tactic(auto, using(crate::proofs::GnuWords::bloom_rules))]
fn bloom_at(bytes: &[u8], t: &GnuTable, hash: u32) -> u64
    requires { GnuTableFitsIn (length bytes.now) t.now }
    ensures { let h = gnu_section_of t.now bytes.now in result ≡ slice_index_or h.bloom
        (hash / sections.bloom_bits t.now.class % length h.bloom) 0 }
{
    let index = hash / bloom_bits(t.class) % t.size;
    let at = 16 + bloom_bytes(t.class) * u64::from(index);
    match bloom_word(bytes, at, t.class, t.order) {
        Some(word) => word,
        None => 0,
    }
}

/// Whether a hash passes the bloom: both of its bits are set in its word.
#[tactic(auto, unfolding(hash_model::specs::HashSections::passes, crate::specs::Gnu::gnu_section_of))]
fn passes(bytes: &[u8], t: &GnuTable, hash: u32) -> bool
    requires { GnuTableFitsIn (length bytes.now) t.now }
    ensures { result ≡ passes t.now.class (gnu_section_of t.now bytes.now) hash }
{
    let bits = bloom_bits(t.class);
    let word = bloom_at(bytes, t, hash);
    has_bit(word, hash % bits) && has_bit(word, shifted(hash, t.shift) % bits)
}

/// Whether a chain word that is there is a hash but for its low bit.
fn has_hash(word: Option<u32>, hash: u32) -> bool
    ensures { result ≡ has_hash word hash }
{
    match word {
        Some(word) => word / 2 == hash / 2,
        None => false,
    }
}

/// Whether symbol `i`, whose run begins at `start`, is on the chain of a hash's bucket, with that
/// hash but for the low bit.
#[tactic(auto, using(crate::proofs::GnuWords::bucket_count), unfolding(crate::specs::Gnu::is_reached))]
fn is_reached(bytes: &[u8], t: &GnuTable, start: u64, i: u64, hash: u32) -> bool
    requires { GnuTableFitsIn (length bytes.now) t.now }
    ensures { result ≡ gnu.is_reached (gnu_section_of t.now bytes.now) t.now.count start i hash }
{
    let first = u64::from(bucket_at(bytes, t, hash % t.nbuckets));
    if first == 0 || first < start || i < first {
        return false;
    }
    has_hash(chain_word(bytes, t, i), hash)
}

/// Gives where the run of the symbol after `i` begins: at that symbol where `i` has the end mark,
/// and else where the run of `i` does.
fn next_start(bytes: &[u8], t: &GnuTable, start: u64, i: u64) -> u64
    requires lies { GnuTableFitsIn (length bytes.now) t.now }
    requires there { i < t.now.count }
    ensures { result ≡ gnu.next_start (gnu_section_of t.now bytes.now) t.now.count start i }
{
    if is_marked(bytes, t, i) { i + 1 } else { start }
}

/// Where the run of the symbol after `i` begins, whose own run begins at `start`; or None where
/// symbol `i` is listed by a hash, and does not pass the bloom or is not on the chain of its bucket
/// with that hash but for the low bit.
#[tactic(auto, unfolding(crate::specs::Gnu::run_after))]
pub fn run_after(bytes: &[u8], t: &GnuTable, start: u64, i: u64, listed: Option<u32>) -> Option<u64>
    requires lies { GnuTableFitsIn (length bytes.now) t.now }
    requires there { i < t.now.count }
    ensures { result ≡ gnu.run_after t.now.class (gnu_section_of t.now bytes.now) t.now.count
        start i listed }
{
    if let Some(hash) = listed {
        if !passes(bytes, t, hash) || !is_reached(bytes, t, start, i, hash) {
            return None;
        }
    }
    Some(next_start(bytes, t, start, i))
}

/// The table of a section for so many symbols, where the chain of each bucket has an end, or None.
#[tactic(auto, using(crate::proofs::GnuWhole::sound_rules))]
pub fn sound_in(bytes: &[u8], class: Class, order: Order, count: u64) -> Option<GnuTable>
    ensures is { IsSoundIn class order bytes.now count result }
    ensures lies { IfSome result (GnuTableFitsIn (length bytes.now)) }
    ensures count { IfSome result (λ t. t.count ≡ count) }
{
    match table_in(bytes, class, order, count) {
        Some(t) => { if chains_end(bytes, &t) { Some(t) } else { None } }
        None => None,
    }
}
