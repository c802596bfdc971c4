//! Hash sections of type `SHT_HASH`, and whether one is whole: a number of buckets, a number of
//! chain words, the buckets, and a chain word for each symbol.
//!
//! The words are read once, and what the chains of the buckets lead to is kept by symbol, so chains
//! that share their words take no longer than such that do not.

ghost use Rattle.std.specs.Prelude.{◌≡◌, ℕ, ◌<◌, ◌+◌, ◌++◌, ◌∷◌, [], length, slice_get, IfErr, IfOk, IfSome, IsTrue};
ghost use Rattle.std.specs.Option.{option_map};
ghost use Rattle.hash_model.specs.HashSections.{is_whole_sysv};
ghost use Rattle.hash_model.specs.Listed.{listed_names};
ghost use Rattle.tool_objects.specs.Steps.{Learns};
ghost use Rattle.tool_objects.specs.AtHand.Strings.{EndsAt};
ghost use Rattle.elf_lint_findings.specs.Looking.{section_words};
ghost use Rattle.elf_lint_hashes.specs.Listed.{listed_hash, AreListed};
ghost use Rattle.elf_lint_hashes.specs.Sysv as sysv;
ghost use Rattle.elf_lint_hashes.specs.Sysv.{TakesUp};
ghost use Rattle.elf_lint_hashes.specs.Paths.{ArePaths};

use crate::listed::{LinkedSymbolTable, NameHash, end_of_names, listed_hash};
use crate::paths::{Paths, is_found_in, paths_of};
use elf_lint_findings::item_at;
use elf_outside::Source;
use elf_types::{DataId, ScnId, Words};
use tool_objects::prelude::{Elf, item_count};
use tool_output::Stop;

/// A hash section that has as many words as its two counts say.
#[derive(Clone, Copy)]
pub struct SysvTable {
    /// The section.
    pub section: ScnId,
    /// The number of buckets, which is not 0.
    pub nbucket: u32,
    /// The number of chain words, which is that of the symbols.
    pub nchain: u32,
}

/// The word at an index of a section of words, or None where it is not there. It stops by `Read`
/// where a read of the source failed, and by `Memory`.
#[tactic(auto, unfolding(elf_lint_findings::specs::Looking::section_words))]
fn word_at<S: Source>(elf: &mut Elf<S>, s: ScnId, i: u64) -> Result<Option<u32>, Stop>
    ensures { Learns S.Source (λ o. slice_get (section_words o s.0) i) result elf.old elf.new }
{
    item_at::<S, u32>(elf, s, i)
}

/// The table of a section's first two words, or None where they are not there.
#[tactic(auto, unfolding(crate::specs::Sysv::table_in))]
fn table_of<S: Source>(elf: &mut Elf<S>, s: ScnId) -> Result<Option<SysvTable>, Stop>
    ensures learns { Learns S.Source (λ o. sysv.table_in s
        (section_words o s.0)) result elf.old elf.new }
    ensures section { IfOk result (λ found. IfSome found (λ t. t.section ≡ s)) }
{
    match word_at(elf, s, 0) {
        Ok(Some(nbucket)) => table_with(elf, s, nbucket),
        Ok(None) => Ok(None),
        Err(stop) => Err(stop),
    }
}

/// The table with so many buckets, by the second word.
fn table_with<S: Source>(
    elf: &mut Elf<S>,
    s: ScnId,
    nbucket: u32,
) -> Result<Option<SysvTable>, Stop>
    ensures learns { Learns S.Source (λ o. option_map
        (λ (nchain : ℕ). record { section = s; nbucket = nbucket; nchain = nchain })
        (slice_get (section_words o s.0) 1)) result elf.old elf.new }
    ensures section { IfOk result (λ found. IfSome found (λ t. t.section ≡ s)) }
{
    match word_at(elf, s, 1) {
        Ok(Some(nchain)) => Ok(Some(SysvTable {
            section: s,
            nbucket,
            nchain,
        })),
        Ok(None) => Ok(None),
        Err(stop) => Err(stop),
    }
}

/// Whether there is a bucket, a chain word for each symbol, and as many words as both counts say.
#[tactic(auto, unfolding(crate::specs::Sysv::counts_are))]
fn counts_are(t: SysvTable, total: u64, count: u64) -> bool
    ensures value { result ≡ sysv.counts_are t total count }
    ensures some { IsTrue result → 0 < t.nbucket }
    ensures count { IsTrue result → total ≡ 2 + t.nbucket + t.nchain }
{
    let wanted = 2 + u64::from(t.nbucket) + u64::from(t.nchain);
    t.nbucket != 0 && u64::from(t.nchain) == count && total == wanted
}

/// Words with one more; it stops where there is no memory.
fn push_word(mut list: Words, word: u32) -> Result<Words, Stop>
    ensures ok { IfOk result (λ l. l ≡ list ++ word ∷ []) }
    ensures err { IfErr result (λ stop. stop ≡ Stop.Memory) }
{
    match list.push(word) {
        Ok(()) => Ok(list),
        Err(e) => Err(Stop::want_of(e)),
    }
}

/// Words with that at an index of a section, where it is there.
#[tactic(auto, unfolding(crate::specs::Sysv::with_word))]
fn with_word<S: Source>(elf: &mut Elf<S>, s: ScnId, list: Words, i: u64) -> Result<Words, Stop>
    ensures { Learns S.Source (λ o. sysv.with_word list (slice_get (section_words o s.0) i))
        result elf.old elf.new }
{
    match word_at(elf, s, i) {
        Ok(Some(word)) => push_word(list, word),
        Ok(None) => Ok(list),
        Err(stop) => Err(stop),
    }
}

/// The words of a section that has so many. It stops by `Read` where a read of the source failed,
/// and by `Memory`.
fn read_words<S: Source>(elf: &mut Elf<S>, s: ScnId, total: u64) -> Result<Words, Stop>
    requires { total ≡ length (section_words elf.old.o s.0) }
    ensures { Learns S.Source (λ o. section_words o s.0) result elf.old elf.new }
{
    let mut list = Words::new(elf.alloc());
    for i in 0..total {
        list = with_word(elf, s, list, i)?;
    }
    Ok(list)
}

/// Whether symbol `i` is on the chain of its name's bucket, where it is listed.
fn is_found<S: Source>(
    elf: &mut Elf<S>,
    held: &Words,
    t: SysvTable,
    paths: &Paths,
    l: LinkedSymbolTable,
    end: Option<u64>,
    i: u64,
) -> Result<bool, Stop>
    requires takes { TakesUp held.now t }
    requires are { ArePaths held.now t paths.now }
    requires listed { AreListed elf.old.o l }
    requires end { IsTrue elf.old.told → IfSome end (EndsAt elf.old.o l.strings.0) }
    ensures { Learns S.Source (λ o. sysv.is_found held.now t
        (listed_hash NameHash.Sysv o l.section.0 i) i) result elf.old elf.new }
{
    match listed_hash(elf, NameHash::Sysv, l, end, i) {
        Ok(listed) => Ok(is_found_in(held, t, paths, listed, i)),
        Err(stop) => Err(stop),
    }
}

/// Whether each listed symbol is on the chain of its name's bucket; the names end there where that
/// is known.
fn all_are_found<S: Source>(
    elf: &mut Elf<S>,
    held: &Words,
    t: SysvTable,
    paths: &Paths,
    l: LinkedSymbolTable,
    end: Option<u64>,
) -> Result<bool, Stop>
    requires takes { TakesUp held.now t }
    requires are { ArePaths held.now t paths.now }
    requires listed { AreListed elf.old.o l }
    requires end { IsTrue elf.old.told → IfSome end (EndsAt elf.old.o l.strings.0) }
    ensures { Learns S.Source (λ o. sysv.all_are_found held.now t
        (listed_names o l.section.0)) result elf.old elf.new }
{
    for i in 1..l.count {
        let found = is_found(elf, held, t, paths, l, end, i)?;
        if !found {
            return Ok(false);
        }
    }
    Ok(true)
}

/// Whether each listed symbol is found, once the end of the names is looked for.
fn each_is_found<S: Source>(
    elf: &mut Elf<S>,
    held: &Words,
    t: SysvTable,
    paths: &Paths,
    l: LinkedSymbolTable,
) -> Result<bool, Stop>
    requires takes { TakesUp held.now t }
    requires are { ArePaths held.now t paths.now }
    requires listed { AreListed elf.old.o l }
    ensures { Learns S.Source (λ o. sysv.all_are_found held.now t
        (listed_names o l.section.0)) result elf.old elf.new }
{
    match end_of_names(elf, l) {
        Ok(end) => all_are_found(elf, held, t, paths, l, end),
        Err(stop) => Err(stop),
    }
}

/// Whether the chain of each bucket has an end, and each listed symbol is on that of its name's.
#[tactic(auto, unfolding(crate::specs::Sysv::chains_hold))]
fn chains_hold<S: Source>(
    elf: &mut Elf<S>,
    held: &Words,
    t: SysvTable,
    l: LinkedSymbolTable,
) -> Result<bool, Stop>
    requires takes { TakesUp held.now t }
    requires listed { AreListed elf.old.o l }
    ensures { Learns S.Source (λ o. sysv.chains_hold held.now t (listed_names o l.section.0))
        result elf.old elf.new }
{
    match paths_of(elf.alloc(), held, t) {
        Ok(Some(paths)) => each_is_found(elf, held, t, &paths, l),
        Ok(None) => Ok(false),
        Err(e) => Err(Stop::want_of(e)),
    }
}

/// Whether the words of a section that begins with the two counts of a table are as many as these
/// say, and it is whole.
#[tactic(auto, unfolding(crate::specs::Sysv::is_whole_table))]
fn are_whole<S: Source>(
    elf: &mut Elf<S>,
    held: &Words,
    t: SysvTable,
    l: LinkedSymbolTable,
) -> Result<bool, Stop>
    requires { AreListed elf.old.o l }
    ensures { Learns S.Source (λ o. sysv.is_whole_table held.now t (listed_names o l.section.0))
        result elf.old elf.new }
{
    if !counts_are(t, held.len(), l.count) {
        return Ok(false);
    }
    chains_hold(elf, held, t, l)
}

/// Whether a section that begins with the two counts of a table is whole.
#[tactic(auto, unfolding(crate::specs::Sysv::is_whole_table))]
fn is_whole_table<S: Source>(
    elf: &mut Elf<S>,
    t: SysvTable,
    total: u64,
    l: LinkedSymbolTable,
) -> Result<bool, Stop>
    requires total { total ≡ length (section_words elf.old.o t.section.0) }
    requires listed { AreListed elf.old.o l }
    ensures { Learns S.Source (λ o. sysv.is_whole_table (section_words o t.section.0) t
        (listed_names o l.section.0)) result elf.old elf.new }
{
    if !counts_are(t, total, l.count) {
        return Ok(false);
    }
    match read_words(elf, t.section, total) {
        Ok(held) => are_whole(elf, &held, t, l),
        Err(stop) => Err(stop),
    }
}

/// Whether a section of so many words is whole.
fn is_whole_with<S: Source>(
    elf: &mut Elf<S>,
    s: ScnId,
    total: u64,
    l: LinkedSymbolTable,
) -> Result<bool, Stop>
    requires total { total ≡ length (section_words elf.old.o s.0) }
    requires listed { AreListed elf.old.o l }
    ensures { Learns S.Source (λ o. is_whole_sysv (section_words o s.0)
        (listed_names o l.section.0))
        result elf.old elf.new }
{
    match table_of(elf, s) {
        Ok(Some(t)) => is_whole_table(elf, t, total, l),
        Ok(None) => Ok(false),
        Err(stop) => Err(stop),
    }
}

/// Whether a hash section of words is whole: it has as many words as it says, a chain word for each
/// symbol and a bucket at least, the chain of each bucket ends, and each listed symbol is on the
/// chain of its name's bucket. It stops by `Read` where a read of the source failed, and by
/// `Memory`.
///
/// Source: gABI chapter 5, "Hash Table".
pub fn is_whole<S: Source>(elf: &mut Elf<S>, s: ScnId, l: LinkedSymbolTable) -> Result<bool, Stop>
    requires { AreListed elf.old.o l }
    ensures { Learns S.Source (λ o. is_whole_sysv (section_words o s.0)
        (listed_names o l.section.0))
        result elf.old elf.new }
{
    let d = DataId {
        section: s.0,
        piece: 0,
    };
    match item_count::<S, u32>(elf, d) {
        Ok(total) => is_whole_with(elf, s, total, l),
        Err(_) => Ok(false),
    }
}
