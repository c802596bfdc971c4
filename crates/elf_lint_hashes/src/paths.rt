//! What is known of the chains of a hash section of type `SHT_HASH`, by their symbols. Chains may
//! share symbols; each symbol is looked at once, and its path to the end is then gone in leaps, as
//! many as its length has digits.

ghost use Rattle.std.specs.Prelude.{◌≡◌, ◌<◌, ℕ, length, is_some, replicate, slice_get, slice_index_or, slice_set, IfErr, IfOk, IfSome, IsTrue, Some, true};
ghost use Rattle.std.specs.List.{list_all};
ghost use Rattle.elf_types.specs.declared.errors.ElfError.TheVariants.{Memory};
ghost use Rattle.hash_model.specs.HashSections.{is_on};
ghost use Rattle.elf_lint_hashes.specs.Sysv as sysv;
ghost use Rattle.elf_lint_hashes.specs.Sysv.{sysv_section_of, TakesUp};
ghost use Rattle.elf_lint_hashes.specs.Paths.{chain_from, is_known, ArePaths, IsLeapTarget};

use crate::sysv::SysvTable;
use crate::words::{behind, bucket_at, chain_has};
use elf_types::{ElfError, List, Words};
use std::alloc::Global;

/// What is known of symbols that lead to the end of a chain.
#[derive(Drop)]
pub struct Paths {
    /// How many symbols are on the chain from each one on, or 0 where that is not known.
    pub steps: Words,
    /// A symbol that follows each of them: the next one, or one farther on.
    pub leaps: Words,
}

/// A number of a list, or 0 where there is none.
fn number_at(list: &Words, i: u64) -> u32
    ensures { result ≡ slice_index_or list.now i 0 }
{
    match list.get(i) {
        Some(number) => number,
        None => 0,
    }
}

/// The number of a list at a symbol, or 0 where there is none.
fn number_of(list: &Words, at: u32) -> u32
    ensures { result ≡ slice_index_or list.now at 0 }
{
    number_at(list, u64::from(at))
}

/// So many zeros. It fails with `Memory` alone.
fn zeros(alloc: Global, count: u32) -> Result<Words, ElfError>
    ensures ok { IfOk result (λ list. list ≡ replicate count 0) }
    ensures err { IfErr result (λ e. e ≡ Memory) }
{
    let list = vec![in alloc; 0u32; count as usize]?;
    Ok(List::from_vec(list))
}

/// Where nothing is known of so many symbols. It fails with `Memory` alone.
fn no_paths(alloc: Global, words: &Words, t: SysvTable) -> Result<Paths, ElfError>
    ensures are { IfOk result (ArePaths words.now t) }
    ensures err { IfErr result (λ e. e ≡ Memory) }
{
    let steps = zeros(alloc, t.nchain)?;
    let leaps = zeros(alloc, t.nchain)?;
    Ok(Paths { steps, leaps })
}

/// Whether a chain is known to end from a symbol on: it is 0, or its steps are known.
fn is_known(paths: &Paths, at: u32) -> bool
    ensures { result ≡ is_known paths.now at }
{
    at == 0 || number_of(&paths.steps, at) != 0
}

/// A symbol that follows one whose next is known: the next one, or that to which two leaps from
/// there lead where they are of one length.
fn leap_behind(paths: &Paths, next: u32) -> u32
    ensures { IsLeapTarget paths.now next result }
{
    let far = number_of(&paths.leaps, next);
    let farther = number_of(&paths.leaps, far);
    let from = u64::from(number_of(&paths.steps, next));
    let over = u64::from(number_of(&paths.steps, far));
    let to = u64::from(number_of(&paths.steps, farther));
    if from + to == 2 * over { farther } else { next }
}

/// Whether there is a place for what is known of a symbol.
fn has_place(paths: &Paths, at: u32) -> bool
    ensures { IsTrue result → (at < length paths.now.steps) × (at < length paths.now.leaps) }
{
    u64::from(at) < paths.steps.len() && u64::from(at) < paths.leaps.len()
}

/// Stores what is known of a symbol.
fn store(paths: &mut Paths, at: u32, steps: u32, leap: u32)
    requires steps { at < length paths.old.steps }
    requires leaps { at < length paths.old.leaps }
    ensures steps { paths.new.steps ≡ slice_set paths.old.steps at steps }
    ensures leaps { paths.new.leaps ≡ slice_set paths.old.leaps at leap }
{
    paths.steps.as_mut_slice()[at as usize] = steps;
    paths.leaps.as_mut_slice()[at as usize] = leap;
}

/// Makes a symbol known whose next one is.
fn learn_by(words: &Words, t: SysvTable, at: u32, next: u32, paths: &mut Paths)
    requires other { 0 < at }
    requires next { Some next ≡ slice_get (sysv_section_of t words.now).chains at }
    requires are { ArePaths words.now t paths.old }
    ensures { ArePaths words.now t paths.new }
{
    if !is_known(paths, next) {
        return;
    }
    let steps = number_of(&paths.steps, next);
    if steps >= t.nchain {
        return;
    }
    if !has_place(paths, at) {
        return;
    }
    let leap = leap_behind(paths, next);
    store(paths, at, steps + 1, leap);
}

/// Makes a symbol known whose next one is, where it is a symbol with a chain word.
fn learn(words: &Words, t: SysvTable, at: u32, paths: &mut Paths)
    requires { ArePaths words.now t paths.old }
    ensures { ArePaths words.now t paths.new }
{
    if at == 0 {
        return;
    }
    match behind(words, t, at) {
        Some(next) => learn_by(words, t, at, next, paths),
        None => {}
    }
}

/// Makes symbols known, of which the last one leads to one that is.
fn learn_all(words: &Words, t: SysvTable, walked: &Words, paths: &mut Paths)
    requires { ArePaths words.now t paths.old }
    ensures { ArePaths words.now t paths.new }
{
    let count = walked.len();
    for done in 0..count {
        let at = number_at(walked, count - 1 - done);
        learn(words, t, at, paths);
    }
}

/// Leaves in a list the symbols of a chain up to one that is known. It fails with `Memory` alone.
fn walk(
    words: &Words,
    t: SysvTable,
    first: u32,
    paths: &Paths,
    walked: &mut Words,
) -> Result<(), ElfError>
    ensures err { IfErr result (λ e. e ≡ Memory) }
{
    walked.truncate(0);
    let mut at = first;
    for step in 0..t.nchain {
        if is_known(paths, at) {
            return Ok(());
        }
        walked.push(at)?;
        match behind(words, t, at) {
            Some(next) => at = next,
            None => return Ok(()),
        }
    }
    Ok(())
}

/// Whether the chain from a symbol on ends, which makes its symbols known. It fails with `Memory`
/// alone.
fn has_end(
    words: &Words,
    t: SysvTable,
    first: u32,
    paths: &mut Paths,
    walked: &mut Words,
) -> Result<bool, ElfError>
    requires { ArePaths words.now t paths.old }
    ensures value { IfOk result (λ ends. ends ≡ sysv.has_end words.now t first) }
    ensures are { ArePaths words.now t paths.new }
    ensures err { IfErr result (λ e. e ≡ Memory) }
{
    if let Err(e) = walk(words, t, first, paths, walked) {
        return Err(e);
    }
    learn_all(words, t, walked, paths);
    if is_known(paths, first) {
        return Ok(true);
    }
    Ok(chain_has(words, t, first, 0).is_some())
}

/// Whether the chain of each bucket has an end, which makes the symbols on it known. It fails with
/// `Memory` alone.
fn chains_end(
    words: &Words,
    t: SysvTable,
    paths: &mut Paths,
    walked: &mut Words,
) -> Result<bool, ElfError>
    requires takes { TakesUp words.now t }
    requires are { ArePaths words.now t paths.old }
    ensures value { IfOk result (λ ends. ends
        ≡ list_all (sysv.has_end words.now t) (sysv_section_of t words.now).buckets) }
    ensures are { ArePaths words.now t paths.new }
    ensures err { IfErr result (λ e. e ≡ Memory) }
{
    for bucket in 0..t.nbucket {
        let first = bucket_at(words, t, bucket);
        let ended = has_end(words, t, first, paths, walked)?;
        if !ended {
            return Ok(false);
        }
    }
    Ok(true)
}

/// What is known of the chains of a section, or None where that of a bucket has no end. It fails
/// with `Memory` alone.
pub fn paths_of(alloc: Global, words: &Words, t: SysvTable) -> Result<Option<Paths>, ElfError>
    requires { TakesUp words.now t }
    ensures ends { IfOk result (λ found. is_some found
        ≡ list_all (sysv.has_end words.now t) (sysv_section_of t words.now).buckets) }
    ensures are { IfOk result (λ found. IfSome found (ArePaths words.now t)) }
    ensures err { IfErr result (λ e. e ≡ Memory) }
{
    let mut paths = no_paths(alloc, words, t)?;
    let mut walked = Words::new(alloc);
    match chains_end(words, t, &mut paths, &mut walked) {
        Ok(true) => Ok(Some(paths)),
        Ok(false) => Ok(None),
        Err(e) => Err(e),
    }
}

/// A symbol on the chain after one that is known: not after symbol `i`, where that is on it.
fn next_by(words: &Words, t: SysvTable, paths: &Paths, at: u32, i: u64) -> u32
    requires other { 0 < at }
    requires are { ArePaths words.now t paths.now }
    requires known { is_known paths.now at ≡ true }
    ensures { (k : ℕ) → is_on k (chain_from words.now t result) ≡ true
        → is_on k (chain_from words.now t at) ≡ true }
{
    let leap = number_of(&paths.leaps, at);
    if number_of(&paths.steps, leap) >= number_at(&paths.steps, i) {
        return leap;
    }
    match behind(words, t, at) {
        Some(next) => next,
        None => at,
    }
}

/// Whether symbol `i` is found on the chain from one on in leaps, which is so only where it is on
/// it.
fn is_met(words: &Words, t: SysvTable, paths: &Paths, first: u32, i: u64) -> bool
    requires { ArePaths words.now t paths.now }
    ensures { IsTrue result → is_on i (chain_from words.now t first) ≡ true }
{
    let mut at = first;
    for step in 0..t.nchain {
        if at == 0 {
            return false;
        }
        if !is_known(paths, at) {
            return false;
        }
        if u64::from(at) == i {
            return true;
        }
        if number_of(&paths.steps, at) <= number_at(&paths.steps, i) {
            return false;
        }
        at = next_by(words, t, paths, at, i);
    }
    false
}

/// Whether symbol `i` is on the chain of the bucket of a hash, where it is listed by one. One that
/// is not found in leaps is looked for step by step.
#[tactic(auto, unfolding(crate::specs::Sysv::is_found, crate::specs::Sysv::bucket_has))]
pub fn is_found_in(words: &Words, t: SysvTable, paths: &Paths, listed: Option<u32>, i: u64) -> bool
    requires takes { TakesUp words.now t }
    requires are { ArePaths words.now t paths.now }
    ensures { result ≡ sysv.is_found words.now t listed i }
{
    let Some(hash) = listed else {
        return true;
    };
    let first = bucket_at(words, t, hash % t.nbucket);
    if is_met(words, t, paths, first, i) {
        return true;
    }
    is_walked(words, t, first, i)
}

/// Whether symbol `i` is on the chain from one on, which has an end.
fn is_walked(words: &Words, t: SysvTable, first: u32, i: u64) -> bool
    ensures { result ≡ is_on i (chain_from words.now t first) }
{
    match chain_has(words, t, first, i) {
        Some(met) => met,
        None => false,
    }
}
