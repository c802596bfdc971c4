//! The walk over a chain, up to its end, and the least symbol with a name on it.

ghost use Rattle.std.specs.Prelude.{◌≡◌, ◌==◌, IsTrue, IfOk, IfErr, None, Ok, Err, if◌then◌else◌};
ghost use Rattle.elf_types.specs.declared.errors.ElfError.TheVariants.{BadChain};
ghost use Rattle.elf_types.specs.Answers.{Follows};
ghost use Rattle.elf_types.specs.declared.records.Kind.TheVariants as kinds;
ghost use Rattle.hash_model.specs.elf_object.Answers.{count_at, lend_refusal};
ghost use Rattle.symbol_lookup.specs.Walks as walks;
ghost use Rattle.symbol_lookup.specs.Lookups.{found_from, is_match, next_on, walked_on, IsBad, Needs};
ghost use Rattle.symbol_lookup.specs.Searches.{AreLinks, HasLinks, HasTable, IsIndex, IsHashReadable, Searches, ObjectStays};

use crate::gnu::gnu_next;
use crate::linear::link;
use crate::matching::is_match;
use crate::sysv::sysv_next;
use crate::walks::{Links, Walk, WalkStart, WalkStep};
use elf_types::{DataId, ElfError, ScnId, Sym};
use gelf_view::item_count;
use gelf_view::prelude::Elf;
use hash_model::prelude::Source;

/// The step from a symbol by the chain words of a hash section.
#[tactic(auto, unfolding(crate::specs::Lookups::next_on))]
fn next_on<S: Source>(
    elf: &mut Elf<S>,
    h: ScnId,
    links: Links,
    i: u64,
) -> Result<WalkStep, ElfError>
    requires there { IsHashReadable elf.old.o h.0 links }
    requires links { AreLinks links }
    requires index { IsIndex i }
    ensures follows { IsTrue elf.old.told → Follows result (next_on elf.old.o h.0 links i) }
    ensures stays { ObjectStays elf.old elf.new }
    ensures searches { (n : Needs) → HasLinks n elf.old.o h.0 links
        → Searches S.Source n result elf.old elf.new }
    ensures index { IfOk result (λ step. IsIndex step.symbol) }
{
    match links {
        Links::Sysv { nbucket, nchain } => sysv_next(elf, h, nbucket, nchain, i),
        Links::Gnu { symoffset, chains } => gnu_next(elf, h, symoffset, chains, i),
    }
}

/// The least of those before, which may be none, and of one more where it passes.
fn with_least(best: Option<u64>, passes: bool, i: u64) -> Option<u64>
    ensures { result ≡ walks.with_least best passes i }
{
    if !passes {
        return best;
    }
    match best {
        Some(least) => Some(least.min(i)),
        None => Some(i),
    }
}

/// The walk with one more symbol looked at, which is not 0.
fn walk_on<S: Source>(
    elf: &mut Elf<S>,
    h: ScnId,
    links: Links,
    passes: bool,
    walk: Walk,
) -> Result<Walk, ElfError>
    requires there { IsHashReadable elf.old.o h.0 links }
    requires links { AreLinks links }
    requires index { IsIndex walk.step.symbol }
    ensures follows { IsTrue elf.old.told
        → Follows result (walked_on elf.old.o h.0 links passes walk) }
    ensures stays { ObjectStays elf.old elf.new }
    ensures searches { (n : Needs) → HasLinks n elf.old.o h.0 links
        → Searches S.Source n result elf.old elf.new }
    ensures index { IfOk result (λ walk. IsIndex walk.step.symbol) }
{
    match next_on(elf, h, links, walk.step.symbol) {
        Ok(step) => Ok(Walk {
            best: with_least(walk.best, passes, walk.step.symbol),
            step,
        }),
        Err(e) => Err(e),
    }
}

/// The walk after one more symbol, which is looked at first.
fn look_on<S: Source>(
    elf: &mut Elf<S>,
    h: ScnId,
    s: ScnId,
    links: Links,
    walk: Walk,
    name: &[u8],
) -> Result<Walk, ElfError>
    requires symbols { lend_refusal elf.old.o kinds.Sym s.0 0 ≡ None }
    requires there { IsHashReadable elf.old.o h.0 links }
    requires links { AreLinks links }
    requires index { IsIndex walk.step.symbol }
    ensures follows { IsTrue elf.old.told → Follows result (walked_on elf.old.o h.0 links
        (is_match elf.old.o s.0 name.now walk.step.symbol) walk) }
    ensures stays { ObjectStays elf.old elf.new }
    ensures searches { (n : Needs) → HasLinks n elf.old.o h.0 links → HasTable n elf.old.o s.0
        → Searches S.Source n result elf.old elf.new }
    ensures index { IfOk result (λ walk. IsIndex walk.step.symbol) }
{
    let strings = link(elf, s);
    match is_match(elf, s, strings, walk.step.symbol, name) {
        Ok(passes) => walk_on(elf, h, links, passes, walk),
        Err(e) => Err(e),
    }
}

/// The number of symbols of a table.
fn count<S: Source>(elf: &Elf<S>, s: ScnId) -> u64
    requires { lend_refusal elf.now.o kinds.Sym s.0 0 ≡ None }
    ensures { result ≡ count_at elf.now.o s.0 0 }
{
    match item_count::<S, Sym>(elf, DataId::home(s)) {
        Ok(count) => count,
        Err(_) => unreachable!(),
    }
}

/// What was found on a walk that may take no further step.
fn end_of(walk: Walk) -> Result<Option<u64>, ElfError>
    ensures value { result ≡ (if walk.step.symbol == 0 then Ok walk.best
        else Err (BadChain walk.step.at)) }
    ensures bad { IfErr result IsBad }
{
    if walk.step.symbol == 0 {
        Ok(walk.best)
    } else {
        Err(ElfError::BadChain { at: walk.step.at })
    }
}

/// The least symbol of a table with a name on the chain that begins there, after the walk to its
/// end: a bad chain at the last word that was read where the walk is at a symbol after as many
/// steps as there are symbols.
pub fn find_from<S: Source>(
    elf: &mut Elf<S>,
    h: ScnId,
    s: ScnId,
    start: WalkStart,
    name: &[u8],
) -> Result<Option<u64>, ElfError>
    requires symbols { lend_refusal elf.old.o kinds.Sym s.0 0 ≡ None }
    requires there { IsHashReadable elf.old.o h.0 start.links }
    requires links { AreLinks start.links }
    requires index { IsIndex start.step.symbol }
    ensures follows { IsTrue elf.old.told
        → Follows result (found_from elf.old.o h.0 s.0 name.now start) }
    ensures searches { (n : Needs) → HasLinks n elf.old.o h.0 start.links
        → HasTable n elf.old.o s.0 → Searches S.Source n result elf.old elf.new }
{
    let mut walk = Walk {
        best: None,
        step: start.step,
    };
    let steps = count(elf, s);
    for taken in 0..steps {
        if walk.step.symbol == 0 {
            return Ok(walk.best);
        }
        match look_on(elf, h, s, start.links, walk, name) {
            Ok(later) => walk = later,
            Err(e) => return Err(e),
        }
    }
    end_of(walk)
}
