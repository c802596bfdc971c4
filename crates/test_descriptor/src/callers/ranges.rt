//! What a caller can tell of a range before it writes over the base.

ghost use Rattle.std.specs.Prelude.{◌≡◌, ◌<◌, ◌+◌, true, false, IsTrue};
ghost use Rattle.elf_object.specs.Answers.{piece_count};
ghost use Rattle.elf_object.specs.Blocks.{extents_meet};
ghost use Rattle.elf_object.specs.Due.{is_loaded};
ghost use Rattle.elf_object.specs.Object.{section_at, piece_at};
ghost use Rattle.elf_descriptor.specs.Cuts.{MayWrite, MaySize, IsKeptApart};
ghost use Rattle.test_descriptor.specs.Callers.Ranges.{StaysOver, StaysWithin};

use elf_descriptor::{Elf, Held};
use elf_outside::Source;
use elf_types::{DIRTY, DataId, Part, ScnId};

/// Whether the object is marked as a whole.
#[tactic(auto, unfolding(elf_object::specs::Calls::flags_answer, elf_object::specs::Answers::part_refusal, elf_object::specs::Answers::flags_of))]
fn is_marked<S: Source>(elf: &Elf<S>) -> bool
    ensures { result ≡ elf.now.o.marked }
{
    match elf.flags(Part::Object) {
        Ok(bits) => bits / DIRTY % 2 == 1,
        Err(_) => unreachable!(),
    }
}

/// Whether a section has one piece.
#[tactic(auto, unfolding(elf_object::specs::Calls::pieces_answer))]
fn has_one_piece<S: Source>(elf: &Elf<S>, s: u32) -> bool
    ensures { IsTrue result → piece_count elf.now.o s ≡ 1 }
{
    match elf.pieces(ScnId(s)) {
        Ok(count) => count == 1,
        Err(_) => false,
    }
}

/// Whether there is a first piece of a section, and it is marked.
#[tactic(auto, unfolding(elf_object::specs::Calls::flags_answer, elf_object::specs::Answers::part_refusal, elf_object::specs::Answers::flags_of))]
fn is_first_marked<S: Source>(elf: &Elf<S>, s: u32) -> bool
    ensures { IsTrue result → (piece_at elf.now.o s 0).marked ≡ true }
{
    match elf.flags(Part::Piece(s, 0)) {
        Ok(bits) => bits / DIRTY % 2 == 1,
        Err(_) => false,
    }
}

/// Whether the first piece of a section is the clean home piece, whose bytes are held.
fn is_home_held<S: Source>(elf: &Elf<S>, s: u32) -> bool
    ensures { IsTrue result → IsTrue (is_loaded elf.now.loaded s) }
{
    match elf.held(DataId {
        section: s,
        piece: 0,
    }) {
        Ok(Held::Raw(_)) => true,
        _ => false,
    }
}

/// Whether what a section's home holds does not rest on the base, as far as that shows: its one
/// piece is clean, loaded and marked.
#[tactic(auto, using(crate::proofs::callers::RangeLemmas::one_is_marked))]
pub fn is_kept_apart<S: Source>(elf: &Elf<S>, s: u32) -> bool
    ensures { IsTrue result → IsKeptApart elf.now s }
{
    is_home_held(elf, s) && has_one_piece(elf, s) && is_first_marked(elf, s)
}

/// Whether two ranges share no place.
#[tactic(auto, unfolding(elf_object::specs::Blocks::extents_meet))]
fn are_apart(a: u64, m: u64, b: u64, n: u64) -> bool
    ensures { IsTrue result → extents_meet a m b n ≡ false }
{
    if m == 0 || n == 0 {
        return true;
    }
    if a < b { m <= b - a } else { n <= a - b }
}

/// Whether the home of a section shares no place with a range.
#[tactic(auto, unfolding(elf_object::specs::Calls::home_answer))]
fn is_clear<S: Source>(elf: &Elf<S>, s: u32, at: u64, n: u64) -> bool
    ensures { IsTrue result → extents_meet (section_at elf.now.o s).home.at
        (section_at elf.now.o s).home.len at n ≡ false }
{
    match elf.home(ScnId(s)) {
        Ok(home) => are_apart(home.0, home.1, at, n),
        Err(_) => false,
    }
}

/// Whether a home stays as it is where a range is written over.
fn stays_over<S: Source>(elf: &Elf<S>, s: u32, at: u64, n: u64) -> bool
    ensures { IsTrue result → StaysOver elf.now at n s }
{
    if is_clear(elf, s, at, n) {
        return true;
    }
    is_kept_apart(elf, s)
}

/// Whether a range may be written over, as far as that shows: each home that shares a place with it
/// is kept apart.
pub fn may_write<S: Source>(elf: &Elf<S>, at: u64, n: u64) -> bool
    ensures { IsTrue result → MayWrite elf.now at n }
{
    for s in 0..elf.shnum() {
        if !stays_over(elf, s, at, n) {
            return false;
        }
    }
    is_marked(elf)
}

/// Whether the home of a section is empty or ends within a length.
#[tactic(auto, unfolding(elf_object::specs::Calls::home_answer))]
fn is_within<S: Source>(elf: &Elf<S>, s: u32, n: u64) -> bool
    ensures { IsTrue result → 0 < (section_at elf.now.o s).home.len
        → n < (section_at elf.now.o s).home.at + (section_at elf.now.o s).home.len → ⊥ }
{
    match elf.home(ScnId(s)) {
        Ok(home) => home.1 == 0 || (home.0 <= n && home.1 <= n - home.0),
        Err(_) => false,
    }
}

/// Whether a home stays as it is where the device gets a length.
fn stays_within<S: Source>(elf: &Elf<S>, s: u32, n: u64) -> bool
    ensures { IsTrue result → StaysWithin elf.now n s }
{
    if is_within(elf, s, n) {
        return true;
    }
    is_kept_apart(elf, s)
}

/// Whether the device may get a length, as far as that shows: each home that passes it is kept
/// apart.
pub fn may_size<S: Source>(elf: &Elf<S>, n: u64) -> bool
    ensures { IsTrue result → MaySize elf.now n }
{
    for s in 0..elf.shnum() {
        if !stays_within(elf, s, n) {
            return false;
        }
    }
    is_marked(elf)
}
