//! The two halves joined.

ghost use Rattle.std.specs.Prelude.{◌≡◌, false, true, None, IsTrue, OnOk, IfOk, IfErr};
ghost use Rattle.rebuild_keep.specs.elf_object.Object.{is_dirty};
ghost use Rattle.rebuild_keep.specs.rebuild_model.Split.{allocated, combine_fault, combined_tail, matches, unstripped};
ghost use Rattle.rebuild_keep.specs.rebuild_making.Based.{IsMadeOver};
ghost use Rattle.rebuild_keep.specs.Makes.{AsksFor};
ghost use Rattle.rebuild_join.specs.Joined.Answers.{stated_fault, seen_join, joined_as, UnstripAnswers, EarlyFault, on_stripped, on_debug, homes_of_stripped, stripped_due, debug_due};
ghost use Rattle.rebuild_join.specs.Joined.Filled.{Joins};

use crate::joined::faults::UnstripFault;
use crate::joined::filling::fill_joined;
use crate::joined::loaded::allocated;
use crate::joined::matching::are_halves;
use elf_outside::{NoSource, Source};
use rebuild_keep::prelude::{Elf, SectionSet, arrange, create_over_base};
use rebuild_keep::{Rebuilt, tail_of};
use std::alloc::Global;

/// Fills an object that was created over the base of the stripped half, and gives what follows the
/// base its places.
fn fill_and_place<S: Source, T: Source>(
    stripped: &mut Elf<S>,
    debug: &mut Elf<T>,
    loaded: &[u32],
    made: &mut Elf<NoSource>,
    tail: Option<u64>,
) -> Result<(), UnstripFault>
    requires matches { matches stripped.old.o debug.old.o ≡ true }
    requires loaded { loaded.now ≡ allocated stripped.old.o }
    requires tail { tail ≡ combined_tail stripped.old.o }
    requires created { IsMadeOver stripped.old.told stripped.old.o tail made.old }
    ensures joins { Joins S.Source T.Source (joined_as made.new.o tail result) result
        (homes_of_stripped stripped.old.o) stripped.old stripped.new debug.old debug.new }
    ensures made { OnOk result (made.new.told ≡ true) }
{
    if let Err(fault) = fill_joined(stripped, debug, loaded, made) {
        return Err(fault);
    }
    match arrange(made, tail) {
        Ok(()) => Ok(()),
        Err(e) => Err(UnstripFault::Elf(e)),
    }
}

/// Fills an object with what two halves are merged to, places its parts, and hands it on.
fn finish<S: Source, T: Source>(
    stripped: &mut Elf<S>,
    debug: &mut Elf<T>,
    loaded: &[u32],
    mut made: Elf<NoSource>,
    tail: Option<u64>,
) -> Result<Rebuilt, UnstripFault>
    requires matches { matches stripped.old.o debug.old.o ≡ true }
    requires loaded { loaded.now ≡ allocated stripped.old.o }
    requires tail { tail ≡ combined_tail stripped.old.o }
    requires created { IsMadeOver stripped.old.told stripped.old.o tail made }
    ensures joins { Joins S.Source T.Source (seen_join result) result
        (homes_of_stripped stripped.old.o) stripped.old stripped.new debug.old debug.new }
    ensures made { IfOk result (λ r. r.elf.told ≡ true) }
{
    match fill_and_place(stripped, debug, loaded, &mut made, tail) {
        Ok(()) => Ok(Rebuilt { elf: made, tail }),
        Err(fault) => Err(fault),
    }
}

/// The object of two halves that match.
fn join<S: Source, T: Source>(
    alloc: Global,
    stripped: &mut Elf<S>,
    debug: &mut Elf<T>,
    loaded: &[u32],
) -> Result<Rebuilt, UnstripFault>
    requires matches { matches stripped.old.o debug.old.o ≡ true }
    requires loaded { loaded.now ≡ allocated stripped.old.o }
    ensures joins { Joins S.Source T.Source (seen_join result) result
        (stripped_due stripped.old.o) stripped.old stripped.new debug.old debug.new }
    ensures made { IfOk result (λ r. r.elf.told ≡ true) }
{
    let tail = tail_of(stripped, &SectionSet::none(alloc));
    match create_over_base(alloc, stripped, tail) {
        Ok(made) => finish(stripped, debug, loaded, made, tail),
        Err(e) => Err(UnstripFault::Elf(e)),
    }
}

/// The object of two halves.
fn join_halves<S: Source, T: Source>(
    alloc: Global,
    stripped: &mut Elf<S>,
    debug: &mut Elf<T>,
) -> Result<Rebuilt, UnstripFault>
    ensures joins { Joins S.Source T.Source (seen_join result) result
        (stripped_due stripped.old.o) stripped.old stripped.new debug.old debug.new }
    ensures made { IfOk result (λ r. r.elf.told ≡ true) }
{
    let loaded = match allocated(alloc, stripped) {
        Ok(loaded) => loaded,
        Err(e) => return Err(UnstripFault::Elf(e)),
    };
    let same = match are_halves(alloc, stripped, loaded.as_slice(), debug) {
        Ok(same) => same,
        Err(e) => return Err(UnstripFault::Debug(e)),
    };
    if !same {
        return Err(UnstripFault::Mismatch);
    }
    join(alloc, stripped, debug, loaded.as_slice())
}

/// The program of which two files are halves, neither dirty: over the base of the stripped one,
/// with its header and its program headers, the sections of the debug half and its string index.
/// The i-th allocated section has the type, the place and the bytes of the i-th one of the stripped
/// half. What is not loaded follows the base, one after the other, and then the section header
/// table. It fails with, in this order: `Mismatch` where the headers, the program headers or the
/// allocated sections tell that they are no halves of one program; `TooMany` of `newphdr`, as
/// `Elf`; for each section from 1 on of the debug half `OutOfFile`, as `Elf` where it is allocated
/// and else as `Debug`; `NoSection` of the debug half's string index, as `Debug`; `TooLarge` where
/// a place after the base passes the limit, as `Elf`; and `Memory` and `Read`, by the half on which
/// they came. It leaves both objects and marks nothing of them dirty. It asks the stripped half for
/// at most its base before the tail and the homes of its allocated sections, and the debug half for
/// the homes of its others.
///
/// Source: eu-unstrip(1); gABI chapters 4 and 5.
pub fn unstrip<S: Source, T: Source>(
    alloc: Global,
    stripped: &mut Elf<S>,
    debug: &mut Elf<T>,
) -> Result<Rebuilt, UnstripFault>
    requires stripped { is_dirty stripped.old.o ≡ false }
    requires debug { is_dirty debug.old.o ≡ false }
    ensures answer { IsTrue stripped.old.told → IsTrue debug.old.told
        → UnstripAnswers (seen_join result) (unstripped stripped.old.o debug.old.o) }
    ensures passed { OnOk result (combine_fault stripped.old.o debug.old.o ≡ None) }
    ensures early { IfErr result
        (λ f. EarlyFault (combine_fault stripped.old.o debug.old.o) (stated_fault f)) }
    ensures made { IfOk result (λ r. r.elf.told ≡ true) }
    ensures asks_stripped { AsksFor S.Source (on_stripped result) stripped.old stripped.new
        (stripped_due stripped.old.o) }
    ensures asks_debug { AsksFor T.Source (on_debug result) debug.old debug.new
        (debug_due debug.old.o) }
{
    join_halves(alloc, stripped, debug)
}
