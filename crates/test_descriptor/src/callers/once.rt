//! A home is read at most once by two calls in a row that need it, faults aside: what both ask for
//! is at most what the home is due, and that is nothing where it is loaded.

ghost use Rattle.std.specs.Prelude.{◌≡◌, IsTrue, OnOk, ℕ};
ghost use Rattle.elf_outside.specs.Counts.{RaisedAtMost};
ghost use Rattle.elf_object.specs.Due.{is_loaded, home_due};

use elf_descriptor::Elf;
use elf_outside::Source;
use elf_types::{DataId, ElfError, ScnId};
use section_data::Item;

/// The length of a home, which is read where it is not loaded.
pub fn raw_length<S: Source>(elf: &mut Elf<S>, s: ScnId) -> Result<usize, ElfError>
    ensures once { RaisedAtMost (S.taken elf.old.source) (S.taken elf.new.source)
        (home_due elf.old.o elf.old.loaded s.0) }
    ensures loaded { OnOk result (IsTrue (is_loaded elf.new.loaded s.0)) }
    ensures object { elf.new.o ≡ elf.old.o }
{
    Ok(elf.raw(s)?.len())
}

/// The length of a home that is loaded: nothing is asked for.
#[tactic(auto, using(crate::proofs::callers::Dues::loaded_home_due, crate::proofs::callers::Dues::raised_none))]
pub fn raw_length_again<S: Source>(elf: &mut Elf<S>, s: ScnId) -> Result<usize, ElfError>
    requires loaded { IsTrue (is_loaded elf.old.loaded s.0) }
    ensures nothing { S.taken elf.new.source ≡ S.taken elf.old.source }
    ensures object { elf.new.o ≡ elf.old.o }
{
    raw_length(elf, s)
}

/// An item of a piece, whose home is read where it is not loaded.
pub fn read_item_once<S: Source, T: Item>(
    elf: &mut Elf<S>,
    d: DataId,
    i: u64,
) -> Result<T, ElfError>
    ensures once { RaisedAtMost (S.taken elf.old.source) (S.taken elf.new.source)
        (home_due elf.old.o elf.old.loaded d.section) }
    ensures object { elf.new.o ≡ elf.old.o }
{
    elf.item::<T>(d, i)
}

/// An item of a piece whose home is loaded: nothing is asked for.
#[tactic(auto, using(crate::proofs::callers::Dues::loaded_home_due, crate::proofs::callers::Dues::raised_none))]
pub fn item_again<S: Source, T: Item>(elf: &mut Elf<S>, d: DataId, i: u64) -> Result<T, ElfError>
    requires loaded { IsTrue (is_loaded elf.old.loaded d.section) }
    ensures nothing { S.taken elf.new.source ≡ S.taken elf.old.source }
    ensures object { elf.new.o ≡ elf.old.o }
{
    read_item_once::<S, T>(elf, d, i)
}

/// The length of a home, told twice.
#[tactic(auto, using(crate::proofs::callers::Dues::raised_on))]
pub fn raw_twice<S: Source>(elf: &mut Elf<S>, s: ScnId) -> Result<(usize, usize), ElfError>
    ensures once { RaisedAtMost (S.taken elf.old.source) (S.taken elf.new.source)
        (home_due elf.old.o elf.old.loaded s.0) }
    ensures object { elf.new.o ≡ elf.old.o }
{
    let first = raw_length(elf, s)?;
    let second = raw_length_again(elf, s)?;
    Ok((first, second))
}

/// The length of a home, and then an item of a piece of its section.
#[tactic(auto, using(crate::proofs::callers::Dues::raised_on))]
pub fn raw_then_item<S: Source, T: Item>(
    elf: &mut Elf<S>,
    d: DataId,
    i: u64,
) -> Result<(usize, T), ElfError>
    ensures once { RaisedAtMost (S.taken elf.old.source) (S.taken elf.new.source)
        (home_due elf.old.o elf.old.loaded d.section) }
    ensures object { elf.new.o ≡ elf.old.o }
{
    let len = raw_length(elf, ScnId(d.section))?;
    let item = item_again::<S, T>(elf, d, i)?;
    Ok((len, item))
}
