//! What a caller learns of what is read, and of headers and sections.

ghost use Rattle.std.specs.Prelude.{◌≡◌, ◌<◌, ℕ, Ok, IfOk, OnOk, IsTrue, length, slice_set};
ghost use Rattle.elf_object.specs.Words.{Answers};
ghost use Rattle.elf_object.specs.Calls as calls;
ghost use Rattle.elf_object.specs.Due.{is_loaded};
ghost use Rattle.elf_descriptor.specs.Entries.{entry};
ghost use Rattle.elf_descriptor.specs.Reads.{Looks, wanted};
ghost use Rattle.elf_descriptor.specs.Edits.{stepped};

use elf_descriptor::Elf;
use elf_outside::Source;
use elf_types::{DataId, ElfError, Phdr, ScnId, Sym};
use section_data::Item;

/// The first two items of a piece.
pub fn first_two<S: Source, T: Item>(elf: &mut Elf<S>, d: DataId) -> Result<(T, T), ElfError>
    ensures first { IsTrue elf.old.told → IfOk result (λ both.
        (entry T.kind T.list_of d.section d.piece 0).answer elf.old.o ≡ Ok both.0) }
    ensures second { IsTrue elf.old.told → IfOk result (λ both.
        (entry T.kind T.list_of d.section d.piece 1).answer elf.old.o ≡ Ok both.1) }
    ensures object { elf.new.o ≡ elf.old.o }
{
    let first = elf.item::<T>(d, 0)?;
    let second = elf.item::<T>(d, 1)?;
    Ok((first, second))
}

/// The length of a section's bytes and its header.
pub fn long<S: Source>(elf: &mut Elf<S>, s: ScnId) -> Result<(usize, u64), ElfError>
    ensures header { IfOk result (λ both. IfOk ((calls.shdr s.0).answer elf.old.o)
        (λ header. header.size ≡ both.1)) }
    ensures object { elf.new.o ≡ elf.old.o }
    ensures loaded { OnOk result (IsTrue (is_loaded elf.new.loaded s.0)) }
{
    let len = elf.raw(s)?.len();
    let header = elf.shdr(s)?;
    Ok((len, header.size))
}

/// Stores a program header in those that are lent.
pub fn put_segment<S: Source>(elf: &mut Elf<S>, i: u32, p: Phdr)
    requires { i < length elf.old.o.phdrs }
    ensures { elf.new ≡ stepped (calls.phdrs_mut (slice_set elf.old.o.phdrs i p)) elf.old }
{
    elf.phdrs_mut()[i as usize] = p;
}

/// Adds a section; nothing that is held changes.
#[tactic(auto, using(elf_descriptor::proofs::EditSections::none_more))]
pub fn add_one_section<S: Source>(elf: &mut Elf<S>) -> Result<ScnId, ElfError>
    ensures number { IfOk result (λ s. calls.newscn.answer elf.old.o ≡ Ok s.0) }
    ensures object { OnOk result (elf.new.o ≡ calls.newscn.after elf.old.o) }
    ensures loaded { (i : ℕ) → is_loaded elf.new.loaded i ≡ is_loaded elf.old.loaded i }
{
    elf.newscn()
}

/// A symbol, as the call of the plain object states it.
#[tactic(auto, unfolding(elf_object::specs::Calls::sym_answer))]
pub fn symbol<S: Source>(elf: &mut Elf<S>, d: DataId, i: u64) -> Result<Sym, ElfError>
    ensures answer { Answers elf.old.told (wanted (calls.sym d.section d.piece i) elf.old) result
        ((calls.sym d.section d.piece i).answer elf.old.o) }
    ensures looks { Looks S.Source (calls.sym d.section d.piece i) result elf.old elf.new }
{
    elf.item::<Sym>(d, i)
}
