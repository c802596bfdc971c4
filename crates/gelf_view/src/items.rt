//! The items of a section's data, one by one.

ghost use Rattle.elf_descriptor.specs.elf_object.Words.{Answers};
ghost use Rattle.elf_descriptor.specs.elf_object.Calls as calls;
ghost use Rattle.elf_descriptor.specs.Reads.{Looks, wanted};

use elf_descriptor::Elf;
use elf_descriptor::prelude::Source;
use elf_types::{DataId, Dyn, ElfError, Rel, Rela, Sym};

/// The symbol at an index of a piece. It fails as a lend of symbols, in this order: `NoSection`,
/// `NoData`, `WrongKind`, and for the clean home piece `OutOfFile` and `Ragged`; then `Memory` or
/// `Read` where its home is not loaded, and `NoEntry`. It marks nothing dirty.
///
/// Source: gABI chapter 4, "Symbol Table"; gelf_getsym of gelf(3E).
#[tactic(auto, unfolding(elf_descriptor::specs::Passed::sym_answer))]
pub fn sym<S: Source>(elf: &mut Elf<S>, d: DataId, i: u64) -> Result<Sym, ElfError>
    ensures answer { Answers elf.old.told (wanted (calls.sym d.section d.piece i) elf.old) result
        ((calls.sym d.section d.piece i).answer elf.old.o) }
    ensures looks { Looks S.Source (calls.sym d.section d.piece i) result elf.old elf.new }
{
    elf.item::<Sym>(d, i)
}

/// The relocation at an index of a piece. It fails as a lend of such relocations, in this order:
/// `NoSection`, `NoData`, `WrongKind`, and for the clean home piece `OutOfFile` and `Ragged`; then
/// `Memory` or `Read` where its home is not loaded, and `NoEntry`. It marks nothing dirty.
///
/// Source: gABI chapter 4, "Relocation"; gelf_getrel of gelf(3E).
#[tactic(auto, unfolding(elf_descriptor::specs::Passed::rel_answer))]
pub fn rel<S: Source>(elf: &mut Elf<S>, d: DataId, i: u64) -> Result<Rel, ElfError>
    ensures answer { Answers elf.old.told (wanted (calls.rel d.section d.piece i) elf.old) result
        ((calls.rel d.section d.piece i).answer elf.old.o) }
    ensures looks { Looks S.Source (calls.rel d.section d.piece i) result elf.old elf.new }
{
    elf.item::<Rel>(d, i)
}

/// The relocation with an addend at an index of a piece. It fails as a lend of such relocations, in
/// this order: `NoSection`, `NoData`, `WrongKind`, and for the clean home piece `OutOfFile` and
/// `Ragged`; then `Memory` or `Read` where its home is not loaded, and `NoEntry`. It marks nothing
/// dirty.
///
/// Source: gABI chapter 4, "Relocation"; gelf_getrela of gelf(3E).
#[tactic(auto, unfolding(elf_descriptor::specs::Passed::rela_answer))]
pub fn rela<S: Source>(elf: &mut Elf<S>, d: DataId, i: u64) -> Result<Rela, ElfError>
    ensures answer { Answers elf.old.told (wanted (calls.rela d.section d.piece i) elf.old) result
        ((calls.rela d.section d.piece i).answer elf.old.o) }
    ensures looks { Looks S.Source (calls.rela d.section d.piece i) result elf.old elf.new }
{
    elf.item::<Rela>(d, i)
}

/// The entry of the dynamic section at an index of a piece. It fails as a lend of such entries, in
/// this order: `NoSection`, `NoData`, `WrongKind`, and for the clean home piece `OutOfFile` and
/// `Ragged`; then `Memory` or `Read` where its home is not loaded, and `NoEntry`. It marks nothing
/// dirty.
///
/// Source: gABI chapter 5, "Dynamic Section"; gelf_getdyn of gelf(3E).
#[tactic(auto, unfolding(elf_descriptor::specs::Passed::dyn_answer))]
pub fn dynent<S: Source>(elf: &mut Elf<S>, d: DataId, i: u64) -> Result<Dyn, ElfError>
    ensures answer { Answers elf.old.told (wanted (calls.dynent d.section d.piece i) elf.old) result
        ((calls.dynent d.section d.piece i).answer elf.old.o) }
    ensures looks { Looks S.Source (calls.dynent d.section d.piece i) result elf.old elf.new }
{
    elf.item::<Dyn>(d, i)
}

/// The four-byte number at an index of a piece. It fails as a lend of four-byte numbers, in this
/// order: `NoSection`, `NoData`, `WrongKind`, and for the clean home piece `OutOfFile` and
/// `Ragged`; then `Memory` or `Read` where its home is not loaded, and `NoEntry`. It marks nothing
/// dirty.
///
/// Source: gABI chapter 4, "Data Representation".
#[tactic(auto, unfolding(elf_descriptor::specs::Passed::word_answer))]
pub fn word<S: Source>(elf: &mut Elf<S>, d: DataId, i: u64) -> Result<u32, ElfError>
    ensures answer { Answers elf.old.told (wanted (calls.word d.section d.piece i) elf.old) result
        ((calls.word d.section d.piece i).answer elf.old.o) }
    ensures looks { Looks S.Source (calls.word d.section d.piece i) result elf.old elf.new }
{
    elf.item::<u32>(d, i)
}

/// The two-byte number at an index of a piece. It fails as a lend of two-byte numbers, in this
/// order: `NoSection`, `NoData`, `WrongKind`, and for the clean home piece `OutOfFile` and
/// `Ragged`; then `Memory` or `Read` where its home is not loaded, and `NoEntry`. It marks nothing
/// dirty.
///
/// Source: gABI chapter 4, "Data Representation".
#[tactic(auto, unfolding(elf_descriptor::specs::Passed::half_answer))]
pub fn half<S: Source>(elf: &mut Elf<S>, d: DataId, i: u64) -> Result<u16, ElfError>
    ensures answer { Answers elf.old.told (wanted (calls.half d.section d.piece i) elf.old) result
        ((calls.half d.section d.piece i).answer elf.old.o) }
    ensures looks { Looks S.Source (calls.half d.section d.piece i) result elf.old elf.new }
{
    elf.item::<u16>(d, i)
}

/// The address at an index of a piece. It fails as a lend of addresses, in this order: `NoSection`,
/// `NoData`, `WrongKind`, and for the clean home piece `OutOfFile` and `Ragged`; then `Memory` or
/// `Read` where its home is not loaded, and `NoEntry`. It marks nothing dirty.
///
/// Source: gABI chapter 4, "Data Representation".
#[tactic(auto, unfolding(elf_descriptor::specs::Passed::addr_answer))]
pub fn addr<S: Source>(elf: &mut Elf<S>, d: DataId, i: u64) -> Result<u64, ElfError>
    ensures answer { Answers elf.old.told (wanted (calls.addr d.section d.piece i) elf.old) result
        ((calls.addr d.section d.piece i).answer elf.old.o) }
    ensures looks { Looks S.Source (calls.addr d.section d.piece i) result elf.old elf.new }
{
    elf.item::<u64>(d, i)
}
