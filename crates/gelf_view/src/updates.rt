//! The items of a section's data, stored one by one.

ghost use Rattle.std.specs.Prelude.{true, [], OnOk, OnErr};
ghost use Rattle.elf_descriptor.specs.elf_object.Words.{Answers};
ghost use Rattle.elf_descriptor.specs.elf_object.Calls as calls;
ghost use Rattle.elf_descriptor.specs.Reads.{Queries, wanted};
ghost use Rattle.elf_descriptor.specs.Stores.{EditsItems};

use elf_descriptor::Elf;
use elf_descriptor::prelude::Source;
use elf_types::{DataId, Dyn, ElfError, Rel, Rela, Sym};

/// Gives the symbol at an index of a piece that value. The piece becomes own and marked. It fails
/// as a lend of symbols, in this order: `NoSection`, `NoData`, `WrongKind`, and for the clean home
/// piece `OutOfFile` and `Ragged`; then `NoEntry`, and `Unfit` where the value does not fit the
/// class; then `Memory` or `Read` where the piece does not hold its items. A refusal leaves the
/// object.
///
/// Source: gABI chapter 4, "Symbol Table"; gelf_update_sym of gelf(3E).
pub fn update_sym<S: Source>(elf: &mut Elf<S>, d: DataId, i: u64, v: &Sym) -> Result<(), ElfError>
    ensures answer { Answers true
        (wanted (calls.update_sym d.section d.piece i v.now) elf.old) result
        ((calls.update_sym d.section d.piece i v.now).answer elf.old.o) }
    ensures edits { OnOk result (EditsItems S.Source (calls.update_sym d.section d.piece i v.now)
        d.section d.piece result elf.old elf.new) }
    ensures refused { OnErr result (Queries S.Source
        (calls.update_sym d.section d.piece i v.now) [] result elf.old elf.new) }
{
    elf.update_item::<Sym>(d, i, *v)
}

/// Gives the relocation at an index of a piece that value. The piece becomes own and marked. It
/// fails as a lend of such relocations, in this order: `NoSection`, `NoData`, `WrongKind`, and for
/// the clean home piece `OutOfFile` and `Ragged`; then `NoEntry`, and `Unfit` where the value does
/// not fit the class; then `Memory` or `Read` where the piece does not hold its items. A refusal
/// leaves the object.
///
/// Source: gABI chapter 4, "Relocation"; gelf_update_rel of gelf(3E).
pub fn update_rel<S: Source>(elf: &mut Elf<S>, d: DataId, i: u64, v: &Rel) -> Result<(), ElfError>
    ensures answer { Answers true
        (wanted (calls.update_rel d.section d.piece i v.now) elf.old) result
        ((calls.update_rel d.section d.piece i v.now).answer elf.old.o) }
    ensures edits { OnOk result (EditsItems S.Source (calls.update_rel d.section d.piece i v.now)
        d.section d.piece result elf.old elf.new) }
    ensures refused { OnErr result (Queries S.Source
        (calls.update_rel d.section d.piece i v.now) [] result elf.old elf.new) }
{
    elf.update_item::<Rel>(d, i, *v)
}

/// Gives the relocation with an addend at an index of a piece that value. The piece becomes own and
/// marked. It fails as a lend of such relocations, in this order: `NoSection`, `NoData`,
/// `WrongKind`, and for the clean home piece `OutOfFile` and `Ragged`; then `NoEntry`, and `Unfit`
/// where the value does not fit the class; then `Memory` or `Read` where the piece does not hold
/// its items. A refusal leaves the object.
///
/// Source: gABI chapter 4, "Relocation"; gelf_update_rela of gelf(3E).
pub fn update_rela<S: Source>(elf: &mut Elf<S>, d: DataId, i: u64, v: &Rela) -> Result<(), ElfError>
    ensures answer { Answers true
        (wanted (calls.update_rela d.section d.piece i v.now) elf.old) result
        ((calls.update_rela d.section d.piece i v.now).answer elf.old.o) }
    ensures edits { OnOk result (EditsItems S.Source (calls.update_rela d.section d.piece i v.now)
        d.section d.piece result elf.old elf.new) }
    ensures refused { OnErr result (Queries S.Source
        (calls.update_rela d.section d.piece i v.now) [] result elf.old elf.new) }
{
    elf.update_item::<Rela>(d, i, *v)
}

/// Gives the entry of the dynamic section at an index of a piece that value. The piece becomes own
/// and marked. It fails as a lend of such entries, in this order: `NoSection`, `NoData`,
/// `WrongKind`, and for the clean home piece `OutOfFile` and `Ragged`; then `NoEntry`, and `Unfit`
/// where the value does not fit the class; then `Memory` or `Read` where the piece does not hold
/// its items. A refusal leaves the object.
///
/// Source: gABI chapter 5, "Dynamic Section"; gelf_update_dyn of gelf(3E).
pub fn update_dynent<S: Source>(
    elf: &mut Elf<S>,
    d: DataId,
    i: u64,
    v: &Dyn,
) -> Result<(), ElfError>
    ensures answer { Answers true
        (wanted (calls.update_dynent d.section d.piece i v.now) elf.old) result
        ((calls.update_dynent d.section d.piece i v.now).answer elf.old.o) }
    ensures edits { OnOk result (EditsItems S.Source (calls.update_dynent d.section d.piece i v.now)
        d.section d.piece result elf.old elf.new) }
    ensures refused { OnErr result (Queries S.Source
        (calls.update_dynent d.section d.piece i v.now) [] result elf.old elf.new) }
{
    elf.update_item::<Dyn>(d, i, *v)
}

/// Gives the four-byte number at an index of a piece that value. The piece becomes own and marked.
/// It fails as a lend of such numbers, in this order: `NoSection`, `NoData`, `WrongKind`, and for
/// the clean home piece `OutOfFile` and `Ragged`; then `NoEntry`, and never `Unfit`, since each
/// such number fits both classes; then `Memory` or `Read` where the piece does not hold its items.
/// A refusal leaves the object.
///
/// Source: gABI chapter 4, "Data Representation"; elf_getdata of elf(3E).
pub fn update_word<S: Source>(elf: &mut Elf<S>, d: DataId, i: u64, v: u32) -> Result<(), ElfError>
    ensures answer { Answers true
        (wanted (calls.update_word d.section d.piece i v) elf.old) result
        ((calls.update_word d.section d.piece i v).answer elf.old.o) }
    ensures edits { OnOk result (EditsItems S.Source (calls.update_word d.section d.piece i v)
        d.section d.piece result elf.old elf.new) }
    ensures refused { OnErr result (Queries S.Source
        (calls.update_word d.section d.piece i v) [] result elf.old elf.new) }
{
    elf.update_item::<u32>(d, i, v)
}

/// Gives the two-byte number at an index of a piece that value. The piece becomes own and marked.
/// It fails as a lend of such numbers, in this order: `NoSection`, `NoData`, `WrongKind`, and for
/// the clean home piece `OutOfFile` and `Ragged`; then `NoEntry`, and never `Unfit`, since each
/// such number fits both classes; then `Memory` or `Read` where the piece does not hold its items.
/// A refusal leaves the object.
///
/// Source: gABI chapter 4, "Data Representation"; elf_getdata of elf(3E).
pub fn update_half<S: Source>(elf: &mut Elf<S>, d: DataId, i: u64, v: u16) -> Result<(), ElfError>
    ensures answer { Answers true
        (wanted (calls.update_half d.section d.piece i v) elf.old) result
        ((calls.update_half d.section d.piece i v).answer elf.old.o) }
    ensures edits { OnOk result (EditsItems S.Source (calls.update_half d.section d.piece i v)
        d.section d.piece result elf.old elf.new) }
    ensures refused { OnErr result (Queries S.Source
        (calls.update_half d.section d.piece i v) [] result elf.old elf.new) }
{
    elf.update_item::<u16>(d, i, v)
}

/// Gives the address at an index of a piece that value. The piece becomes own and marked. It fails
/// as a lend of addresses, in this order: `NoSection`, `NoData`, `WrongKind`, and for the clean
/// home piece `OutOfFile` and `Ragged`; then `NoEntry`, and `Unfit` where the value does not fit
/// the class; then `Memory` or `Read` where the piece does not hold its items. A refusal leaves the
/// object.
///
/// Source: gABI chapter 4, "Data Representation"; elf_getdata of elf(3E).
pub fn update_addr<S: Source>(elf: &mut Elf<S>, d: DataId, i: u64, v: u64) -> Result<(), ElfError>
    ensures answer { Answers true
        (wanted (calls.update_addr d.section d.piece i v) elf.old) result
        ((calls.update_addr d.section d.piece i v).answer elf.old.o) }
    ensures edits { OnOk result (EditsItems S.Source (calls.update_addr d.section d.piece i v)
        d.section d.piece result elf.old elf.new) }
    ensures refused { OnErr result (Queries S.Source
        (calls.update_addr d.section d.piece i v) [] result elf.old elf.new) }
{
    elf.update_item::<u64>(d, i, v)
}
