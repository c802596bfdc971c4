//! The calls that change an item of a piece: the item's getter, and then its update with what the
//! getter gave, one field changed.

ghost use Rattle.std.specs.Prelude.{true, false, IfOk};
ghost use Rattle.elf_calls_apply.specs.Applies.{Applies, Sets, keeps_fields, result_of};
ghost use Rattle.elf_calls_apply.specs.Forms.{IsAnswerOf};
ghost use Rattle.elf_calls_apply.specs.Stated.{half_set, word_set, addr_set, sym_set, rel_set, rela_set, dyn_set, item_set_call};
ghost use Rattle.elf_calls_script.specs.declared.calls.Call.TheVariants as call;

use crate::answers::{Answer, done};
use crate::fields::{dyn_with, rel_with, rela_with, sym_with};
use elf_calls_script::ItemSet;
use elf_outside::Source;
use elf_types::{DataId, ElfError};
use elf_update_plan::prelude::Elf;
use symbol_lookup::prelude::{
    addr, dynent, half, rel, rela, sym, update_addr, update_dynent, update_half, update_rel,
    update_rela, update_sym, update_word, word,
};

pub(crate) mod adding;

/// `set half`: a two-byte number.
fn set_half<S: Source>(elf: &mut Elf<S>, d: DataId, i: u64, v: u16) -> Result<(), ElfError>
    ensures { Sets S.Source (half_set v d.section d.piece i) false d i result elf.old elf.new }
{
    match half(elf, d, i) {
        Ok(_) => update_half(elf, d, i, v),
        Err(e) => Err(e),
    }
}

/// `set word`: a four-byte number.
fn set_word<S: Source>(elf: &mut Elf<S>, d: DataId, i: u64, v: u32) -> Result<(), ElfError>
    ensures { Sets S.Source (word_set v d.section d.piece i) false d i result elf.old elf.new }
{
    match word(elf, d, i) {
        Ok(_) => update_word(elf, d, i, v),
        Err(e) => Err(e),
    }
}

/// `set addr`: an address.
fn set_addr<S: Source>(elf: &mut Elf<S>, d: DataId, i: u64, v: u64) -> Result<(), ElfError>
    ensures { Sets S.Source (addr_set v d.section d.piece i) false d i result elf.old elf.new }
{
    match addr(elf, d, i) {
        Ok(_) => update_addr(elf, d, i, v),
        Err(e) => Err(e),
    }
}

/// `set sym`: a field of a symbol.
fn set_sym<S: Source>(elf: &mut Elf<S>, d: DataId, i: u64, set: ItemSet) -> Result<(), ElfError>
    ensures { Sets S.Source (sym_set set d.section d.piece i) true d i result elf.old elf.new }
{
    match sym(elf, d, i) {
        Ok(x) => update_sym(elf, d, i, &sym_with(set, x)),
        Err(e) => Err(e),
    }
}

/// `set rel`: a field of a relocation without an addend.
fn set_rel<S: Source>(elf: &mut Elf<S>, d: DataId, i: u64, set: ItemSet) -> Result<(), ElfError>
    ensures { Sets S.Source (rel_set set d.section d.piece i) true d i result elf.old elf.new }
{
    match rel(elf, d, i) {
        Ok(x) => update_rel(elf, d, i, &rel_with(set, x)),
        Err(e) => Err(e),
    }
}

/// `set rela`: a field of a relocation with an addend.
fn set_rela<S: Source>(elf: &mut Elf<S>, d: DataId, i: u64, set: ItemSet) -> Result<(), ElfError>
    ensures { Sets S.Source (rela_set set d.section d.piece i) true d i result elf.old elf.new }
{
    match rela(elf, d, i) {
        Ok(x) => update_rela(elf, d, i, &rela_with(set, x)),
        Err(e) => Err(e),
    }
}

/// `set dyn`: a field of an entry of the dynamic section.
fn set_dyn<S: Source>(elf: &mut Elf<S>, d: DataId, i: u64, set: ItemSet) -> Result<(), ElfError>
    ensures { Sets S.Source (dyn_set set d.section d.piece i) true d i result elf.old elf.new }
{
    match dynent(elf, d, i) {
        Ok(x) => update_dynent(elf, d, i, &dyn_with(set, x)),
        Err(e) => Err(e),
    }
}

/// A field of an item, by that kind's getter and its update.
#[tactic(auto, unfolding(crate::specs::Stated::item_set_call))]
fn set_field<S: Source>(elf: &mut Elf<S>, d: DataId, i: u64, set: ItemSet) -> Result<(), ElfError>
    ensures { Sets S.Source (item_set_call set d.section d.piece i) (keeps_fields set) d i result
        elf.old elf.new }
{
    match set {
        ItemSet::Half(v) => set_half(elf, d, i, v),
        ItemSet::Word(v) => set_word(elf, d, i, v),
        ItemSet::Addr(v) => set_addr(elf, d, i, v),
        ItemSet::SymName(_) => set_sym(elf, d, i, set),
        ItemSet::SymValue(_) => set_sym(elf, d, i, set),
        ItemSet::SymSize(_) => set_sym(elf, d, i, set),
        ItemSet::SymInfo(_) => set_sym(elf, d, i, set),
        ItemSet::SymOther(_) => set_sym(elf, d, i, set),
        ItemSet::SymShndx(_) => set_sym(elf, d, i, set),
        ItemSet::RelOffset(_) => set_rel(elf, d, i, set),
        ItemSet::RelSym(_) => set_rel(elf, d, i, set),
        ItemSet::RelType(_) => set_rel(elf, d, i, set),
        ItemSet::RelaOffset(_) => set_rela(elf, d, i, set),
        ItemSet::RelaSym(_) => set_rela(elf, d, i, set),
        ItemSet::RelaType(_) => set_rela(elf, d, i, set),
        ItemSet::RelaAddend(_) => set_rela(elf, d, i, set),
        ItemSet::DynTag(_) => set_dyn(elf, d, i, set),
        ItemSet::DynVal(_) => set_dyn(elf, d, i, set),
    }
}

/// `set KIND`: a field of an item.
pub(crate) fn set_item<S: Source>(elf: &mut Elf<S>, d: DataId, i: u64, set: ItemSet) -> Answer
    ensures meets { Applies S.Source (call.SetItem d i set) (result_of result) elf.old elf.new }
    ensures form { IfOk (result_of result) (IsAnswerOf (call.SetItem d i set) elf.old.o) }
{
    done(set_field(elf, d, i, set))
}
