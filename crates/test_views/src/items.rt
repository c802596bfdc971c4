//! Items of each kind but symbols, which are stored and told one by one.

use crate::questions::{Question, add, is_answered};
use elf_descriptor::Elf;
use elf_outside::Source;
use elf_types::{Addrs, Dyn, Dyns, ElfError, Halves, Rel, Rela, Relas, Rels, Words};
use elf_xlate::Items;
use gelf_view::{
    addr, dynent, half, rel, rela, update_addr, update_dynent, update_half, update_rel,
    update_rela, update_word, word,
};
use test_kit_rows::same;

/// A half that is stored in place of a zero one, and told.
fn half_told<S: Source>(elf: &mut Elf<S>, x: u16) -> Result<u16, ElfError> {
    let items = Items::Half(Halves::from_slice(elf.alloc(), &[0])?);
    let d = add(elf, items)?;
    update_half(elf, d, 0, x)?;
    half(elf, d, 0)
}

/// A word that is stored in place of a zero one, and told.
fn word_told<S: Source>(elf: &mut Elf<S>, x: u32) -> Result<u32, ElfError> {
    let items = Items::Word(Words::from_slice(elf.alloc(), &[0])?);
    let d = add(elf, items)?;
    update_word(elf, d, 0, x)?;
    word(elf, d, 0)
}

/// An address that is stored in place of a zero one, and told.
fn addr_told<S: Source>(elf: &mut Elf<S>, x: u64) -> Result<u64, ElfError> {
    let items = Items::Addr(Addrs::from_slice(elf.alloc(), &[0])?);
    let d = add(elf, items)?;
    update_addr(elf, d, 0, x)?;
    addr(elf, d, 0)
}

/// A relocation, one with an addend, and an entry of a dynamic section; and each of zeros.
const REL: Rel = Rel {
    offset: 1,
    sym: 0,
    rtype: 0,
};

const NO_REL: Rel = Rel { offset: 0, ..REL };

const RELA: Rela = Rela {
    offset: 2,
    sym: 0,
    rtype: 0,
    addend: 0,
};

const NO_RELA: Rela = Rela { offset: 0, ..RELA };

const DYN: Dyn = Dyn { tag: 0, val: 3 };

const NO_DYN: Dyn = Dyn { val: 0, ..DYN };

/// A relocation that is stored in place of a zero one, and told.
fn rel_told<S: Source>(elf: &mut Elf<S>, x: Rel) -> Result<Rel, ElfError> {
    let items = Items::Rel(Rels::from_slice(elf.alloc(), &[NO_REL])?);
    let d = add(elf, items)?;
    update_rel(elf, d, 0, &x)?;
    rel(elf, d, 0)
}

/// A relocation with an addend that is stored in place of a zero one, and told.
fn rela_told<S: Source>(elf: &mut Elf<S>, x: Rela) -> Result<Rela, ElfError> {
    let items = Items::Rela(Relas::from_slice(elf.alloc(), &[NO_RELA])?);
    let d = add(elf, items)?;
    update_rela(elf, d, 0, &x)?;
    rela(elf, d, 0)
}

/// An entry of a dynamic section that is stored in place of a zero one, and told.
fn dyn_told<S: Source>(elf: &mut Elf<S>, x: Dyn) -> Result<Dyn, ElfError> {
    let items = Items::Dyn(Dyns::from_slice(elf.alloc(), &[NO_DYN])?);
    let d = add(elf, items)?;
    update_dynent(elf, d, 0, &x)?;
    dynent(elf, d, 0)
}

/// Each is told as it was stored.
struct Told;

impl Question for Told {
    fn is_answered<S: Source>(&self, rt: &HostRuntime, elf: &mut Elf<S>) -> bool {
        let mut told = same(rt, &half_told(elf, 5), &Ok(5));
        told &= same(rt, &word_told(elf, 6), &Ok(6));
        told &= same(rt, &addr_told(elf, 7), &Ok(7));
        told &= same(rt, &rel_told(elf, REL), &Ok(REL));
        told &= same(rt, &rela_told(elf, RELA), &Ok(RELA));
        told && same(rt, &dyn_told(elf, DYN), &Ok(DYN))
    }
}

#[test]
fn items_are_told_one_by_one(rt: HostRuntime) {
    assert!(rt; is_answered(&rt, &Told));
}
