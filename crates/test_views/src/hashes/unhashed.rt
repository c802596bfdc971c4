//! Images whose hash sections are not rebuilt.

use crate::hashes::dynamic::{
    FEW_INDEXES, FEW_VERSIONS, OTHER_LINKS, OUT, RAGGED, RAGGED_RELOCATIONS, VERSIONS,
};
use crate::hashes::images::{GNU, Question, SORTED, SYMBOLS, first_piece, is_answered, is_refusal};
use elf_descriptor::Elf;
use elf_outside::Source;
use elf_types::ElfError;
use gelf_view::{half, sym};
use rehash_tool::rehash;
use test_kit_images::{NARROW, WIDE};
use test_kit_rows::{failed, other, same};

/// The object is rejected so.
#[derive(Clone, Copy)]
struct Refused(ElfError);

impl Question for Refused {
    fn is_answered<S: Source>(&self, rt: &HostRuntime, elf: &mut Elf<S>) -> bool {
        is_refusal(rt, &rehash(elf), self.0)
    }
}

#[test]
fn tables_that_are_ragged_or_not_there_are_refused_in_the_order_of_the_steps(rt: HostRuntime) {
    let out = Refused(ElfError::OutOfFile { section: GNU.0 });
    assert!(rt; is_answered(&rt, &out, WIDE, &OUT));
    let symbols = Refused(ElfError::Ragged { section: SYMBOLS.0 });
    assert!(rt; is_answered(&rt, &symbols, WIDE, &RAGGED));
    let relocations = Refused(ElfError::Ragged { section: 6 });
    assert!(rt; is_answered(&rt, &relocations, WIDE, &RAGGED_RELOCATIONS));
}

#[test]
fn fewer_versions_or_extended_indexes_than_symbols_are_refused(rt: HostRuntime) {
    let versions = Refused(ElfError::NoEntry { index: 4, count: 3 });
    assert!(rt; is_answered(&rt, &versions, WIDE, &FEW_VERSIONS));
    assert!(rt; is_answered(&rt, &versions, NARROW, &FEW_VERSIONS));
    let indexes = Refused(ElfError::NoEntry { index: 4, count: 1 });
    assert!(rt; is_answered(&rt, &indexes, WIDE, &FEW_INDEXES));
}

/// Whether a new order is refused, and nothing is marked.
fn is_unmarked<S: Source>(rt: &HostRuntime, elf: &mut Elf<S>) -> bool {
    match rehash(elf) {
        Ok(_) => other(rt, &"a new order", "an error"),
        Err(_) => same(rt, &elf.dirty(), &false),
    }
}

/// The order is rejected before anything changes.
struct Unchanged;

impl Question for Unchanged {
    fn is_answered<S: Source>(&self, rt: &HostRuntime, elf: &mut Elf<S>) -> bool {
        if !is_unmarked(rt, elf) {
            return false;
        }
        let named = match sym(elf, first_piece(SYMBOLS), 1) {
            Ok(held) => same(rt, &held.name, &3),
            Err(e) => failed(rt, e),
        };
        named && same(rt, &half(elf, first_piece(VERSIONS), 1), &Ok(1))
    }
}

#[test]
fn a_refused_order_leaves_the_object(rt: HostRuntime) {
    assert!(rt; is_answered(&rt, &Unchanged, WIDE, &FEW_VERSIONS));
    assert!(rt; is_answered(&rt, &Unchanged, WIDE, &FEW_INDEXES));
}

/// There is none, and nothing is done.
struct Absent;

impl Question for Absent {
    fn is_answered<S: Source>(&self, rt: &HostRuntime, elf: &mut Elf<S>) -> bool {
        same(rt, &rehash(elf), &Ok(false)) && same(rt, &elf.dirty(), &false)
    }
}

#[test]
fn symbols_that_are_not_dynamic_and_sections_of_other_tables_are_no_dynamic_hash(rt: HostRuntime) {
    assert!(rt; is_answered(&rt, &Absent, WIDE, &SORTED));
    assert!(rt; is_answered(&rt, &Absent, NARROW, &SORTED));
    assert!(rt; is_answered(&rt, &Absent, WIDE, &OTHER_LINKS));
}
