//! Symbols: their sections, and how they are stored and counted.

use crate::questions::{
    OBJECT_OF_CLASS_32, Question, STRINGS, SYMBOLS, is_answered, is_answered_of, set,
};
use elf_descriptor::Elf;
use elf_outside::Source;
use elf_types::constants::{SHN_XINDEX, SHT_SYMTAB_SHNDX};
use elf_types::{DataId, ElfError, Kind, Part, ScnId, Shdr, Sym, Syms, Words};
use elf_xlate::Items;
use gelf_view::{SymPlace, item_count, sym, symshndx, update_sym};
use test_kit_rows::same;

/// A symbol.
fn symbol<S: Source>(elf: &mut Elf<S>, i: u64) -> Result<Sym, ElfError> {
    sym(elf, SYMBOLS, i)
}

/// Where a symbol lies.
fn place<S: Source>(elf: &mut Elf<S>, i: u64) -> Result<SymPlace, ElfError> {
    symshndx(elf, SYMBOLS, i)
}

/// Puts one symbol in place of all.
fn set_symbol<S: Source>(elf: &mut Elf<S>, symbol: Sym) -> Result<(), ElfError> {
    let symbols = Syms::from_slice(elf.alloc(), &[symbol])?;
    set(elf, SYMBOLS, Items::Sym(symbols))
}

/// Gives symbol 0 an index that is an extended one.
fn extend<S: Source>(elf: &mut Elf<S>) -> Result<(), ElfError> {
    let first = symbol(elf, 0)?;
    set_symbol(
        elf,
        Sym {
            shndx: SHN_XINDEX as u16,
            ..first
        },
    )
}

/// Makes section 1 a table of extended indexes of section 2.
fn set_table<S: Source>(elf: &mut Elf<S>) -> Result<(), ElfError> {
    let header = elf.shdr(ScnId(1))?;
    let table = Shdr {
        stype: SHT_SYMTAB_SHNDX,
        link: 2,
        ..header
    };
    elf.update_shdr(ScnId(1), &table)
}

/// Puts a number in it.
fn set_number<S: Source>(elf: &mut Elf<S>, number: u32) -> Result<(), ElfError> {
    let numbers = Words::from_slice(elf.alloc(), &[number])?;
    set(elf, STRINGS, Items::Word(numbers))
}

/// Symbols are told their sections, also by an extended index.
struct Placed;

/// There is no table of extended indexes, or it is too short.
const NO_INDEX: ElfError = ElfError::NoEntry { index: 0, count: 0 };

impl Question for Placed {
    fn is_answered<S: Source>(&self, rt: &HostRuntime, elf: &mut Elf<S>) -> bool {
        let mut placed = same(rt, &place(elf, 1), &Ok(SymPlace::Special(0xfff1)));
        placed &= same(rt, &extend(elf), &Ok(()));
        placed &= same(rt, &place(elf, 0), &Err(NO_INDEX));
        placed &= same(rt, &set_table(elf), &Ok(()));
        placed &= same(rt, &set_number(elf, 70_000), &Ok(()));
        placed && same(rt, &place(elf, 0), &Ok(SymPlace::Section(70_000)))
    }
}

#[test]
fn symbols_have_sections(rt: HostRuntime) {
    assert!(rt; is_answered(&rt, &Placed));
}

/// Stores symbol 1 with another value, and returns the one that is told then.
fn store<S: Source>(elf: &mut Elf<S>, value: u64) -> Result<Sym, ElfError> {
    let before = symbol(elf, 1)?;
    update_sym(elf, SYMBOLS, 1, &Sym { value, ..before })?;
    symbol(elf, 1)
}

/// How many symbols a piece has.
fn count_of<S: Source>(elf: &Elf<S>, d: DataId) -> Result<u64, ElfError> {
    item_count::<S, Sym>(elf, d)
}

/// The symbols are counted before they are read, and no bytes are; a value that does not fit class
/// 32 is rejected, and one that does is stored.
struct Stored;

/// The refusal of a symbol that does not fit.
const UNFIT: ElfError = ElfError::Unfit {
    part: Part::Piece(2, 0),
    index: 1,
};

/// The symbols of an object, an absolute function of four bytes at a value.
fn function(value: u64) -> Sym {
    Sym {
        name: 1,
        info: 0x12,
        other: 0,
        shndx: 0xfff1,
        value,
        size: 4,
    }
}

impl Question for Stored {
    fn is_answered<S: Source>(&self, rt: &HostRuntime, elf: &mut Elf<S>) -> bool {
        let mut stored = same(rt, &count_of(elf, SYMBOLS), &Ok(2));
        stored &= count_of(elf, STRINGS) == Err(ElfError::WrongKind { held: Kind::Bytes });
        stored &= same(rt, &store(elf, 1 << 32), &Err(UNFIT));
        stored &= same(rt, &symbol(elf, 1), &Ok(function(0x1000)));
        stored && same(rt, &store(elf, 7), &Ok(function(7)))
    }
}

#[test]
fn a_symbol_is_stored(rt: HostRuntime) {
    assert!(rt; is_answered_of(&rt, &Stored, &OBJECT_OF_CLASS_32));
}
