//! Items that are stored, lent, given and added.

use super::{DescriptorStep, Given, Lending, STRINGS_PIECE, SYMBOLS_PIECE};
use elf_descriptor::Elf;
use elf_outside::Source;
use elf_types::{
    Addrs, DIRTY, DataId, Dyn, ElfError, List, Octets, Part, Rel, Rela, ScnId, Sym, Syms,
};
use elf_xlate::Items;
use section_data::Storable;
use std::alloc::Global;
use std::fmt::Debug;
use test_kit_rows::{failed, other, same};

/// The piece that is lent.
const PIECE: DataId = STRINGS_PIECE;

/// A kind of items, which a call of its own lends.
trait Kinded: Debug + Storable + PartialEq {
    /// The list of the piece.
    fn lend<S: Source>(elf: &mut Elf<S>) -> Result<&mut List<Self>, ElfError>;
}

impl Kinded for u16 {
    fn lend<S: Source>(elf: &mut Elf<S>) -> Result<&mut List<u16>, ElfError> {
        elf.halves_mut(PIECE)
    }
}

impl Kinded for u32 {
    fn lend<S: Source>(elf: &mut Elf<S>) -> Result<&mut List<u32>, ElfError> {
        elf.words_mut(PIECE)
    }
}

impl Kinded for u64 {
    fn lend<S: Source>(elf: &mut Elf<S>) -> Result<&mut List<u64>, ElfError> {
        elf.addrs_mut(PIECE)
    }
}

impl Kinded for Sym {
    fn lend<S: Source>(elf: &mut Elf<S>) -> Result<&mut List<Sym>, ElfError> {
        elf.syms_mut(PIECE)
    }
}

impl Kinded for Rel {
    fn lend<S: Source>(elf: &mut Elf<S>) -> Result<&mut List<Rel>, ElfError> {
        elf.rels_mut(PIECE)
    }
}

impl Kinded for Rela {
    fn lend<S: Source>(elf: &mut Elf<S>) -> Result<&mut List<Rela>, ElfError> {
        elf.relas_mut(PIECE)
    }
}

impl Kinded for Dyn {
    fn lend<S: Source>(elf: &mut Elf<S>) -> Result<&mut List<Dyn>, ElfError> {
        elf.dyns_mut(PIECE)
    }
}

/// Appends an item to the list of the piece.
fn append<T: Kinded, S: Source>(elf: &mut Elf<S>, item: T) -> Result<(), ElfError> {
    T::lend(elf)?.push(item)
}

/// Whether the piece alone is marked.
fn is_marked<S: Source>(rt: &HostRuntime, elf: &Elf<S>) -> bool {
    same(rt, &elf.flags(Part::Piece(1, 0)), &Ok(DIRTY))
        && same(rt, &elf.flags(Part::Section(1)), &Ok(0))
}

/// Whether an item is appended to a list that is lent, and another stored in place of the first.
fn is_lent<T: Kinded, S: Source>(
    rt: &HostRuntime,
    elf: &mut Elf<S>,
    appended: T,
    stored: T,
) -> bool {
    let mut stated = same(rt, &append(elf, appended), &Ok(()));
    stated &= same(rt, &elf.update_item(PIECE, 0, stored), &Ok(()));
    stated &= same(rt, &elf.item::<T>(PIECE, 0), &Ok(stored));
    stated &= same(rt, &elf.item::<T>(PIECE, 1), &Ok(appended));
    stated && is_marked(rt, elf)
}

/// Appends a byte.
fn append_byte<S: Source>(elf: &mut Elf<S>, byte: u8) -> Result<(), ElfError> {
    match elf.bytes_mut(PIECE) {
        Ok(bytes) => bytes.push(byte),
        Err(e) => Err(e),
    }
}

/// How many items there are.
fn count<S: Source>(elf: &mut Elf<S>) -> Result<u64, ElfError> {
    match elf.data(PIECE) {
        Ok(items) => Ok(items.count()),
        Err(e) => Err(e),
    }
}

/// Whether a list of a kind is lent.
fn is_lent_as<S: Source>(rt: &HostRuntime, elf: &mut Elf<S>, lending: &Lending) -> bool {
    match lending {
        Lending::Byte(byte) => {
            same(rt, &append_byte(elf, *byte), &Ok(()))
                && same(rt, &count(elf), &Ok(2))
                && is_marked(rt, elf)
        }
        Lending::Half(appended, stored) => is_lent(rt, elf, *appended, *stored),
        Lending::Word(appended, stored) => is_lent(rt, elf, *appended, *stored),
        Lending::Addr(appended, stored) => is_lent(rt, elf, *appended, *stored),
        Lending::Sym(appended, stored) => is_lent(rt, elf, *appended, *stored),
        Lending::Rel(appended, stored) => is_lent(rt, elf, *appended, *stored),
        Lending::Rela(appended, stored) => is_lent(rt, elf, *appended, *stored),
        Lending::Dyn(appended, stored) => is_lent(rt, elf, *appended, *stored),
    }
}

/// Adds a number to the values of the symbols that are lent, and returns how many there are.
fn add_to_values<S: Source>(elf: &mut Elf<S>, more: u64) -> Result<u64, ElfError> {
    let symbols = elf.syms_mut(SYMBOLS_PIECE)?;
    for symbol in symbols.as_mut_slice().iter_mut() {
        symbol.value = symbol.value.wrapping_add(more);
    }
    Ok(symbols.len())
}

/// Adds 1 to each byte of the strings, which are lent, and returns how many there are.
fn add_to_bytes<S: Source>(elf: &mut Elf<S>) -> Result<u64, ElfError> {
    let bytes = elf.bytes_mut(STRINGS_PIECE)?;
    for byte in bytes.as_mut_slice().iter_mut() {
        *byte = byte.wrapping_add(1);
    }
    Ok(bytes.len())
}

/// The items that are given.
fn items_of(alloc: Global, given: &Given) -> Result<Items, ElfError> {
    match given {
        Given::Bytes(l) => Ok(Items::Bytes(Octets::from_slice(alloc, l)?)),
        Given::Addrs(l) => Ok(Items::Addr(Addrs::from_slice(alloc, l)?)),
        Given::Syms(l) => Ok(Items::Sym(Syms::from_slice(alloc, l)?)),
    }
}

/// How many there are.
fn count_of(given: &Given) -> u64 {
    match given {
        Given::Bytes(l) => l.len() as u64,
        Given::Addrs(l) => l.len() as u64,
        Given::Syms(l) => l.len() as u64,
    }
}

/// Whether a result is the one that is told; what is rejected came back, so many items.
fn is_answer<T: Debug + PartialEq + Drop>(
    rt: &HostRuntime,
    answer: Result<T, (Items, ElfError)>,
    count: u64,
    told: &Result<T, ElfError>,
) -> bool {
    match (answer, told) {
        (Ok(done), Ok(wanted)) => same(rt, &done, wanted),
        (Err((items, e)), Err(wanted)) => same(rt, &e, wanted) && same(rt, &items.count(), &count),
        (Ok(_done), Err(wanted)) => other(rt, wanted, "that in place of an answer"),
        (Err((_items, e)), Ok(_)) => failed(rt, e),
    }
}

/// Whether a piece takes the items that are given, or rejects them so.
fn is_replaced<S: Source>(
    rt: &HostRuntime,
    elf: &mut Elf<S>,
    d: DataId,
    given: &Given,
    told: &Result<(), ElfError>,
) -> bool {
    match items_of(elf.alloc(), given) {
        Ok(items) => is_answer(rt, elf.replace(d, items), count_of(given), told),
        Err(e) => failed(rt, e),
    }
}

/// Adds a piece to a section, with an alignment or without.
fn add<S: Source>(
    elf: &mut Elf<S>,
    s: ScnId,
    align: Option<u64>,
    items: Items,
) -> Result<DataId, (Items, ElfError)> {
    match align {
        Some(align) => elf.newdata_aligned(s, items, align),
        None => elf.newdata(s, items),
    }
}

/// Whether a section takes the items that are given as a piece, or rejects them so.
fn is_added<S: Source>(
    rt: &HostRuntime,
    elf: &mut Elf<S>,
    s: ScnId,
    align: Option<u64>,
    given: &Given,
    told: &Result<DataId, ElfError>,
) -> bool {
    match items_of(elf.alloc(), given) {
        Ok(items) => is_answer(rt, add(elf, s, align, items), count_of(given), told),
        Err(e) => failed(rt, e),
    }
}

/// Whether so many pieces without bytes are added to a section.
fn are_added<S: Source>(rt: &HostRuntime, elf: &mut Elf<S>, s: ScnId, count: u64) -> bool {
    for _ in 0..count {
        let none = Items::Bytes(Octets::new(elf.alloc()));
        if elf.newdata(s, none).is_err() {
            return false;
        }
    }
    true
}

/// Whether a step that changes items, or adds some, is answered so.
pub fn is_changed<S: Source>(rt: &HostRuntime, elf: &mut Elf<S>, step: &DescriptorStep) -> bool {
    match step {
        DescriptorStep::StoreSymbol(d, i, symbol, told) => same(
            rt,
            &elf.update_item(*d, *i, *symbol),
            told,
        ),
        DescriptorStep::AddToValues(more, told) => same(rt, &add_to_values(elf, *more), told),
        DescriptorStep::AddToBytes(told) => same(rt, &add_to_bytes(elf), told),
        DescriptorStep::Replace(d, given, told) => is_replaced(rt, elf, *d, given, told),
        DescriptorStep::Add(s, align, given, told) => is_added(
            rt,
            elf,
            ScnId(*s),
            *align,
            given,
            told,
        ),
        DescriptorStep::EmptyPieces(s, count) => are_added(rt, elf, ScnId(*s), *count),
        DescriptorStep::Lent(lending) => is_lent_as(rt, elf, lending),
        _ => false,
    }
}
