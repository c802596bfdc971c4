//! Whether what is made of a section is made of rows in the base, and of which.

ghost use Rattle.std.specs.Prelude.{◌≡◌, ◌<◌, ◌+◌, ◌*◌, ◌≤◌, true, false, length, slice_index, IfSome, IsTrue};
ghost use Rattle.elf_types.specs.declared.records.Kind.TheVariants as kinds;
ghost use Rattle.rebuild_image.specs.elf_object.Object.{is_dirty};
ghost use Rattle.rebuild_image.specs.elf_object.Valid.{IsObject, IsTied};
ghost use Rattle.rebuild_keep.specs.Homes.{is_there};
ghost use Rattle.rebuild_keep.specs.Keepers.{makes_by};
ghost use Rattle.rebuild_tables.specs.Finding.{HoldsKind, IsTableAt, AreItemsAt, AreWordsAt, AreSymbolRows, AreIndexRows, AreRowsOf};

use crate::homes::{extent, is_home_out};
use crate::rows::{FollowedRows, TableAt};
use elf_outside::Source;
use elf_types::{DataId, Kind, ScnId, Words};
use elf_xlate::item_size;
use rebuild_keep::Keeper;
use rebuild_keep::prelude::{Elf, is_group, is_symbol_table};

/// The number at an index, and 0 where there is none.
fn noted_at(numbers: &Words, i: u32) -> u32
    ensures { result ≡ slice_index numbers.now i }
{
    numbers.get(u64::from(i)).unwrap_or(0)
}

/// The kind of the first piece of a section, or None where it has none.
fn first_kind<S: Source>(elf: &Elf<S>, s: ScnId) -> Option<Kind>
    ensures { IfSome result (HoldsKind elf.now.o s.0) }
{
    let first = DataId {
        section: s.0,
        piece: 0,
    };
    match elf.piece_kind(first) {
        Ok(kind) => Some(kind),
        Err(_) => None,
    }
}

/// Whether a kind is that of symbols.
fn is_of_syms(kind: Kind) -> bool
    ensures { result ≡ true → kind ≡ kinds.Sym }
{
    matches!(kind, Kind::Sym)
}

/// Whether a kind is that of words.
fn is_of_words(kind: Kind) -> bool
    ensures { result ≡ true → kind ≡ kinds.Word }
{
    matches!(kind, Kind::Word)
}

/// Whether the first piece of a section is there and holds symbols.
fn holds_syms<S: Source>(elf: &Elf<S>, s: ScnId) -> bool
    ensures { result ≡ true → HoldsKind elf.now.o s.0 kinds.Sym }
{
    match first_kind(elf, s) {
        Some(kind) => is_of_syms(kind),
        None => false,
    }
}

/// Whether the first piece of a section is there and holds words.
fn holds_words<S: Source>(elf: &Elf<S>, s: ScnId) -> bool
    ensures { result ≡ true → HoldsKind elf.now.o s.0 kinds.Word }
{
    match first_kind(elf, s) {
        Some(kind) => is_of_words(kind),
        None => false,
    }
}

/// Whether so many bytes from a place on end within so many.
fn lie_within(at: u64, len: u64, base: u64) -> bool
    ensures { result ≡ true → at + len ≤ base }
{
    at <= base && len <= base - at
}

/// So many bytes from a place on as items of a size; None where they are no whole items.
fn whole_table(at: u64, len: u64, size: u64) -> Option<TableAt>
    requires { 0 < size }
    ensures { IfSome result (λ t. (t.at ≡ at) × (t.count * size ≡ len)) }
{
    if len % size != 0 {
        return None;
    }
    Some(TableAt {
        at,
        count: len / size,
    })
}

/// The home of a section that is there as items of a size; None where it does not lie in the base,
/// or is no whole items.
fn find_table<S: Source>(elf: &Elf<S>, s: ScnId, size: u64) -> Option<TableAt>
    requires there { s.0 < length elf.now.o.sections }
    requires some { 0 < size }
    ensures { IfSome result (IsTableAt elf.now.o s.0 size) }
{
    if is_home_out(elf, s) {
        return None;
    }
    let (at, len) = extent(elf, s);
    if !lie_within(at, len, elf.base_len()) {
        return None;
    }
    whole_table(at, len, size)
}

/// The home of a section that is there as symbols; None where it does not lie in the base, is no
/// whole symbols, or is not what the first piece holds.
fn find_syms<S: Source>(elf: &Elf<S>, s: ScnId) -> Option<TableAt>
    requires { s.0 < length elf.now.o.sections }
    ensures { IfSome result (AreItemsAt elf.now.o s.0 kinds.Sym) }
{
    if !holds_syms(elf, s) {
        return None;
    }
    let header = elf.ehdr();
    find_table(elf, s, item_size(Kind::Sym, header.class))
}

/// The home of a section that is there as words; None where it does not lie in the base, is no
/// whole words, or is not what the first piece holds.
fn find_words<S: Source>(elf: &Elf<S>, s: ScnId) -> Option<TableAt>
    requires { s.0 < length elf.now.o.sections }
    ensures { IfSome result (AreItemsAt elf.now.o s.0 kinds.Word) }
{
    if !holds_words(elf, s) {
        return None;
    }
    let header = elf.ehdr();
    find_table(elf, s, item_size(Kind::Word, header.class))
}

/// Whether a number is neither 0 nor past that of the last section.
fn is_there<S: Source>(elf: &Elf<S>, s: u32) -> bool
    ensures { result ≡ is_there elf.now.o s }
{
    s != 0 && s < elf.shnum()
}

/// The home of the section with a number as words, and no words where the number is not that of a
/// section from 1 on; None as of `find_words`.
fn find_words_if<S: Source>(elf: &Elf<S>, s: u32) -> Option<TableAt>
    ensures { IfSome result (AreWordsAt elf.now.o s) }
{
    if is_there(elf, s) {
        return find_words(elf, ScnId(s));
    }
    Some(TableAt { at: 0, count: 0 })
}

/// The rows of a section that is there, of which the symbols are made; None where it has no
/// symbols in the base, or the section that is noted for it no words.
fn symbol_rows<S: Source>(keeper: &Keeper<'_>, elf: &Elf<S>, s: ScnId) -> Option<FollowedRows>
    requires { s.0 < length elf.now.o.sections }
    ensures { IfSome result (AreSymbolRows keeper.now elf.now.o s.0) }
{
    let header = elf.ehdr();
    let words = match find_words_if(elf, noted_at(&keeper.tables, s.0)) {
        Some(words) => words,
        None => return None,
    };
    match find_syms(elf, s) {
        Some(syms) => Some(FollowedRows {
            class: header.class,
            order: header.order,
            indexes: false,
            syms,
            words,
        }),
        None => None,
    }
}

/// The rows of a section that is there, of which the extended indexes are made; None where it has
/// no words in the base, or the section to which it links no symbols.
fn index_rows<S: Source>(elf: &Elf<S>, s: ScnId, link: u32) -> Option<FollowedRows>
    requires { s.0 < length elf.now.o.sections }
    ensures { IfSome result (AreIndexRows elf.now.o s.0 link) }
{
    if !is_there(elf, link) {
        return None;
    }
    let header = elf.ehdr();
    let syms = match find_syms(elf, ScnId(link)) {
        Some(syms) => syms,
        None => return None,
    };
    match find_words(elf, s) {
        Some(words) => Some(FollowedRows {
            class: header.class,
            order: header.order,
            indexes: true,
            syms,
            words,
        }),
        None => None,
    }
}

/// The rows of which is made what a section that is there has in the new image; None where that is
/// made of something else, as a group and the names are, or of items that do not lie in the base as
/// they are to. It reads nothing and takes no memory.
///
/// Source: gABI chapter 4, "Symbol Table", st_shndx, and SHT_SYMTAB_SHNDX.
pub fn find_rows<S: Source>(keeper: &Keeper<'_>, elf: &Elf<S>, s: ScnId) -> Option<FollowedRows>
    requires there { s.0 < length elf.now.o.sections }
    requires object { IsObject elf.now.o }
    requires clean { is_dirty elf.now.o ≡ false }
    requires tied { IsTrue elf.now.told → IsTied elf.now.o }
    requires makes { makes_by keeper.now elf.now.o s.0 ≡ true }
    ensures { IfSome result (AreRowsOf keeper.now elf.now.told elf.now.o s.0) }
{
    if s.0 == elf.shstrndx() {
        return None;
    }
    let h = elf.section_header(s);
    if is_symbol_table(&h) {
        return symbol_rows(keeper, elf, s);
    }
    if is_group(&h) {
        return None;
    }
    index_rows(elf, s, h.link)
}
