//! Some rows of a table, read from the base.

ghost use Rattle.std.specs.Prelude.{◌≡◌, ◌+◌, ◌*◌, ◌^◌, ◌<◌, ◌≤◌, ◌⊎◌, min, length, take, drop, IsTrue, IfOk, IfErr};
ghost use Rattle.elf_types.specs.declared.records.Kind.TheVariants as kinds;
ghost use Rattle.elf_types.specs.declared.errors.ElfError.TheVariants.{Memory, Read};
ghost use Rattle.elf_outside.specs.Asks.{Asks};
ghost use Rattle.elf_xlate.specs.Items.{item_size};
ghost use Rattle.elf_xlate.specs.Translation.{between};
ghost use Rattle.rebuild_image.specs.elf_object.Answers.{words_of, syms_of};
ghost use Rattle.rebuild_keep.specs.Homes.{decoded_items};
ghost use Rattle.rebuild_keep.specs.Makes.{AsksFor, SymsFit};
ghost use Rattle.rebuild_tables.specs.Rows.{LieInBase, items_within, syms_in_base, words_in_base};

use crate::rows::{FollowedRows, TableAt};
use elf_outside::Source;
use elf_types::{Class, ElfError, Kind, List, Octets, Order, Syms, Words};
use elf_xlate::{Items, item_size, to_memory};
use rebuild_keep::prelude::Elf;
use std::alloc::Global;

/// So many bytes of the base, from a place on. It fails with `Memory`, before it reads, and `Read`.
/// It loads no section.
fn read_base<S: Source>(elf: &mut Elf<S>, at: u64, len: u64) -> Result<Octets, ElfError>
    requires { at + len ≤ length elf.old.o.base }
    ensures bytes { IsTrue elf.old.told
        → IfOk result (λ octets. octets ≡ take len (drop at elf.old.o.base)) }
    ensures asks { Asks S.Source result elf.old.source elf.new.source len }
    ensures stays { elf.new ≡ record elf.old { source = elf.new.source } }
    ensures err { IfErr result (λ e. (e ≡ Memory) ⊎ (e ≡ Read)) }
{
    let mut bytes = vec![in elf.alloc(); 0u8; len as usize]?;
    elf.copy_base(at, bytes.as_mut_slice())?;
    Ok(Octets::from_vec(bytes))
}

/// The place and the number of the bytes of the items of a size from one on and before another
/// one, as many as there are.
fn rows_extent(t: TableAt, size: u64, from: u64, to: u64) -> (u64, u64)
    requires order { from ≤ to }
    requires small { t.at + t.count * size < 2 ^ 64 }
    ensures at { result.0 ≡ t.at + min from t.count * size }
    ensures len { result.1 ≡ items_within t from to * size }
    ensures inside { result.0 + result.1 ≤ t.at + t.count * size }
{
    let first = from.min(t.count);
    let count = to.min(t.count) - first;
    (t.at + first * size, count * size)
}

/// The bytes of the items of a size from one on and before another one, as many as there are. It
/// fails with `Memory`, before it reads, and `Read`.
fn read_rows<S: Source>(
    elf: &mut Elf<S>,
    t: TableAt,
    size: u64,
    from: u64,
    to: u64,
) -> Result<Octets, ElfError>
    requires inside { LieInBase size elf.old.o.base t }
    requires order { from ≤ to }
    ensures bytes { IsTrue elf.old.told → IfOk result (λ octets. octets
        ≡ take (items_within t from to * size)
        (drop (t.at + min from t.count * size) elf.old.o.base)) }
    ensures asks { AsksFor S.Source result elf.old elf.new (items_within t from to * size) }
    ensures err { IfErr result (λ e. (e ≡ Memory) ⊎ (e ≡ Read)) }
{
    let _len = elf.base_len();
    let (at, len) = rows_extent(t, size, from, to);
    read_base(elf, at, len)
}

/// The words among items, and none among those of another kind.
fn words_among(alloc: Global, items: Items) -> Words
    ensures { result ≡ words_of items }
{
    match items {
        Items::Word(words) => words,
        _ => List::new(alloc),
    }
}

/// The symbols among items, and none among those of another kind.
fn syms_among(alloc: Global, items: Items) -> Syms
    ensures { result ≡ syms_of items }
{
    match items {
        Items::Sym(syms) => syms,
        _ => List::new(alloc),
    }
}

/// The words that bytes hold. It fails with `Memory` alone, also for bytes that are no whole words.
fn words_from(alloc: Global, class: Class, order: Order, bytes: &[u8]) -> Result<Words, ElfError>
    ensures ok { IfOk result
        (λ l. l ≡ words_of (decoded_items kinds.Word class order bytes.now)) }
    ensures err { IfErr result (λ e. e ≡ Memory) }
{
    match to_memory(alloc, Kind::Word, class, order, bytes) {
        Ok(items) => Ok(words_among(alloc, items)),
        Err(_) => Err(ElfError::Memory),
    }
}

/// The symbols that bytes hold. It fails with `Memory` alone, also for bytes that are no whole
/// symbols.
fn syms_from(alloc: Global, class: Class, order: Order, bytes: &[u8]) -> Result<Syms, ElfError>
    ensures ok { IfOk result
        (λ l. l ≡ syms_of (decoded_items kinds.Sym class order bytes.now)) }
    ensures fits { IfOk result (SymsFit class) }
    ensures err { IfErr result (λ e. e ≡ Memory) }
{
    match to_memory(alloc, Kind::Sym, class, order, bytes) {
        Ok(items) => Ok(syms_among(alloc, items)),
        Err(_) => Err(ElfError::Memory),
    }
}

/// The words of the rows from one on and before another one, as many as there are. It fails with
/// `Memory` and `Read`, and loads no section.
///
/// Source: gABI chapter 4, SHT_SYMTAB_SHNDX.
pub(crate) fn read_words<S: Source>(
    elf: &mut Elf<S>,
    x: FollowedRows,
    from: u64,
    to: u64,
) -> Result<Words, ElfError>
    requires inside { LieInBase (item_size kinds.Word x.class) elf.old.o.base x.words }
    requires order { from ≤ to }
    ensures told { IsTrue elf.old.told
        → IfOk result (λ l. l ≡ between from to (words_in_base elf.old.o.base x)) }
    ensures asks { AsksFor S.Source result elf.old elf.new
        (items_within x.words from to * item_size kinds.Word x.class) }
    ensures err { IfErr result (λ e. (e ≡ Memory) ⊎ (e ≡ Read)) }
{
    let alloc = elf.alloc();
    match read_rows(elf, x.words, item_size(Kind::Word, x.class), from, to) {
        Ok(bytes) => words_from(alloc, x.class, x.order, bytes.as_slice()),
        Err(e) => Err(e),
    }
}

/// The symbols of the rows from one on and before another one, as many as there are. It fails with
/// `Memory` and `Read`, and loads no section.
///
/// Source: gABI chapter 4, "Symbol Table".
pub(crate) fn read_syms<S: Source>(
    elf: &mut Elf<S>,
    x: FollowedRows,
    from: u64,
    to: u64,
) -> Result<Syms, ElfError>
    requires inside { LieInBase (item_size kinds.Sym x.class) elf.old.o.base x.syms }
    requires order { from ≤ to }
    ensures told { IsTrue elf.old.told
        → IfOk result (λ l. l ≡ between from to (syms_in_base elf.old.o.base x)) }
    ensures fits { IfOk result (SymsFit x.class) }
    ensures asks { AsksFor S.Source result elf.old elf.new
        (items_within x.syms from to * item_size kinds.Sym x.class) }
    ensures err { IfErr result (λ e. (e ≡ Memory) ⊎ (e ≡ Read)) }
{
    let alloc = elf.alloc();
    match read_rows(elf, x.syms, item_size(Kind::Sym, x.class), from, to) {
        Ok(bytes) => syms_from(alloc, x.class, x.order, bytes.as_slice()),
        Err(e) => Err(e),
    }
}
