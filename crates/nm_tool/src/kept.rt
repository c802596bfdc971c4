//! The symbols that are wanted whatever their names. They are told from the bytes of their table,
//! where these are in memory and it has no extended indexes, and else by calls on the descriptor.

ghost use Rattle.std.specs.Prelude.{◌≡◌, ◌-◌, ◌++◌, ◌∷◌, ◌<◌, ◌≤◌, ◌^◌, ℕ, [], None, Some, slice_get, OnOk, IfOk, IfErr};
ghost use Rattle.std.specs.Option.{option_copied};
ghost use Rattle.elf_types.specs.declared.errors.ElfError.TheVariants.{Memory};
ghost use Rattle.elf_types.specs.declared.records.Kind.TheVariants as kinds;
ghost use Rattle.elf_object.specs.Object.{Object};
ghost use Rattle.elf_object.specs.SymbolSections.{shndx_table};
ghost use Rattle.tool_objects.specs.Steps.{Learns};
ghost use Rattle.tool_objects.specs.AtHand.Items.{AreWhole};
ghost use Rattle.nm_tool.specs.Kept.{kept_symbol};
ghost use Rattle.nm_tool.specs.Kept as kept;
ghost use Rattle.nm_tool.specs.Listed.{name_or_none, symbols_in_table as stated_symbols};
ghost use Rattle.nm_tool.specs.Tables.{AreTables, ArePlainSymbols};

use crate::listed::{is_plain_wanted, wanted_at};
use crate::options::NmOptions;
use crate::symbols::{Tables, symbol_bytes};
use elf_outside::Source;
use elf_types::{ElfError, List, Sym};
use std::alloc::Global;
use tool_objects::at_hand::{ItemBytes, item_of, load};
use tool_objects::prelude::Elf;
use tool_output::Stop;

/// A symbol that is wanted whatever its name.
#[derive(Clone, Copy, PartialEq, Eq, PartialOrd, Ord)]
pub struct Kept {
    /// Its value; of one that is sorted by name, eight bytes of that as a number.
    pub key: u64,
    /// Its index.
    pub index: u32,
    /// Where its name is in the strings, `st_name`.
    pub name: u32,
}

/// Kept symbols and one more, by its index; it stops where there is no memory.
fn push_kept(mut list: List<Kept>, x: Sym, i: u64) -> Result<List<Kept>, Stop>
    requires { i < 2 ^ 32 }
    ensures ok { IfOk result (λ l. l ≡ list ++ kept_symbol x i ∷ []) }
    ensures err { IfErr result (λ stop. stop ≡ Stop.Memory) }
{
    let one = Kept {
        key: x.value,
        index: i as u32,
        name: x.name,
    };
    match list.push(one) {
        Ok(()) => Ok(list),
        Err(e) => Err(Stop::want_of(e)),
    }
}

/// Kept symbols with symbol `i`, where it is wanted.
#[tactic(auto, unfolding(crate::specs::Kept::with_kept))]
fn with_kept<S: Source>(
    elf: &mut Elf<S>,
    t: Tables,
    options: &NmOptions,
    list: List<Kept>,
    i: u64,
) -> Result<List<Kept>, Stop>
    requires tables { AreTables elf.old.o t }
    requires small { i < 2 ^ 32 }
    ensures { Learns S.Source (λ o. kept.with_kept options.now o t.symbols.0 list i)
        result elf.old elf.new }
{
    match wanted_at(elf, t, options, i) {
        Ok(Some(x)) => push_kept(list, x, i),
        Ok(None) => Ok(list),
        Err(stop) => Err(stop),
    }
}

/// The symbols that are wanted whatever their names, of a table that has `count` symbols, each by
/// calls on the descriptor. It stops as `kept_of` does.
fn kept_by_calls<S: Source>(
    alloc: Global,
    elf: &mut Elf<S>,
    t: Tables,
    options: &NmOptions,
    count: u64,
) -> Result<List<Kept>, Stop>
    requires tables { AreTables elf.old.o t }
    requires few { count ≤ 2 ^ 32 }
    ensures { Learns S.Source (λ o. kept.kept_of options.now o t.symbols.0 (count - 1))
        result elf.old elf.new }
{
    let mut list = List::new(alloc);
    for i in 1..count {
        list = with_kept(elf, t, options, list, i)?;
    }
    Ok(list)
}

/// Appends a symbol by its index. It fails with `Memory` alone.
#[inline(always)]
fn push_one(list: &mut List<Kept>, x: Sym, i: u64) -> Result<(), ElfError>
    requires { i < 2 ^ 32 }
    ensures ok { OnOk result (list.new ≡ list.old ++ kept_symbol x i ∷ []) }
    ensures err { IfErr result (λ e. e ≡ Memory) }
{
    list.push(Kept {
        key: x.value,
        index: i as u32,
        name: x.name,
    })
}

/// Appends symbol `i` of a table without extended indexes, where it is wanted. It fails with
/// `Memory` alone.
#[inline(always)]
fn push_wanted(list: &mut List<Kept>, options: &NmOptions, x: Sym, i: u64) -> Result<(), ElfError>
    requires { i < 2 ^ 32 }
    ensures ok { OnOk result ((o : Object) (s : ℕ) → None ≡ shndx_table o s
        → slice_get (stated_symbols o s) i ≡ Some x
        → list.new ≡ kept.with_kept options.now o s list.old i) }
    ensures err { IfErr result (λ e. e ≡ Memory) }
{
    if is_plain_wanted(options, &x) {
        return push_one(list, x, i);
    }
    Ok(())
}

/// Appends symbol `i` of those that bytes hold, where it is there and wanted. It fails with
/// `Memory` alone.
#[inline(always)]
fn push_at(
    list: &mut List<Kept>,
    options: &NmOptions,
    symbols: ItemBytes<'_>,
    i: u64,
) -> Result<(), ElfError>
    requires whole { AreWhole kinds.Sym symbols }
    requires small { i < 2 ^ 32 }
    ensures ok { OnOk result ((o : Object) (s : ℕ) → ArePlainSymbols o s symbols.entry
        → list.new ≡ kept.with_kept options.now o s list.old i) }
    ensures err { IfErr result (λ e. e ≡ Memory) }
{
    match item_of::<Sym>(symbols.bytes, i, symbols.class, symbols.order) {
        Some(x) => push_wanted(list, options, x, i),
        None => Ok(()),
    }
}

/// The symbols that are wanted whatever their names, of so many that bytes hold, of a table without
/// extended indexes. It fails with `Memory` alone.
fn kept_in(
    alloc: Global,
    symbols: ItemBytes<'_>,
    options: &NmOptions,
    count: u64,
) -> Result<List<Kept>, ElfError>
    requires whole { AreWhole kinds.Sym symbols }
    requires few { count ≤ 2 ^ 32 }
    ensures ok { IfOk result (λ l. (o : Object) (s : ℕ) → ArePlainSymbols o s symbols.entry
        → l ≡ kept.kept_of options.now o s (count - 1)) }
    ensures err { IfErr result (λ e. e ≡ Memory) }
{
    let mut list = List::with_capacity(alloc, count)?;
    for i in 1..count {
        push_at(&mut list, options, symbols, i)?;
    }
    Ok(list)
}

/// The symbols that are wanted whatever their names, as `kept_in` tells them; it stops where there
/// is no memory.
pub fn kept_at_hand(
    alloc: Global,
    symbols: ItemBytes<'_>,
    options: &NmOptions,
    count: u64,
) -> Result<List<Kept>, Stop>
    requires whole { AreWhole kinds.Sym symbols }
    requires few { count ≤ 2 ^ 32 }
    ensures ok { IfOk result (λ l. (o : Object) (s : ℕ) → ArePlainSymbols o s symbols.entry
        → l ≡ kept.kept_of options.now o s (count - 1)) }
    ensures err { IfErr result (λ stop. stop ≡ Stop.Memory) }
{
    match kept_in(alloc, symbols, options, count) {
        Ok(list) => Ok(list),
        Err(e) => Err(Stop::want_of(e)),
    }
}

/// The symbols that are wanted whatever their names, of a table that was read and has `count`
/// symbols.
fn kept_loaded<S: Source>(
    alloc: Global,
    elf: &mut Elf<S>,
    t: Tables,
    options: &NmOptions,
    count: u64,
) -> Result<List<Kept>, Stop>
    requires tables { AreTables elf.old.o t }
    requires few { count ≤ 2 ^ 32 }
    ensures { Learns S.Source (λ o. kept.kept_of options.now o t.symbols.0 (count - 1))
        result elf.old elf.new }
{
    match symbol_bytes(elf, t) {
        Some(symbols) => kept_at_hand(alloc, symbols, options, count),
        None => kept_by_calls(alloc, elf, t, options, count),
    }
}

/// The symbols that are wanted whatever their names, of a table that has `count` symbols; where it
/// has none but symbol 0, nothing is read. It stops by `Read` where a read of the source failed,
/// and by `Memory`.
pub fn kept_of<S: Source>(
    alloc: Global,
    elf: &mut Elf<S>,
    t: Tables,
    options: &NmOptions,
    count: u64,
) -> Result<List<Kept>, Stop>
    requires tables { AreTables elf.old.o t }
    requires few { count ≤ 2 ^ 32 }
    ensures { Learns S.Source (λ o. kept.kept_of options.now o t.symbols.0 (count - 1))
        result elf.old elf.new }
{
    if count < 2 {
        return Ok(List::new(alloc));
    }
    match load(elf, t.symbols) {
        Ok(()) => kept_loaded(alloc, elf, t, options, count),
        Err(stop) => Err(stop),
    }
}

/// A name as it is shown.
pub fn name_or_none<'a>(name: Option<&'a [u8]>) -> &'a [u8]
    ensures { result.now ≡ name_or_none (option_copied name.entry) }
{
    match name {
        Some(name) => name,
        None => b"<none>",
    }
}
