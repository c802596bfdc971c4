//! The rows of a table of symbols whose bytes are in memory, as are those of its strings: they were
//! read, and nothing in them was edited. Where the table has no extended indexes, each row is told
//! from these bytes alone.

ghost use Rattle.std.specs.Prelude.{◌≡◌, ◌≤◌, ◌<◌, length, drop, IfSome};
ghost use Rattle.std.specs.Option.{option_copied};
ghost use Rattle.elf_types.specs.declared.records.Kind.TheVariants as kinds;
ghost use Rattle.tool_output.specs.Lines.{numbered_lines};
ghost use Rattle.tool_output.specs.Reports.{Reports, shown_report};
ghost use Rattle.tool_output.specs.Steps.{LeavesOutputs};
ghost use Rattle.tool_objects.specs.AtHand.Items.{AreWhole};
ghost use Rattle.readelf_tables.specs.RowsOfSymbols.SymbolLines.{symbol_line};
ghost use Rattle.readelf_tables.specs.RowsOfSymbols.SymbolBytes.{plain_place, bytes_row, symbols_of_bytes, symbol_rows, AreSymbolBytes};

use crate::rows_of_symbols::symbol_lines::{SymbolLine, write_line};
use elf_outside::{Sink, Source};
use elf_types::Sym;
use elf_types::constants::{SHN_LORESERVE, SHN_XINDEX};
use readelf_rows::{ItemTable, WrittenRows};
use tool_objects::at_hand::{
    ItemBytes, item_of, items_at_hand, most_items, string_bytes, table_string_from,
};
use tool_objects::prelude::{Elf, SymPlace};
use tool_output::{Outputs, Stop};

/// How many rows are written before they are shown.
const BLOCK: u64 = 16;

/// Rows are shown one by one where so many bytes are no room for a block of them.
const ROWS: usize = 8192;

/// The bytes of a table of symbols and of the strings in which their names are.
#[derive(Clone, Copy)]
pub struct SymbolBytes<'a> {
    /// The symbols.
    pub symbols: ItemBytes<'a>,
    /// The bytes of the strings.
    pub strings: &'a [u8],
}

/// The bytes of a table of symbols and of their names, where both are in memory and the table has
/// no extended indexes. Nothing is read.
pub fn symbols_at_hand<S: Source>(elf: &Elf<S>, table: ItemTable) -> Option<SymbolBytes<'_>>
    ensures { IfSome result (λ t. AreSymbolBytes elf.now table t) }
{
    match table.links.indexes {
        Some(_) => None,
        None => {
            let symbols = items_at_hand::<S, Sym>(elf, table.section)?;
            let strings = string_bytes(elf, table.links.linked)?;
            Some(SymbolBytes { symbols, strings })
        }
    }
}

/// The section of a symbol by its index alone, or None where that is an extended one.
#[tactic(auto, unfolding(crate::specs::RowsOfSymbols::SymbolBytes::plain_place))]
#[inline(always)]
fn plain_place(shndx: u16) -> Option<SymPlace>
    ensures { result ≡ plain_place shndx }
{
    let index = u32::from(shndx);
    if index < SHN_LORESERVE {
        return Some(SymPlace::Section(index));
    }
    if index == SHN_XINDEX {
        return None;
    }
    Some(SymPlace::Special(shndx))
}

/// The line of a symbol, by the bytes of the strings in which its name is.
#[inline(always)]
fn line_of(strings: &[u8], index: u64, symbol: Sym) -> SymbolLine<'_>
    ensures { symbol_line result.index result.symbol result.place (option_copied result.name)
        ≡ bytes_row strings.now index symbol }
{
    SymbolLine {
        index,
        symbol,
        place: plain_place(symbol.shndx),
        name: table_string_from(strings, symbol.name),
    }
}

/// Where the block that begins at a row ends.
fn next_block(from: u64, count: u64) -> u64
    requires { from < count }
    ensures later { from < result }
    ensures within { result ≤ count }
{
    if count - from < BLOCK {
        return count;
    }
    from + BLOCK
}

/// Writes the rows of symbols of a range before the end of a buffer, the last one first, and tells
/// where they begin; None where there may be no room for all.
fn write_rows(table: &SymbolBytes<'_>, from: u64, to: u64, buffer: &mut [u8]) -> Option<usize>
    requires whole { AreWhole kinds.Sym table.now.symbols }
    requires order { from ≤ to }
    ensures inside { IfSome result (λ at. at ≤ length buffer.new) }
    ensures wrote { IfSome result (λ at. drop at buffer.new ≡ symbol_rows table.now from to) }
{
    let items = table.symbols;
    let mut at = buffer.len();
    let mut i = to;
    while i > from {
        i -= 1;
        let symbol = item_of::<Sym>(items.bytes, i, items.class, items.order)?;
        let line = line_of(table.strings, i, symbol);
        at = write_line(buffer, at, &line)?;
    }
    Some(at)
}

/// Shows the rows of symbols of a range one by one.
fn show_one_by_one<O: Sink, E: Sink>(
    table: &SymbolBytes<'_>,
    from: u64,
    to: u64,
    outputs: &mut Outputs<'_, O, E>,
) -> Result<bool, Stop>
    requires { AreWhole kinds.Sym table.now.symbols }
    ensures reports { Reports O.Sink E.Sink result outputs.old outputs.new
        (shown_report (symbol_rows table.now from to)) }
    ensures leaves { LeavesOutputs O.Sink E.Sink ⊥ result outputs.old outputs.new }
{
    let items = table.symbols;
    for i in from..to {
        let symbol = match item_of::<Sym>(items.bytes, i, items.class, items.order) {
            Some(symbol) => symbol,
            None => return Ok(false),
        };
        let line = line_of(table.strings, i, symbol);
        outputs.show(&line)?;
    }
    Ok(false)
}

/// Shows the rows of symbols of a range: at once where a buffer has room for all.
fn show_range<O: Sink, E: Sink>(
    table: &SymbolBytes<'_>,
    from: u64,
    to: u64,
    buffer: &mut [u8],
    outputs: &mut Outputs<'_, O, E>,
) -> Result<bool, Stop>
    requires whole { AreWhole kinds.Sym table.now.symbols }
    requires order { from ≤ to }
    ensures reports { Reports O.Sink E.Sink result outputs.old outputs.new
        (shown_report (symbol_rows table.now from to)) }
    ensures leaves { LeavesOutputs O.Sink E.Sink ⊥ result outputs.old outputs.new }
{
    match write_rows(table, from, to, buffer) {
        Some(at) => outputs.show(&WrittenRows {
            bytes: &buffer[at..],
        }),
        None => show_one_by_one(table, from, to, outputs),
    }
}

/// Shows the rows of a table, a block at a time by a buffer.
fn show_blocks<O: Sink, E: Sink>(
    table: &SymbolBytes<'_>,
    buffer: &mut [u8],
    outputs: &mut Outputs<'_, O, E>,
) -> Result<bool, Stop>
    requires { AreWhole kinds.Sym table.now.symbols }
    ensures reports { Reports O.Sink E.Sink result outputs.old outputs.new
        (shown_report (numbered_lines (bytes_row table.now.strings.now) 0
        (symbols_of_bytes table.now))) }
    ensures leaves { LeavesOutputs O.Sink E.Sink ⊥ result outputs.old outputs.new }
{
    let items = table.symbols;
    let count = most_items::<Sym>(items.bytes, items.class, items.order);
    let mut from = 0;
    while from < count {
        let to = next_block(from, count);
        show_range(table, from, to, buffer, outputs)?;
        from = to;
    }
    Ok(false)
}

/// Shows the rows of a table of symbols whose bytes are in memory.
pub fn show_symbol_bytes<O: Sink, E: Sink>(
    table: SymbolBytes<'_>,
    outputs: &mut Outputs<'_, O, E>,
) -> Result<bool, Stop>
    requires { AreWhole kinds.Sym table.symbols }
    ensures reports { Reports O.Sink E.Sink result outputs.old outputs.new
        (shown_report (numbered_lines (bytes_row table.entry.strings.now) 0
        (symbols_of_bytes table.entry))) }
    ensures leaves { LeavesOutputs O.Sink E.Sink ⊥ result outputs.old outputs.new }
{
    let mut buffer = [0u8; ROWS];
    show_blocks(&table, &mut buffer, outputs)
}
