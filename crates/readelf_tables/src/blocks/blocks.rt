//! The rows of a table of relocations whose bytes are in memory, block by block: the symbols of a
//! block are looked up one right after the other, and then their names, and then its lines are
//! written. So the processor waits for the memory of many rows at once, and not for each in turn.

ghost use Rattle.std.specs.Prelude.{◌≡◌, ◌<◌, ◌≤◌, ℕ, ◌^◌, length, drop, get_or, IfOk, IfErr, IfSome, OnOk};
ghost use Rattle.std.specs.Option.{option_copied};
ghost use Rattle.tool_output.specs.Lines.{numbered_lines};
ghost use Rattle.tool_output.specs.Reports.{Reports, shown_report};
ghost use Rattle.tool_output.specs.Steps.{LeavesOutputs};
ghost use Rattle.readelf_tables.specs.declared.blocks.relocation_lines.RelocationEntry.{RelocationEntry as TheEntry};
ghost use Rattle.readelf_tables.specs.Blocks.Blocks as blocks;
ghost use Rattle.readelf_tables.specs.Blocks.Blocks.{rel_entry, rela_entry, line_row, found_row, HasWholeItems, relocations_in_bytes, block_rows, table_row};

use crate::blocks::at_hand::TableBytes;
use crate::blocks::relocation_lines::{RelocationEntry, RelocationLine, write_line};
use elf_outside::Sink;
use elf_types::{ElfError, List, Rel, Rela, Sym};
use readelf_rows::WrittenRows;
use std::alloc::Global;
use tool_objects::at_hand::{item_of, most_items, table_string_from};
use tool_objects::prelude::Item;
use tool_output::{Outputs, Stop};

/// How many rows are looked up before their lines are written.
const BLOCK: u64 = 64;

/// Lines are shown one by one where so many bytes are no room for a block of them.
const LINES: usize = 16384;

/// A relocation of a table, with an addend or without one.
pub trait Relocation {
    // The entry of its row.
    ghost entry_of: { ℕ → Self → TheEntry };

    /// The entry of its row, by its index.
    fn entry(self, i: u64) -> RelocationEntry
        ensures { result ≡ entry_of i self };
}

impl Relocation for Rel {
    ghost entry_of = { rel_entry };

    fn entry(self, i: u64) -> RelocationEntry {
        RelocationEntry {
            index: i,
            rel: self,
            addend: None,
        }
    }
}

impl Relocation for Rela {
    ghost entry_of = { rela_entry };

    fn entry(self, i: u64) -> RelocationEntry {
        let rel = Rel {
            offset: self.offset,
            sym: self.sym,
            rtype: self.rtype,
        };
        RelocationEntry {
            index: i,
            rel,
            addend: Some(self.addend),
        }
    }
}

/// A relocation and the symbol that was looked up for it.
#[derive(Clone, Copy)]
struct Found {
    /// The relocation.
    entry: RelocationEntry,
    /// Its symbol, where there is one.
    symbol: Option<Sym>,
}

/// Item `i` of those that are there.
fn item_at<T: Copy + Drop>(items: &[T], i: usize) -> T
    requires { i < length items.now }
    ensures { result ≡ get_or items.now i result }
{
    items[i]
}

/// The name of a symbol in the bytes of strings.
fn name_in(strings: &[u8], symbol: Option<Sym>) -> Option<&[u8]>
    ensures { option_copied result ≡ blocks.symbol_name_in_bytes strings.now symbol }
{
    match symbol {
        Some(x) => table_string_from(strings, x.name),
        None => None,
    }
}

/// Looks up the symbols of the relocations of a block, from one on.
fn find_symbols<T: Item + Relocation>(
    table: &TableBytes<'_>,
    first: u64,
    found: &mut List<Found>,
) -> Result<(), ElfError>
    requires bytes { HasWholeItems T.kind table.now }
    requires first { first < 2 ^ 63 }
    ensures ok { OnOk result (numbered_lines (found_row table.now.strings.now) 0 found.new
        ≡ block_rows T.entry_of table.now (relocations_in_bytes T.kind T.list_of table.now) first) }
    ensures err { IfErr result (λ e. e ≡ ElfError.Memory) }
{
    found.truncate(0);
    for k in 0..BLOCK {
        let i = first + k;
        let item = match item_of::<T>(table.relocations, i, table.class, table.order) {
            Some(item) => item,
            None => return Ok(()),
        };
        let entry = item.entry(i);
        let y = u64::from(entry.rel.sym);
        let symbol = item_of::<Sym>(table.symbols, y, table.class, table.order);
        found.push(Found { entry, symbol })?;
    }
    Ok(())
}

/// The lines of the relocations of a block, with the names of their symbols.
fn name_lines<'a>(
    alloc: Global,
    strings: &'a [u8],
    found: &[Found],
) -> Result<List<RelocationLine<'a>>, ElfError>
    ensures ok { IfOk result (λ lines. numbered_lines line_row 0 lines
        ≡ numbered_lines (found_row strings.now) 0 found.now) }
    ensures err { IfErr result (λ e. e ≡ ElfError.Memory) }
{
    let mut lines = List::with_capacity(alloc, found.len() as u64)?;
    for i in 0..found.len() {
        let one = item_at(found, i);
        lines.push(RelocationLine {
            entry: one.entry,
            name: name_in(strings, one.symbol),
        })?;
    }
    Ok(lines)
}

/// The lines of a block, from one relocation on.
fn block_lines<'a, T: Item + Relocation>(
    alloc: Global,
    table: &TableBytes<'a>,
    first: u64,
    found: &mut List<Found>,
) -> Result<List<RelocationLine<'a>>, ElfError>
    requires bytes { HasWholeItems T.kind table.now }
    requires first { first < 2 ^ 63 }
    ensures ok { IfOk result (λ lines. numbered_lines line_row 0 lines
        ≡ block_rows T.entry_of table.now (relocations_in_bytes T.kind T.list_of table.now) first) }
    ensures err { IfErr result (λ e. e ≡ ElfError.Memory) }
{
    find_symbols::<T>(table, first, found)?;
    name_lines(alloc, table.strings, found.as_slice())
}

/// Writes lines before the end of a buffer, the last one first, and tells where they begin; None
/// where there may be no room for all.
fn write_lines(lines: &[RelocationLine<'_>], buffer: &mut [u8]) -> Option<usize>
    ensures inside { IfSome result (λ at. at ≤ length buffer.new) }
    ensures wrote { IfSome result (λ at. drop at buffer.new ≡ numbered_lines line_row 0 lines.now) }
{
    let mut at = buffer.len();
    let mut i = lines.len();
    while i > 0 {
        i -= 1;
        let line = item_at(lines, i);
        at = write_line(buffer, at, &line)?;
    }
    Some(at)
}

/// Shows lines one after the other.
fn show_one_by_one<O: Sink, E: Sink>(
    lines: &[RelocationLine<'_>],
    outputs: &mut Outputs<'_, O, E>,
) -> Result<bool, Stop>
    ensures reports { Reports O.Sink E.Sink result outputs.old outputs.new
        (shown_report (numbered_lines line_row 0 lines.now)) }
    ensures leaves { LeavesOutputs O.Sink E.Sink ⊥ result outputs.old outputs.new }
{
    for i in 0..lines.len() {
        let line = item_at(lines, i);
        outputs.show(&line)?;
    }
    Ok(false)
}

/// Shows lines: at once where a buffer has room for all.
fn show_lines<O: Sink, E: Sink>(
    lines: &[RelocationLine<'_>],
    buffer: &mut [u8],
    outputs: &mut Outputs<'_, O, E>,
) -> Result<bool, Stop>
    ensures reports { Reports O.Sink E.Sink result outputs.old outputs.new
        (shown_report (numbered_lines line_row 0 lines.now)) }
    ensures leaves { LeavesOutputs O.Sink E.Sink ⊥ result outputs.old outputs.new }
{
    match write_lines(lines, buffer) {
        Some(at) => outputs.show(&WrittenRows {
            bytes: &buffer[at..],
        }),
        None => show_one_by_one(lines, outputs),
    }
}

/// Shows the rows of a block, from one relocation on.
fn show_block<T: Item + Relocation, O: Sink, E: Sink>(
    alloc: Global,
    table: &TableBytes<'_>,
    first: u64,
    found: &mut List<Found>,
    buffer: &mut [u8],
    outputs: &mut Outputs<'_, O, E>,
) -> Result<bool, Stop>
    requires bytes { HasWholeItems T.kind table.now }
    requires first { first < 2 ^ 63 }
    ensures reports { Reports O.Sink E.Sink result outputs.old outputs.new
        (shown_report (block_rows T.entry_of table.now
        (relocations_in_bytes T.kind T.list_of table.now) first)) }
    ensures leaves { LeavesOutputs O.Sink E.Sink ⊥ result outputs.old outputs.new }
{
    match block_lines::<T>(alloc, table, first, found) {
        Ok(lines) => show_lines(lines.as_slice(), buffer, outputs),
        Err(e) => Err(Stop::want_of(e)),
    }
}

/// Shows the rows of a table, a block at a time by a buffer.
fn show_blocks_by<T: Item + Relocation, O: Sink, E: Sink>(
    alloc: Global,
    table: &TableBytes<'_>,
    buffer: &mut [u8],
    outputs: &mut Outputs<'_, O, E>,
) -> Result<bool, Stop>
    requires { HasWholeItems T.kind table.now }
    ensures reports { Reports O.Sink E.Sink result outputs.old outputs.new
        (shown_report (numbered_lines (table_row T.entry_of table.now) 0
        (relocations_in_bytes T.kind T.list_of table.now))) }
    ensures leaves { LeavesOutputs O.Sink E.Sink ⊥ result outputs.old outputs.new }
{
    let mut found = List::new(alloc);
    let count = most_items::<T>(table.relocations, table.class, table.order);
    for block in 0..count / BLOCK + 1 {
        show_block::<T, O, E>(alloc, table, block * BLOCK, &mut found, buffer, outputs)?;
    }
    Ok(false)
}

/// Shows the rows of a table whose bytes are in memory.
pub fn show_blocks<T: Item + Relocation, O: Sink, E: Sink>(
    alloc: Global,
    table: &TableBytes<'_>,
    outputs: &mut Outputs<'_, O, E>,
) -> Result<bool, Stop>
    requires { HasWholeItems T.kind table.now }
    ensures reports { Reports O.Sink E.Sink result outputs.old outputs.new
        (shown_report (numbered_lines (table_row T.entry_of table.now) 0
        (relocations_in_bytes T.kind T.list_of table.now))) }
    ensures leaves { LeavesOutputs O.Sink E.Sink ⊥ result outputs.old outputs.new }
{
    let mut buffer = [0u8; LINES];
    show_blocks_by::<T, O, E>(alloc, table, &mut buffer, outputs)
}
