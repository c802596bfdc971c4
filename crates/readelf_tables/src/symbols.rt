//! The lines of the symbol tables. Where the strings of a table end is looked for before its rows:
//! a name that begins after that can not be read, and is not looked for. Where the bytes of a table
//! and of its strings are in memory, its rows are told from these alone.

ghost use Rattle.std.specs.Prelude.{◌<◌, None, IfOk, IfSome, IsTrue};
ghost use Rattle.elf_types.specs.declared.records.Kind.TheVariants as kinds;
ghost use Rattle.elf_object.specs.Answers.{items_at, syms_of};
ghost use Rattle.elf_object.specs.Strings as strings;
ghost use Rattle.tool_output.specs.Lines.{numbered_lines};
ghost use Rattle.tool_output.specs.Reports.{Reports, shown_report};
ghost use Rattle.tool_output.specs.Steps.{LeavesOutputs};
ghost use Rattle.tool_objects.specs.Steps.{ReadsElf, ReportsElf, ReportsOver};
ghost use Rattle.tool_objects.specs.AtHand.Strings.{EndsAt};
ghost use Rattle.readelf_tables.specs.RowsOfSymbols.SymbolLines.{symbol_line};
ghost use Rattle.readelf_tables.specs.Tables.{indexed_row, HasRows};
ghost use Rattle.readelf_tables.specs.Symbols.{SymbolsFit, symbol_row, symbols_title, symbols_of_section, holds_symbols, symbols_report};

use crate::rows_of_symbols::{SymbolLine, show_symbol_bytes, symbols_at_hand};
use crate::tables::{TableRow, TableRows, show_table};
use elf_outside::{Sink, Source};
use elf_types::constants::{SHT_DYNSYM, SHT_SYMTAB};
use elf_types::{DataId, ScnId, Sym};
use readelf_rows::{ItemTable, SectionLinks, SectionPart, each_plain, links_of};
use tool_objects::at_hand::{is_past, load, strings_end};
use tool_objects::prelude::{Elf, SymPlace, shndx_table};
use tool_objects::{item_there, string_at, symbol_place_or_stop};
use tool_output::{FileName, Outputs, Stop};

/// Shows the line of a symbol whose name can not be read.
fn show_unnamed<O: Sink, E: Sink>(
    index: u64,
    symbol: Sym,
    place: Option<SymPlace>,
    outputs: &mut Outputs<'_, O, E>,
) -> Result<bool, Stop>
    ensures reports { Reports O.Sink E.Sink result outputs.old outputs.new
        (shown_report (symbol_line index symbol place None)) }
    ensures leaves { LeavesOutputs O.Sink E.Sink ⊥ result outputs.old outputs.new }
{
    outputs.show(&SymbolLine {
        index,
        symbol,
        place,
        name: None,
    })
}

/// Shows the line of a symbol whose place is known, and whose name is in a section, whose strings
/// end there where that is known.
fn show_symbol<S: Source, O: Sink, E: Sink>(
    elf: &mut Elf<S>,
    names: ScnId,
    end: Option<u64>,
    index: u64,
    symbol: Sym,
    place: Option<SymPlace>,
    outputs: &mut Outputs<'_, O, E>,
) -> Result<bool, Stop>
    requires { IsTrue elf.old.told → IfSome end (EndsAt elf.old.o names.0) }
    ensures { ReportsElf S.Source O.Sink E.Sink (λ o. shown_report (symbol_line index symbol place
        (strings.readable (strings.string_answer o names.0 symbol.name))))
        result elf.old elf.new outputs.old outputs.new }
{
    let at = u64::from(symbol.name);
    if is_past(end, at) {
        return show_unnamed(index, symbol, place, outputs);
    }
    match string_at(elf, names, at) {
        Ok(name) => outputs.show(&SymbolLine {
            index,
            symbol,
            place,
            name,
        }),
        Err(stop) => Err(stop),
    }
}

/// Shows the row of symbol `i` of a section, which was looked at.
fn show_row<S: Source, O: Sink, E: Sink>(
    elf: &mut Elf<S>,
    s: ScnId,
    links: SectionLinks,
    end: Option<u64>,
    i: u64,
    symbol: Sym,
    outputs: &mut Outputs<'_, O, E>,
) -> Result<bool, Stop>
    requires fits { SymbolsFit elf.old.o s.0 links }
    requires end { IsTrue elf.old.told → IfSome end (EndsAt elf.old.o links.linked.0) }
    ensures { ReportsElf S.Source O.Sink E.Sink (λ o. shown_report (symbol_row o s.0 i symbol))
        result elf.old elf.new outputs.old outputs.new }
{
    match symbol_place_or_stop(elf, s, i, symbol, links.indexes) {
        Ok(place) => show_symbol(elf, links.linked, end, i, symbol, place, outputs),
        Err(stop) => Err(stop),
    }
}

/// Shows the row of symbol `i` of a table, where there is such a symbol.
fn show_row_at<S: Source, O: Sink, E: Sink>(
    elf: &mut Elf<S>,
    table: ItemTable,
    end: Option<u64>,
    i: u64,
    outputs: &mut Outputs<'_, O, E>,
) -> Result<bool, Stop>
    requires rows { HasRows kinds.Sym syms_of SymbolsFit elf.old.o table }
    requires end { IsTrue elf.old.told → IfSome end (EndsAt elf.old.o table.links.linked.0) }
    requires there { i < table.count }
    ensures { let s = table.section.0 in ReportsElf S.Source O.Sink E.Sink
        (λ o. shown_report (indexed_row (symbol_row o s) (syms_of (items_at o s 0)) i))
        result elf.old elf.new outputs.old outputs.new }
{
    let s = table.section;
    let d = DataId {
        section: s.0,
        piece: 0,
    };
    match item_there::<S, Sym>(elf, d, i) {
        Ok(symbol) => show_row(elf, s, table.links, end, i, symbol, outputs),
        Err(stop) => Err(stop),
    }
}

/// Shows a row for each symbol of a table, one after the other.
fn show_each_row<S: Source, O: Sink, E: Sink>(
    elf: &mut Elf<S>,
    table: ItemTable,
    end: Option<u64>,
    outputs: &mut Outputs<'_, O, E>,
) -> Result<bool, Stop>
    requires rows { HasRows kinds.Sym syms_of SymbolsFit elf.old.o table }
    requires end { IsTrue elf.old.told → IfSome end (EndsAt elf.old.o table.links.linked.0) }
    ensures { let s = table.section.0 in ReportsElf S.Source O.Sink E.Sink
        (λ o. shown_report (numbered_lines (symbol_row o s) 0 (syms_of (items_at o s 0))))
        result elf.old elf.new outputs.old outputs.new }
{
    let mut refused = false;
    for i in 0..table.count {
        let was_refused = show_row_at(elf, table, end, i, outputs)?;
        refused = refused | was_refused;
    }
    Ok(refused)
}

/// Shows a row for each symbol of a table, from the bytes where these are in memory.
fn show_each_symbol<S: Source, O: Sink, E: Sink>(
    elf: &mut Elf<S>,
    table: ItemTable,
    end: Option<u64>,
    outputs: &mut Outputs<'_, O, E>,
) -> Result<bool, Stop>
    requires rows { HasRows kinds.Sym syms_of SymbolsFit elf.old.o table }
    requires end { IsTrue elf.old.told → IfSome end (EndsAt elf.old.o table.links.linked.0) }
    ensures { let s = table.section.0 in ReportsElf S.Source O.Sink E.Sink
        (λ o. shown_report (numbered_lines (symbol_row o s) 0 (syms_of (items_at o s 0))))
        result elf.old elf.new outputs.old outputs.new }
{
    match symbols_at_hand(elf, table) {
        Some(bytes) => show_symbol_bytes(bytes, outputs),
        None => show_each_row(elf, table, end, outputs),
    }
}

/// Reads the strings of the symbols of a table and the symbols, where there are any, and tells
/// where the strings end, where that can be told.
fn load_symbols<S: Source>(elf: &mut Elf<S>, table: ItemTable) -> Result<Option<u64>, Stop>
    ensures end { IsTrue elf.old.told → IfOk result
        (λ end. IfSome end (EndsAt elf.old.o table.links.linked.0)) }
    ensures reads { ReadsElf S.Source result elf.old elf.new }
{
    if table.count == 0 {
        return Ok(None);
    }
    let end = strings_end(elf, table.links.linked)?;
    load(elf, table.section)?;
    Ok(end)
}

impl TableRow for Sym {
    ghost title = { symbols_title };

    ghost line = { symbol_row };

    ghost fits = { SymbolsFit };

    #[tactic(auto, unfolding(crate::specs::Symbols::symbols_title))]
    fn title() -> &'static str {
        "Symbols of section "
    }

    fn links<S: Source>(elf: &Elf<S>, s: ScnId) -> SectionLinks {
        let links = links_of(elf, s);
        let indexes = shndx_table(elf, s);
        SectionLinks {
            linked: links.linked,
            strings: links.strings,
            indexes,
        }
    }

    fn show<S: Source, O: Sink, E: Sink>(
        self,
        elf: &mut Elf<S>,
        s: ScnId,
        i: u64,
        links: SectionLinks,
        outputs: &mut Outputs<'_, O, E>,
    ) -> Result<bool, Stop> {
        show_row(elf, s, links, None, i, self, outputs)
    }
}

impl TableRows for Sym {
    fn show_rows<S: Source, O: Sink, E: Sink>(
        elf: &mut Elf<S>,
        table: ItemTable,
        outputs: &mut Outputs<'_, O, E>,
    ) -> Result<bool, Stop> {
        match load_symbols(elf, table) {
            Ok(end) => show_each_symbol(elf, table, end, outputs),
            Err(stop) => Err(stop),
        }
    }
}

/// The part of the symbol tables.
#[derive(Clone, Copy)]
struct Symbols;

impl SectionPart for Symbols {
    ghost has = { holds_symbols };

    ghost report = { symbols_of_section };

    fn has(&self, stype: u32) -> bool {
        stype == SHT_SYMTAB || stype == SHT_DYNSYM
    }

    #[tactic(auto, unfolding(crate::specs::Symbols::symbols_of_section))]
    fn show<S: Source, O: Sink, E: Sink>(
        &self,
        name: &FileName<'_>,
        elf: &mut Elf<S>,
        s: ScnId,
        outputs: &mut Outputs<'_, O, E>,
    ) -> Result<bool, Stop> {
        show_table::<Sym, S, O, E>(name, elf, s, outputs)
    }
}

/// Shows the symbols of each section of type `SHT_SYMTAB` or `SHT_DYNSYM`, by number: the section
/// and the number of its symbols, and a line for each.
///
/// Source: gABI chapter 4, "Symbol Table".
#[tactic(auto, unfolding(crate::specs::Symbols::symbols_report))]
pub fn show_symbols<S: Source, O: Sink, E: Sink>(
    name: &FileName<'_>,
    elf: &mut Elf<S>,
    outputs: &mut Outputs<'_, O, E>,
) -> Result<bool, Stop>
    ensures { ReportsOver S.Source O.Sink E.Sink 1 (symbols_report name.now)
        result elf.old elf.new outputs.old outputs.new }
{
    each_plain(&Symbols, name, elf, outputs)
}
