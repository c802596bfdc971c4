//! The rows of a table with copies of the names, which are sorted.

ghost use Rattle.std.specs.Prelude.{◌≡◌, length};
ghost use Rattle.tool_output.specs.Reports.{shown_report, reports_of};
ghost use Rattle.tool_objects.specs.Steps.{ReportsElf};
ghost use Rattle.nm_tool.specs.Tables.{AreTables};
ghost use Rattle.nm_tool.specs.Listed.{symbols_in_table as stated_symbols};
ghost use Rattle.nm_tool.specs.Tool.{listed_symbol_row, rows_report};
ghost use Rattle.nm_tool.specs.PoolReports.{row_report, pool_report};

use crate::form::{ListingForm, show_symbol};
use crate::listed::pool_of;
use crate::order::{SymbolSortRow, sorted};
use crate::pools::{Pool, rows_of};
use crate::symbols::{Tables, symbol_at, symbol_place_at};
use elf_outside::{Sink, Source};
use elf_types::Sym;
use tool_objects::prelude::Elf;
use tool_output::{Outputs, Stop};

/// Shows the row of symbol `i`.
fn show_placed<S: Source, O: Sink, E: Sink>(
    elf: &mut Elf<S>,
    t: Tables,
    form: ListingForm<'_>,
    symbol: Sym,
    row: &SymbolSortRow<'_>,
    outputs: &mut Outputs<'_, O, E>,
) -> Result<bool, Stop>
    requires { AreTables elf.old.o t }
    ensures { ReportsElf S.Source O.Sink E.Sink
        (λ o. shown_report (listed_symbol_row form.entry.options.now
        form.entry.file.now o t.symbols.0 row.now.index row.now.name.now symbol))
        result elf.old elf.new outputs.old outputs.new }
{
    match symbol_place_at(elf, t, row.index, symbol) {
        Ok(place) => show_symbol(&*elf, form, symbol, place, row.name, outputs),
        Err(stop) => Err(stop),
    }
}

/// Shows the row of a symbol by its index, where it is there.
fn show_row<S: Source, O: Sink, E: Sink>(
    elf: &mut Elf<S>,
    t: Tables,
    form: ListingForm<'_>,
    row: &SymbolSortRow<'_>,
    outputs: &mut Outputs<'_, O, E>,
) -> Result<bool, Stop>
    requires { AreTables elf.old.o t }
    ensures { ReportsElf S.Source O.Sink E.Sink
        (λ o. row_report form.entry.options.now form.entry.file.now o t.symbols.0 row.now)
        result elf.old elf.new outputs.old outputs.new }
{
    match symbol_at(elf, t, row.index) {
        Ok(Some(symbol)) => show_placed(elf, t, form, symbol, row, outputs),
        Ok(None) => Ok(false),
        Err(stop) => Err(stop),
    }
}

/// Shows rows, one after another.
fn show_rows<S: Source, O: Sink, E: Sink>(
    elf: &mut Elf<S>,
    t: Tables,
    form: ListingForm<'_>,
    rows: &[SymbolSortRow<'_>],
    outputs: &mut Outputs<'_, O, E>,
) -> Result<bool, Stop>
    requires { AreTables elf.old.o t }
    ensures { ReportsElf S.Source O.Sink E.Sink
        (λ o. reports_of
        (row_report form.entry.options.now form.entry.file.now o t.symbols.0) rows.now)
        result elf.old elf.new outputs.old outputs.new }
{
    let mut refused = false;
    for row in rows {
        let was_refused = show_row(elf, t, form, row, outputs)?;
        refused = refused | was_refused;
    }
    Ok(refused)
}

/// Shows a row for each symbol of a pool, in their order.
fn show_pool<S: Source, O: Sink, E: Sink>(
    elf: &mut Elf<S>,
    t: Tables,
    form: ListingForm<'_>,
    pool: &Pool,
    outputs: &mut Outputs<'_, O, E>,
) -> Result<bool, Stop>
    requires { AreTables elf.old.o t }
    ensures { ReportsElf S.Source O.Sink E.Sink
        (λ o. pool_report form.entry.options.now form.entry.file.now o t.symbols.0 pool.now)
        result elf.old elf.new outputs.old outputs.new }
{
    match rows_of(elf.alloc(), pool, form.options.by_value) {
        Ok(rows) => {
            let rows = sorted(rows, form.options.by_value);
            show_rows(elf, t, form, rows.as_slice(), outputs)
        }
        Err(e) => Err(Stop::want_of(e)),
    }
}

/// Shows the rows of a table with copies of the names.
pub fn show_copied<S: Source, O: Sink, E: Sink>(
    elf: &mut Elf<S>,
    t: Tables,
    count: u64,
    form: ListingForm<'_>,
    outputs: &mut Outputs<'_, O, E>,
) -> Result<bool, Stop>
    requires tables { AreTables elf.old.o t }
    requires count { count ≡ length (stated_symbols elf.old.o t.symbols.0) }
    ensures { ReportsElf S.Source O.Sink E.Sink
        (λ o. rows_report form.entry.options.now form.entry.file.now o t.symbols.0)
        result elf.old elf.new outputs.old outputs.new }
{
    match pool_of(elf.alloc(), elf, t, form.options, count) {
        Ok(pool) => show_pool(elf, t, form, &pool, outputs),
        Err(stop) => Err(stop),
    }
}
