//! The rows of symbols whose order is known: each name is read where it is, and none is copied.

ghost use Rattle.std.specs.Prelude.{◌≡◌, IfSome, IsTrue};
ghost use Rattle.elf_object.specs.Strings as strings;
ghost use Rattle.tool_output.specs.Reports.{shown_report, reports_of};
ghost use Rattle.tool_objects.specs.Steps.{ReportsElf};
ghost use Rattle.tool_objects.specs.AtHand.Strings.{EndsAt};
ghost use Rattle.nm_tool.specs.Tables.{AreTables};
ghost use Rattle.nm_tool.specs.Listed.{name_or_none};
ghost use Rattle.nm_tool.specs.Tool.{placed_row};
ghost use Rattle.nm_tool.specs.Kept.{index_report, kept_report, shown_row};

use crate::form::{ListingForm, show_lettered, show_symbol};
use crate::headers::ObjectHeaders;
use crate::kept::{Kept, name_or_none};
use crate::letters::{is_undefined, symbol_letter};
use crate::symbols::{Tables, symbol_at, symbol_place_at};
use elf_outside::{Sink, Source};
use elf_types::{ScnId, Sym};
use tool_objects::at_hand::is_past;
use tool_objects::prelude::{Elf, SymPlace};
use tool_objects::string_at;
use tool_output::{Outputs, Stop};

/// Shows the row of a symbol whose place is known, and whose name is in a section, whose strings
/// end there where that is known.
fn show_named<S: Source, O: Sink, E: Sink>(
    elf: &mut Elf<S>,
    names: ScnId,
    end: Option<u64>,
    form: ListingForm<'_>,
    symbol: Sym,
    place: Option<SymPlace>,
    outputs: &mut Outputs<'_, O, E>,
) -> Result<bool, Stop>
    requires { IsTrue elf.old.told → IfSome end (EndsAt elf.old.o names.0) }
    ensures { ReportsElf S.Source O.Sink E.Sink
        (λ o. shown_report (placed_row form.entry.options.now
        form.entry.file.now o symbol place
        (name_or_none (strings.readable (strings.string_answer o names.0 symbol.name)))))
        result elf.old elf.new outputs.old outputs.new }
{
    let at = u64::from(symbol.name);
    if is_past(end, at) {
        return show_symbol(&*elf, form, symbol, place, b"<none>", outputs);
    }
    let class = elf.class();
    let undefined = is_undefined(place);
    let letter = symbol_letter(&*elf, &symbol, place);
    match string_at(elf, names, at) {
        Ok(name) => {
            let shown = name_or_none(name);
            show_lettered(form, class, undefined, symbol, letter, shown, outputs)
        }
        Err(stop) => Err(stop),
    }
}

/// Shows the row of symbol `i`, which was looked at.
fn show_looked<S: Source, O: Sink, E: Sink>(
    elf: &mut Elf<S>,
    t: Tables,
    end: Option<u64>,
    form: ListingForm<'_>,
    i: u64,
    symbol: Sym,
    outputs: &mut Outputs<'_, O, E>,
) -> Result<bool, Stop>
    requires tables { AreTables elf.old.o t }
    requires end { IsTrue elf.old.told → IfSome end (EndsAt elf.old.o t.names.0) }
    ensures { ReportsElf S.Source O.Sink E.Sink (λ o. shown_report (shown_row form.entry.options.now
        form.entry.file.now o t.symbols.0 i symbol))
        result elf.old elf.new outputs.old outputs.new }
{
    match symbol_place_at(elf, t, i, symbol) {
        Ok(place) => show_named(elf, t.names, end, form, symbol, place, outputs),
        Err(stop) => Err(stop),
    }
}

/// Shows the row of symbol `i`, where it is there.
fn show_index<S: Source, O: Sink, E: Sink>(
    elf: &mut Elf<S>,
    t: Tables,
    end: Option<u64>,
    form: ListingForm<'_>,
    i: u64,
    outputs: &mut Outputs<'_, O, E>,
) -> Result<bool, Stop>
    requires tables { AreTables elf.old.o t }
    requires end { IsTrue elf.old.told → IfSome end (EndsAt elf.old.o t.names.0) }
    ensures { ReportsElf S.Source O.Sink E.Sink
        (λ o. index_report form.entry.options.now form.entry.file.now o t.symbols.0 i)
        result elf.old elf.new outputs.old outputs.new }
{
    match symbol_at(elf, t, i) {
        Ok(Some(symbol)) => show_looked(elf, t, end, form, i, symbol, outputs),
        Ok(None) => Ok(false),
        Err(stop) => Err(stop),
    }
}

/// Shows the row of a kept symbol, where it is there.
#[tactic(auto, unfolding(crate::specs::Kept::kept_report))]
fn show_one<S: Source, O: Sink, E: Sink>(
    elf: &mut Elf<S>,
    t: Tables,
    end: Option<u64>,
    form: ListingForm<'_>,
    k: Kept,
    outputs: &mut Outputs<'_, O, E>,
) -> Result<bool, Stop>
    requires tables { AreTables elf.old.o t }
    requires end { IsTrue elf.old.told → IfSome end (EndsAt elf.old.o t.names.0) }
    ensures { ReportsElf S.Source O.Sink E.Sink
        (λ o. kept_report form.entry.options.now form.entry.file.now o t.symbols.0 k)
        result elf.old elf.new outputs.old outputs.new }
{
    show_index(elf, t, end, form, u64::from(k.index), outputs)
}

/// Shows the rows of kept symbols, one after another.
pub fn show_order<S: Source, O: Sink, E: Sink>(
    elf: &mut Elf<S>,
    t: Tables,
    end: Option<u64>,
    form: ListingForm<'_>,
    order: &[Kept],
    outputs: &mut Outputs<'_, O, E>,
) -> Result<bool, Stop>
    requires tables { AreTables elf.old.o t }
    requires end { IsTrue elf.old.told → IfSome end (EndsAt elf.old.o t.names.0) }
    ensures { ReportsElf S.Source O.Sink E.Sink
        (λ o. reports_of
        (kept_report form.entry.options.now form.entry.file.now o t.symbols.0) order.now)
        result elf.old elf.new outputs.old outputs.new }
{
    let mut refused = false;
    for k in order {
        let was_refused = show_one(elf, t, end, form, *k, outputs)?;
        refused = refused | was_refused;
    }
    Ok(refused)
}
