//! The rows of kept symbols that can be told from bytes: those of their table, which has no
//! extended indexes, and those of their names are in memory. Nothing is read.

ghost use Rattle.std.specs.Prelude.{ℕ};
ghost use Rattle.elf_types.specs.declared.records.Kind.TheVariants as kinds;
ghost use Rattle.elf_object.specs.Object.{Object};
ghost use Rattle.tool_output.specs.Reports.{Reports, reports_of};
ghost use Rattle.tool_output.specs.Steps.{LeavesOutputs};
ghost use Rattle.tool_objects.specs.AtHand.Items.{AreWhole};
ghost use Rattle.nm_tool.specs.Kept.{held_report, kept_entries, linked_shown_name, TellsRows};
ghost use Rattle.nm_tool.specs.Tool.{symbol_entries_report};

use crate::form::{ListingForm, show_symbol};
use crate::headers::ObjectHeaders;
use crate::kept::Kept;
use crate::ranked::{name_at, ranked};
use crate::symbols::{SymbolTableBytes, plain_place};
use elf_outside::Sink;
use elf_types::{List, Sym};
use tool_objects::at_hand::item_of;
use tool_output::{Outputs, Stop};

/// Shows the row of a kept symbol, where it is there.
fn show_held<H: ObjectHeaders, O: Sink, E: Sink>(
    headers: &H,
    bytes: SymbolTableBytes<'_>,
    form: ListingForm<'_>,
    k: Kept,
    outputs: &mut Outputs<'_, O, E>,
) -> Result<bool, Stop>
    requires { AreWhole kinds.Sym bytes.symbols }
    ensures reports { (o : Object) (s : ℕ)
        → TellsRows o s (H.class headers.now) (H.headers headers.now) bytes.entry
        → Reports O.Sink E.Sink result outputs.old outputs.new
        (held_report form.entry.options.now form.entry.file.now o s bytes.entry.strings.now k) }
    ensures leaves { LeavesOutputs O.Sink E.Sink ⊥ result outputs.old outputs.new }
{
    let symbols = bytes.symbols;
    let i = u64::from(k.index);
    match item_of::<Sym>(symbols.bytes, i, symbols.class, symbols.order) {
        Some(symbol) => {
            let place = plain_place(symbol.shndx);
            let name = name_at(bytes.strings, k.name);
            show_symbol(headers, form, symbol, place, name, outputs)
        }
        None => Ok(false),
    }
}

/// Shows the rows of kept symbols, one after another.
fn show_each<H: ObjectHeaders, O: Sink, E: Sink>(
    headers: &H,
    bytes: SymbolTableBytes<'_>,
    form: ListingForm<'_>,
    order: &[Kept],
    outputs: &mut Outputs<'_, O, E>,
) -> Result<bool, Stop>
    requires { AreWhole kinds.Sym bytes.symbols }
    ensures reports { (o : Object) (s : ℕ)
        → TellsRows o s (H.class headers.now) (H.headers headers.now) bytes.entry
        → Reports O.Sink E.Sink result outputs.old outputs.new
        (reports_of (held_report form.entry.options.now form.entry.file.now o s
        bytes.entry.strings.now) order.now) }
    ensures leaves { LeavesOutputs O.Sink E.Sink ⊥ result outputs.old outputs.new }
{
    let mut refused = false;
    for k in order {
        let was_refused = show_held(headers, bytes, form, *k, outputs)?;
        refused = refused | was_refused;
    }
    Ok(refused)
}

/// Shows the rows of kept symbols that have a name which is not empty, in their order, of an object
/// that has these headers.
pub fn show_at_hand<H: ObjectHeaders, O: Sink, E: Sink>(
    headers: &H,
    bytes: SymbolTableBytes<'_>,
    list: List<Kept>,
    form: ListingForm<'_>,
    outputs: &mut Outputs<'_, O, E>,
) -> Result<bool, Stop>
    requires { AreWhole kinds.Sym bytes.symbols }
    ensures reports { (o : Object) (s : ℕ)
        → TellsRows o s (H.class headers.now) (H.headers headers.now) bytes.entry
        → Reports O.Sink E.Sink result outputs.old outputs.new
        (symbol_entries_report form.entry.options.now form.entry.file.now o s
        (kept_entries form.entry.options.now.by_value (linked_shown_name o s) list)) }
    ensures leaves { LeavesOutputs O.Sink E.Sink ⊥ result outputs.old outputs.new }
{
    let order = ranked(bytes.strings, list, form.options.by_value);
    show_each(headers, bytes, form, order.as_slice(), outputs)
}
