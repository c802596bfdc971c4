//! What a row shows besides its symbol, and the row of a symbol whose place and name are known.

ghost use Rattle.elf_object.specs.Object.{Object};
ghost use Rattle.tool_output.specs.Reports.{Reports, shown_report};
ghost use Rattle.tool_output.specs.Steps.{LeavesOutputs};
ghost use Rattle.nm_tool.specs.Letters.{HasHeaders};
ghost use Rattle.nm_tool.specs.Rows.{row_text};
ghost use Rattle.nm_tool.specs.Tool.{placed_row};

use crate::headers::ObjectHeaders;
use crate::letters::{is_undefined, symbol_letter};
use crate::options::NmOptions;
use crate::rows::SymbolRow;
use elf_outside::Sink;
use elf_types::{Class, Sym};
use tool_objects::prelude::SymPlace;
use tool_output::{FileName, Outputs, Stop};

/// What the rows of a table show besides its symbols.
#[derive(Clone, Copy)]
pub struct ListingForm<'a> {
    /// The options.
    pub options: &'a NmOptions,
    /// The file, or the member of an archive.
    pub file: &'a FileName<'a>,
}

/// Shows the row of a symbol whose letter is known.
pub fn show_lettered<O: Sink, E: Sink>(
    form: ListingForm<'_>,
    class: Class,
    undefined: bool,
    symbol: Sym,
    letter: u8,
    name: &[u8],
    outputs: &mut Outputs<'_, O, E>,
) -> Result<bool, Stop>
    ensures reports { Reports O.Sink E.Sink result outputs.old outputs.new
        (shown_report (row_text form.entry.options.now class form.entry.file.now undefined symbol
        letter
        name.now)) }
    ensures leaves { LeavesOutputs O.Sink E.Sink ⊥ result outputs.old outputs.new }
{
    outputs.show(&SymbolRow {
        options: form.options,
        class,
        file: form.file,
        undefined,
        symbol,
        letter,
        name,
    })
}

/// Shows the row of a symbol whose place is known, of an object that has these headers.
pub fn show_symbol<H: ObjectHeaders, O: Sink, E: Sink>(
    headers: &H,
    form: ListingForm<'_>,
    symbol: Sym,
    place: Option<SymPlace>,
    name: &[u8],
    outputs: &mut Outputs<'_, O, E>,
) -> Result<bool, Stop>
    ensures reports { (o : Object) → HasHeaders o (H.class headers.now) (H.headers headers.now)
        → Reports O.Sink E.Sink result outputs.old outputs.new
        (shown_report (placed_row form.entry.options.now form.entry.file.now o symbol place
        name.now)) }
    ensures leaves { LeavesOutputs O.Sink E.Sink ⊥ result outputs.old outputs.new }
{
    let class = headers.class();
    let undefined = is_undefined(place);
    let letter = symbol_letter(headers, &symbol, place);
    show_lettered(form, class, undefined, symbol, letter, name, outputs)
}
