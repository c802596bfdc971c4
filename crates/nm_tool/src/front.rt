//! The rows of an image whose front tells where its symbols and their names are: two ranges of its
//! bytes are read, and no descriptor is begun.

ghost use Rattle.std.specs.Prelude.{◌≡◌, ◌+◌, ◌≤◌, ◌^◌, length, take, drop, IfSome};
ghost use Rattle.elf_types.specs.declared.records.Kind.TheVariants as kinds;
ghost use Rattle.elf_object.specs.Open.{begun};
ghost use Rattle.tool_output.specs.Sources.{ReportsOn};
ghost use Rattle.tool_objects.specs.AtHand.Items.{AreWhole};
ghost use Rattle.nm_front.specs.Tables.{IsPlain};
ghost use Rattle.nm_tool.specs.Tables.{AreOfFront, IsFirstSymbolTable};
ghost use Rattle.nm_tool.specs.Tool.{rows_report};

use crate::at_hand::show_at_hand;
use crate::form::ListingForm;
use crate::kept::kept_at_hand;
use crate::symbols::SymbolTableBytes;
use elf_ident::Front;
use elf_outside::reads::read_range;
use elf_outside::{Sink, Source};
use nm_front::{PlainTable, symbol_count};
use std::alloc::Global;
use tool_objects::at_hand::{ItemBytes, up_to_last_nul};
use tool_objects::stop_for;
use tool_output::{Outputs, Stop};

/// Shows the rows of the symbols of a plain table, whose bytes were read. Where none is kept, the
/// names are not read.
fn show_read<S: Source, O: Sink, E: Sink>(
    alloc: Global,
    src: &mut S,
    front: &Front,
    table: PlainTable,
    symbols: ItemBytes<'_>,
    form: ListingForm<'_>,
    outputs: &mut Outputs<'_, O, E>,
) -> Result<bool, Stop>
    requires plain { IsPlain front.now (S.size src.old) table }
    requires first { IsFirstSymbolTable front.now table }
    requires whole { AreWhole kinds.Sym symbols }
    requires form { AreOfFront front.now symbols }
    requires held { IfSome (S.holds src.old) (λ image.
        symbols.bytes.now ≡ take table.symbols.size (drop table.symbols.offset image)) }
    ensures reports { ReportsOn S.Source O.Sink E.Sink
        (λ image. rows_report form.entry.options.now form.entry.file.now (begun front.now image)
        table.section)
        result src.old src.new outputs.old outputs.new }
    ensures asked { S.taken src.new ≤ S.taken src.old + table.names.size }
{
    let count = symbol_count(front.ehdr.class, table.symbols.size);
    let list = match kept_at_hand(alloc, symbols, form.options, count) {
        Ok(list) => list,
        Err(stop) => return Err(stop),
    };
    if list.is_empty() {
        return Ok(false);
    }
    match read_range(alloc, src, table.names.offset, table.names.size) {
        Ok(names) => {
            let strings = up_to_last_nul(names.as_slice());
            show_at_hand(
                front,
                SymbolTableBytes { symbols, strings },
                list,
                form,
                outputs,
            )
        }
        Err(e) => Err(stop_for(e)),
    }
}

/// Shows the rows of the symbols of a plain table of the image that a source holds. It reads the
/// bytes of the symbols, and where a row is kept for those of their names. It stops by `Read` where
/// a read of the source failed, by `Write` where a put failed, and by `Memory`.
pub fn show_plain<S: Source, O: Sink, E: Sink>(
    alloc: Global,
    src: &mut S,
    front: &Front,
    table: PlainTable,
    form: ListingForm<'_>,
    outputs: &mut Outputs<'_, O, E>,
) -> Result<bool, Stop>
    requires plain { IsPlain front.now (S.size src.old) table }
    requires first { IsFirstSymbolTable front.now table }
    ensures reports { ReportsOn S.Source O.Sink E.Sink
        (λ image. rows_report form.entry.options.now form.entry.file.now (begun front.now image)
        table.section)
        result src.old src.new outputs.old outputs.new }
    ensures asked { S.taken src.new
        ≤ S.taken src.old + (table.symbols.size + table.names.size) }
{
    match read_range(alloc, src, table.symbols.offset, table.symbols.size) {
        Ok(bytes) => {
            let symbols = ItemBytes {
                class: front.ehdr.class,
                order: front.ehdr.order,
                bytes: bytes.as_slice(),
            };
            show_read(alloc, src, front, table, symbols, form, outputs)
        }
        Err(e) => Err(stop_for(e)),
    }
}
