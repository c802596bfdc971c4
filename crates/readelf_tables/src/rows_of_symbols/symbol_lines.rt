//! The line of a symbol. It is written from its end before a place of a buffer, so that the lines
//! of a block are written one before the other; or all of it that is before the name is written
//! into a buffer of its own and put at once.

ghost use Rattle.std.specs.Prelude.{◌≡◌, ◌+◌, ◌≤◌, ◌++◌, length, OnOk, IfErr, IfSome};
ghost use Rattle.std.specs.Option.{option_copied};
ghost use Rattle.elf_types.specs.Writers.{WantsMemory};
ghost use Rattle.readelf_rows.specs.Fronts.{Precedes};
ghost use Rattle.readelf_tables.specs.RowsOfSymbols.Fronts.{symbol_front};
ghost use Rattle.readelf_tables.specs.RowsOfSymbols.SymbolLines.{special_text, place_text, symbol_start, symbol_names, symbol_line};

use crate::rows_of_symbols::usual_names::usual_names;
use elf_types::constants::{SHN_ABS, SHN_COMMON, SHN_UNDEF};
use elf_types::{
    ElfError, Octets, Sym, bind, binding_name, put_bytes, put_text, stt, symbol_type_name, vis,
    visibility_name,
};
use readelf_rows::fronts::{
    write_bytes, write_decimal, write_decimal_column, write_hex, write_hex_column,
    write_name_column, write_row_start, write_text,
};
use tool_objects::prelude::SymPlace;
use tool_output::Line;

/// What is before the name of a symbol takes at most so many bytes.
const FRONT: usize = 192;

/// What is after it takes so many.
const CLOSING: usize = 2;

/// The line of a symbol.
#[derive(Clone, Copy)]
pub struct SymbolLine<'a> {
    /// Its index.
    pub index: u64,
    /// The symbol.
    pub symbol: Sym,
    /// Its section, or None where its extended index can not be told.
    pub place: Option<SymPlace>,
    /// Its name, or None where that can not be read.
    pub name: Option<&'a [u8]>,
}

/// Writes a reserved index, by its name or in hexadecimal, before a place.
#[tactic(auto, unfolding(crate::specs::RowsOfSymbols::SymbolLines::special_text))]
fn write_special(buffer: &mut [u8], end: usize, n: u32) -> usize
    requires room { 20 ≤ end }
    requires inside { end ≤ length buffer.old }
    ensures wrote { Precedes buffer.old buffer.new end result (special_text n) }
    ensures room { end ≤ result + 20 }
{
    if n == SHN_ABS {
        return write_text(buffer, end, "ABS");
    }
    if n == SHN_COMMON {
        return write_text(buffer, end, "COM");
    }
    let digits = write_hex(buffer, end, u64::from(n));
    write_text(buffer, digits, "0x")
}

/// Writes the section of a symbol before a place.
#[tactic(auto, unfolding(crate::specs::RowsOfSymbols::SymbolLines::place_text))]
#[inline(always)]
fn write_place(buffer: &mut [u8], end: usize, x: &Sym, place: Option<SymPlace>) -> usize
    requires room { 20 ≤ end }
    requires inside { end ≤ length buffer.old }
    ensures wrote { Precedes buffer.old buffer.new end result (place_text x.now place) }
    ensures room { end ≤ result + 20 }
{
    match place {
        None => write_text(buffer, end, "XINDEX"),
        Some(SymPlace::Special(n)) => write_special(buffer, end, u32::from(n)),
        Some(SymPlace::Section(n)) => {
            if u32::from(x.shndx) == SHN_UNDEF {
                write_text(buffer, end, "UND")
            } else {
                write_decimal(buffer, end, u64::from(n))
            }
        }
    }
}

/// Writes ` type T bind B vis V` before a place, word by word.
#[tactic(auto, unfolding(crate::specs::RowsOfSymbols::SymbolLines::symbol_names))]
#[inline(never)]
fn write_each_name(buffer: &mut [u8], end: usize, x: &Sym) -> usize
    requires room { 78 ≤ end }
    requires inside { end ≤ length buffer.old }
    ensures wrote { Precedes buffer.old buffer.new end result (symbol_names x.now) }
    ensures room { end ≤ result + 78 }
{
    let visibility = vis(x.other);
    let binding = bind(x.info);
    let kind = stt(x.info);
    let seen = visibility_name(visibility);
    let bound = binding_name(binding);
    let typed = symbol_type_name(kind);
    let vis_at = write_name_column(buffer, end, "vis", seen, u64::from(visibility));
    let bind_at = write_name_column(buffer, vis_at, "bind", bound, u64::from(binding));
    write_name_column(buffer, bind_at, "type", typed, u64::from(kind))
}

/// Writes ` type T bind B vis V` before a place.
#[inline(always)]
fn write_names(buffer: &mut [u8], end: usize, x: &Sym) -> usize
    requires room { 78 ≤ end }
    requires inside { end ≤ length buffer.old }
    ensures wrote { Precedes buffer.old buffer.new end result (symbol_names x.now) }
    ensures room { end ≤ result + 78 }
{
    match usual_names(x) {
        Some(names) => write_text(buffer, end, names),
        None => write_each_name(buffer, end, x),
    }
}

/// Writes `  I value 0xV size N` before a place.
#[tactic(auto, unfolding(crate::specs::RowsOfSymbols::SymbolLines::symbol_start))]
#[inline(always)]
fn write_start(buffer: &mut [u8], end: usize, i: u64, x: &Sym) -> usize
    requires room { 76 ≤ end }
    requires inside { end ≤ length buffer.old }
    ensures wrote { Precedes buffer.old buffer.new end result (symbol_start i x.now) }
    ensures room { end ≤ result + 76 }
{
    let size = write_decimal_column(buffer, end, "size", x.size);
    let value = write_hex_column(buffer, size, "value", x.value);
    write_row_start(buffer, value, i)
}

/// Writes what is before the name of a symbol and the text with which that is opened, before a
/// place.
#[tactic(auto, unfolding(crate::specs::RowsOfSymbols::Fronts::symbol_front))]
#[inline(always)]
fn write_front(buffer: &mut [u8], end: usize, line: &SymbolLine<'_>, opening: &str) -> usize
    requires short { length opening.now ≤ 8 }
    requires room { 192 ≤ end }
    requires inside { end ≤ length buffer.old }
    ensures { Precedes buffer.old buffer.new end result
        (symbol_front line.now.index line.now.symbol line.now.place opening.now) }
{
    let opened = write_text(buffer, end, opening);
    let place = write_place(buffer, opened, &line.symbol, line.place);
    let index = write_text(buffer, place, " shndx ");
    let names = write_names(buffer, index, &line.symbol);
    write_start(buffer, names, line.index, &line.symbol)
}

/// Writes the line of a symbol before a place of a buffer, and tells where it begins; None where
/// there may be no room for it.
#[inline(always)]
pub fn write_line(buffer: &mut [u8], end: usize, line: &SymbolLine<'_>) -> Option<usize>
    requires { end ≤ length buffer.old }
    ensures { IfSome result (λ at. Precedes buffer.old buffer.new end at
        (symbol_line line.now.index line.now.symbol line.now.place
        (option_copied line.now.name))) }
{
    if end < FRONT + CLOSING {
        return None;
    }
    match line.name {
        Some(name) => {
            if end - FRONT - CLOSING < name.len() {
                return None;
            }
            let closed = write_text(buffer, end, "]\n");
            let named = write_bytes(buffer, closed, name);
            Some(write_front(buffer, named, line, " ["))
        }
        None => Some(write_front(buffer, end, line, " <none>\n")),
    }
}

/// Appends what is before the name of a symbol and the text with which that is opened, by a buffer
/// for it.
#[tactic(auto, using(elf_types::proofs::Writers::kept))]
#[inline(always)]
fn put_front_by(
    page: &mut Octets,
    line: &SymbolLine<'_>,
    opening: &str,
    buffer: &mut [u8],
) -> Result<(), ElfError>
    requires len { length buffer.old ≡ 192 }
    requires short { length opening.now ≤ 8 }
    ensures ok { OnOk result (page.new ≡ page.old
        ++ symbol_front line.now.index line.now.symbol line.now.place opening.now) }
    ensures err { IfErr result (WantsMemory page.old page.new) }
{
    let at = write_front(buffer, FRONT, line, opening);
    put_bytes(page, &buffer[at..])
}

/// Appends what is before the name of a symbol, and the text with which that is opened.
#[tactic(auto, using(elf_types::proofs::Writers::kept))]
fn put_front(page: &mut Octets, line: &SymbolLine<'_>, opening: &str) -> Result<(), ElfError>
    requires { length opening.now ≤ 8 }
    ensures ok { OnOk result (page.new ≡ page.old
        ++ symbol_front line.now.index line.now.symbol line.now.place opening.now) }
    ensures err { IfErr result (WantsMemory page.old page.new) }
{
    let mut buffer = [0u8; FRONT];
    put_front_by(page, line, opening, &mut buffer)
}

impl Line for SymbolLine<'_> {
    ghost text = { λ l. symbol_line l.index l.symbol l.place (option_copied l.name) };

    #[tactic(auto, using(elf_types::proofs::Writers::kept))]
    fn put(&self, page: &mut Octets) -> Result<(), ElfError> {
        match self.name {
            Some(name) => {
                put_front(page, self, " [")?;
                put_bytes(page, name)?;
                put_text(page, "]\n")
            }
            None => put_front(page, self, " <none>\n"),
        }
    }
}
