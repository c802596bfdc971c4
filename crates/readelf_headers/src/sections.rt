//! The lines of the section headers. A line is written from its end before a place of a buffer, so
//! that the lines of a block are written one before the other; or what is before the name of a
//! section, and what is after it, is written into a buffer of its own and put at once.

ghost use Rattle.std.specs.Prelude.{◌≡◌, ◌++◌, ◌+◌, ◌≤◌, codes, length, OnOk, IfErr, IfSome};
ghost use Rattle.std.specs.Option.{option_copied};
ghost use Rattle.elf_types.specs.Names.{section_type_name_of};
ghost use Rattle.elf_types.specs.Writers.{WantsMemory};
ghost use Rattle.elf_object.specs.Due.{all_sections};
ghost use Rattle.tool_output.specs.Reports.{reports_of};
ghost use Rattle.tool_objects.specs.Steps.{ReportsOver};
ghost use Rattle.readelf_rows.specs.Fields.{name_or_hex, decimal_column};
ghost use Rattle.readelf_rows.specs.Fronts.{Precedes};
ghost use Rattle.readelf_headers.specs.Sections.{section_places, section_number_columns, section_front, section_end, section_line, sections_title, shown_section_line, sections_report};

use crate::section_blocks::{load_names, names_at_hand, show_blocks};
use elf_outside::{Sink, Source};
use elf_types::{ElfError, Octets, ScnId, Shdr, put_bytes, section_type_name};
use readelf_rows::fronts::{
    write_bytes, write_decimal, write_decimal_column, write_hex_column, write_name_or_hex,
    write_row_start, write_text,
};
use readelf_rows::put_counted_line;
use tool_objects::prelude::Elf;
use tool_objects::{SectionTool, each_section, section_header, section_name_or_stop};
use tool_output::{Line, Outputs, Stop};

/// What is before the name of a section takes at most so many bytes.
const FRONT: usize = 32;

/// What is after it takes at most so many.
const END: usize = 256;

/// Writes the name of a type, or the type in hexadecimal, before a place.
#[inline(always)]
fn write_type(buffer: &mut [u8], end: usize, stype: u32) -> usize
    requires room { 18 ≤ end }
    requires inside { end ≤ length buffer.old }
    ensures wrote { Precedes buffer.old buffer.new end result
        (name_or_hex (section_type_name_of stype) stype) }
    ensures room { end ≤ result + 18 }
{
    write_name_or_hex(buffer, end, section_type_name(stype), u64::from(stype))
}

/// Writes the flags, the address and the extent before a place.
#[tactic(auto, unfolding(crate::specs::Sections::section_places))]
#[inline(always)]
fn write_places(buffer: &mut [u8], end: usize, h: &Shdr) -> usize
    requires room { 104 ≤ end }
    requires inside { end ≤ length buffer.old }
    ensures wrote { Precedes buffer.old buffer.new end result (section_places h.now) }
    ensures room { end ≤ result + 104 }
{
    let size = write_hex_column(buffer, end, "size", h.size);
    let offset = write_hex_column(buffer, size, "offset", h.offset);
    let addr = write_hex_column(buffer, offset, "addr", h.addr);
    write_hex_column(buffer, addr, "flags", h.flags)
}

/// Writes ` entsize N` before a place.
#[tactic(auto, unfolding(readelf_rows::specs::Fields::decimal_column))]
#[inline(always)]
fn write_entry_size(buffer: &mut [u8], end: usize, n: u64) -> usize
    requires room { 29 ≤ end }
    requires inside { end ≤ length buffer.old }
    ensures wrote { Precedes buffer.old buffer.new end result (decimal_column (codes "entsize") n) }
    ensures room { end ≤ result + 29 }
{
    let digits = write_decimal(buffer, end, n);
    let space = write_text(buffer, digits, " ");
    let title = write_text(buffer, space, "entsize");
    write_text(buffer, title, " ")
}

/// Writes the links, the alignment and the size of an entry before a place.
#[tactic(auto, unfolding(crate::specs::Sections::section_number_columns))]
#[inline(always)]
fn write_numbers(buffer: &mut [u8], end: usize, h: &Shdr) -> usize
    requires room { 113 ≤ end }
    requires inside { end ≤ length buffer.old }
    ensures wrote { Precedes buffer.old buffer.new end result (section_number_columns h.now) }
    ensures room { end ≤ result + 113 }
{
    let entsize = write_entry_size(buffer, end, h.entsize);
    let align = write_decimal_column(buffer, entsize, "align", h.addralign);
    let info = write_decimal_column(buffer, align, "info", u64::from(h.info));
    write_decimal_column(buffer, info, "link", u64::from(h.link))
}

/// Writes what is after the name of a section, after the text with which that is closed, before a
/// place.
#[tactic(auto, unfolding(crate::specs::Sections::section_end))]
#[inline(always)]
fn write_end(buffer: &mut [u8], end: usize, closing: &str, h: &Shdr) -> usize
    requires room { 256 ≤ end }
    requires inside { end ≤ length buffer.old }
    requires short { length closing.now ≤ 8 }
    ensures wrote { Precedes buffer.old buffer.new end result (section_end closing.now h.now) }
    ensures room { end ≤ result + 256 }
{
    let newline = write_text(buffer, end, "\n");
    let numbers = write_numbers(buffer, newline, h);
    let places = write_places(buffer, numbers, h);
    let stype = write_type(buffer, places, h.stype);
    write_text(buffer, stype, closing)
}

/// Appends what is after the name of a section, after the text with which that is closed, by a
/// buffer for it.
#[tactic(auto, using(elf_types::proofs::Writers::kept))]
#[inline(always)]
fn put_end_by(page: &mut Octets, closing: &str, h: &Shdr, buffer: &mut [u8]) -> Result<(), ElfError>
    requires len { length buffer.old ≡ 256 }
    requires short { length closing.now ≤ 8 }
    ensures ok { OnOk result (page.new ≡ page.old ++ section_end closing.now h.now) }
    ensures err { IfErr result (WantsMemory page.old page.new) }
{
    let at = write_end(buffer, END, closing, h);
    put_bytes(page, &buffer[at..])
}

/// Appends what is after the name of a section, after the text with which that is closed.
#[tactic(auto, using(elf_types::proofs::Writers::kept))]
fn put_end(page: &mut Octets, closing: &str, h: &Shdr) -> Result<(), ElfError>
    requires { length closing.now ≤ 8 }
    ensures ok { OnOk result (page.new ≡ page.old ++ section_end closing.now h.now) }
    ensures err { IfErr result (WantsMemory page.old page.new) }
{
    let mut buffer = [0u8; END];
    put_end_by(page, closing, h, &mut buffer)
}

/// Writes `  I` and the text with which the name is opened, before a place.
#[inline(always)]
fn write_front(buffer: &mut [u8], end: usize, i: u64, opening: &str) -> usize
    requires room { 32 ≤ end }
    requires inside { end ≤ length buffer.old }
    requires short { length opening.now ≤ 8 }
    ensures { Precedes buffer.old buffer.new end result (section_front i opening.now) }
{
    let opened = write_text(buffer, end, opening);
    write_row_start(buffer, opened, i)
}

/// Appends `  I` and the text with which the name is opened, by a buffer for it.
#[tactic(auto, using(elf_types::proofs::Writers::kept))]
#[inline(always)]
fn put_front_by(page: &mut Octets, i: u64, opening: &str, buffer: &mut [u8]) -> Result<(), ElfError>
    requires len { length buffer.old ≡ 32 }
    requires short { length opening.now ≤ 8 }
    ensures ok { OnOk result (page.new ≡ page.old ++ section_front i opening.now) }
    ensures err { IfErr result (WantsMemory page.old page.new) }
{
    let at = write_front(buffer, FRONT, i, opening);
    put_bytes(page, &buffer[at..])
}

/// Appends `  I` and the text with which the name is opened.
#[tactic(auto, using(elf_types::proofs::Writers::kept))]
fn put_front(page: &mut Octets, i: u32, opening: &str) -> Result<(), ElfError>
    requires { length opening.now ≤ 8 }
    ensures ok { OnOk result (page.new ≡ page.old ++ section_front i opening.now) }
    ensures err { IfErr result (WantsMemory page.old page.new) }
{
    let mut buffer = [0u8; FRONT];
    put_front_by(page, u64::from(i), opening, &mut buffer)
}

/// Writes the line of a section before a place of a buffer, and tells where it begins; None where
/// there may be no room for it.
#[inline(always)]
pub fn write_line(
    buffer: &mut [u8],
    end: usize,
    index: u32,
    name: Option<&[u8]>,
    h: &Shdr,
) -> Option<usize>
    requires { end ≤ length buffer.old }
    ensures { IfSome result (λ at. Precedes buffer.old buffer.new end at
        (section_line index (option_copied name.entry) h.now)) }
{
    if end < FRONT + END {
        return None;
    }
    match name {
        Some(name) => {
            if end - FRONT - END < name.len() {
                return None;
            }
            let closed = write_end(buffer, end, "] ", h);
            let named = write_bytes(buffer, closed, name);
            Some(write_front(buffer, named, u64::from(index), " ["))
        }
        None => {
            let closed = write_end(buffer, end, " ", h);
            Some(write_front(buffer, closed, u64::from(index), " <none>"))
        }
    }
}

/// The line of a section.
#[derive(Clone, Copy)]
pub struct SectionLine<'a> {
    /// Its number.
    pub index: u32,
    /// Its name.
    pub name: Option<&'a [u8]>,
    /// Its header.
    pub header: Shdr,
}

impl Line for SectionLine<'_> {
    ghost text = { λ l. section_line l.index (option_copied l.name) l.header };

    #[tactic(auto, using(elf_types::proofs::Writers::kept))]
    fn put(&self, page: &mut Octets) -> Result<(), ElfError> {
        match self.name {
            Some(name) => {
                put_front(page, self.index, " [")?;
                put_bytes(page, name)?;
                put_end(page, "] ", &self.header)
            }
            None => {
                put_front(page, self.index, " <none>")?;
                put_end(page, " ", &self.header)
            }
        }
    }
}

/// The first line.
#[derive(Clone, Copy)]
struct SectionsTitle {
    /// How many there are.
    count: u32,
}

impl Line for SectionsTitle {
    ghost text = { λ t. sections_title t.count };

    #[tactic(auto, using(elf_types::proofs::Writers::kept), unfolding(crate::specs::Sections::sections_title))]
    fn put(&self, page: &mut Octets) -> Result<(), ElfError> {
        put_counted_line(page, "Section headers: ", u64::from(self.count))
    }
}

/// A line for each section.
#[derive(Clone, Copy)]
struct SectionRows;

impl SectionTool for SectionRows {
    ghost report = { λ _. shown_section_line };

    fn show<S: Source, O: Sink, E: Sink>(
        &self,
        elf: &mut Elf<S>,
        s: ScnId,
        outputs: &mut Outputs<'_, O, E>,
    ) -> Result<bool, Stop> {
        let header = section_header(elf, s);
        match section_name_or_stop(elf, s) {
            Ok(name) => outputs.show(&SectionLine {
                index: s.0,
                name,
                header,
            }),
            Err(stop) => Err(stop),
        }
    }
}

/// Shows a line for each section, from the strings of the names where these are in memory.
fn show_lines<S: Source, O: Sink, E: Sink>(
    elf: &mut Elf<S>,
    outputs: &mut Outputs<'_, O, E>,
) -> Result<bool, Stop>
    ensures { ReportsOver S.Source O.Sink E.Sink 1
        (λ o. reports_of (shown_section_line o) (all_sections o))
        result elf.old elf.new outputs.old outputs.new }
{
    match names_at_hand(elf) {
        Some(strings) => show_blocks(elf, strings, outputs),
        None => each_section(&SectionRows, elf, outputs),
    }
}

/// Shows a line for each section. The names are read first, once, where they are one table.
fn show_rows<S: Source, O: Sink, E: Sink>(
    elf: &mut Elf<S>,
    outputs: &mut Outputs<'_, O, E>,
) -> Result<bool, Stop>
    ensures { ReportsOver S.Source O.Sink E.Sink 1
        (λ o. reports_of (shown_section_line o) (all_sections o))
        result elf.old elf.new outputs.old outputs.new }
{
    match load_names(elf) {
        Ok(()) => show_lines(elf, outputs),
        Err(stop) => Err(stop),
    }
}

/// Shows the section headers: their number, and a line for each. The names are read once, with the
/// section that holds them. Nothing is rejected.
pub fn show_sections<S: Source, O: Sink, E: Sink>(
    elf: &mut Elf<S>,
    outputs: &mut Outputs<'_, O, E>,
) -> Result<bool, Stop>
    ensures { ReportsOver S.Source O.Sink E.Sink 1 sections_report
        result elf.old elf.new outputs.old outputs.new }
{
    let count = elf.shnum();
    outputs.show(&SectionsTitle { count })?;
    show_rows(elf, outputs)
}
