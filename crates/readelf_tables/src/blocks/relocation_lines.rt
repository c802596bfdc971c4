//! The line of a relocation. It is written from its end before a place of a buffer, so that those
//! of a block are written one before the other; or what is before the name of its symbol, and what
//! is after it, is written into a buffer of its own and put at once.

ghost use Rattle.std.specs.Prelude.{◌≡◌, ◌++◌, ◌+◌, ◌≤◌, length, OnOk, IfErr, IfSome};
ghost use Rattle.std.specs.Option.{option_copied};
ghost use Rattle.elf_types.specs.Writers.{WantsMemory};
ghost use Rattle.readelf_rows.specs.Fronts.{Precedes};
ghost use Rattle.readelf_tables.specs.Blocks.RelocationLines.{relocation_front, relocation_end, addend_text, relocation_line};

use elf_types::{ElfError, Octets, Rel, put_bytes};
use readelf_rows::fronts::{
    write_bytes, write_decimal_column, write_hex_column, write_row_start, write_signed, write_text,
};
use tool_output::Line;

/// What is before the name of a symbol takes at most so many bytes.
const FRONT: usize = 112;

/// What is after it takes at most so many.
const END: usize = 48;

/// Writes `  I offset 0xO type T sym Y` and the text with which the name is opened, before a place.
#[tactic(auto, unfolding(crate::specs::Blocks::RelocationLines::relocation_front))]
#[inline(always)]
fn write_front(buffer: &mut [u8], end: usize, i: u64, x: &Rel, opening: &str) -> usize
    requires room { 112 ≤ end }
    requires inside { end ≤ length buffer.old }
    requires short { length opening.now ≤ 8 }
    ensures { Precedes buffer.old buffer.new end result (relocation_front i x.now opening.now) }
{
    let opened = write_text(buffer, end, opening);
    let symbol = write_decimal_column(buffer, opened, "sym", u64::from(x.sym));
    let kind = write_decimal_column(buffer, symbol, "type", u64::from(x.rtype));
    let offset = write_hex_column(buffer, kind, "offset", x.offset);
    write_row_start(buffer, offset, i)
}

/// Appends what is before the name of a symbol and the text with which that is opened, by a buffer
/// for it.
#[tactic(auto, using(elf_types::proofs::Writers::kept))]
#[inline(always)]
fn put_front_by(
    page: &mut Octets,
    i: u64,
    x: &Rel,
    opening: &str,
    buffer: &mut [u8],
) -> Result<(), ElfError>
    requires len { length buffer.old ≡ 112 }
    requires short { length opening.now ≤ 8 }
    ensures ok { OnOk result (page.new ≡ page.old ++ relocation_front i x.now opening.now) }
    ensures err { IfErr result (WantsMemory page.old page.new) }
{
    let at = write_front(buffer, FRONT, i, x, opening);
    put_bytes(page, &buffer[at..])
}

/// Appends what is before the name of a symbol, and the text with which that is opened.
#[tactic(auto, using(elf_types::proofs::Writers::kept))]
fn put_front(page: &mut Octets, i: u64, x: &Rel, opening: &str) -> Result<(), ElfError>
    requires { length opening.now ≤ 8 }
    ensures ok { OnOk result (page.new ≡ page.old ++ relocation_front i x.now opening.now) }
    ensures err { IfErr result (WantsMemory page.old page.new) }
{
    let mut buffer = [0u8; FRONT];
    put_front_by(page, i, x, opening, &mut buffer)
}

/// Writes ` addend A` before a place, where there is one.
#[tactic(auto, unfolding(crate::specs::Blocks::RelocationLines::addend_text))]
#[inline(always)]
fn write_addend(buffer: &mut [u8], end: usize, addend: Option<i64>) -> usize
    requires room { 29 ≤ end }
    requires inside { end ≤ length buffer.old }
    ensures wrote { Precedes buffer.old buffer.new end result (addend_text addend) }
    ensures room { end ≤ result + 29 }
{
    match addend {
        None => write_text(buffer, end, ""),
        Some(addend) => {
            let digits = write_signed(buffer, end, addend);
            write_text(buffer, digits, " addend ")
        }
    }
}

/// Writes what is after the name of a symbol, after the text with which that is closed, before a
/// place.
#[tactic(auto, unfolding(crate::specs::Blocks::RelocationLines::relocation_end))]
#[inline(always)]
fn write_end(buffer: &mut [u8], end: usize, closing: &str, addend: Option<i64>) -> usize
    requires room { 48 ≤ end }
    requires inside { end ≤ length buffer.old }
    requires short { length closing.now ≤ 8 }
    ensures wrote { Precedes buffer.old buffer.new end result (relocation_end closing.now addend) }
    ensures room { end ≤ result + 48 }
{
    let newline = write_text(buffer, end, "\n");
    let addend = write_addend(buffer, newline, addend);
    write_text(buffer, addend, closing)
}

/// Appends what is after the name of a symbol, after the text with which that is closed, by a
/// buffer for it.
#[tactic(auto, using(elf_types::proofs::Writers::kept))]
#[inline(always)]
fn put_end_by(
    page: &mut Octets,
    closing: &str,
    addend: Option<i64>,
    buffer: &mut [u8],
) -> Result<(), ElfError>
    requires len { length buffer.old ≡ 48 }
    requires short { length closing.now ≤ 8 }
    ensures ok { OnOk result (page.new ≡ page.old ++ relocation_end closing.now addend) }
    ensures err { IfErr result (WantsMemory page.old page.new) }
{
    let at = write_end(buffer, END, closing, addend);
    put_bytes(page, &buffer[at..])
}

/// Appends what is after the name of a symbol, after the text with which that is closed.
#[tactic(auto, using(elf_types::proofs::Writers::kept))]
fn put_end(page: &mut Octets, closing: &str, addend: Option<i64>) -> Result<(), ElfError>
    requires { length closing.now ≤ 8 }
    ensures ok { OnOk result (page.new ≡ page.old ++ relocation_end closing.now addend) }
    ensures err { IfErr result (WantsMemory page.old page.new) }
{
    let mut buffer = [0u8; END];
    put_end_by(page, closing, addend, &mut buffer)
}

/// A relocation of a table, with its addend where it has one.
#[derive(Clone, Copy)]
pub struct RelocationEntry {
    /// Its index.
    pub index: u64,
    /// The relocation without its addend.
    pub rel: Rel,
    /// The addend.
    pub addend: Option<i64>,
}

/// The line of a relocation.
#[derive(Clone, Copy)]
pub struct RelocationLine<'a> {
    /// The relocation.
    pub entry: RelocationEntry,
    /// The name of its symbol.
    pub name: Option<&'a [u8]>,
}

/// Writes the line of a relocation before a place of a buffer, and tells where it begins; None
/// where there may be no room for it.
#[inline(always)]
pub fn write_line(buffer: &mut [u8], end: usize, line: &RelocationLine<'_>) -> Option<usize>
    requires { end ≤ length buffer.old }
    ensures { IfSome result (λ at. Precedes buffer.old buffer.new end at
        (relocation_line line.now.entry.index line.now.entry.rel line.now.entry.addend
        (option_copied line.now.name))) }
{
    let entry = &line.entry;
    if end < FRONT + END {
        return None;
    }
    match line.name {
        Some(name) => {
            if end - FRONT - END < name.len() {
                return None;
            }
            let closed = write_end(buffer, end, "]", entry.addend);
            let named = write_bytes(buffer, closed, name);
            Some(write_front(buffer, named, entry.index, &entry.rel, " ["))
        }
        None => {
            let closed = write_end(buffer, end, "", entry.addend);
            Some(write_front(buffer, closed, entry.index, &entry.rel, " <none>"))
        }
    }
}

impl Line for RelocationLine<'_> {
    ghost text = { λ l. relocation_line l.entry.index l.entry.rel l.entry.addend
        (option_copied l.name) };

    #[tactic(auto, using(elf_types::proofs::Writers::kept))]
    fn put(&self, page: &mut Octets) -> Result<(), ElfError> {
        match self.name {
            Some(name) => {
                put_front(page, self.entry.index, &self.entry.rel, " [")?;
                put_bytes(page, name)?;
                put_end(page, "]", self.entry.addend)
            }
            None => {
                put_front(page, self.entry.index, &self.entry.rel, " <none>")?;
                put_end(page, "", self.entry.addend)
            }
        }
    }
}
