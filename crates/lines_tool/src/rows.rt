//! The lines of a line table.

ghost use Rattle.std.specs.Prelude.{◌≡◌, ◌++◌, decimal, OnOk, IfErr};
ghost use Rattle.elf_types.specs.Writers.{WantsMemory};
ghost use Rattle.lines_tool.specs.Rows.{line_table_title, unit_title, file_line, word_if, row_place, row_words, row_line, fault_text};

use elf_types::{ElfError, Octets, put_bytes, put_decimal, put_hex, put_text};
use line_table::{LineWhy, Row};
use tool_output::Line;

/// Appends a number after the words that name it.
#[tactic(auto, using(elf_types::proofs::Writers::kept))]
fn put_named(page: &mut Octets, words: &str, n: u64) -> Result<(), ElfError>
    ensures ok { OnOk result (page.new ≡ page.old ++ (words.now ++ decimal n)) }
    ensures err { IfErr result (WantsMemory page.old page.new) }
{
    put_text(page, words)?;
    put_decimal(page, n)
}

/// The line before the units of a section.
#[derive(Clone, Copy)]
pub struct TableTitle {
    /// The section.
    pub section: u32,
}

impl Line for TableTitle {
    ghost text = { λ t. line_table_title t.section };

    #[tactic(auto, using(elf_types::proofs::Writers::kept), unfolding(crate::specs::Rows::line_table_title))]
    fn put(&self, page: &mut Octets) -> Result<(), ElfError> {
        put_named(page, "Line table of section ", u64::from(self.section))?;
        put_text(page, " [.debug_line]\n")
    }
}

/// The line before a unit.
#[derive(Clone, Copy)]
pub struct UnitTitle {
    /// The unit's place in the section, in bytes.
    pub at: u64,
    /// The version of its format.
    pub version: u16,
}

impl Line for UnitTitle {
    ghost text = { λ t. unit_title t.at t.version };

    #[tactic(auto, using(elf_types::proofs::Writers::kept), unfolding(crate::specs::Rows::unit_title))]
    fn put(&self, page: &mut Octets) -> Result<(), ElfError> {
        put_named(page, "  unit at ", self.at)?;
        put_named(page, " version ", u64::from(self.version))?;
        put_text(page, "\n")
    }
}

/// The line of a file.
#[derive(Clone, Copy)]
pub struct FileLine<'a> {
    /// Its number, of which the first is 1.
    pub number: u64,
    /// Its name.
    pub name: &'a [u8],
}

impl Line for FileLine<'_> {
    ghost text = { λ l. file_line l.number l.name.now };

    #[tactic(auto, using(elf_types::proofs::Writers::kept), unfolding(crate::specs::Rows::file_line))]
    fn put(&self, page: &mut Octets) -> Result<(), ElfError> {
        put_named(page, "    file ", self.number)?;
        put_text(page, " [")?;
        put_bytes(page, self.name)?;
        put_text(page, "]\n")
    }
}

/// Appends a word, where it holds.
#[tactic(auto, using(elf_types::proofs::Writers::kept))]
fn put_if(page: &mut Octets, holds: bool, word: &str) -> Result<(), ElfError>
    ensures ok { OnOk result (page.new ≡ page.old ++ word_if holds word.now) }
    ensures err { IfErr result (WantsMemory page.old page.new) }
{
    if holds { put_text(page, word) } else { Ok(()) }
}

/// Appends the file, the line and the column.
#[tactic(auto, using(elf_types::proofs::Writers::kept), unfolding(crate::specs::Rows::row_place))]
fn put_place(page: &mut Octets, row: &Row) -> Result<(), ElfError>
    ensures ok { OnOk result (page.new ≡ page.old ++ row_place row.now) }
    ensures err { IfErr result (WantsMemory page.old page.new) }
{
    put_named(page, " file ", row.file)?;
    put_named(page, " line ", u64::from(row.line))?;
    put_named(page, " column ", row.column)
}

/// Appends the words of a row.
#[tactic(auto, using(elf_types::proofs::Writers::kept), unfolding(crate::specs::Rows::row_words))]
fn put_words(page: &mut Octets, row: &Row) -> Result<(), ElfError>
    ensures ok { OnOk result (page.new ≡ page.old ++ row_words row.now) }
    ensures err { IfErr result (WantsMemory page.old page.new) }
{
    put_if(page, row.stmt, " stmt")?;
    put_if(page, row.end, " end")
}

/// The line of a row.
#[derive(Clone, Copy)]
pub struct RowLine<'a> {
    /// The row.
    pub row: &'a Row,
}

impl Line for RowLine<'_> {
    ghost text = { λ l. row_line l.row.now };

    #[tactic(auto, using(elf_types::proofs::Writers::kept), unfolding(crate::specs::Rows::row_line))]
    fn put(&self, page: &mut Octets) -> Result<(), ElfError> {
        let row = self.row;
        put_text(page, "    0x")?;
        put_hex(page, row.address)?;
        put_place(page, row)?;
        put_words(page, row)?;
        put_text(page, "\n")
    }
}

/// The text of a fault.
#[derive(Clone, Copy)]
pub struct FaultText {
    /// Its place in the section, in bytes.
    pub at: u64,
    /// Its cause.
    pub why: LineWhy,
}

impl Line for FaultText {
    ghost text = { λ f. fault_text f.at f.why };

    #[tactic(auto, using(elf_types::proofs::Writers::kept), unfolding(crate::specs::Rows::fault_text))]
    fn put(&self, page: &mut Octets) -> Result<(), ElfError> {
        put_named(page, "bad line table at ", self.at)?;
        put_text(page, ": ")?;
        put_text(page, self.why.text())
    }
}
