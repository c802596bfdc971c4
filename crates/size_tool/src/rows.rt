//! The lines of size.

ghost use Rattle.std.specs.Prelude.{◌≡◌, ◌++◌, OnOk, IfErr};
ghost use Rattle.elf_types.specs.Writers.{WantsMemory};
ghost use Rattle.size_tool.specs.Rows.{size_title, cell, sum_cells, total_cells, size_row};

use crate::sums::Sums;
use elf_types::{ElfError, Octets, put_text};
use tool_output::columns::put_column;
use tool_output::{FileName, Line, NameEx};
use tool_text::Radix;

/// The line before those of all objects.
#[derive(Clone, Copy)]
pub struct SizeTitle;

impl Line for SizeTitle {
    ghost text = { λ _. size_title };

    #[tactic(auto, using(elf_types::proofs::Writers::kept), unfolding(crate::specs::Rows::size_title))]
    fn put(&self, page: &mut Octets) -> Result<(), ElfError> {
        put_text(
            page,
            "   text\t   data\t    bss\t    dec\t    hex\tfilename\n",
        )
    }
}

/// Appends a number in its column, and a tab.
#[tactic(auto, using(elf_types::proofs::Writers::kept), unfolding(crate::specs::Rows::cell))]
fn put_cell(page: &mut Octets, radix: Radix, n: u128) -> Result<(), ElfError>
    ensures ok { OnOk result (page.new ≡ page.old ++ cell radix n) }
    ensures err { IfErr result (WantsMemory page.old page.new) }
{
    put_column(page, n, radix)?;
    put_text(page, "\t")
}

/// Appends the three sums.
#[tactic(auto, using(elf_types::proofs::Writers::kept), unfolding(crate::specs::Rows::sum_cells))]
fn put_sums(page: &mut Octets, sums: &Sums) -> Result<(), ElfError>
    ensures ok { OnOk result (page.new ≡ page.old ++ sum_cells sums.now) }
    ensures err { IfErr result (WantsMemory page.old page.new) }
{
    put_cell(page, Radix::Decimal, sums.text)?;
    put_cell(page, Radix::Decimal, sums.data)?;
    put_cell(page, Radix::Decimal, sums.bss)
}

/// Appends their sum, in decimal and in hexadecimal.
#[tactic(auto, using(elf_types::proofs::Writers::kept), unfolding(crate::specs::Rows::total_cells))]
fn put_total(page: &mut Octets, total: u128) -> Result<(), ElfError>
    ensures ok { OnOk result (page.new ≡ page.old ++ total_cells total) }
    ensures err { IfErr result (WantsMemory page.old page.new) }
{
    put_cell(page, Radix::Decimal, total)?;
    put_cell(page, Radix::Hex, total)
}

/// The line of an object.
#[derive(Clone, Copy)]
pub struct SizeRow<'a> {
    /// Its sums.
    pub sums: Sums,
    /// The sum of the three.
    pub total: u128,
    /// The file, or the member of an archive.
    pub name: &'a FileName<'a>,
}

impl Line for SizeRow<'_> {
    ghost text = { λ r. size_row r.sums r.total r.name.now };

    #[tactic(auto, using(elf_types::proofs::Writers::kept), unfolding(crate::specs::Rows::size_row))]
    fn put(&self, page: &mut Octets) -> Result<(), ElfError> {
        put_sums(page, &self.sums)?;
        put_total(page, self.total)?;
        NameEx { name: self.name }.put(page)?;
        put_text(page, "\n")
    }
}
