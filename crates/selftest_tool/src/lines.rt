//! The five lines of the self test.

ghost use Rattle.std.specs.Prelude.{◌≡◌, ◌++◌, OnOk, IfErr};
ghost use Rattle.elf_types.specs.Writers.{WantsMemory};
ghost use Rattle.selftest_tool.specs.Told.{number_line, found_line, lines_text};

use elf_types::{ElfError, Octets, put_text};
use tool_output::Line;
use tool_output::columns::put_number;
use tool_text::Radix;

/// Appends a word and a number, on a line.
#[tactic(auto, using(elf_types::proofs::Writers::kept), unfolding(crate::specs::Told::number_line, tool_output::specs::Columns::Columns::radix_digits))]
fn put_line(page: &mut Octets, word: &str, n: u128) -> Result<(), ElfError>
    ensures ok { OnOk result (page.new ≡ page.old ++ number_line word.now n) }
    ensures err { IfErr result (WantsMemory page.old page.new) }
{
    put_text(page, word)?;
    put_text(page, " ")?;
    put_number(page, n, Radix::Decimal)?;
    put_text(page, "\n")
}

/// Appends the line of what a lookup found.
#[tactic(auto, using(elf_types::proofs::Writers::kept), unfolding(crate::specs::Told::found_line, crate::specs::Told::number_line))]
fn put_found(page: &mut Octets, found: Option<u64>) -> Result<(), ElfError>
    ensures ok { OnOk result (page.new ≡ page.old ++ found_line found) }
    ensures err { IfErr result (WantsMemory page.old page.new) }
{
    match found {
        Some(i) => put_line(page, "found", u128::from(i)),
        None => put_text(page, "found none\n"),
    }
}

/// What the self test tells of an image.
#[derive(Clone, Copy)]
pub struct FiveLines {
    /// How many sections it has.
    pub sections: u32,
    /// How many symbols.
    pub symbols: u64,
    /// How many bytes.
    pub bytes: u64,
    /// The sum of the values of the symbols.
    pub sum: u128,
    /// The index of the last symbol, where a lookup by its name finds it.
    pub found: Option<u64>,
}

impl Line for FiveLines {
    ghost text = { λ l. lines_text l.sections l.symbols l.bytes l.sum l.found };

    #[tactic(auto, using(elf_types::proofs::Writers::kept), unfolding(crate::specs::Told::lines_text))]
    fn put(&self, page: &mut Octets) -> Result<(), ElfError> {
        put_line(page, "sections", u128::from(self.sections))?;
        put_line(page, "symbols", u128::from(self.symbols))?;
        put_line(page, "bytes", u128::from(self.bytes))?;
        put_line(page, "value sum", self.sum)?;
        put_found(page, self.found)
    }
}
