//! Columns of a text and a number, and bytes, in the lines of results. Each call fails with
//! `Memory` alone; what the buffer held then stays, with some bytes after it.

ghost use Rattle.std.specs.Prelude.{◌≡◌, ◌++◌, flat_map, OnOk, IfErr};
ghost use Rattle.elf_types.specs.Writers.{WantsMemory};
ghost use Rattle.calls_tool.specs.Lines.{number_text, column_text, bytes_text};

use elf_types::{ElfError, Octets, put_decimal, put_hex, put_signed, put_text};
use tool_output::columns::put_hex_pairs;

/// A number, by the way it is written.
#[derive(Clone, Copy)]
pub enum Number {
    /// In decimal.
    Decimal(u64),
    /// In hexadecimal, after `0x`.
    Hex(u64),
    /// With its sign, in decimal.
    Signed(i64),
}

/// A text, and the number after it.
pub(super) type Column = (&'static str, Number);

/// Appends a number.
#[tactic(auto, using(elf_types::proofs::Writers::kept), unfolding(crate::specs::Lines::number_text))]
fn put_number(page: &mut Octets, number: Number) -> Result<(), ElfError>
    ensures ok { OnOk result (page.new ≡ page.old ++ number_text number) }
    ensures err { IfErr result (WantsMemory page.old page.new) }
{
    match number {
        Number::Decimal(n) => put_decimal(page, n),
        Number::Hex(n) => {
            put_text(page, "0x")?;
            put_hex(page, n)
        }
        Number::Signed(n) => put_signed(page, n),
    }
}

/// Appends a text and a number.
#[tactic(auto, using(elf_types::proofs::Writers::kept), unfolding(crate::specs::Lines::column_text))]
pub(super) fn put_column(page: &mut Octets, text: &str, number: Number) -> Result<(), ElfError>
    ensures ok { OnOk result (page.new ≡ page.old ++ column_text text.now number) }
    ensures err { IfErr result (WantsMemory page.old page.new) }
{
    put_text(page, text)?;
    put_number(page, number)
}

/// Appends columns, one after another.
#[tactic(auto, using(elf_types::proofs::Writers::kept))]
pub(super) fn put_columns(page: &mut Octets, columns: &[Column]) -> Result<(), ElfError>
    ensures ok { OnOk result
        (page.new ≡ page.old ++ flat_map (λ c. column_text c.0.now c.1) columns.now) }
    ensures err { IfErr result (WantsMemory page.old page.new) }
{
    for column in columns {
        put_column(page, column.0, column.1)?;
    }
    Ok(())
}

/// Appends bytes, two hexadecimal digits each, or `-` where there are none.
#[tactic(auto, using(elf_types::proofs::Writers::kept), unfolding(crate::specs::Lines::bytes_text))]
pub(super) fn put_hex_bytes(page: &mut Octets, bytes: &[u8]) -> Result<(), ElfError>
    ensures ok { OnOk result (page.new ≡ page.old ++ bytes_text bytes.now) }
    ensures err { IfErr result (WantsMemory page.old page.new) }
{
    if bytes.is_empty() {
        return put_text(page, "-");
    }
    put_hex_pairs(page, bytes)
}
