//! Lines of one field, the columns of rows, and numbers with names. Each call fails with `Memory`
//! alone; what the buffer held then stays, with some bytes after it. What rows are made of is
//! compiled into each row, where the titles are constants.

ghost use Rattle.std.specs.Prelude.{◌≡◌, ◌++◌, OnOk, IfErr};
ghost use Rattle.std.specs.Option.{option_copied};
ghost use Rattle.elf_types.specs.Writers.{WantsMemory};
ghost use Rattle.readelf_rows.specs.Fields.{name_or_hex, field_title, field_line, decimal_line, hex_line, name_line, hex_column, decimal_column, name_column, row_start, counted_line};

use elf_types::{ElfError, Octets, put_decimal, put_hex, put_text};

/// Appends a name, or in hexadecimal a number that has none.
#[tactic(auto, using(elf_types::proofs::Writers::kept), unfolding(crate::specs::Fields::name_or_hex))]
#[inline(always)]
pub fn put_name_or_hex(
    page: &mut Octets,
    name: Option<&'static str>,
    n: u64,
) -> Result<(), ElfError>
    ensures ok { OnOk result (page.new ≡ page.old ++ name_or_hex (option_copied name.entry) n) }
    ensures err { IfErr result (WantsMemory page.old page.new) }
{
    match name {
        Some(name) => put_text(page, name),
        None => {
            put_text(page, "0x")?;
            put_hex(page, n)
        }
    }
}

/// Appends `  NAME: `.
#[tactic(auto, using(elf_types::proofs::Writers::kept), unfolding(crate::specs::Fields::field_title))]
fn put_title(page: &mut Octets, name: &str) -> Result<(), ElfError>
    ensures ok { OnOk result (page.new ≡ page.old ++ field_title name.now) }
    ensures err { IfErr result (WantsMemory page.old page.new) }
{
    put_text(page, "  ")?;
    put_text(page, name)?;
    put_text(page, ": ")
}

/// Appends the line `  NAME: VALUE`.
#[tactic(auto, using(elf_types::proofs::Writers::kept), unfolding(crate::specs::Fields::field_line))]
pub fn put_field(page: &mut Octets, name: &str, value: &str) -> Result<(), ElfError>
    ensures ok { OnOk result (page.new ≡ page.old ++ field_line name.now value.now) }
    ensures err { IfErr result (WantsMemory page.old page.new) }
{
    put_title(page, name)?;
    put_text(page, value)?;
    put_text(page, "\n")
}

/// Appends the line `  NAME: N`, the number in decimal.
#[tactic(auto, using(elf_types::proofs::Writers::kept), unfolding(crate::specs::Fields::field_line))]
pub fn put_decimal_field(page: &mut Octets, name: &str, n: u64) -> Result<(), ElfError>
    ensures ok { OnOk result (page.new ≡ page.old ++ decimal_line name.now n) }
    ensures err { IfErr result (WantsMemory page.old page.new) }
{
    put_title(page, name)?;
    put_decimal(page, n)?;
    put_text(page, "\n")
}

/// Appends the line `  NAME: 0xN`, the number in hexadecimal.
#[tactic(auto, using(elf_types::proofs::Writers::kept), unfolding(crate::specs::Fields::field_line))]
pub fn put_hex_field(page: &mut Octets, name: &str, n: u64) -> Result<(), ElfError>
    ensures ok { OnOk result (page.new ≡ page.old ++ hex_line name.now n) }
    ensures err { IfErr result (WantsMemory page.old page.new) }
{
    put_title(page, name)?;
    put_text(page, "0x")?;
    put_hex(page, n)?;
    put_text(page, "\n")
}

/// Appends the line `  TITLE: NAME`, the name of a number or the number in hexadecimal.
#[tactic(auto, using(elf_types::proofs::Writers::kept), unfolding(crate::specs::Fields::field_line))]
pub fn put_name_field(
    page: &mut Octets,
    title: &str,
    name: Option<&'static str>,
    n: u64,
) -> Result<(), ElfError>
    ensures ok { OnOk result
        (page.new ≡ page.old ++ name_line title.now (option_copied name.entry) n) }
    ensures err { IfErr result (WantsMemory page.old page.new) }
{
    put_title(page, title)?;
    put_name_or_hex(page, name, n)?;
    put_text(page, "\n")
}

/// Appends ` NAME 0xN`.
#[tactic(auto, using(elf_types::proofs::Writers::kept), unfolding(crate::specs::Fields::hex_column))]
#[inline(always)]
pub fn put_hex_column(page: &mut Octets, name: &str, n: u64) -> Result<(), ElfError>
    ensures ok { OnOk result (page.new ≡ page.old ++ hex_column name.now n) }
    ensures err { IfErr result (WantsMemory page.old page.new) }
{
    put_text(page, " ")?;
    put_text(page, name)?;
    put_text(page, " 0x")?;
    put_hex(page, n)
}

/// Appends ` NAME N`.
#[tactic(auto, using(elf_types::proofs::Writers::kept), unfolding(crate::specs::Fields::decimal_column))]
#[inline(always)]
pub fn put_decimal_column(page: &mut Octets, name: &str, n: u64) -> Result<(), ElfError>
    ensures ok { OnOk result (page.new ≡ page.old ++ decimal_column name.now n) }
    ensures err { IfErr result (WantsMemory page.old page.new) }
{
    put_text(page, " ")?;
    put_text(page, name)?;
    put_text(page, " ")?;
    put_decimal(page, n)
}

/// Appends ` TITLE NAME`, the name of a number or the number in hexadecimal.
#[tactic(auto, using(elf_types::proofs::Writers::kept), unfolding(crate::specs::Fields::name_column))]
#[inline(always)]
pub fn put_name_column(
    page: &mut Octets,
    title: &str,
    name: Option<&'static str>,
    n: u64,
) -> Result<(), ElfError>
    ensures ok { OnOk result
        (page.new ≡ page.old ++ name_column title.now (option_copied name.entry) n) }
    ensures err { IfErr result (WantsMemory page.old page.new) }
{
    put_text(page, " ")?;
    put_text(page, title)?;
    put_text(page, " ")?;
    put_name_or_hex(page, name, n)
}

/// Appends `  I`, with which a row begins.
#[tactic(auto, using(elf_types::proofs::Writers::kept), unfolding(crate::specs::Fields::row_start))]
#[inline(always)]
pub fn put_row_start(page: &mut Octets, i: u64) -> Result<(), ElfError>
    ensures ok { OnOk result (page.new ≡ page.old ++ row_start i) }
    ensures err { IfErr result (WantsMemory page.old page.new) }
{
    put_text(page, "  ")?;
    put_decimal(page, i)
}

/// Appends `TITLE N`, the title of a list of so many.
#[tactic(auto, using(elf_types::proofs::Writers::kept), unfolding(crate::specs::Fields::counted_line))]
pub fn put_counted_line(page: &mut Octets, title: &str, count: u64) -> Result<(), ElfError>
    ensures ok { OnOk result (page.new ≡ page.old ++ counted_line title.now count) }
    ensures err { IfErr result (WantsMemory page.old page.new) }
{
    put_text(page, title)?;
    put_decimal(page, count)?;
    put_text(page, "\n")
}
