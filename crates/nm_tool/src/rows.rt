//! The row of a symbol as a line.

ghost use Rattle.std.specs.Prelude.{◌≡◌, ◌++◌, ◌∷◌, ◌≤◌, [], codes, OnOk, IfErr};
ghost use Rattle.elf_types.specs.Writers.{WantsMemory};
ghost use Rattle.tool_output.specs.Columns.Columns.{radix_digits, spaces};
ghost use Rattle.nm_tool.specs.Rows.{file_column, width_of, value_column, value_and_size, plain_row, portable_row, row_by, row_text};

use crate::options::NmOptions;
use elf_types::{Class, ElfError, Octets, Sym, put_bytes, put_text};
use tool_output::columns::{put_number, put_zero_filled_before};
use tool_output::{FileName, Line};
use tool_text::Radix;

/// The row of a symbol.
#[derive(Clone, Copy)]
pub struct SymbolRow<'a> {
    /// The options.
    pub options: &'a NmOptions,
    /// The class of the object.
    pub class: Class,
    /// The file, or the member of an archive.
    pub file: &'a FileName<'a>,
    /// Whether the symbol is undefined.
    pub undefined: bool,
    /// The symbol.
    pub symbol: Sym,
    /// Its letter.
    pub letter: u8,
    /// Its name, as it is shown.
    pub name: &'a [u8],
}

/// Appends the file's name, where each row has it.
#[tactic(auto, using(elf_types::proofs::Writers::kept), unfolding(crate::specs::Rows::file_column))]
fn put_file(page: &mut Octets, name_each: bool, file: &FileName<'_>) -> Result<(), ElfError>
    ensures ok { OnOk result (page.new ≡ page.old ++ file_column name_each file.now) }
    ensures err { IfErr result (WantsMemory page.old page.new) }
{
    if name_each {
        file.put(page)?;
        put_text(page, ": ")
    } else {
        Ok(())
    }
}

/// Appends a space and a letter.
#[tactic(auto, using(elf_types::proofs::Writers::kept))]
fn put_letter(page: &mut Octets, letter: u8) -> Result<(), ElfError>
    ensures ok { OnOk result (page.new ≡ page.old ++ (codes " " ++ (letter ∷ []))) }
    ensures err { IfErr result (WantsMemory page.old page.new) }
{
    put_bytes(page, &[b' ', letter])
}

/// How many digits a value of class 32 has at least.
const WIDTH_32: usize = 8;

/// How many digits a value of class 64 has at least.
const WIDTH_64: usize = 16;

/// How many digits a value has at least.
fn width_of(class: Class) -> usize
    ensures value { result ≡ width_of class }
    ensures small { result ≤ 16 }
{
    match class {
        Class::C32 => WIDTH_32,
        Class::C64 => WIDTH_64,
    }
}

/// Appends as many blanks as a value has places at least, and a letter between two spaces.
#[tactic(auto, unfolding(tool_output::specs::Columns::Columns::spaces))]
fn put_undefined(page: &mut Octets, class: Class, letter: u8) -> Result<(), ElfError>
    ensures ok { OnOk result (page.new ≡ page.old
        ++ (spaces (width_of class) ++ codes " " ++ (letter ∷ []) ++ codes " ")) }
    ensures err { IfErr result (WantsMemory page.old page.new) }
{
    let mut text = [b' '; WIDTH_64 + 3];
    text[WIDTH_64 + 1] = letter;
    match class {
        Class::C32 => put_bytes(page, &text[WIDTH_64 - WIDTH_32..]),
        Class::C64 => put_bytes(page, &text),
    }
}

/// Appends the value, or as many blanks where the symbol is undefined, and the letter between two
/// spaces.
#[tactic(auto, unfolding(crate::specs::Rows::value_column))]
fn put_value_and_letter(
    page: &mut Octets,
    radix: Radix,
    class: Class,
    undefined: bool,
    value: u64,
    letter: u8,
) -> Result<(), ElfError>
    ensures ok { OnOk result (page.new ≡ page.old ++ (value_column radix class undefined value
        ++ codes " " ++ (letter ∷ []) ++ codes " ")) }
    ensures err { IfErr result (WantsMemory page.old page.new) }
{
    if undefined {
        return put_undefined(page, class, letter);
    }
    let width = width_of(class);
    put_zero_filled_before(page, u128::from(value), radix, width, [b' ', letter, b' '])
}

/// Appends a space and a number.
#[tactic(auto, using(elf_types::proofs::Writers::kept))]
fn put_spaced(page: &mut Octets, radix: Radix, n: u64) -> Result<(), ElfError>
    ensures ok { OnOk result (page.new ≡ page.old ++ (codes " " ++ radix_digits radix n)) }
    ensures err { IfErr result (WantsMemory page.old page.new) }
{
    put_text(page, " ")?;
    put_number(page, u128::from(n), radix)
}

/// Appends ` VALUE SIZE`, which an undefined symbol does not have.
#[tactic(auto, using(elf_types::proofs::Writers::kept), unfolding(crate::specs::Rows::value_and_size))]
fn put_value_and_size(
    page: &mut Octets,
    radix: Radix,
    undefined: bool,
    x: &Sym,
) -> Result<(), ElfError>
    ensures ok { OnOk result (page.new ≡ page.old ++ value_and_size radix undefined x.now) }
    ensures err { IfErr result (WantsMemory page.old page.new) }
{
    if undefined {
        return Ok(());
    }
    put_spaced(page, radix, x.value)?;
    put_spaced(page, radix, x.size)
}

/// Appends `VALUE LETTER NAME` and the newline.
#[tactic(auto, using(elf_types::proofs::Writers::kept), unfolding(crate::specs::Rows::plain_row))]
fn put_plain(page: &mut Octets, row: &SymbolRow<'_>) -> Result<(), ElfError>
    ensures ok { OnOk result (page.new ≡ page.old ++ plain_row row.now.options.now.radix
        row.now.class row.now.undefined row.now.symbol row.now.letter row.now.name.now) }
    ensures err { IfErr result (WantsMemory page.old page.new) }
{
    let radix = row.options.radix;
    let value = row.symbol.value;
    put_value_and_letter(page, radix, row.class, row.undefined, value, row.letter)?;
    put_bytes(page, row.name)?;
    put_text(page, "\n")
}

/// Appends `NAME LETTER VALUE SIZE` and the newline.
#[tactic(auto, using(elf_types::proofs::Writers::kept), unfolding(crate::specs::Rows::portable_row))]
fn put_portable(page: &mut Octets, row: &SymbolRow<'_>) -> Result<(), ElfError>
    ensures ok { OnOk result (page.new ≡ page.old ++ portable_row row.now.options.now.radix
        row.now.undefined row.now.symbol row.now.letter row.now.name.now) }
    ensures err { IfErr result (WantsMemory page.old page.new) }
{
    put_bytes(page, row.name)?;
    put_letter(page, row.letter)?;
    put_value_and_size(page, row.options.radix, row.undefined, &row.symbol)?;
    put_text(page, "\n")
}

/// Appends the columns of a row in the format that is asked for.
#[tactic(auto, unfolding(crate::specs::Rows::row_by))]
fn put_columns(page: &mut Octets, row: &SymbolRow<'_>) -> Result<(), ElfError>
    ensures ok { OnOk result (page.new ≡ page.old ++ row_by row.now.options.now
        row.now.class row.now.undefined row.now.symbol row.now.letter row.now.name.now) }
    ensures err { IfErr result (WantsMemory page.old page.new) }
{
    if row.options.portable {
        put_portable(page, row)
    } else {
        put_plain(page, row)
    }
}

impl Line for SymbolRow<'_> {
    ghost text = { λ r. row_text r.options.now r.class r.file.now r.undefined r.symbol r.letter
        r.name.now };

    #[tactic(auto, using(elf_types::proofs::Writers::kept), unfolding(crate::specs::Rows::row_text))]
    fn put(&self, page: &mut Octets) -> Result<(), ElfError> {
        put_file(page, self.options.name_each, self.file)?;
        put_columns(page, self)
    }
}
