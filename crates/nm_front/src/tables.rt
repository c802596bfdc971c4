//! The first table of symbols of an image, and the strings to which it links.

ghost use Rattle.std.specs.Prelude.{◌≡◌, ◌/◌, ◌^◌, ◌≤◌, slice_get, true, Some, None, IfSome};
ghost use Rattle.std.specs.List.{position, list_any};
ghost use Rattle.elf_types.specs.declared.constants.TheConstants.{SHT_STRTAB as TYPE_OF_STRINGS};
ghost use Rattle.elf_types.specs.declared.records.Kind.TheVariants as kinds;
ghost use Rattle.elf_xlate.specs.Items.{item_size};
ghost use Rattle.elf_xlate.specs.Translation.{is_whole};
ghost use Rattle.nm_front.specs.Tables.{is_symbols, is_indexes, LiesInImage, ArePlain, IsPlain, Tells};

use elf_ident::Front;
use elf_types::constants::{SHT_STRTAB, SHT_SYMTAB, SHT_SYMTAB_SHNDX};
use elf_types::{Class, Shdr, is_compressed};

/// A table of symbols that has no extended indexes. It lies in the image, and so do the strings to
/// which it links.
#[derive(Clone, Copy)]
pub struct PlainTable {
    /// The number of its section.
    pub section: usize,
    /// The header of its section.
    pub symbols: Shdr,
    /// The header of the section of its strings.
    pub names: Shdr,
}

/// What a front tells of the symbols of its image.
#[derive(Clone, Copy)]
pub enum FrontSymbols {
    /// There is no table of them.
    Missing,
    /// Two ranges of the image hold them and their names.
    Plain(PlainTable),
    /// They must be told by a descriptor.
    Other,
}

/// Whether a section is of type `SHT_SYMTAB`, and its data not compressed.
fn is_symbols(h: &Shdr) -> bool
    ensures { result ≡ is_symbols h.now }
{
    h.stype == SHT_SYMTAB && !is_compressed(h.flags)
}

/// The first such section.
fn first_symbols(headers: &[Shdr]) -> Option<usize>
    ensures { result ≡ position is_symbols headers.now }
{
    headers.iter().position(|h| is_symbols(h))
}

/// Whether a section is a table of extended indexes, of whatever symbols.
fn has_indexes(headers: &[Shdr]) -> bool
    ensures { result ≡ list_any is_indexes headers.now }
{
    headers.iter().any(|h| h.stype == SHT_SYMTAB_SHNDX)
}

/// The bytes of a symbol in class 32.
const SYM_32: u64 = 16;

/// The bytes of a symbol in class 64.
const SYM_64: u64 = 24;

/// Whether so many bytes are whole symbols.
fn is_whole(class: Class, size: u64) -> bool
    ensures { result ≡ is_whole kinds.Sym class size }
{
    match class {
        Class::C32 => size % SYM_32 == 0,
        Class::C64 => size % SYM_64 == 0,
    }
}

/// How many symbols so many bytes are.
pub fn symbol_count(class: Class, size: u64) -> u64
    ensures count { result ≡ size / item_size kinds.Sym class }
    ensures few { size ≤ 2 ^ 36 → result ≤ 2 ^ 32 }
{
    match class {
        Class::C32 => size / SYM_32,
        Class::C64 => size / SYM_64,
    }
}

/// Whether the bytes of a section lie in an image of `len` bytes.
fn lies_in(h: &Shdr, len: u64) -> bool
    ensures { result ≡ true → LiesInImage len h.now }
{
    if h.size > len {
        return false;
    }
    h.offset <= len - h.size
}

/// The header of the section of strings that has a number, where it lies in an image of `len`
/// bytes.
fn strings_at(headers: &[Shdr], number: u32, len: u64) -> Option<Shdr>
    ensures there { IfSome result (λ h. slice_get headers.now number ≡ Some h) }
    ensures strings { IfSome result (λ h. h.stype ≡ TYPE_OF_STRINGS) }
    ensures inside { IfSome result (LiesInImage len) }
{
    match headers.get(number as usize) {
        Some(h) => {
            if h.stype == SHT_STRTAB && lies_in(h, len) {
                return Some(*h);
            }
            None
        }
        None => None,
    }
}

/// The bytes of as many symbols as have indexes of 32 bits, in either class.
const MOST_BYTES: u64 = 1 << 36;

/// Whether a section has whole symbols, of which each has an index of 32 bits, and lies in an image
/// of `len` bytes.
fn are_plain(class: Class, h: &Shdr, len: u64) -> bool
    ensures { result ≡ true → ArePlain class len h.now }
{
    if h.size > MOST_BYTES {
        return false;
    }
    is_whole(class, h.size) && lies_in(h, len)
}

/// The table of the symbols of a section, where it is a plain one of an image of `len` bytes.
fn plain_at(front: &Front, len: u64, section: usize) -> Option<PlainTable>
    ensures section { IfSome result (λ t. t.section ≡ section) }
    ensures plain { IfSome result (IsPlain front.now len) }
{
    let headers = front.shdrs.as_slice();
    let symbols = *headers.get(section)?;
    if has_indexes(headers) || !are_plain(front.ehdr.class, &symbols, len) {
        return None;
    }
    match strings_at(headers, symbols.link, len) {
        Some(names) => Some(PlainTable {
            section,
            symbols,
            names,
        }),
        None => None,
    }
}

/// What the front of an image of `len` bytes tells of its symbols, those of the first section of
/// type `SHT_SYMTAB` whose data is not compressed. It takes no memory.
///
/// Source: gABI chapter 4, "Sections", "Symbol Table" and "String Table".
pub fn front_symbols(front: &Front, len: u64) -> FrontSymbols
    ensures { Tells front.now len result }
{
    match first_symbols(front.shdrs.as_slice()) {
        Some(section) => match plain_at(front, len, section) {
            Some(table) => FrontSymbols::Plain(table),
            None => FrontSymbols::Other,
        },
        None => FrontSymbols::Missing,
    }
}
