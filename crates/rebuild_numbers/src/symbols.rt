//! The symbols of a table.

ghost use Rattle.std.specs.Prelude.{◌≡◌, ◌<◌, [], true, slice_get, OnOk, IfOk, IfErr};
ghost use Rattle.elf_types.specs.declared.constants.TheConstants.{SHN_LORESERVE};
ghost use Rattle.elf_types.specs.declared.errors.ElfError.TheVariants.{Memory};
ghost use Rattle.rebuild_select.specs.rebuild_model.Followed as rules;
ghost use Rattle.rebuild_select.specs.rebuild_model.Followed.{is_section_number};
ghost use Rattle.rebuild_numbers.specs.Rows.{has_number, sym_in_section, moves_in, moved_sym, sym_with_word};

use crate::numbering::Numbering;
use elf_types::constants::{SHN_LORESERVE, SHN_XINDEX};
use elf_types::{ElfError, List, Sym, Syms};
use std::alloc::Global;

/// A symbol of a removed section: it has none, and no value.
fn without_section(x: Sym) -> Sym
    ensures { result ≡ rules.without_section x }
{
    Sym {
        shndx: 0,
        value: 0,
        ..x
    }
}

/// A symbol with another section.
fn in_section(x: Sym, number: u32) -> Sym
    requires { number < SHN_LORESERVE }
    ensures { result ≡ record x { shndx = number } }
{
    Sym {
        shndx: number as u16,
        ..x
    }
}

/// Whether a symbol's section number is in itself.
fn has_number(numbering: &Numbering, x: Sym) -> bool
    ensures { result ≡ has_number numbering.now x }
{
    u32::from(x.shndx) < SHN_LORESERVE && numbering.is_section_number(u32::from(x.shndx))
}

/// A symbol, in the section that has a new number.
fn renumbered_sym(numbering: &Numbering, x: Sym) -> Sym
    requires section { is_section_number numbering.now x.shndx ≡ true }
    requires small { x.shndx < SHN_LORESERVE }
    ensures { result ≡ sym_in_section (rules.renumbered numbering.now x.shndx) x }
{
    match numbering.renumbered(u32::from(x.shndx)) {
        Some(number) => in_section(x, number),
        None => without_section(x),
    }
}

/// A symbol whose section's number is in itself; others stay.
fn followed_sym(numbering: &Numbering, x: Sym) -> Sym
    ensures { result ≡ rules.followed_sym numbering.now x }
{
    if has_number(numbering, x) {
        return renumbered_sym(numbering, x);
    }
    x
}

/// Whether a section's new number comes to be in the symbol, in place of its word.
pub(crate) fn moves_in(word: u32, number: u32) -> bool
    ensures { result ≡ moves_in word number }
{
    number != word && number < SHN_LORESERVE
}

/// A symbol whose word becomes a new number, which comes to be in the symbol where it fits.
fn moved_sym(word: u32, number: u32, x: Sym) -> Sym
    ensures { result ≡ moved_sym word number x }
{
    if moves_in(word, number) {
        return in_section(x, number);
    }
    x
}

/// A symbol whose section's number is a word of a table of extended indexes, from 1 on and below
/// the old count: a number that fits into the symbol comes to be there.
fn followed_extended(numbering: &Numbering, word: u32, x: Sym) -> Sym
    requires { is_section_number numbering.now word ≡ true }
    ensures { result ≡ rules.followed_extended numbering.now word x }
{
    match numbering.renumbered(word) {
        Some(number) => moved_sym(word, number, x),
        None => without_section(x),
    }
}

/// Whether a symbol's index is extended, and its word a section's number.
pub(crate) fn word_counts(numbering: &Numbering, x: Sym, word: u32) -> bool
    ensures { result ≡ rules.word_counts numbering.now x word }
{
    u32::from(x.shndx) == SHN_XINDEX && numbering.is_section_number(word)
}

/// A symbol, with its word in a table of extended indexes.
fn sym_with_word(numbering: &Numbering, word: u32, x: Sym) -> Sym
    ensures { result ≡ sym_with_word numbering.now word x }
{
    if word_counts(numbering, x, word) {
        return followed_extended(numbering, word, x);
    }
    followed_sym(numbering, x)
}

/// A symbol, with its word in a table of extended indexes if it has one.
fn followed_by_word(numbering: &Numbering, word: Option<u32>, x: Sym) -> Sym
    ensures { result ≡ rules.followed_by_word numbering.now word x }
{
    match word {
        Some(word) => sym_with_word(numbering, word, x),
        None => followed_sym(numbering, x),
    }
}

/// The word at an index, if it is there.
fn word_at(words: &[u32], i: usize) -> Option<u32>
    ensures { result ≡ slice_get words.now i }
{
    words.get(i).copied()
}

/// The symbol with an index, with the word of the same index if that is there.
fn followed_row(numbering: &Numbering, words: &[u32], i: usize, x: Sym) -> Sym
    ensures { result ≡ rules.followed_by_word numbering.now (slice_get words.now i) x }
{
    followed_by_word(numbering, word_at(words, i), x)
}

/// Appends the symbols that symbols become.
fn fill_syms(
    numbering: &Numbering,
    words: &[u32],
    syms: &[Sym],
    made: &mut Syms,
) -> Result<(), ElfError>
    requires { made.old ≡ [] }
    ensures ok { OnOk result (made.new ≡ rules.followed_syms numbering.now words.now syms.now) }
    ensures err { IfErr result (λ e. e ≡ Memory) }
{
    for (i, x) in syms.iter().enumerate() {
        made.push(followed_row(numbering, words, i, *x))?;
    }
    Ok(())
}

/// The symbols of a table, with the words of their extended indexes, of which there may be fewer or
/// none: the section of each follows the new numbers, and one of a removed section gets section 0
/// and value 0. It fails with `Memory` alone.
///
/// Source: gABI chapter 4, "Symbol Table", st_shndx, and SHT_SYMTAB_SHNDX.
pub fn followed_syms(
    alloc: Global,
    numbering: &Numbering,
    words: &[u32],
    syms: &[Sym],
) -> Result<Syms, ElfError>
    ensures ok { IfOk result (λ made. made
        ≡ rules.followed_syms numbering.now words.now syms.now) }
    ensures err { IfErr result (λ e. e ≡ Memory) }
{
    let mut made = List::with_capacity(alloc, syms.len() as u64)?;
    fill_syms(numbering, words, syms, &mut made)?;
    Ok(made)
}
