//! The extended indexes of symbols.

ghost use Rattle.std.specs.Prelude.{◌≡◌, [], true, slice_get, OnOk, IfOk, IfErr};
ghost use Rattle.elf_types.specs.declared.errors.ElfError.TheVariants.{Memory};
ghost use Rattle.rebuild_select.specs.rebuild_model.Followed as rules;
ghost use Rattle.rebuild_select.specs.rebuild_model.Followed.{is_section_number};
ghost use Rattle.rebuild_numbers.specs.Rows.{moved_word, word_with_sym};

use crate::numbering::Numbering;
use crate::symbols::{moves_in, word_counts};
use elf_types::{ElfError, List, Sym, Words};
use std::alloc::Global;

/// A word that becomes a new number: one that comes to be in the symbol leaves 0 behind.
fn moved_word(word: u32, number: u32) -> u32
    ensures { result ≡ moved_word word number }
{
    if moves_in(word, number) {
        return 0;
    }
    number
}

/// The word that a section's number becomes.
fn followed_word(numbering: &Numbering, word: u32) -> u32
    requires { is_section_number numbering.now word ≡ true }
    ensures { result ≡ rules.followed_word numbering.now word }
{
    match numbering.renumbered(word) {
        Some(number) => moved_word(word, number),
        None => 0,
    }
}

/// The word that a symbol's word becomes.
fn word_with_sym(numbering: &Numbering, word: u32, x: Sym) -> u32
    ensures { result ≡ word_with_sym numbering.now word x }
{
    if word_counts(numbering, x, word) {
        return followed_word(numbering, word);
    }
    word
}

/// The word that a word becomes, with its symbol if it has one.
fn word_of_sym(numbering: &Numbering, word: u32, x: Option<Sym>) -> u32
    ensures { result ≡ rules.word_of_sym numbering.now word x }
{
    match x {
        Some(x) => word_with_sym(numbering, word, x),
        None => word,
    }
}

/// The symbol with an index, if it is there.
fn sym_at(syms: &[Sym], i: usize) -> Option<Sym>
    ensures { result ≡ slice_get syms.now i }
{
    syms.get(i).copied()
}

/// The word with an index, with the symbol of the same index if that is there.
fn followed_row(numbering: &Numbering, syms: &[Sym], i: usize, word: u32) -> u32
    ensures { result ≡ rules.word_of_sym numbering.now word (slice_get syms.now i) }
{
    word_of_sym(numbering, word, sym_at(syms, i))
}

/// Appends the words that words become.
fn fill_words(
    numbering: &Numbering,
    syms: &[Sym],
    words: &[u32],
    made: &mut Words,
) -> Result<(), ElfError>
    requires { made.old ≡ [] }
    ensures ok { OnOk result (made.new ≡ rules.followed_words numbering.now syms.now words.now) }
    ensures err { IfErr result (λ e. e ≡ Memory) }
{
    for (i, word) in words.iter().enumerate() {
        made.push(followed_row(numbering, syms, i, *word))?;
    }
    Ok(())
}

/// The extended indexes of symbols, of which there may be fewer or more: the word of each symbol
/// whose index is extended follows the new numbers. It fails with `Memory` alone.
///
/// Source: gABI chapter 4, SHT_SYMTAB_SHNDX.
pub fn followed_words(
    alloc: Global,
    numbering: &Numbering,
    syms: &[Sym],
    words: &[u32],
) -> Result<Words, ElfError>
    ensures ok { IfOk result (λ made. made
        ≡ rules.followed_words numbering.now syms.now words.now) }
    ensures err { IfErr result (λ e. e ≡ Memory) }
{
    let mut made = List::with_capacity(alloc, words.len() as u64)?;
    fill_words(numbering, syms, words, &mut made)?;
    Ok(made)
}
