//! Items that follow, as the data of a section.

ghost use Rattle.std.specs.Prelude.{◌≡◌, IfOk, IfErr};
ghost use Rattle.rebuild_names.specs.elf_xlate.declared.content.Items.TheVariants as items;
ghost use Rattle.rebuild_making.specs.rebuild_model.Followed as rules;

use elf_types::{ElfError, Sym};
use rebuild_names::prelude::Items;
use rebuild_numbers::{Numbering, followed_group, followed_syms, followed_words};
use std::alloc::Global;

/// Symbols, with the words of their extended indexes. It fails with `Memory` alone.
pub(crate) fn symbol_items(
    alloc: Global,
    numbering: &Numbering,
    words: &[u32],
    syms: &[Sym],
) -> Result<Items, ElfError>
    ensures ok { IfOk result (λ made. made
        ≡ items.Sym (rules.followed_syms numbering.now words.now syms.now)) }
    ensures err { IfErr result (λ e. e ≡ ElfError.Memory) }
{
    match followed_syms(alloc, numbering, words, syms) {
        Ok(made) => Ok(Items::Sym(made)),
        Err(e) => Err(e),
    }
}

/// The words of a group. It fails with `Memory` alone.
pub(crate) fn group_items(
    alloc: Global,
    numbering: &Numbering,
    words: &[u32],
) -> Result<Items, ElfError>
    ensures ok { IfOk result (λ made. made
        ≡ items.Word (rules.followed_group numbering.now words.now)) }
    ensures err { IfErr result (λ e. e ≡ ElfError.Memory) }
{
    match followed_group(alloc, numbering, words) {
        Ok(made) => Ok(Items::Word(made)),
        Err(e) => Err(e),
    }
}

/// Extended indexes, with their symbols. It fails with `Memory` alone.
pub(crate) fn index_items(
    alloc: Global,
    numbering: &Numbering,
    syms: &[Sym],
    words: &[u32],
) -> Result<Items, ElfError>
    ensures ok { IfOk result (λ made. made
        ≡ items.Word (rules.followed_words numbering.now syms.now words.now)) }
    ensures err { IfErr result (λ e. e ≡ ElfError.Memory) }
{
    match followed_words(alloc, numbering, syms, words) {
        Ok(made) => Ok(Items::Word(made)),
        Err(e) => Err(e),
    }
}
