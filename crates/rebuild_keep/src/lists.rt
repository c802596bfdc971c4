//! The lists in items.

ghost use Rattle.std.specs.Prelude.{◌≡◌};
ghost use Rattle.rebuild_making.specs.elf_object.Answers.{words_of, syms_of};
ghost use Rattle.rebuild_keep.specs.Homes.{NoneIfRefused};

use elf_types::{ElfError, List, Syms, Words};
use rebuild_names::prelude::Items;
use std::alloc::Global;

/// The words among items, and none where those are of another kind.
pub(crate) fn words_in(alloc: Global, items: Items) -> Words
    ensures { result ≡ words_of items }
{
    match items {
        Items::Word(words) => words,
        _ => List::new(alloc),
    }
}

/// The symbols among items, and none where those are of another kind.
pub(crate) fn syms_in(alloc: Global, items: Items) -> Syms
    ensures { result ≡ syms_of items }
{
    match items {
        Items::Sym(syms) => syms,
        _ => List::new(alloc),
    }
}

/// An empty list in place of one that was rejected, and `Memory` and `Read` as they are.
pub(crate) fn none_if_refused<T: Drop>(alloc: Global, e: ElfError) -> Result<List<T>, ElfError>
    ensures { NoneIfRefused e result }
{
    match e {
        ElfError::Memory => Err(ElfError::Memory),
        ElfError::Read => Err(ElfError::Read),
        _ => Ok(List::new(alloc)),
    }
}
