//! Relocations whose symbols have new indexes.

ghost use Rattle.std.specs.Prelude.{◌≡◌, ℕ, List as Seq, map, IfOk, IfErr};
ghost use Rattle.elf_types.specs.declared.errors.ElfError.TheVariants.{Memory};
ghost use Rattle.symbol_lookup.specs.hash_model.Reordered.{with_rel, with_rela};
ghost use Rattle.hash_order.specs.Indexes.{AreBelow, AreNewIndexes};

use crate::indexes::new_index;
use elf_types::{ElfError, List, Rel, Rela, Words};
use std::alloc::Global;

/// A type of relocations.
pub trait Relocates: Copy + Drop {
    // A relocation by the new index of its symbol.
    ghost moved: { Seq ℕ → Self → Self };

    /// Gives it the new index of its symbol.
    fn follow(&mut self, order: &Words, indexes: &Words)
        requires below { AreBelow order.now }
        requires new { AreNewIndexes order.now indexes.now }
        ensures { self.new ≡ moved order.now self.old };
}

impl Relocates for Rel {
    ghost moved = { with_rel };

    fn follow(&mut self, order: &Words, indexes: &Words) {
        self.sym = new_index(order, indexes, self.sym);
    }
}

impl Relocates for Rela {
    ghost moved = { with_rela };

    fn follow(&mut self, order: &Words, indexes: &Words) {
        self.sym = new_index(order, indexes, self.sym);
    }
}

/// Gives each relocation the new index of its symbol.
fn follow_all<T: Relocates>(list: &mut List<T>, order: &Words, indexes: &Words)
    requires below { AreBelow order.now }
    requires new { AreNewIndexes order.now indexes.now }
    ensures { list.new ≡ map (T.moved order.now) list.old }
{
    for item in list.as_mut_slice().iter_mut() {
        item.follow(order, indexes);
    }
}

/// Relocations by the new indexes of their symbols. It fails with `Memory` alone.
pub fn followed<T: Relocates>(
    alloc: Global,
    order: &Words,
    indexes: &Words,
    list: &List<T>,
) -> Result<List<T>, ElfError>
    requires below { AreBelow order.now }
    requires new { AreNewIndexes order.now indexes.now }
    ensures ok { IfOk result (λ l. l ≡ map (T.moved order.now) list.now) }
    ensures err { IfErr result (λ e. e ≡ Memory) }
{
    match List::from_slice(alloc, list.as_slice()) {
        Ok(mut copy) => {
            follow_all(&mut copy, order, indexes);
            Ok(copy)
        }
        Err(e) => Err(e),
    }
}
