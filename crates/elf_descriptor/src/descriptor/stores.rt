//! One item of a piece is stored.

ghost use Rattle.std.specs.Prelude.{◌≡◌, true, IfErr, OnOk, OnErr, []};
ghost use Rattle.elf_types.specs.Answers.{answered, IsRefusal};
ghost use Rattle.section_table.specs.elf_object.Words.{Answers};
ghost use Rattle.section_table.specs.elf_object.Calls.{update_item_refusal};
ghost use Rattle.elf_descriptor.specs.Reads.{Queries, wanted};
ghost use Rattle.elf_descriptor.specs.Stores.{store, EditsItems};

use crate::descriptor::Elf;
use elf_types::{DataId, ElfError};
use section_table::prelude::{Source, Storable};

impl<S: Source> Elf<S> {
    /// Whether item `i` of a piece of the item's kind can be given that value; it fails as
    /// `update_item` but for `Memory` and `Read`. It reads nothing.
    fn check_store<T: Storable>(&self, d: DataId, i: u64, item: &T) -> Result<(), ElfError>
        ensures answer { result ≡ answered (update_item_refusal self.now.o T.kind d.section
            d.piece i (T.fitting self.now.o.header.class item.now)) tt }
        ensures err { IfErr result IsRefusal }
    {
        self.body.check_store(d, i, item)
    }

    /// Gives item `i` of a piece of the item's kind that value. The piece becomes own and marked,
    /// and keeps its alignment. It fails with, in this order: `NoSection`, `NoData`, `WrongKind`
    /// with the kind that the piece holds, for the clean home piece `OutOfFile` and `Ragged`,
    /// `NoEntry` exactly where the index is not below the number of items, and `Unfit` where the
    /// value does not fit the class; then `Memory` or `Read` where the piece does not hold its
    /// items. The home is read and translated at the first use; on an own piece the item is stored
    /// in place. A refusal leaves the object.
    ///
    /// Source: gelf_update_sym of gelf(3E) and its like.
    pub fn update_item<T: Storable>(&mut self, d: DataId, i: u64, item: T) -> Result<(), ElfError>
        ensures answer { Answers true
            (wanted (store T.kind T.variant T.list_of T.fitting d.section d.piece i item) self.old)
            result
            ((store T.kind T.variant T.list_of T.fitting d.section d.piece i item).answer
            self.old.o) }
        ensures edits { OnOk result (EditsItems S.Source
            (store T.kind T.variant T.list_of T.fitting d.section d.piece i item)
            d.section d.piece result self.old self.new) }
        ensures refused { OnErr result (Queries S.Source
            (store T.kind T.variant T.list_of T.fitting d.section d.piece i item)
            [] result self.old self.new) }
    {
        if let Err(e) = self.check_store(d, i, &item) {
            return Err(e);
        }
        match self.lend::<T>(d) {
            Ok(list) => {
                let at = i as usize;
                list.as_mut_slice()[at] = item;
                Ok(())
            }
            Err(e) => Err(e),
        }
    }
}
