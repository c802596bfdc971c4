//! Whether an item of a piece can be given another value.

ghost use Rattle.std.specs.Prelude.{◌≡◌, ◌<◌, length, IfErr};
ghost use Rattle.elf_types.specs.Answers.{answered, IsRefusal};
ghost use Rattle.section_data.specs.Held.{kind_in, count_in};
ghost use Rattle.section_data.specs.Refused.{store_refused};

use crate::cell::Cell;
use crate::item::Item;
use crate::storable::Storable;
use elf_types::{Class, ElfError, Part};

impl Cell {
    /// The number of items of a piece of the item's kind; a clean one's home has whole items.
    fn item_count<T: Item>(&self, p: u32, class: Class) -> u64
        requires piece { p < length self.now.pieces }
        requires kind { kind_in self.now p ≡ T.kind }
        ensures { result ≡ count_in class self.now p }
    {
        let piece = self.piece(p);
        if piece.is_own() {
            return T::list(piece.items()).len();
        }
        self.kept.home().len / T::size(class) as u64
    }

    /// Whether item `i` of a piece of the item's kind can be given that value. It fails with, in
    /// this order: `NoData`, `WrongKind` with the kind that the piece holds, for the clean home
    /// piece `OutOfFile` and `Ragged`, `NoEntry` exactly where the index is not below the number of
    /// items, and `Unfit` where the value does not fit the class. It reads nothing and takes no
    /// memory.
    ///
    /// Source: gelf_update_sym of gelf(3E) and its like.
    #[tactic(auto, unfolding(crate::specs::Refused::store_refused))]
    pub fn check_store<T: Storable>(
        &self,
        p: u32,
        i: u64,
        item: &T,
        class: Class,
    ) -> Result<(), ElfError>
        ensures answer { result ≡ answered
            (store_refused class self.now T.kind p i (T.fitting class item.now)) tt }
        ensures err { IfErr result IsRefusal }
    {
        self.check_lend(p, T::kind(), class)?;
        let count = self.item_count::<T>(p, class);
        if i >= count {
            return Err(ElfError::NoEntry { index: i, count });
        }
        if !item.fits(class) {
            return Err(ElfError::Unfit {
                part: Part::Piece(self.section(), p),
                index: i,
            });
        }
        Ok(())
    }
}
