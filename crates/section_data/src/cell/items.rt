//! The items of a piece.

ghost use Rattle.std.specs.Prelude.{◌≡◌, ◌<◌, length, true, false, is_some, IsTrue, IfSome};
ghost use Rattle.elf_object.specs.Answers.{entry_at};
ghost use Rattle.section_data.specs.Views.{IsCell};
ghost use Rattle.section_data.specs.Held.{piece_in, kind_in, items_in, is_at_hand, ready, piece_holds_items, TellsItem};

use crate::cell::Cell;
use crate::item::{Item, entry, item_if_whole, item_in};
use elf_object::prelude::Items;
use elf_types::{Class, ElfError, Kind, Order};

impl Cell {
    /// The items of a piece that holds them. It takes no memory.
    #[tactic(auto, using(crate::proofs::Holdings::ready_own, crate::proofs::Holdings::ready_clean))]
    pub fn items(&self, p: u32) -> &Items
        requires piece { p < length self.now.pieces }
        requires holds { IsTrue (piece_holds_items self.now p) }
        ensures value { ready self.now p ≡ Some result.now }
        ensures cell { IsCell self.now }
    {
        let piece = self.piece(p);
        if piece.is_own() {
            return piece.items();
        }
        self.kept.items()
    }

    /// Item `i` of a piece of the item's kind that is own, or whose home is loaded and has whole
    /// items: the home is not translated. It fails with `NoEntry` exactly where the index is not
    /// below the number of items, and takes no memory.
    ///
    /// Source: gelf_getsym of gelf(3E) and its like.
    pub fn item<T: Item>(&self, p: u32, i: u64, class: Class, order: Order) -> Result<T, ElfError>
        requires piece { p < length self.now.pieces }
        requires kind { kind_in self.now p ≡ T.kind }
        requires there { IsTrue (is_at_hand class self.now p) }
        ensures value { result ≡ entry_at (T.list_of (items_in class order self.now p)) i }
        ensures cell { IsCell self.now }
    {
        let piece = self.piece(p);
        if piece.is_own() {
            return entry(T::list(piece.items()), i);
        }
        item_in::<T>(self.bytes(), i, class, order)
    }

    /// Whether a piece is the clean home piece.
    #[tactic(auto, unfolding(crate::specs::Held::piece_in))]
    fn is_clean_home(&self, p: u32) -> bool
        ensures there { result ≡ true → p < length self.now.pieces }
        ensures clean { result ≡ true → is_some (piece_in self.now p).own ≡ false }
    {
        self.kept.is_clean_home(p)
    }

    /// Whether the home holds items of a kind.
    fn is_home_of(&self, kind: Kind) -> bool
        ensures { result ≡ true → self.now.home.kind ≡ kind }
    {
        self.kept.home().kind == kind
    }

    /// Item `i` of a clean piece of the item's kind, where it can be told at once: the home is
    /// loaded and has whole items, and there is such an item. It tells the most often asked of what
    /// `item` tells, by few tests, and takes no memory.
    #[inline(always)]
    pub fn item_at_hand<T: Item>(&self, p: u32, i: u64, class: Class, order: Order) -> Option<T>
        ensures { IfSome result (TellsItem T.kind T.list_of class order self.now p i) }
    {
        if !self.is_clean_home(p) || !self.is_home_of(T::kind()) || !self.is_loaded() {
            return None;
        }
        item_if_whole::<T>(self.bytes(), i, class, order)
    }
}
