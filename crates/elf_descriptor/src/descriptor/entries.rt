//! One item of a piece.

ghost use Rattle.std.specs.Prelude.{◌≡◌, ℕ, ◌||◌, true, IsTrue, is_some, IfErr, IfSome, OnOk, None, Ok};
ghost use Rattle.elf_types.specs.Answers.{answered, IsRefusal};
ghost use Rattle.section_table.specs.elf_object.Words.{Wants, Answers};
ghost use Rattle.section_table.specs.elf_object.Object.{piece_at};
ghost use Rattle.section_table.specs.elf_object.Answers.{lend_refusal, items_at, entry_at};
ghost use Rattle.section_table.specs.elf_object.Due.{is_loaded};
ghost use Rattle.elf_descriptor.specs.Entries.{entry};
ghost use Rattle.elf_descriptor.specs.Reads.{Looks, wanted};

use crate::descriptor::Elf;
use elf_types::{DataId, ElfError};
use section_table::prelude::{Item, Source};

impl<S: Source> Elf<S> {
    /// Makes sure that each item of a piece of the item's kind is in memory: it is own, or its home
    /// is loaded. It fails with, in this order: `NoSection`, `NoData`, `WrongKind`, and for the
    /// clean home piece `OutOfFile` and `Ragged`; then `Memory` or `Read`.
    fn fetch<T: Item>(&mut self, d: DataId) -> Result<(), ElfError>
        ensures answer { (i : ℕ) → Answers true
            (wanted (entry T.kind T.list_of d.section d.piece i) self.old) result
            (answered (lend_refusal self.old.o T.kind d.section d.piece) tt) }
        ensures hand { OnOk result (IsTrue (is_some (piece_at self.new.o d.section d.piece).own
            || is_loaded self.new.loaded d.section)) }
        ensures looks { (i : ℕ) → Looks S.Source
            (entry T.kind T.list_of d.section d.piece i) result self.old self.new }
    {
        self.body.fetch(&mut self.src, d, T::kind())
    }

    /// Item `i` of a piece of the item's kind that is in memory; else `NoEntry`.
    fn entry<T: Item>(&self, d: DataId, i: u64) -> Result<T, ElfError>
        requires passed { lend_refusal self.now.o T.kind d.section d.piece ≡ None }
        requires hand { IsTrue (is_some (piece_at self.now.o d.section d.piece).own
            || is_loaded self.now.loaded d.section) }
        ensures answer { (wants : Wants) → Answers self.now.told wants result
            (entry_at (T.list_of (items_at self.now.o d.section d.piece)) i) }
        ensures err { IfErr result IsRefusal }
    {
        let (class, order) = (self.body.header.class, self.body.header.order);
        let at = self.body.cell_at(d.section);
        at.cell().item::<T>(d.piece, i, class, order)
    }

    /// Item `i` of a clean piece of the item's kind, where it can be told at once: its home is
    /// loaded.
    #[inline(always)]
    fn item_at_hand<T: Item>(&self, d: DataId, i: u64) -> Option<T>
        ensures { (wants : Wants) → IfSome result (λ item. Answers self.now.told wants (Ok item)
            ((entry T.kind T.list_of d.section d.piece i).answer self.now.o)) }
    {
        if d.section >= self.body.header.shnum {
            return None;
        }
        let (class, order) = (self.body.header.class, self.body.header.order);
        match self.body.made_at(d.section) {
            Some(cell) => cell.item_at_hand::<T>(d.piece, i, class, order),
            None => None,
        }
    }

    /// Item `i` of a piece, whose home is read where it is not loaded; it fails as `item` does.
    #[inline(never)]
    fn fetch_item<T: Item>(&mut self, d: DataId, i: u64) -> Result<T, ElfError>
        ensures answer { Answers self.old.told
            (wanted (entry T.kind T.list_of d.section d.piece i) self.old) result
            ((entry T.kind T.list_of d.section d.piece i).answer self.old.o) }
        ensures looks { Looks S.Source (entry T.kind T.list_of d.section d.piece i) result self.old
            self.new }
    {
        match self.fetch::<T>(d) {
            Ok(()) => self.entry::<T>(d, i),
            Err(e) => Err(e),
        }
    }

    /// Item `i` of a piece that holds items of the item's kind. It fails with, in this order:
    /// `NoSection`, `NoData`, `WrongKind` with the kind that the piece holds, and for the clean
    /// home piece `OutOfFile` and `Ragged`; then `Memory` or `Read` where its home is not loaded,
    /// and `NoEntry` exactly where the index is not below the number of items. The home is read at
    /// the first use, and not translated: of a clean piece one item is decoded alone.
    ///
    /// Source: gelf_getsym of gelf(3E) and its like.
    pub fn item<T: Item>(&mut self, d: DataId, i: u64) -> Result<T, ElfError>
        ensures answer { Answers self.old.told
            (wanted (entry T.kind T.list_of d.section d.piece i) self.old) result
            ((entry T.kind T.list_of d.section d.piece i).answer self.old.o) }
        ensures looks { Looks S.Source (entry T.kind T.list_of d.section d.piece i) result self.old
            self.new }
    {
        if let Some(item) = self.item_at_hand::<T>(d, i) {
            return Ok(item);
        }
        self.fetch_item::<T>(d, i)
    }
}
