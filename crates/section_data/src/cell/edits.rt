//! Edits of the pieces, which read nothing.

ghost use Rattle.std.specs.Prelude.{◌≡◌, ◌<◌, length, OnOk, OnErr, IfErr, IsTrue};
ghost use Rattle.elf_types.specs.declared.constants.TheConstants.{MAX_PIECES};
ghost use Rattle.elf_types.specs.Answers.{answered, IsRefusal};
ghost use Rattle.elf_object.specs.Calls.{is_piece_align};
ghost use Rattle.elf_object.specs.Words.{EditsWith, handing_back};
ghost use Rattle.section_data.specs.Views.{IsCell};
ghost use Rattle.section_data.specs.Refused.{unfit_piece, replace_refused, append_refused};
ghost use Rattle.section_data.specs.Leaves.{replaced, appended, marked_piece};

use crate::cell::Cell;
use crate::piece::Piece;
use elf_object::is_piece_align;
use elf_object::prelude::{Items, unfit};
use elf_types::constants::MAX_PIECES;
use elf_types::{Class, ElfError, Part};

impl Cell {
    /// Whether items fit the class as the piece with that number; else `Unfit`.
    fn check_fit(&self, p: u32, class: Class, items: &Items) -> Result<(), ElfError>
        ensures answer { result ≡ answered (unfit_piece class self.now p items.now) tt }
        ensures err { IfErr result IsRefusal }
    {
        match unfit(items, class) {
            None => Ok(()),
            Some(index) => Err(ElfError::Unfit {
                part: Part::Piece(self.section(), p),
                index,
            }),
        }
    }

    /// Whether a piece can be given the items.
    #[tactic(auto, unfolding(crate::specs::Refused::replace_refused))]
    fn check_replace(&self, p: u32, class: Class, items: &Items) -> Result<(), ElfError>
        ensures answer { result ≡ answered (replace_refused class self.now p items.now) tt }
        ensures there { OnOk result (p < length self.now.pieces) }
        ensures cell { IsCell self.now }
    {
        self.check_piece(p)?;
        self.check_fit(p, class, items)
    }

    /// Whether a piece with the items and the alignment can be added.
    #[tactic(auto, unfolding(crate::specs::Refused::append_refused))]
    fn check_append(&self, class: Class, items: &Items, align: u64) -> Result<(), ElfError>
        ensures answer { result ≡ answered (append_refused class self.now items.now align) tt }
        ensures room { OnOk result (length self.now.pieces < MAX_PIECES) }
        ensures align { OnOk result (IsTrue (is_piece_align align)) }
        ensures err { IfErr result IsRefusal }
        ensures cell { IsCell self.now }
    {
        let count = self.kept.count();
        if u64::from(count) >= MAX_PIECES {
            return Err(ElfError::TooMany);
        }
        if !is_piece_align(align) {
            return Err(ElfError::BadAlign { align });
        }
        self.check_fit(count, class, items)
    }

    /// Gives a piece items of its own.
    pub(super) fn set_piece(&mut self, p: u32, items: Items)
        requires { p < length self.old.pieces }
        ensures value { self.new ≡ replaced self.old p items }
        ensures cell { IsCell self.new }
    {
        let piece = self.kept.get_mut(p);
        piece.set(items);
    }

    /// Gives a piece other items, of any kind; it becomes own and marked, and keeps its alignment.
    /// It fails with, in this order: `NoData`, `Unfit`, and hands the items back. It takes no
    /// memory.
    ///
    /// Source: elf_newdata of elf(3E), for data that takes the place of other data.
    pub fn replace(&mut self, p: u32, class: Class, items: Items) -> Result<(), (Items, ElfError)>
        ensures answer { result ≡ handing_back items
            (answered (replace_refused class self.old p items) tt) }
        ensures ok { OnOk result (self.new ≡ replaced self.old p items) }
        ensures unchanged { OnErr result (self.new ≡ self.old) }
        ensures cell { IsCell self.new }
    {
        if let Err(e) = self.check_replace(p, class, &items) {
            return Err((items, e));
        }
        self.set_piece(p, items);
        Ok(())
    }

    /// Adds an own marked piece with that alignment in the section, and returns its number. It
    /// fails with, in this order: `TooMany` where there are 2^20 pieces, `BadAlign` where the
    /// alignment is no power of two or above 2^20, `Unfit` with the new piece's number, `Memory`,
    /// and hands the items back; then the cell is as before.
    ///
    /// Source: elf_newdata of elf(3E).
    pub fn append(
        &mut self,
        class: Class,
        items: Items,
        align: u64,
    ) -> Result<u32, (Items, ElfError)>
        ensures edits { EditsWith result items self.old self.new
            (answered (append_refused class self.old items align) (length self.old.pieces))
            (appended self.old items align) }
        ensures cell { IsCell self.new }
    {
        if let Err(e) = self.check_append(class, &items, align) {
            return Err((items, e));
        }
        let p = self.kept.count();
        match self.kept.push(self.alloc, Piece::with_own(items, align)) {
            Ok(()) => Ok(p),
            Err(piece) => Err((piece.into_items(), ElfError::Memory)),
        }
    }

    /// Marks a piece dirty; what it holds stays. It takes no memory.
    ///
    /// Source: elf_flagdata of elf(3E).
    pub fn mark(&mut self, p: u32)
        requires { p < length self.old.pieces }
        ensures value { self.new ≡ marked_piece self.old p }
        ensures cell { IsCell self.new }
    {
        let piece = self.kept.get_mut(p);
        piece.mark();
    }
}
