//! A section's cell.

ghost use Rattle.std.specs.Prelude.{◌≡◌, ◌<◌, true, length, is_some};
ghost use Rattle.elf_object.specs.Open.{home_of};
ghost use Rattle.section_data.specs.Views.{IsCell, new_cell, opened_cell};
ghost use Rattle.section_data.specs.Leaves.{LiesIn};
ghost use Rattle.section_data.specs.Held.{piece_in, kind_in, cell_is_loaded};

use crate::home::Home;
use crate::kept::Kept;
use crate::piece::Piece;
use elf_types::{Class, Kind, Shdr};
use std::alloc::Global;
use std::marker::Model;

mod edits;
mod items;
mod lending;
mod loading;
mod reserving;
mod sizes;
mod storing;

/// One section's data: its home in the image as opened, the home's bytes once they are read, its
/// items once they are translated, and its pieces. A home of bytes is held once: its items are the
/// home's bytes, and the cell keeps room for a copy of them once they were handed out, so that a
/// loan of items that were handed out takes no memory. It keeps its allocator. A section that is
/// never used takes 80 bytes and nothing besides.
#[derive(Drop)]
pub struct Cell {
    alloc: Global,
    kept: Kept,
}

impl Model for Cell {
    ghost use Rattle.section_data.specs.Views.{CellView, IsCell};

    ghost Value = { CellView };

    ghost view = { λ c. c.kept };

    ghost invariant = { λ c. IsCell c.kept };
}

impl Cell {
    /// The cell of a new section, which has an empty home and no piece. It rejects nothing and
    /// takes no memory.
    pub fn fresh(alloc: Global, section: u32) -> Cell
        ensures value { result ≡ new_cell section }
        ensures cell { IsCell result }
    {
        Cell::of(alloc, Kept::over(section, Home::none(), false, false))
    }

    /// The cell of a section of an image of `size` bytes, by its number and its header: nothing of
    /// it is read. It rejects nothing and takes no memory.
    ///
    /// Source: gABI chapter 4, "Section Header".
    #[tactic(auto, using(crate::proofs::Loading::opened_lies))]
    #[inline(always)]
    pub fn unread(alloc: Global, section: u32, class: Class, header: &Shdr, size: u64) -> Cell
        ensures value { result ≡ opened_cell section (home_of size header.now) }
        ensures lies { LiesIn result size }
        ensures cell { IsCell result }
    {
        let home = Home::of(class, header);
        let out = home.passes_end(size);
        Cell::of(alloc, Kept::over(section, home, out, true))
    }

    /// The cell of what is kept.
    fn of(alloc: Global, kept: Kept) -> Cell
        requires { IsCell kept }
        ensures value { result ≡ kept }
        ensures cell { IsCell result }
    {
        Cell { alloc, kept }
    }

    /// The section's number. It takes no memory.
    pub fn section(&self) -> u32
        ensures { result ≡ self.now.section }
    {
        self.kept.section()
    }

    /// The home. It takes no memory.
    pub fn home(&self) -> Home
        ensures at { result.at ≡ self.now.home.at }
        ensures len { result.len ≡ self.now.home.len }
        ensures kind { result.kind ≡ self.now.home.kind }
    {
        self.kept.home()
    }

    /// Whether the home passes the end of the image as opened. It takes no memory.
    pub fn out(&self) -> bool
        ensures { result ≡ self.now.home.out }
    {
        self.kept.out()
    }

    /// Whether the home's bytes are held. It takes no memory.
    pub fn is_loaded(&self) -> bool
        ensures value { result ≡ cell_is_loaded self.now }
        ensures cell { IsCell self.now }
    {
        self.kept.is_loaded()
    }

    /// The number of pieces, at most 2^20. It takes no memory.
    pub fn piece_count(&self) -> u32
        ensures value { result ≡ length self.now.pieces }
        ensures cell { IsCell self.now }
    {
        self.kept.count()
    }

    /// The piece with that number.
    #[tactic(auto, unfolding(crate::specs::Held::piece_in))]
    fn piece(&self, p: u32) -> &Piece
        requires { p < length self.now.pieces }
        ensures value { result.now ≡ piece_in self.now p }
        ensures cell { IsCell self.now }
    {
        self.kept.get(p)
    }

    /// Whether a piece has items of its own; an own piece is marked. It takes no memory.
    pub fn is_own(&self, p: u32) -> bool
        requires { p < length self.now.pieces }
        ensures value { result ≡ is_some (piece_in self.now p).own }
        ensures marked { result ≡ true → (piece_in self.now p).marked ≡ true }
        ensures cell { IsCell self.now }
    {
        self.piece(p).is_own()
    }

    /// Whether a piece is marked dirty. It takes no memory.
    pub fn is_marked(&self, p: u32) -> bool
        requires { p < length self.now.pieces }
        ensures { result ≡ (piece_in self.now p).marked }
    {
        self.piece(p).is_marked()
    }

    /// The alignment of a piece in its section. It takes no memory.
    pub fn piece_align(&self, p: u32) -> u64
        requires { p < length self.now.pieces }
        ensures { result ≡ (piece_in self.now p).align }
    {
        self.piece(p).align()
    }

    /// The kind that a piece holds: that of its own items, or its home's. It takes no memory.
    #[tactic(auto, using(crate::proofs::Holdings::kind_own, crate::proofs::Holdings::kind_clean))]
    pub fn piece_kind(&self, p: u32) -> Kind
        requires { p < length self.now.pieces }
        ensures { result ≡ kind_in self.now p }
    {
        let piece = self.piece(p);
        if piece.is_own() {
            piece.items().kind()
        } else {
            self.kept.home().kind
        }
    }
}
