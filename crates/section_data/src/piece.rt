//! A piece of a section's data.

ghost use Rattle.std.specs.Prelude.{◌≡◌, IsTrue, IsSome, IfSome, Some, is_some, length, true};
ghost use Rattle.std.specs.Borrow.{sem};
ghost use Rattle.elf_object.specs.elf_xlate.Translation.{items_kind, items_count};
ghost use Rattle.elf_object.specs.Calls.{is_piece_align};
ghost use Rattle.elf_object.specs.Object.{home_piece};
ghost use Rattle.elf_object.specs.Steps.{own_piece};

use crate::listed::Listed;
use elf_object::prelude::Items;
use elf_types::List;
use std::marker::Model;
use std::mem;

/// A piece of a section's data: items of its own, or what the section's home holds. An own piece is
/// marked dirty. Contracts see it as a piece of the plain object.
#[derive(Drop)]
pub struct Piece {
    items: Items,
    align: u32,
    own: bool,
    marked: bool,
}

impl Model for Piece {
    ghost use Rattle.elf_object.specs.Object.{Piece as PlainPiece};
    ghost use Rattle.elf_object.specs.Valid.{IsPiece};
    ghost use Rattle.section_data.specs.Views.{piece_view};

    ghost Value = { PlainPiece };

    ghost view = { λ p. piece_view p.own p.items p.align p.marked };

    ghost invariant = { λ p. IsPiece (piece_view p.own p.items p.align p.marked) };
}

impl Piece {
    ghost use Rattle.section_data.specs.Lends.{LendsPiece, LendsPieceItems};

    /// The clean home piece.
    pub(crate) fn home() -> Piece
        ensures { result ≡ home_piece }
    {
        Piece {
            items: Items::Empty,
            align: 1,
            own: false,
            marked: false,
        }
    }

    /// A piece with items of its own.
    #[tactic(auto, using(crate::proofs::Edits::small_align))]
    pub(crate) fn with_own(items: Items, align: u64) -> Piece
        requires { IsTrue (is_piece_align align) }
        ensures { result ≡ own_piece items align }
    {
        Piece {
            items,
            align: align as u32,
            own: true,
            marked: true,
        }
    }

    /// Whether the piece has items of its own.
    pub(crate) fn is_own(&self) -> bool
        ensures value { result ≡ is_some self.now.own }
        ensures marked { result ≡ true → self.now.marked ≡ true }
    {
        self.own
    }

    /// The alignment of the piece in its section.
    pub(crate) fn align(&self) -> u64
        ensures { result ≡ self.now.align }
    {
        u64::from(self.align)
    }

    /// Whether the piece is marked dirty.
    pub(crate) fn is_marked(&self) -> bool
        ensures { result ≡ self.now.marked }
    {
        self.marked
    }

    /// The own items.
    pub(crate) fn items(&self) -> &Items
        requires { IsSome self.now.own }
        ensures { self.now.own ≡ Some result.now }
    {
        &self.items
    }

    /// The own items of a piece that is freed.
    pub(crate) fn into_items(self) -> Items
        requires { IsSome self.own }
        ensures { self.own ≡ Some result }
    {
        self.items
    }

    /// Marks the piece dirty.
    pub(crate) fn mark(&mut self)
        ensures { self.new ≡ record self.old { marked = true } }
    {
        self.marked = true;
    }

    /// Gives the piece other items. It keeps its alignment.
    pub(crate) fn set(&mut self, items: Items)
        ensures { self.new ≡ own_piece items self.old.align }
    {
        let _before = mem::replace(&mut self.items, items);
        self.own = true;
        self.marked = true;
    }

    /// The list in the own items, lent for writing.
    pub(crate) fn list_mut<T: Listed>(&mut self) -> &mut List<T>
        requires own { IsSome self.old.own }
        requires kind { IfSome self.old.own (λ items. items_kind items ≡ T.kind) }
        ensures* lends { sem 𝓛 (LendsPiece T.row T.variant self.entry result) }
        ensures value { IfSome self.old.own (λ items. result.now ≡ T.list_of items) }
        ensures counted { IfSome self.old.own (λ items. length result.now ≡ items_count items) }
    {
        T::list_mut(&mut self.items)
    }

    /// The own items, lent for writing.
    pub(crate) fn items_mut(&mut self) -> &mut Items
        requires { IsSome self.old.own }
        ensures* lends { sem 𝓛 (LendsPieceItems self.entry result) }
        ensures value { self.old.own ≡ Some result.now }
    {
        &mut self.items
    }
}
