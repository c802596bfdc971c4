//! A piece becomes own, and its items are lent for writing.

ghost use Rattle.std.specs.Prelude.{◌≡◌, ◌<◌, true, length, IsTrue, IsSome, IfSome, IfErr, IfOk, OnOk, OnErr, Some, None};
ghost use Rattle.std.specs.Borrow.{sem};
ghost use Rattle.elf_types.specs.declared.errors.ElfError.TheVariants.{Memory};
ghost use Rattle.elf_types.specs.Answers.{answered, IsRefusal};
ghost use Rattle.elf_object.specs.elf_outside.Asks.{Asks};
ghost use Rattle.elf_object.specs.Words.{Answers, result_map};
ghost use Rattle.elf_object.specs.elf_xlate.Translation.{items_kind, items_count};
ghost use Rattle.section_data.specs.Views.{IsCell};
ghost use Rattle.section_data.specs.Held.{piece_in, kind_in, piece_holds_items, items_over, HeldIs};
ghost use Rattle.section_data.specs.Refused.{kind_refused, wrong_piece_kind, lend_due, preparing};
ghost use Rattle.section_data.specs.Leaves.{LiesIn, Claims, Owns, OwnsKind, Stays};

use crate::cell::Cell;
use crate::listed::Listed;
use elf_object::prelude::{Items, Source};
use elf_types::{Class, ElfError, Kind, List, Order};

impl Cell {
    ghost use Rattle.section_data.specs.Lends.{LendsCell, LendsCellItems, LendsItems, LendsItemList};

    /// Whether a piece holds the kind: else `WrongKind` with the kind that it holds.
    pub(super) fn check_kind(&self, p: u32, kind: Kind) -> Result<(), ElfError>
        requires { p < length self.now.pieces }
        ensures answer { result ≡ answered (wrong_piece_kind self.now kind p) tt }
        ensures kind { OnOk result (kind_in self.now p ≡ kind) }
        ensures err { IfErr result IsRefusal }
    {
        let held = self.piece_kind(p);
        if held == kind {
            Ok(())
        } else {
            Err(ElfError::WrongKind { held })
        }
    }

    /// Whether items of a kind can be handed out. It fails with, in this order: `NoData`,
    /// `WrongKind` with the kind that the piece holds, and for the clean home piece `OutOfFile` and
    /// `Ragged`. It takes no memory.
    #[tactic(auto, unfolding(crate::specs::Refused::kind_refused))]
    pub fn check_lend(&self, p: u32, kind: Kind, class: Class) -> Result<(), ElfError>
        ensures answer { result ≡ answered (kind_refused class self.now kind p) tt }
        ensures kind { OnOk result (kind_in self.now p ≡ kind) }
        ensures there { OnOk result (p < length self.now.pieces) }
        ensures err { IfErr result IsRefusal }
        ensures cell { IsCell self.now }
    {
        self.check_piece(p)?;
        self.check_kind(p, kind)?;
        self.check_home(p, class)
    }

    /// Makes a piece that holds its items own and marked with them. Afterwards the clean home piece
    /// holds none. It rejects nothing and takes no memory.
    #[tactic(auto, unfolding(crate::specs::Held::ready))]
    pub fn claim(&mut self, p: u32)
        requires piece { p < length self.old.pieces }
        requires holds { IsTrue (piece_holds_items self.old p) }
        ensures claims { Claims self.old self.new p }
        ensures cell { IsCell self.new }
    {
        if self.is_own(p) {
            return;
        }
        let items = self.kept.take_items();
        self.set_piece(p, items);
    }

    /// Makes a piece of a kind own and marked with its items; the home is read and translated at
    /// first use. It fails as `lend` does.
    pub fn own<S: Source>(
        &mut self,
        p: u32,
        kind: Kind,
        class: Class,
        order: Order,
        src: &mut S,
    ) -> Result<(), ElfError>
        requires lies { LiesIn self.old (S.size src.old) }
        requires items { HeldIs class order self.old }
        ensures answer { Answers true (preparing self.old p (lend_due class self.old kind p)) result
            (answered (kind_refused class self.old kind p) tt) }
        ensures owns { OnOk result (Owns (S.holds src.old) class order self.old self.new p) }
        ensures there { OnOk result (p < length self.new.pieces) }
        ensures own { OnOk result (OwnsKind kind (piece_in self.new p)) }
        ensures items { HeldIs class order self.new }
        ensures stays { OnErr result (Stays (S.holds src.old) result self.old self.new) }
        ensures asks { Asks S.Source result src.old src.new (lend_due class self.old kind p) }
        ensures cell { IsCell self.new }
    {
        if let Err(e) = self.check_lend(p, kind, class) {
            return Err(e);
        }
        if let Err(e) = self.prepare(src, p, class, order) {
            return Err(e);
        }
        self.claim(p);
        Ok(())
    }

    /// The items of a piece that holds that kind, lent for writing. The home is read and translated
    /// at first use, and the piece becomes own and marked; what the borrower leaves is what it
    /// holds. It fails with, in this order: `NoData`, `WrongKind` with the kind that the piece
    /// holds, for the clean home piece `OutOfFile` and `Ragged`, and then `Memory` or `Read` where
    /// the piece does not hold its items. It reads nothing where it is rejected, the piece is own
    /// or the section is loaded.
    ///
    /// Source: elf_getdata and elf_flagdata of elf(3E).
    pub fn lend<S: Source>(
        &mut self,
        piece: u32,
        kind: Kind,
        class: Class,
        order: Order,
        src: &mut S,
    ) -> Result<&mut Items, ElfError>
        requires lies { LiesIn self.old (S.size src.old) }
        requires items { HeldIs class order self.old }
        ensures* lends { sem 𝓛 (LendsItems (S.holds src.entry.now) class order piece self.entry
            result) }
        ensures answer { Answers true
            (preparing self.old piece (lend_due class self.old kind piece))
            (result_map (λ _. tt {0}) result)
            (answered (kind_refused class self.old kind piece) (tt {0})) }
        ensures kind { IfOk result (λ lent. items_kind lent.now ≡ kind) }
        ensures value { IfSome (S.holds src.old) (λ image.
            IfOk result (λ lent. lent.now ≡ items_over image class order self.old piece)) }
        ensures asks { Asks S.Source result src.old src.new (lend_due class self.old kind piece) }
    {
        match self.own(piece, kind, class, order, src) {
            Ok(()) => Ok(self.items_mut(piece)),
            Err(e) => Err(e),
        }
    }

    /// The list in the items of a piece of the list's kind, lent for writing as `lend` does.
    pub fn lend_list<T: Listed, S: Source>(
        &mut self,
        piece: u32,
        class: Class,
        order: Order,
        src: &mut S,
    ) -> Result<&mut List<T>, ElfError>
        requires lies { LiesIn self.old (S.size src.old) }
        requires items { HeldIs class order self.old }
        ensures* lends { sem 𝓛 (LendsItemList T.row T.variant (S.holds src.entry.now) class order
            piece self.entry result) }
        ensures answer { Answers true
            (preparing self.old piece (lend_due class self.old T.kind piece))
            (result_map (λ _. tt {0}) result)
            (answered (kind_refused class self.old T.kind piece) (tt {0})) }
        ensures value { IfSome (S.holds src.old) (λ image. IfOk result (λ lent.
            lent.now ≡ T.list_of (items_over image class order self.old piece))) }
        ensures asks { Asks S.Source result src.old src.new
            (lend_due class self.old T.kind piece) }
    {
        match self.own(piece, T::kind(), class, order, src) {
            Ok(()) => Ok(self.list_mut::<T>(piece)),
            Err(e) => Err(e),
        }
    }

    /// The list in a piece's own items, lent for writing: what the borrower leaves is what the
    /// piece holds. It takes no memory.
    #[tactic(auto, unfolding(crate::specs::Held::piece_in))]
    pub fn list_mut<T: Listed>(&mut self, p: u32) -> &mut List<T>
        requires piece { p < length self.old.pieces }
        requires own { IsSome (piece_in self.old p).own }
        requires kind { IfSome (piece_in self.old p).own (λ items. items_kind items ≡ T.kind) }
        ensures* lends { sem 𝓛 (LendsCell T.row T.variant p self.entry result) }
        ensures value { IfSome (piece_in self.old p).own (λ items. result.now ≡ T.list_of items) }
        ensures counted { IfSome (piece_in self.old p).own (λ items.
            length result.now ≡ items_count items) }
    {
        let piece = self.kept.get_mut(p);
        piece.list_mut::<T>()
    }

    /// A piece's own items, lent for writing. It takes no memory.
    #[tactic(auto, unfolding(crate::specs::Held::piece_in))]
    pub fn items_mut(&mut self, p: u32) -> &mut Items
        requires piece { p < length self.old.pieces }
        requires own { IsSome (piece_in self.old p).own }
        ensures* lends { sem 𝓛 (LendsCellItems p self.entry result) }
        ensures value { (piece_in self.old p).own ≡ Some result.now }
    {
        let piece = self.kept.get_mut(p);
        piece.items_mut()
    }
}
