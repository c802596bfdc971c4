//! A piece becomes own, and the list in its items is lent for writing.

ghost use Rattle.std.specs.Prelude.{◌≡◌, ◌≢◌, ◌<◌, true, false, length, IfErr, IfSome, OnOk, OnErr};
ghost use Rattle.std.specs.Borrow.{sem};
ghost use Rattle.elf_types.specs.declared.errors.ElfError.TheVariants.{Memory};
ghost use Rattle.elf_types.specs.Answers.{answered};
ghost use Rattle.section_table.specs.elf_xlate.Translation.{items_count};
ghost use Rattle.section_table.specs.elf_outside.Asks.{Asks};
ghost use Rattle.section_table.specs.elf_object.Words.{Answers};
ghost use Rattle.section_table.specs.section_data.Held.{piece_in, HeldIs};
ghost use Rattle.section_table.specs.section_data.Leaves.{LiesIn, OwnsKind};
ghost use Rattle.section_table.specs.section_data.Refused.{kind_refused, lend_due, preparing};
ghost use Rattle.elf_descriptor.specs.Views.{HasCounts, scn_at};
ghost use Rattle.elf_descriptor.specs.Bodies.{no_list_in};
ghost use Rattle.elf_descriptor.specs.Warmed.{Warmed};

use crate::body::Body;
use elf_types::{DataId, ElfError, Kind, List};
use section_table::prelude::{Source, section_data_Listed as Listed};

impl Body {
    ghost use Rattle.elf_descriptor.specs.Owned.{IsOwned, LendsOwn};

    /// Makes a piece of a kind, in a section that is there, own and marked with its items.
    fn own_there<S: Source>(&mut self, src: &mut S, d: DataId, kind: Kind) -> Result<(), ElfError>
        requires there { d.section < length self.old.sections }
        requires lies { LiesIn (scn_at self.old d.section).cell (S.size src.old) }
        requires items { HeldIs self.old.header.class self.old.header.order
            (scn_at self.old d.section).cell }
        ensures answer { Answers true (preparing (scn_at self.old d.section).cell d.piece
            (lend_due self.old.header.class (scn_at self.old d.section).cell kind d.piece)) result
            (answered (kind_refused self.old.header.class (scn_at self.old d.section).cell kind
            d.piece) tt) }
        ensures owned { OnOk result (IsOwned (S.holds src.old) kind self.old.ready self.old
            self.new d.section d.piece) }
        ensures warmed { OnErr result (Warmed (S.holds src.old) self.old self.new d.section) }
        ensures held { OnErr result ((scn_at self.new d.section).cell.held
            ≡ (scn_at self.old d.section).cell.held) }
        ensures unchanged { IfErr result (λ e. e ≢ Memory
            → (scn_at self.new d.section).cell ≡ (scn_at self.old d.section).cell) }
        ensures asks { Asks S.Source result src.old src.new
            (lend_due self.old.header.class (scn_at self.old d.section).cell kind d.piece) }
    {
        let (class, order) = (self.header.class, self.header.order);
        let cell = self.sections.cell_mut(d.section);
        cell.own(d.piece, kind, class, order, src)
    }

    /// Makes a piece of a kind own and marked with its items; the home is read and translated at
    /// first use. It fails with, in this order: `NoSection`, `NoData`, `WrongKind`, and for the
    /// clean home piece `OutOfFile` and `Ragged`; then `Memory` or `Read`.
    #[tactic(auto, unfolding(crate::specs::Bodies::no_list_in))]
    pub fn own<S: Source>(&mut self, src: &mut S, d: DataId, kind: Kind) -> Result<(), ElfError>
        requires counts { HasCounts self.old }
        requires lies { LiesIn (scn_at self.old d.section).cell (S.size src.old) }
        requires items { HeldIs self.old.header.class self.old.header.order
            (scn_at self.old d.section).cell }
        ensures answer { Answers true (preparing (scn_at self.old d.section).cell d.piece
            (lend_due self.old.header.class (scn_at self.old d.section).cell kind d.piece)) result
            (answered (no_list_in self.old kind d.section d.piece) tt) }
        ensures owned { OnOk result (IsOwned (S.holds src.old) kind false self.old self.new
            d.section d.piece) }
        ensures warmed { OnErr result (Warmed (S.holds src.old) self.old self.new d.section) }
        ensures held { OnErr result ((scn_at self.new d.section).cell.held
            ≡ (scn_at self.old d.section).cell.held) }
        ensures unchanged { IfErr result (λ e. e ≢ Memory
            → (scn_at self.new d.section).cell ≡ (scn_at self.old d.section).cell) }
        ensures asks { Asks S.Source result src.old src.new
            (lend_due self.old.header.class (scn_at self.old d.section).cell kind d.piece) }
    {
        if let Err(e) = self.check_section(d.section) {
            return Err(e);
        }
        if let Err(e) = self.own_there(src, d, kind) {
            return Err(e);
        }
        self.ready = false;
        Ok(())
    }

    /// The list in the items of an own piece of the list's kind, lent for writing.
    pub fn list_mut<T: Listed>(&mut self, d: DataId) -> &mut List<T>
        requires section { d.section < length self.old.sections }
        requires piece { d.piece < length (scn_at self.old d.section).cell.pieces }
        requires own { OwnsKind T.kind (piece_in (scn_at self.old d.section).cell d.piece) }
        ensures* lends { sem 𝓛 (LendsOwn T.row T.variant d.section d.piece self.entry result) }
        ensures value { IfSome (piece_in (scn_at self.old d.section).cell d.piece).own (λ items.
            result.now ≡ T.list_of items) }
        ensures counted { IfSome (piece_in (scn_at self.old d.section).cell d.piece).own (λ items.
            length result.now ≡ items_count items) }
    {
        let cell = self.sections.cell_mut(d.section);
        cell.list_mut::<T>(d.piece)
    }
}
