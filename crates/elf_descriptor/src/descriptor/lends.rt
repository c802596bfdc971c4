//! Items lent for writing: a loan hands out the descriptor's own list, and makes the piece own.

ghost use Rattle.std.specs.Prelude.{◌≡◌, true, length, IsTrue, IfOk, IfSome, OnOk, OnErr, []};
ghost use Rattle.std.specs.Borrow.{sem};
ghost use Rattle.elf_types.specs.Answers.{answered};
ghost use Rattle.section_table.specs.elf_xlate.Translation.{items_count};
ghost use Rattle.section_table.specs.elf_object.Words.{Answers};
ghost use Rattle.section_table.specs.elf_object.Object.{piece_at};
ghost use Rattle.section_table.specs.elf_object.Answers.{lend_refusal, items_at, count_at};
ghost use Rattle.section_table.specs.elf_object.Steps.{BecomesOwn};
ghost use Rattle.section_table.specs.elf_object.Calls.{due};
ghost use Rattle.section_table.specs.elf_object.Calls as calls;
ghost use Rattle.elf_descriptor.specs.Owned.{IsOwnPiece};
ghost use Rattle.elf_descriptor.specs.Reads.{Queries, wanted};

use crate::descriptor::Elf;
use crate::descriptor::edits::every_step_is_sound;
use elf_types::{DataId, ElfError, List};
use section_table::prelude::{Source, section_data_Listed as Listed};

mod kinds;

impl<S: Source> Elf<S> {
    ghost use Rattle.elf_descriptor.specs.Lends.{ReadsToOwn, LendsItems, LendsOwnItems, LendAnswers};

    /// Makes a piece of the list's kind own and marked with its items. It fails as `lend` does.
    fn own<T: Listed>(&mut self, d: DataId) -> Result<(), ElfError>
        ensures answer { Answers true
            (wanted (calls.lend d.section d.piece (T.variant [])) self.old) result
            (answered (lend_refusal self.old.o T.kind d.section d.piece) tt) }
        ensures object { OnOk result (BecomesOwn self.old.told self.old.o self.new.o d.section
            d.piece (items_at self.old.o d.section d.piece)) }
        ensures own { OnOk result (IsOwnPiece self.new.o T.kind d.section d.piece) }
        ensures reads { OnOk result (ReadsToOwn S.Source result self.old self.new
            ((calls.lend d.section d.piece (T.variant [])).reads self.old.o)
            (due (calls.lend d.section d.piece (T.variant [])) self.old.o self.old.loaded)) }
        ensures refused { OnErr result (Queries S.Source
            (calls.lend d.section d.piece (T.variant [])) [] result self.old self.new) }
    {
        every_step_is_sound();
        self.body.own(&mut self.src, d, T::kind())
    }

    /// The list in the items of an own piece of the list's kind, lent for writing.
    fn own_list<T: Listed>(&mut self, d: DataId) -> &mut List<T>
        requires { IsOwnPiece self.old.o T.kind d.section d.piece }
        ensures* lends { sem 𝓛 (LendsOwnItems T.row T.variant S.row S.Source d.section d.piece
            self.entry result) }
        ensures value { IfSome (piece_at self.old.o d.section d.piece).own (λ items.
            result.now ≡ T.list_of items) }
        ensures counted { IfSome (piece_at self.old.o d.section d.piece).own (λ items.
            length result.now ≡ items_count items) }
    {
        every_step_is_sound();
        let body = &mut self.body;
        body.list_mut::<T>(d)
    }

    /// The list in a piece's items, of the list's kind, lent for writing. The piece becomes own and
    /// marked, and what the borrower leaves, of any length, is what it holds; it keeps its
    /// alignment. It fails with, in this order: `NoSection`, `NoData`, `WrongKind` with the kind
    /// that the piece holds, and for the clean home piece `OutOfFile` and `Ragged`; then `Memory`
    /// or `Read` where the piece does not hold its items. The home is read and translated at the
    /// first use. A refusal leaves the object.
    ///
    /// Source: elf_getdata and elf_flagdata of elf(3E).
    pub fn lend<T: Listed>(&mut self, d: DataId) -> Result<&mut List<T>, ElfError>
        ensures* lends { sem 𝓛 (LendsItems T.row T.variant S.row S.Source d.section d.piece
            self.entry result) }
        ensures answer { LendAnswers T.kind (T.variant []) d.section d.piece self.old result }
        ensures value { IsTrue self.old.told → IfOk result (λ lent.
            lent.now ≡ T.list_of (items_at self.old.o d.section d.piece)) }
        ensures sized { IfOk result (λ lent.
            length lent.now ≡ count_at self.old.o d.section d.piece) }
    {
        match self.own::<T>(d) {
            Ok(()) => Ok(self.own_list::<T>(d)),
            Err(e) => Err(e),
        }
    }
}
