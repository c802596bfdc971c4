//! Where a section or a piece is, and how a call is rejected where it is not.

ghost use Rattle.std.specs.Prelude.{◌≡◌, ◌<◌, length, None, OnOk, IfErr, IfSome};
ghost use Rattle.elf_types.specs.Answers.{answered, IsRefusal};
ghost use Rattle.section_table.specs.section_data.Views.{IsCell};
ghost use Rattle.section_table.specs.Sections.{cell_of, IsAsOpened};
ghost use Rattle.elf_descriptor.specs.Views.{HasCounts, scn_at, no_scn};
ghost use Rattle.elf_descriptor.specs.Bodies.{no_piece_in};
ghost use Rattle.elf_descriptor.specs.Held.{IsHeldIn};

use crate::body::Body;
use crate::cells::held_in;
use crate::held::Held;
use elf_types::{DataId, ElfError, Shdr};
use section_table::CellAt;
use section_table::prelude::Cell;

impl Body {
    /// Whether there is a section with that number; else `NoSection`.
    #[tactic(auto, unfolding(crate::specs::Views::no_scn))]
    pub fn check_section(&self, s: u32) -> Result<(), ElfError>
        requires { HasCounts self.now }
        ensures answer { result ≡ answered (no_scn self.now s) tt }
        ensures there { OnOk result (s < length self.now.sections) }
        ensures err { IfErr result IsRefusal }
    {
        let count = self.header.shnum;
        if s < count {
            Ok(())
        } else {
            Err(ElfError::NoSection { index: s, count })
        }
    }

    /// The present header of the section with that number.
    #[tactic(auto, unfolding(crate::specs::Views::scn_at))]
    pub fn header_at(&self, s: u32) -> &Shdr
        requires { s < length self.now.sections }
        ensures { result.now ≡ (scn_at self.now s).header }
    {
        self.sections.header(s)
    }

    /// The cell of the section with that number, to be looked at.
    #[tactic(auto, unfolding(crate::specs::Views::scn_at))]
    #[inline(always)]
    pub fn cell_at(&self, s: u32) -> CellAt<'_>
        requires { s < length self.now.sections }
        ensures { cell_of result ≡ (scn_at self.now s).cell }
    {
        self.sections.at(s)
    }

    /// The cell of the section with that number, where it was made.
    #[tactic(auto, unfolding(crate::specs::Views::scn_at))]
    #[inline(always)]
    pub fn made_at(&self, s: u32) -> Option<&Cell>
        requires { s < length self.now.sections }
        ensures some { IfSome result (λ cell. cell.now ≡ (scn_at self.now s).cell) }
        ensures none { result ≡ None → IsAsOpened (scn_at self.now s).cell }
    {
        self.sections.made(s)
    }

    /// The cell of the section with that number, of which something is held: it was made.
    pub fn held_cell(&self, s: u32) -> &Cell
        requires there { s < length self.now.sections }
        requires held { IsAsOpened (scn_at self.now s).cell → ⊥ }
        ensures { result.now ≡ (scn_at self.now s).cell }
    {
        match self.made_at(s) {
            Some(cell) => cell,
            None => unreachable!(),
        }
    }

    /// Whether the section with that number is marked dirty.
    #[tactic(auto, unfolding(crate::specs::Views::scn_at))]
    pub fn marked_at(&self, s: u32) -> bool
        requires { s < length self.now.sections }
        ensures { result ≡ (scn_at self.now s).marked }
    {
        self.sections.is_marked(s)
    }

    /// What is held of a piece that is there.
    pub fn held_at(&self, s: u32, p: u32) -> Held<'_>
        requires section { s < length self.now.sections }
        requires piece { p < length (scn_at self.now s).cell.pieces }
        ensures held { IsHeldIn (scn_at self.now s).cell p result }
        ensures cell { IfSome (scn_at self.now s).cell.raw (λ raw.
            IsCell (scn_at self.now s).cell) }
    {
        match self.made_at(s) {
            Some(cell) => held_in(cell, p),
            None => Held::Unread,
        }
    }

    /// Whether there is such a piece; else `NoSection`, then `NoData`.
    #[tactic(auto, unfolding(crate::specs::Bodies::no_piece_in))]
    #[inline(always)]
    pub fn check_piece(&self, d: DataId) -> Result<(), ElfError>
        requires { HasCounts self.now }
        ensures answer { result ≡ answered (no_piece_in self.now d.section d.piece) tt }
        ensures section { OnOk result (d.section < length self.now.sections) }
        ensures piece { OnOk result (d.piece < length (scn_at self.now d.section).cell.pieces) }
        ensures err { IfErr result IsRefusal }
    {
        self.check_section(d.section)?;
        let at = self.cell_at(d.section);
        at.cell().check_piece(d.piece)
    }
}
