//! Reading a section's bytes, and translating them once.

ghost use Rattle.std.specs.Prelude.{◌≡◌, ◌≢◌, ◌<◌, length, true, IsTrue, is_some, IfErr, OnOk, OnErr};
ghost use Rattle.elf_types.specs.declared.errors.ElfError.TheVariants.{Memory};
ghost use Rattle.elf_types.specs.Answers.{answered};
ghost use Rattle.section_table.specs.elf_outside.Asks.{Asks};
ghost use Rattle.section_table.specs.elf_object.Words.{Answers};
ghost use Rattle.section_table.specs.section_data.Held.{piece_in, cell_is_loaded, piece_holds_items, HeldIs};
ghost use Rattle.section_table.specs.section_data.Leaves.{LiesIn};
ghost use Rattle.section_table.specs.section_data.Refused.{load_due, items_due, loading, preparing, home_out, items_refused, kind_refused};
ghost use Rattle.elf_descriptor.specs.Views.{HasCounts, scn_at};
ghost use Rattle.elf_descriptor.specs.Bodies.{no_raw_in, no_items_in, no_list_in};
ghost use Rattle.elf_descriptor.specs.Dues.{list_due, IsListed};
ghost use Rattle.elf_descriptor.specs.Warmed.{Warmed};

use crate::body::Body;
use crate::cells::fetch_list;
use elf_types::{DataId, ElfError, Kind};
use section_table::prelude::Source;

impl Body {
    /// Reads the home of a section that is there, where its bytes are not held. It fails with, in
    /// this order: `OutOfFile`, then `Memory` or `Read`.
    fn load_there<S: Source>(&mut self, src: &mut S, s: u32) -> Result<(), ElfError>
        requires there { s < length self.old.sections }
        requires lies { LiesIn (scn_at self.old s).cell (S.size src.old) }
        ensures answer { Answers true (loading (load_due (scn_at self.old s).cell)) result
            (answered (home_out (scn_at self.old s).cell) tt) }
        ensures loaded { OnOk result (IsTrue (cell_is_loaded (scn_at self.new s).cell)) }
        ensures held { (scn_at self.new s).cell.held ≡ (scn_at self.old s).cell.held }
        ensures unchanged { OnErr result ((scn_at self.new s).cell ≡ (scn_at self.old s).cell) }
        ensures warmed { Warmed (S.holds src.old) self.old self.new s }
        ensures asks { Asks S.Source result src.old src.new (load_due (scn_at self.old s).cell) }
    {
        let cell = self.sections.cell_mut(s);
        cell.load(src)
    }

    /// Reads a section's home where its bytes are not held. It fails with, in this order:
    /// `NoSection`, `OutOfFile`, then `Memory` or `Read`.
    #[tactic(auto, unfolding(crate::specs::Bodies::no_raw_in))]
    pub fn load<S: Source>(&mut self, src: &mut S, s: u32) -> Result<(), ElfError>
        requires counts { HasCounts self.old }
        requires lies { LiesIn (scn_at self.old s).cell (S.size src.old) }
        ensures answer { Answers true (loading (load_due (scn_at self.old s).cell)) result
            (answered (no_raw_in self.old s) tt) }
        ensures loaded { OnOk result (IsTrue (cell_is_loaded (scn_at self.new s).cell)) }
        ensures held { (scn_at self.new s).cell.held ≡ (scn_at self.old s).cell.held }
        ensures unchanged { OnErr result ((scn_at self.new s).cell ≡ (scn_at self.old s).cell) }
        ensures warmed { Warmed (S.holds src.old) self.old self.new s }
        ensures asks { Asks S.Source result src.old src.new (load_due (scn_at self.old s).cell) }
    {
        if let Err(e) = self.check_section(s) {
            return Err(e);
        }
        self.load_there(src, s)
    }

    /// Makes a piece of a section that is there hold its items.
    fn prepare_there<S: Source>(&mut self, src: &mut S, d: DataId) -> Result<(), ElfError>
        requires there { d.section < length self.old.sections }
        requires lies { LiesIn (scn_at self.old d.section).cell (S.size src.old) }
        requires items { HeldIs self.old.header.class self.old.header.order
            (scn_at self.old d.section).cell }
        ensures answer { Answers true (preparing (scn_at self.old d.section).cell d.piece
            (items_due self.old.header.class (scn_at self.old d.section).cell d.piece)) result
            (answered (items_refused self.old.header.class (scn_at self.old d.section).cell
            d.piece) tt) }
        ensures piece { OnOk result (d.piece < length (scn_at self.old d.section).cell.pieces) }
        ensures holds { OnOk result
            (IsTrue (piece_holds_items (scn_at self.new d.section).cell d.piece)) }
        ensures unchanged { IfErr result (λ e. e ≢ Memory
            → (scn_at self.new d.section).cell ≡ (scn_at self.old d.section).cell) }
        ensures own { is_some (piece_in (scn_at self.old d.section).cell d.piece).own ≡ true
            → (scn_at self.new d.section).cell ≡ (scn_at self.old d.section).cell }
        ensures warmed { Warmed (S.holds src.old) self.old self.new d.section }
        ensures asks { Asks S.Source result src.old src.new
            (items_due self.old.header.class (scn_at self.old d.section).cell d.piece) }
    {
        let (class, order) = (self.header.class, self.header.order);
        let cell = self.sections.cell_mut(d.section);
        cell.prepare(src, d.piece, class, order)
    }

    /// Makes a piece hold its items. It fails with, in this order: `NoSection`, `NoData`, and for
    /// the clean home piece `OutOfFile` and `Ragged`; then `Memory` or `Read`.
    #[tactic(auto, unfolding(crate::specs::Bodies::no_items_in))]
    pub fn prepare<S: Source>(&mut self, src: &mut S, d: DataId) -> Result<(), ElfError>
        requires counts { HasCounts self.old }
        requires lies { LiesIn (scn_at self.old d.section).cell (S.size src.old) }
        requires items { HeldIs self.old.header.class self.old.header.order
            (scn_at self.old d.section).cell }
        ensures answer { Answers true (preparing (scn_at self.old d.section).cell d.piece
            (items_due self.old.header.class (scn_at self.old d.section).cell d.piece)) result
            (answered (no_items_in self.old d.section d.piece) tt) }
        ensures holds { OnOk result
            (IsTrue (piece_holds_items (scn_at self.new d.section).cell d.piece)) }
        ensures unchanged { IfErr result (λ e. e ≢ Memory
            → (scn_at self.new d.section).cell ≡ (scn_at self.old d.section).cell) }
        ensures own { is_some (piece_in (scn_at self.old d.section).cell d.piece).own ≡ true
            → (scn_at self.new d.section).cell ≡ (scn_at self.old d.section).cell }
        ensures warmed { Warmed (S.holds src.old) self.old self.new d.section }
        ensures asks { Asks S.Source result src.old src.new
            (items_due self.old.header.class (scn_at self.old d.section).cell d.piece) }
    {
        if let Err(e) = self.check_section(d.section) {
            return Err(e);
        }
        self.prepare_there(src, d)
    }

    /// Makes sure that each item of a piece of a kind, in a section that is there, is in memory.
    fn fetch_there<S: Source>(&mut self, src: &mut S, d: DataId, kind: Kind) -> Result<(), ElfError>
        requires there { d.section < length self.old.sections }
        requires lies { LiesIn (scn_at self.old d.section).cell (S.size src.old) }
        ensures answer { Answers true (loading (list_due self.old.header.class
            (scn_at self.old d.section).cell kind d.piece)) result (answered (kind_refused
            self.old.header.class (scn_at self.old d.section).cell kind d.piece) tt) }
        ensures hand { OnOk result (IsListed self.new d.section d.piece kind) }
        ensures unchanged { OnErr result
            ((scn_at self.new d.section).cell ≡ (scn_at self.old d.section).cell) }
        ensures own { is_some (piece_in (scn_at self.old d.section).cell d.piece).own ≡ true
            → (scn_at self.new d.section).cell ≡ (scn_at self.old d.section).cell }
        ensures warmed { Warmed (S.holds src.old) self.old self.new d.section }
        ensures asks { Asks S.Source result src.old src.new
            (list_due self.old.header.class (scn_at self.old d.section).cell kind d.piece) }
    {
        let class = self.header.class;
        let cell = self.sections.cell_mut(d.section);
        fetch_list(cell, src, d.piece, kind, class)
    }

    /// Makes sure that each item of a piece of a kind is in memory: it is own, or its home is
    /// loaded. It fails with, in this order: `NoSection`, `NoData`, `WrongKind`, and for the clean
    /// home piece `OutOfFile` and `Ragged`; then `Memory` or `Read`.
    #[tactic(auto, unfolding(crate::specs::Bodies::no_list_in))]
    pub fn fetch<S: Source>(&mut self, src: &mut S, d: DataId, kind: Kind) -> Result<(), ElfError>
        requires counts { HasCounts self.old }
        requires lies { LiesIn (scn_at self.old d.section).cell (S.size src.old) }
        ensures answer { Answers true (loading (list_due self.old.header.class
            (scn_at self.old d.section).cell kind d.piece)) result
            (answered (no_list_in self.old kind d.section d.piece) tt) }
        ensures hand { OnOk result (IsListed self.new d.section d.piece kind) }
        ensures unchanged { OnErr result
            ((scn_at self.new d.section).cell ≡ (scn_at self.old d.section).cell) }
        ensures own { is_some (piece_in (scn_at self.old d.section).cell d.piece).own ≡ true
            → (scn_at self.new d.section).cell ≡ (scn_at self.old d.section).cell }
        ensures warmed { Warmed (S.holds src.old) self.old self.new d.section }
        ensures asks { Asks S.Source result src.old src.new
            (list_due self.old.header.class (scn_at self.old d.section).cell kind d.piece) }
    {
        if let Err(e) = self.check_section(d.section) {
            return Err(e);
        }
        self.fetch_there(src, d, kind)
    }
}
