//! Edits of the pieces of a section.

ghost use Rattle.std.specs.Prelude.{◌≡◌, ◌<◌, ◌∷◌, [], ℕ, List, Option, length, false, OnOk, OnErr, IfErr};
ghost use Rattle.elf_types.specs.Answers.{answered, first_refusal, IsRefusal};
ghost use Rattle.section_table.specs.elf_object.Answers.{reserved};
ghost use Rattle.section_table.specs.elf_object.Words.{handing_back, result_map};
ghost use Rattle.section_table.specs.elf_object.Calls as calls;
ghost use Rattle.section_table.specs.section_data.Refused.{replace_refused, append_refused};
ghost use Rattle.elf_descriptor.specs.Views.{HasCounts, object_of, scn_at, no_scn, ready_of};
ghost use Rattle.elf_descriptor.specs.Edits.{IsStepped, IsNumbered, IsStatedWith, numbers_of};

use super::headers::check_reserved;
use crate::body::Body;
use elf_types::{DataId, ElfError};
use section_table::prelude::Items;

impl Body {
    /// Whether the pieces of a section can be edited; else `NoSection`, then `Reserved`.
    fn check_edited(&self, s: u32) -> Result<(), ElfError>
        requires { HasCounts self.now }
        ensures answer { result
            ≡ answered (first_refusal (no_scn self.now s ∷ reserved s ∷ [])) tt }
        ensures there { OnOk result (s < length self.now.sections) }
        ensures err { IfErr result IsRefusal }
    {
        self.check_section(s)?;
        check_reserved(s)
    }

    /// Gives a piece of a section that is there other items; else `NoData`, then `Unfit`.
    fn replace_there(&mut self, d: DataId, items: Items) -> Result<(), (Items, ElfError)>
        requires { d.section < length self.old.sections }
        ensures answer { result ≡ handing_back items (answered (replace_refused
            self.old.header.class (scn_at self.old d.section).cell d.piece items) tt) }
        ensures step { OnOk result (IsStepped (calls.replace d.section d.piece items).after
            (ready_of self.old) self.old self.new) }
        ensures unchanged { OnErr result (IsStepped (λ o. o) (ready_of self.old) self.old self.new) }
    {
        let class = self.header.class;
        let cell = self.sections.cell_mut(d.section);
        cell.replace(d.piece, class, items)
    }

    /// Gives a piece other items as `replace_there` does; an update may run out of memory then.
    fn replace_unready(&mut self, d: DataId, items: Items) -> Result<(), (Items, ElfError)>
        requires { d.section < length self.old.sections }
        ensures answer { result ≡ handing_back items (answered (replace_refused
            self.old.header.class (scn_at self.old d.section).cell d.piece items) tt) }
        ensures step { OnOk result (IsStepped (calls.replace d.section d.piece items).after false
            self.old self.new) }
        ensures unchanged { OnErr result (IsStepped (λ o. o) (ready_of self.old) self.old self.new) }
    {
        if let Err(refused) = self.replace_there(d, items) {
            return Err(refused);
        }
        self.ready = false;
        Ok(())
    }

    /// Gives a piece other items; else `NoSection`, `Reserved`, `NoData`, then `Unfit`.
    pub fn replace(&mut self, d: DataId, items: Items) -> Result<(), (Items, ElfError)>
        requires counts { HasCounts self.old }
        requires numbered { IsNumbered self.old d.section }
        ensures answer { (image : Option (List ℕ)) (size : ℕ) → result ≡ handing_back items
            ((calls.replace d.section d.piece items).answer (object_of image size self.old)) }
        ensures step { OnOk result (IsStepped (calls.replace d.section d.piece items).after false
            self.old self.new) }
        ensures unchanged { OnErr result (IsStepped (λ o. o) (ready_of self.old) self.old self.new) }
    {
        if let Err(e) = self.check_edited(d.section) {
            return Err((items, e));
        }
        self.replace_unready(d, items)
    }
    /// Adds a piece to a section that is there; else `TooMany`, `BadAlign`, `Unfit`, then `Memory`.
    fn append_there(
        &mut self,
        s: u32,
        items: Items,
        align: u64,
    ) -> Result<DataId, (Items, ElfError)>
        requires { s < length self.old.sections }
        ensures answer { IsStatedWith (result_map numbers_of result) items (answered
            (append_refused self.old.header.class (scn_at self.old s).cell items align)
            (s, length (scn_at self.old s).cell.pieces)) }
        ensures step { OnOk result (IsStepped (calls.newdata_aligned s items align).after
            (ready_of self.old) self.old self.new) }
        ensures unchanged { OnErr result (IsStepped (λ o. o) (ready_of self.old) self.old self.new) }
    {
        let class = self.header.class;
        let cell = self.sections.cell_mut(s);
        match cell.append(class, items, align) {
            Ok(piece) => Ok(DataId { section: s, piece }),
            Err(refused) => Err(refused),
        }
    }

    /// Adds a piece as `append_there` does; an update may run out of memory then.
    fn append_unready(
        &mut self,
        s: u32,
        items: Items,
        align: u64,
    ) -> Result<DataId, (Items, ElfError)>
        requires { s < length self.old.sections }
        ensures answer { IsStatedWith (result_map numbers_of result) items (answered
            (append_refused self.old.header.class (scn_at self.old s).cell items align)
            (s, length (scn_at self.old s).cell.pieces)) }
        ensures step { OnOk result (IsStepped (calls.newdata_aligned s items align).after false
            self.old self.new) }
        ensures unchanged { OnErr result (IsStepped (λ o. o) (ready_of self.old) self.old self.new) }
    {
        match self.append_there(s, items, align) {
            Ok(d) => {
                self.ready = false;
                Ok(d)
            }
            Err(refused) => Err(refused),
        }
    }

    /// Adds a piece to a section; else `NoSection`, `Reserved`, `TooMany`, `BadAlign`, `Unfit`,
    /// then `Memory`.
    pub fn newdata(&mut self, s: u32, items: Items, align: u64) -> Result<DataId, (Items, ElfError)>
        requires counts { HasCounts self.old }
        requires numbered { IsNumbered self.old s }
        ensures answer { (image : Option (List ℕ)) (size : ℕ)
            → IsStatedWith (result_map numbers_of result) items
            ((calls.newdata_aligned s items align).answer (object_of image size self.old)) }
        ensures step { OnOk result (IsStepped (calls.newdata_aligned s items align).after false
            self.old self.new) }
        ensures unchanged { OnErr result (IsStepped (λ o. o) (ready_of self.old) self.old self.new) }
    {
        if let Err(e) = self.check_edited(s) {
            return Err((items, e));
        }
        self.append_unready(s, items, align)
    }
}
