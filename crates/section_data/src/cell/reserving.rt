//! Memory for a home's bytes is reserved, and what was read is freed.

ghost use Rattle.std.specs.Prelude.{◌≡◌, ◌<◌, true, IsTrue, IfErr, OnOk, OnErr, ◌||◌};
ghost use Rattle.elf_types.specs.declared.errors.ElfError.TheVariants.{Read};
ghost use Rattle.elf_types.specs.Answers.{answered};
ghost use Rattle.elf_object.specs.elf_outside.Asks.{Asks};
ghost use Rattle.elf_object.specs.Words.{Answers, Edits};
ghost use Rattle.section_data.specs.Views.{IsCell};
ghost use Rattle.section_data.specs.Held.{cell_is_loaded, is_untouched};
ghost use Rattle.section_data.specs.Refused.{home_out, load_due, reading};
ghost use Rattle.section_data.specs.Leaves.{LiesIn, FillsRoom, with_room, unloaded};

use crate::cell::Cell;
use elf_object::prelude::Source;
use elf_types::ElfError;

impl Cell {
    /// Reserves memory for the home's bytes where they are not held, so that `load_reserved` takes
    /// none. It fails with, in this order: `OutOfFile` exactly where the home passes the end of the
    /// image, then `Memory`, and then the cell is as before. It reads nothing.
    pub fn reserve(&mut self) -> Result<(), ElfError>
        ensures edits { Edits result self.old self.new (answered (home_out self.old) tt)
            (with_room self.old) }
        ensures ready { OnOk result (IsTrue (cell_is_loaded self.new || self.new.room)) }
        ensures cell { IsCell self.new }
    {
        if self.is_loaded() {
            return Ok(());
        }
        if self.out() {
            return Err(ElfError::OutOfFile {
                section: self.section(),
            });
        }
        if let Err(e) = self.kept.reserve(self.alloc) {
            return Err(e);
        }
        Ok(())
    }

    /// Reads the home's bytes into the memory that is reserved for them, where they are not held;
    /// then it is used up. It fails with `Read` alone, and then the cell is as before, so it can be
    /// tried again. It takes no memory, and reads nothing where the section is loaded.
    pub fn load_reserved<S: Source>(&mut self, src: &mut S) -> Result<(), ElfError>
        requires lies { LiesIn self.old (S.size src.old) }
        requires room { IsTrue (cell_is_loaded self.old || self.old.room) }
        ensures answer { Answers true (reading (load_due self.old)) result
            (answered (home_out self.old) tt) }
        ensures fills { OnOk result (FillsRoom (S.holds src.old) self.old self.new) }
        ensures unchanged { OnErr result (self.new ≡ self.old) }
        ensures asks { Asks S.Source result src.old src.new (load_due self.old) }
        ensures err { IfErr result (λ e. (e ≡ Read) × (0 < load_due self.old)) }
        ensures cell { IsCell self.new }
    {
        if self.is_loaded() {
            return Ok(());
        }
        self.kept.fill_room(src)
    }

    /// Whether the first piece is the clean home piece and is not marked: what it holds is what the
    /// image held. It takes no memory.
    pub fn is_untouched(&self) -> bool
        ensures { result ≡ is_untouched self.now }
    {
        self.kept.is_untouched()
    }

    /// Frees the home's bytes and items where the first piece is the clean home piece and is not
    /// marked, so that they can be read again; else the cell stays as it is. It reads nothing,
    /// takes no memory and cannot be rejected.
    pub fn unload(&mut self)
        ensures value { self.new ≡ unloaded self.old }
        ensures cell { IsCell self.new }
    {
        if self.is_untouched() {
            self.kept.forget();
        }
    }
}
