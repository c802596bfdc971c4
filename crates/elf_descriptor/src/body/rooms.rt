//! Memory is reserved for a home's bytes, and what was read is freed.

ghost use Rattle.std.specs.Prelude.{◌≡◌, ◌<◌, ◌||◌, true, false, length, IsTrue, IfErr, OnOk, OnErr};
ghost use Rattle.elf_types.specs.declared.errors.ElfError.TheVariants.{Read};
ghost use Rattle.elf_types.specs.Answers.{answered};
ghost use Rattle.section_table.specs.elf_outside.Asks.{Asks};
ghost use Rattle.section_table.specs.elf_object.Words.{Answers};
ghost use Rattle.section_table.specs.section_data.Held.{cell_is_loaded};
ghost use Rattle.section_table.specs.section_data.Refused.{home_out, load_due, reading};
ghost use Rattle.section_table.specs.section_data.Leaves.{LiesIn, with_room};
ghost use Rattle.elf_descriptor.specs.Bodies.{no_raw_in};
ghost use Rattle.elf_descriptor.specs.Edits.{IsStated};
ghost use Rattle.elf_descriptor.specs.Views.{HasCounts, scn_at, no_scn};
ghost use Rattle.elf_descriptor.specs.Rooms.{can_let_go, let_go, HoldsSo, Fills};

use crate::body::Body;
use crate::cells::can_forget;
use elf_types::ElfError;
use section_table::prelude::Source;

impl Body {
    /// Reserves memory for the home of a section that is there. It fails with, in this order:
    /// `OutOfFile`, `Memory`.
    fn reserve_there(&mut self, s: u32) -> Result<(), ElfError>
        requires { s < length self.old.sections }
        ensures answer { IsStated result (answered (home_out (scn_at self.old s).cell) tt) }
        ensures ok { OnOk result
            (HoldsSo self.old self.new s (with_room (scn_at self.old s).cell)) }
        ensures same { OnErr result (HoldsSo self.old self.new s (scn_at self.old s).cell) }
    {
        let cell = self.sections.cell_mut(s);
        cell.reserve()
    }

    /// Reserves memory for a section's home, where that is not loaded. It fails with, in this
    /// order: `NoSection`, `OutOfFile`, `Memory`.
    #[tactic(auto, unfolding(crate::specs::Bodies::no_raw_in))]
    pub fn reserve_home(&mut self, s: u32) -> Result<(), ElfError>
        requires { HasCounts self.old }
        ensures answer { IsStated result (answered (no_raw_in self.old s) tt) }
        ensures ok { OnOk result
            (HoldsSo self.old self.new s (with_room (scn_at self.old s).cell)) }
        ensures there { OnOk result (s < length self.old.sections) }
        ensures same { OnErr result (HoldsSo self.old self.new s (scn_at self.old s).cell) }
    {
        if let Err(e) = self.check_section(s) {
            return Err(e);
        }
        self.reserve_there(s)
    }

    /// Reads the home of a section that is there into the memory that is reserved for it, where it
    /// is not loaded. It fails with `Read` alone.
    pub fn load_home<S: Source>(&mut self, src: &mut S, s: u32) -> Result<(), ElfError>
        requires there { s < length self.old.sections }
        requires lies { LiesIn (scn_at self.old s).cell (S.size src.old) }
        requires room { IsTrue (cell_is_loaded (scn_at self.old s).cell
            || (scn_at self.old s).cell.room) }
        ensures answer { Answers true (reading (load_due (scn_at self.old s).cell)) result
            (answered (home_out (scn_at self.old s).cell) tt) }
        ensures fills { OnOk result (Fills (S.holds src.old) self.old self.new s) }
        ensures same { OnErr result (HoldsSo self.old self.new s (scn_at self.old s).cell) }
        ensures asks { Asks S.Source result src.old src.new (load_due (scn_at self.old s).cell) }
        ensures err { IfErr result (λ e. e ≡ Read) }
    {
        let cell = self.sections.cell_mut(s);
        cell.load_reserved(src)
    }

    /// Whether a section's home can be read again, of a base of so many bytes: its home piece is
    /// clean and not marked, and the home lies in the base.
    fn can_let_go(&self, s: u32, base: u64) -> bool
        requires { s < length self.now.sections }
        ensures { result ≡ can_let_go self.now base s }
    {
        let at = self.cell_at(s);
        can_forget(at.cell(), base)
    }

    /// Frees what is held of a home whose piece is untouched.
    fn let_go(&mut self, s: u32, base: u64)
        requires there { s < length self.old.sections }
        requires again { can_let_go self.old base s ≡ true }
        ensures { HoldsSo self.old self.new s (let_go (scn_at self.old s).cell) }
    {
        let cell = self.sections.cell_mut(s);
        cell.unload();
    }

    /// Frees what is held of a section's home where it can be read again of a base of so many
    /// bytes; else `NoSection`.
    pub fn unload(&mut self, s: u32, base: u64) -> Result<(), ElfError>
        requires { HasCounts self.old }
        ensures answer { result ≡ answered (no_scn self.old s) tt }
        ensures gone { can_let_go self.old base s ≡ true → HoldsSo self.old self.new s (let_go (scn_at self.old s).cell) }
        ensures kept { can_let_go self.old base s ≡ false → self.new ≡ self.old }
    {
        if let Err(e) = self.check_section(s) {
            return Err(e);
        }
        if self.can_let_go(s, base) {
            self.let_go(s, base);
        }
        Ok(())
    }
}
