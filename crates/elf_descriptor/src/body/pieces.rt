//! Where the pieces of a section end, the last NUL of its home, and whether it is a table that is
//! held.

ghost use Rattle.std.specs.Prelude.{◌≡◌, ◌<◌, length, true};
ghost use Rattle.elf_types.specs.declared.constants.TheConstants.{SHT_STRTAB};
ghost use Rattle.elf_descriptor.specs.Rooms.{HoldsSo};
ghost use Rattle.elf_descriptor.specs.Tables.{IsTableIn};
ghost use Rattle.elf_descriptor.specs.Views.{HasCounts, scn_at};

use crate::body::Body;
use crate::cells::holds_alone;
use elf_types::constants::SHT_STRTAB;

impl Body {
    /// Notes where the pieces of a section that is there end.
    #[inline(always)]
    fn note_there(&mut self, s: u32)
        requires { s < length self.old.sections }
        ensures { HoldsSo self.old self.new s (scn_at self.old s).cell }
    {
        let cell = self.sections.cell_mut(s);
        cell.note_pieces();
    }

    /// Notes where the pieces of a section end, where there is such a section.
    #[inline(always)]
    pub fn note_pieces(&mut self, s: u32)
        requires { HasCounts self.old }
        ensures { HoldsSo self.old self.new s (scn_at self.old s).cell }
    {
        if let Err(_) = self.check_section(s) {
            return;
        }
        self.note_there(s);
    }

    /// Looks for the last NUL of what is held of a section that is there.
    #[inline(always)]
    fn note_end_there(&mut self, s: u32)
        requires { s < length self.old.sections }
        ensures { HoldsSo self.old self.new s (scn_at self.old s).cell }
    {
        let cell = self.sections.cell_mut(s);
        cell.note_end();
    }

    /// Looks for the last NUL of what is held of a section, where there is such a section.
    #[inline(always)]
    pub fn note_end(&mut self, s: u32)
        requires { HasCounts self.old }
        ensures { HoldsSo self.old self.new s (scn_at self.old s).cell }
    {
        if let Err(_) = self.check_section(s) {
            return;
        }
        self.note_end_there(s);
    }

    /// Whether a section that is there is of type `SHT_STRTAB`.
    #[inline(always)]
    fn is_of_strings(&self, s: u32) -> bool
        requires { s < length self.now.sections }
        ensures { result ≡ true → (scn_at self.now s).header.stype ≡ SHT_STRTAB }
    {
        self.header_at(s).stype == SHT_STRTAB
    }

    /// Whether a section is one table of strings that is held, and an offset lies in it.
    #[inline(always)]
    pub fn holds_table(&self, s: u32, offset: u64) -> bool
        requires { HasCounts self.now }
        ensures { result ≡ true → IsTableIn self.now s offset }
    {
        if s >= self.header.shnum {
            return false;
        }
        if !self.is_of_strings(s) {
            return false;
        }
        match self.made_at(s) {
            Some(cell) => holds_alone(cell, offset),
            None => false,
        }
    }
}
