//! Where the pieces of a section end, the last NUL of its home, and whether it is a table that is
//! held.

ghost use Rattle.std.specs.Prelude.{◌≡◌, ◌≤◌, true, IsTrue, None};
ghost use Rattle.section_table.specs.elf_object.Object.{section_at};
ghost use Rattle.section_table.specs.elf_object.Answers.{no_section};
ghost use Rattle.section_table.specs.elf_object.Due.{is_loaded};
ghost use Rattle.section_table.specs.section_data.Nuls.{IsEndedFront};
ghost use Rattle.elf_descriptor.specs.FirstPieces.{AreFirst};
ghost use Rattle.elf_descriptor.specs.Tables.{IsHeldTable};

use crate::descriptor::Elf;
use elf_types::ScnId;
use section_table::prelude::{FirstPieces, Source};

impl<S: Source> Elf<S> {
    /// Notes where the pieces of a section that hold bytes end, so that `first_pieces` finds them
    /// in few steps. It changes no result. It rejects nothing: where there is no such section it
    /// notes nothing, and where there is no memory it notes less.
    #[inline(always)]
    pub fn note_pieces(&mut self, s: ScnId)
        ensures { self.new ≡ self.old }
    {
        self.body.note_pieces(s.0);
    }

    /// The first pieces of a section that is there, each of which holds bytes, as far as the last
    /// of them ends at a limit at the latest. It takes few steps where it is noted where they end,
    /// and no memory.
    ///
    /// Source: gABI chapter 4, "Sections", and elf_newdata of elf(3E).
    #[inline(always)]
    pub fn first_pieces(&self, s: ScnId, limit: u64) -> FirstPieces
        requires { no_section self.now.o s.0 ≡ None }
        ensures first { AreFirst self.now.o s.0 result.count result.end }
        ensures within { result.end ≤ limit }
    {
        let at = self.body.cell_at(s.0);
        at.cell().first_pieces(limit)
    }

    /// Looks for the last NUL of a home that is loaded, where that was not done yet, so that
    /// `ended_bytes` tells of it. It changes no result but that one. It rejects nothing, and takes
    /// no memory: where there is no such section, or it is not loaded, nothing is done.
    #[inline(always)]
    pub fn note_end(&mut self, s: ScnId)
        ensures { self.new ≡ self.old }
    {
        self.body.note_end(s.0);
    }

    /// The bytes of a home that is loaded, up to their last NUL where that was looked for, else all
    /// of them: the same strings begin in them. It takes no memory.
    ///
    /// Source: gABI chapter 4, "String Table".
    pub fn ended_bytes(&self, s: ScnId) -> &[u8]
        requires { IsTrue (is_loaded self.now.loaded s.0) }
        ensures { IsTrue self.now.told → IsEndedFront (section_at self.now.o s.0).raw result.now }
    {
        self.body.held_cell(s.0).ended_bytes()
    }

    /// Whether a section is one table of strings whose bytes are held, and an offset lies in them:
    /// it is of type `SHT_STRTAB` and in the file, its one piece is the clean home piece, which
    /// holds bytes, and its home is loaded and longer than the offset. It is told only where a NUL
    /// is the last of `ended_bytes`, as it is once `note_end` found one. It rejects nothing, reads
    /// nothing and takes no memory.
    ///
    /// Source: gABI chapter 4, "String Table".
    #[inline(always)]
    pub fn holds_table(&self, s: ScnId, offset: u64) -> bool
        ensures { result ≡ true → IsHeldTable self.now s.0 offset }
    {
        self.body.holds_table(s.0, offset)
    }
}
