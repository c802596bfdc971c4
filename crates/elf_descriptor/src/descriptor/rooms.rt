//! Memory is reserved for a home's bytes, so that they can be read without more, and what was read
//! is freed.

ghost use Rattle.std.specs.Prelude.{◌≡◌, [], true, IsTrue, OnOk, IfErr};
ghost use Rattle.elf_types.specs.Answers.{answered};
ghost use Rattle.section_table.specs.elf_object.Words.{Answers, Edits};
ghost use Rattle.section_table.specs.elf_object.Answers.{no_section, raw_refusal};
ghost use Rattle.section_table.specs.elf_object.Due.{is_loaded};
ghost use Rattle.section_table.specs.elf_object.Calls as calls;

use crate::descriptor::Elf;
use elf_types::{ElfError, ScnId};
use section_table::prelude::Source;

impl<S: Source> Elf<S> {
    ghost use Rattle.elf_descriptor.specs.Rooms.{with_room_for, has_room_for, reads_home, unloaded};
    ghost use Rattle.elf_descriptor.specs.Reads.{Queries};

    /// Reserves memory for the bytes of a section's home where they are not held, so that
    /// `load_home` takes none. It changes no result of another call. It fails with, in this order:
    /// `NoSection`, `OutOfFile`, `Memory`. It reads nothing.
    pub fn reserve_home(&mut self, s: ScnId) -> Result<(), ElfError>
        ensures edits { Edits result self.old self.new (answered (raw_refusal self.old.o s.0) tt)
            (with_room_for s.0 self.old) }
        ensures room { OnOk result (IsTrue (has_room_for self.new s.0)) }
    {
        self.body.reserve_home(s.0)
    }

    /// Reads a section's home where its bytes are not held, into the memory that is reserved for
    /// them; it is loaded, or `reserve_home` made room for it. It fails with `Read` alone, and
    /// takes no memory.
    pub fn load_home(&mut self, s: ScnId) -> Result<(), ElfError>
        requires room { IsTrue (has_room_for self.old s.0) }
        ensures answer { Answers true (reads_home s.0 self.old) result
            (answered (raw_refusal self.old.o s.0) tt) }
        ensures loaded { OnOk result (IsTrue (is_loaded self.new.loaded s.0)) }
        ensures queries { Queries S.Source (calls.raw s.0) [] result self.old self.new }
        ensures err { IfErr result (λ e. e ≡ ElfError.Read) }
    {
        self.body.load_home(&mut self.src, s.0)
    }

    /// Frees the bytes and the items that are held of a section's home, where they can be read
    /// again: the home piece is clean and not marked, and the home lies in the base. Then the
    /// section is no longer loaded; else nothing changes. The object is the same. It fails with
    /// `NoSection`, reads nothing and takes no memory.
    pub fn unload(&mut self, s: ScnId) -> Result<(), ElfError>
        ensures answer { result ≡ answered (no_section self.old.o s.0) tt }
        ensures state { self.new ≡ unloaded s.0 self.old }
    {
        let base = self.body.base_len();
        self.body.unload(s.0, base)
    }
}
