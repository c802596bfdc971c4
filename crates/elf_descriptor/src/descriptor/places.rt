//! Where the parts of a descriptor's image are, and how long its sections are.

ghost use Rattle.std.specs.Prelude.{◌≡◌, ◌-◌, ◌^◌, min, true, None};
ghost use Rattle.elf_types.specs.Answers.{answered};
ghost use Rattle.section_table.specs.elf_object.Object.{is_dirty};
ghost use Rattle.section_table.specs.elf_object.Answers.{no_section};
ghost use Rattle.section_table.specs.elf_object.Joined.{pieces_end};
ghost use Rattle.section_table.specs.elf_object.Layout.{placed, places_of};
ghost use Rattle.section_table.specs.elf_object.Refusal.{refusal};

use crate::descriptor::Elf;
use crate::descriptor::edits::every_step_is_sound;
use elf_types::{ElfError, ScnId};
use law_object::prelude::sizes_are_lengths;
use section_table::prelude::{Places, Source};

impl<S: Source> Elf<S> {
    /// The size of a section's data: where its last piece ends, each piece at a multiple of its
    /// alignment, and 2^64 - 1 where that is more. A clean home piece counts as long as its home,
    /// and not at all where the home is out of the file. It fails with `NoSection`, reads nothing
    /// and takes no memory.
    ///
    /// Source: gABI chapter 4, "Sections", and elf_newdata of elf(3E).
    pub fn data_size(&self, s: ScnId) -> Result<u64, ElfError>
        ensures { result ≡ answered (no_section self.now.o s.0)
            (min (pieces_end self.now.o s.0) (2 ^ 64 - 1)) }
    {
        self.body.data_size(s.0)
    }

    /// Stores places, sizes and derived values in the headers; the marks stay. Something is dirty,
    /// an update is not rejected, and the places are those of the object. It rejects nothing, reads
    /// nothing and takes no memory.
    ///
    /// Source: elf_update with ELF_C_NULL of elf(3E).
    pub fn store_places(&mut self, places: &Places)
        requires dirty { is_dirty self.old.o ≡ true }
        requires passed { refusal self.old.o ≡ None }
        requires places { places.now ≡ places_of self.old.o }
        ensures { self.new ≡ record self.old { o = placed self.old.o } }
    {
        every_step_is_sound();
        sizes_are_lengths();
        self.body.store_places(places);
    }
}
