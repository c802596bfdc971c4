//! Where a descriptor's homes lie.

ghost use Rattle.std.specs.Prelude.{◌≡◌};

use crate::descriptor::Elf;
use elf_types::{ElfError, ScnId};
use section_table::prelude::Source;

impl<S: Source> Elf<S> {
    ghost use Rattle.elf_descriptor.specs.Homes.{out_answer};
    ghost use Rattle.elf_descriptor.specs.Sound.{IsSound};

    /// Whether a section's home is out of the file: it is not empty and passes the end of the image
    /// as opened. It fails with `NoSection`, reads nothing and takes no memory. What is in the
    /// descriptor is an object, so a home that is in the file has as many bytes as it is long.
    ///
    /// Source: gABI chapter 4, "Section Header".
    pub fn is_out_of_file(&self, s: ScnId) -> Result<bool, ElfError>
        ensures value { result ≡ out_answer self.now.o s.0 }
        ensures sound { IsSound (S.holds self.now.source) self.now.o }
    {
        self.body.is_out_of_file(s.0)
    }
}
