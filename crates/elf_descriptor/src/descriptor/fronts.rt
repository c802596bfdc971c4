//! The front that an update writes.

ghost use Rattle.std.specs.Prelude.{◌≡◌, true, None, OnOk, OnErr, IfErr};
ghost use Rattle.section_table.specs.elf_object.Changed.{front_differs};
ghost use Rattle.section_table.specs.elf_object.Refusal.{content_refusal};

use crate::descriptor::Elf;
use elf_types::{ElfError, Part};
use section_table::prelude::{Places, Source};

impl<S: Source> Elf<S> {
    ghost use Rattle.elf_descriptor.specs.Fronts.{HoldsBase, IsOfFront};
    ghost use Rattle.elf_descriptor.specs.Places.{PartsFitAt};

    /// Takes the memory that `settle` needs; the object is ready until one of its lists changes.
    /// The source begins with the base. It fails with `Memory` alone, which it always does of an
    /// object whose base is its own, and then all is as before. It reads nothing.
    pub fn reserve(&mut self) -> Result<(), ElfError>
        ensures ok { OnOk result (self.new ≡ record self.old { ready = true }) }
        ensures base { OnOk result (HoldsBase S.Source self.old) }
        ensures same { OnErr result (self.new ≡ self.old) }
        ensures err { IfErr result (λ e. e ≡ ElfError.Memory) }
    {
        self.body.reserve(self.alloc)
    }

    /// Whether the ELF header, the program header table or the section header table has another
    /// place or other bytes than in the image as opened or last settled, once these places, the
    /// sizes and the derived values are stored; a part that was in no image differs where it has
    /// bytes. The object may be dirty or not: an update of it would not be rejected for its
    /// contents, and each part fits the class at its place. It compares each record of the part
    /// once. It rejects nothing, reads nothing and takes no memory.
    ///
    /// Source: elf_update of elf(3E); gABI chapter 4, "ELF Header" and "Section Header", chapter 5,
    /// "Program Header".
    pub fn front_differs(&self, part: Part, places: &Places) -> bool
        requires part { IsOfFront part }
        requires contents { content_refusal self.now.o ≡ None }
        requires places { PartsFitAt self.now.o places.now }
        ensures { result ≡ front_differs places.now self.now.o part }
    {
        self.body.front_differs(part, places)
    }
}
