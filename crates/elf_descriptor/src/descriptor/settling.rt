//! What an update in place leaves.

ghost use Rattle.std.specs.Prelude.{◌≡◌, true, length, IsTrue, IfSome, None};
ghost use Rattle.section_table.specs.elf_object.Image.{image};
ghost use Rattle.section_table.specs.elf_object.Layout.{placed};
ghost use Rattle.section_table.specs.elf_object.Object.{is_dirty};
ghost use Rattle.section_table.specs.elf_object.Refusal.{refusal};
ghost use Rattle.elf_descriptor.specs.Settling.{SettlingIsSound};

use crate::descriptor::Elf;
use law_object::prelude::{updates_keep, updates_tie};
use law_object::writing::based::updates_keep_based;
use section_table::prelude::Device;

/// What is settled is an object; over a source that tells its bytes, what is not dirty is in them.
fn settling_is_sound()
    ensures { SettlingIsSound }
{
    updates_keep();
    updates_tie();
    updates_keep_based();
}

impl<D: Device> Elf<D> {
    ghost use Rattle.elf_descriptor.specs.Settling.{settled_state};

    /// Makes the object that of the image that was written: each section has one clean piece, whose
    /// home is where its header places it; nothing is marked, and nothing is held. The object is
    /// ready and something is dirty, an update is not rejected, its places are stored, and the
    /// device is as long as the image and, where it tells its bytes, holds it. It rejects nothing,
    /// reads nothing and takes no memory.
    ///
    /// Source: elf_update with ELF_C_WRITE of elf(3E).
    pub fn settle(&mut self)
        requires ready { IsTrue self.old.ready }
        requires dirty { is_dirty self.old.o ≡ true }
        requires passed { refusal self.old.o ≡ None }
        requires stored { placed self.old.o ≡ self.old.o }
        requires long { D.size self.old.source ≡ length (image self.old.o) }
        requires holds { IfSome (D.holds self.old.source) (λ held. held ≡ image self.old.o) }
        ensures { self.new ≡ settled_state self.old }
    {
        settling_is_sound();
        let size = self.src.len();
        self.body.settle(size);
    }
}
