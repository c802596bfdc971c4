//! The header of an object that is made.

ghost use Rattle.std.specs.Prelude.{◌≡◌};
ghost use Rattle.rebuild_model.specs.elf_object.Calls as calls;
ghost use Rattle.elf_update_plan.specs.elf_descriptor.Edits.{StepsTo, stepped};

use elf_types::{Ehdr, ElfError};
use elf_update_plan::prelude::Elf;
use rebuild_model::prelude::Source;

/// Gives an object the header of another with a string index of its own, as `update_ehdr` stores
/// one, and marks it dirty. It fails as `update_ehdr` of that header: `NoSection` where the index
/// is neither 0 nor below the count of the object's sections, `Unfit`. A refusal leaves the object.
/// It reads nothing and takes no memory.
///
/// Source: gelf_update_ehdr of gelf(3E).
pub fn finish_header<S: Source, T: Source>(
    elf: &Elf<S>,
    made: &mut Elf<T>,
    index: u32,
) -> Result<(), ElfError>
    ensures answer { result
        ≡ (calls.update_ehdr (record elf.now.o.header { shstrndx = index })).answer made.old.o }
    ensures state { StepsTo result made.old made.new
        (stepped (calls.update_ehdr (record elf.now.o.header { shstrndx = index })) made.old) }
{
    let header = Ehdr {
        shstrndx: index,
        ..elf.ehdr()
    };
    made.update_ehdr(&header)
}
