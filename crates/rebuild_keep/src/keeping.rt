//! What is worked out of an object before its sections are rebuilt.

ghost use Rattle.std.specs.Prelude.{◌≡◌, ◌⊎◌, [], false, IfOk, IfErr};
ghost use Rattle.elf_types.specs.declared.errors.ElfError.TheVariants.{Memory, Read};
ghost use Rattle.rebuild_making.specs.elf_object.Due.{homes_due};
ghost use Rattle.rebuild_making.specs.elf_object.Sections.{is_among};
ghost use Rattle.rebuild_numbers.specs.rebuild_select.Calls.{names_home};
ghost use Rattle.rebuild_keep.specs.Keepers.{KeepsFor};
ghost use Rattle.rebuild_keep.specs.Makes.{AsksFor};

use crate::keepers::Keeper;
use crate::naming::make_names;
use elf_types::ElfError;
use elf_update_plan::prelude::Elf;
use rebuild_making::prelude::Source;
use rebuild_names::prelude::extended_tables;
use rebuild_numbers::Numbering;
use rebuild_numbers::prelude::SectionSet;
use std::alloc::Global;

/// What makes the sections of an object without the removed ones, of which section 0 is none. It
/// fails with `Memory` and `Read` alone, and reads the home of the names at the first use.
pub fn keep_sections<'a, S: Source>(
    alloc: Global,
    elf: &mut Elf<S>,
    removed: &'a SectionSet,
) -> Result<Keeper<'a>, ElfError>
    requires { is_among removed.now 0 ≡ false }
    ensures keeps { IfOk result (λ k. (k.removed.now ≡ removed.now)
        × KeepsFor elf.old.told elf.old.o k) }
    ensures err { IfErr result (λ e. (e ≡ Memory) ⊎ (e ≡ Read)) }
    ensures asks { AsksFor S.Source result elf.old elf.new
        (homes_due elf.old.o [] (names_home elf.old.o)) }
{
    let numbering = match Numbering::without(alloc, elf.shnum(), removed) {
        Ok(numbering) => numbering,
        Err(e) => return Err(e),
    };
    let tables = match extended_tables(alloc, elf, removed) {
        Ok(tables) => tables,
        Err(e) => return Err(e),
    };
    match make_names(alloc, elf, removed) {
        Ok(names) => Ok(Keeper {
            removed,
            numbering,
            tables,
            names,
        }),
        Err(e) => Err(e),
    }
}
