//! What becomes of the names of the sections.

ghost use Rattle.std.specs.Prelude.{◌≡◌, [], ◌⊎◌, true, IsTrue, IfOk, IfErr};
ghost use Rattle.elf_types.specs.declared.errors.ElfError.TheVariants.{Memory, Read};
ghost use Rattle.rebuild_making.specs.elf_object.Due.{homes_due};
ghost use Rattle.rebuild_making.specs.rebuild_model.Rebuilt.{renews_names};
ghost use Rattle.rebuild_numbers.specs.rebuild_select.Calls.{names_home};
ghost use Rattle.rebuild_keep.specs.Answers.{ChecksNames};
ghost use Rattle.rebuild_keep.specs.Keepers.{AreNames, NamesFor, RenewsAs};
ghost use Rattle.rebuild_keep.specs.Makes.{AsksFor};

use elf_types::ElfError;
use elf_update_plan::prelude::Elf;
use rebuild_making::prelude::Source;
use rebuild_names::prelude::renews_names;
use rebuild_names::{NewNames, build_names};
use rebuild_numbers::prelude::SectionSet;
use std::alloc::Global;

/// What becomes of the names.
#[derive(Drop)]
pub enum Names {
    /// They stay as they are.
    Stay,
    /// They are rebuilt.
    Anew(NewNames),
    /// Their table would be too large, which is told after what comes before it.
    TooLarge,
}

/// Rejects names whose table would be too large, as `TooLarge`, and nothing else.
pub fn check_names(names: &Names) -> Result<(), ElfError>
    ensures { ChecksNames names.now result }
{
    match names {
        Names::Stay => Ok(()),
        Names::Anew(_) => Ok(()),
        Names::TooLarge => Err(ElfError::TooLarge),
    }
}

/// What an error is that came while names were rebuilt: `TooLarge` is told later.
fn large_or_error(e: ElfError) -> Result<Names, ElfError>
    ensures { NamesFor e result }
{
    match e {
        ElfError::TooLarge => Ok(Names::TooLarge),
        _ => Err(e),
    }
}

/// The names, rebuilt. It fails with `Memory` and `Read` alone.
fn make_anew<S: Source>(
    alloc: Global,
    elf: &mut Elf<S>,
    removed: &SectionSet,
) -> Result<Names, ElfError>
    ensures told { IsTrue elf.old.told → IfOk result (AreNames elf.old.o removed.now) }
    ensures renews { IfOk result (RenewsAs true) }
    ensures err { IfErr result (λ e. (e ≡ Memory) ⊎ (e ≡ Read)) }
    ensures asks { AsksFor S.Source result elf.old elf.new
        (homes_due elf.old.o [] (names_home elf.old.o)) }
{
    match build_names(alloc, elf, removed) {
        Ok(names) => Ok(Names::Anew(names)),
        Err(e) => large_or_error(e),
    }
}

/// The names, where they are rebuilt. It fails with `Memory` and `Read` alone.
pub(crate) fn make_names<S: Source>(
    alloc: Global,
    elf: &mut Elf<S>,
    removed: &SectionSet,
) -> Result<Names, ElfError>
    ensures told { IsTrue elf.old.told → IfOk result (AreNames elf.old.o removed.now) }
    ensures renews { IfOk result (RenewsAs (renews_names elf.old.o removed.now)) }
    ensures err { IfErr result (λ e. (e ≡ Memory) ⊎ (e ≡ Read)) }
    ensures asks { AsksFor S.Source result elf.old elf.new
        (homes_due elf.old.o [] (names_home elf.old.o)) }
{
    if renews_names(elf, removed) {
        return make_anew(alloc, elf, removed);
    }
    Ok(Names::Stay)
}
