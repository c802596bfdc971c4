//! The numbers of the sections that are kept.

ghost use Rattle.std.specs.Prelude.{◌≡◌, ◌++◌, [], IfOk, IfErr, OnOk};
ghost use Rattle.elf_types.specs.declared.errors.ElfError.TheVariants.{Memory};
ghost use Rattle.rebuild_making.specs.rebuild_model.Followed.{kept_from_1};
ghost use Rattle.rebuild_keep.specs.Numbers.{stays_after_removal, kept_alone, kept_numbers_below};

use elf_types::{ElfError, List, Words};
use elf_update_plan::prelude::Elf;
use rebuild_making::prelude::Source;
use rebuild_numbers::prelude::SectionSet;
use std::alloc::Global;

/// Whether a number is not 0, and that of no section that is removed.
fn stays(removed: &SectionSet, s: u32) -> bool
    ensures { result ≡ stays_after_removal removed.now s }
{
    s != 0 && !removed.contains(s)
}

/// Appends a number where it is that of a section from 1 on that is not removed.
fn push_kept(removed: &SectionSet, s: u32, numbers: &mut Words) -> Result<(), ElfError>
    ensures ok { OnOk result (numbers.new ≡ numbers.old ++ kept_alone removed.now s) }
    ensures err { IfErr result (λ e. e ≡ Memory) }
{
    if stays(removed, s) {
        return numbers.push(s);
    }
    Ok(())
}

/// Appends the numbers below another one of the sections from 1 on that are not removed.
fn push_below(removed: &SectionSet, count: u32, numbers: &mut Words) -> Result<(), ElfError>
    requires { numbers.old ≡ [] }
    ensures ok { OnOk result (numbers.new ≡ kept_numbers_below removed.now count) }
    ensures err { IfErr result (λ e. e ≡ Memory) }
{
    for s in 0..count {
        push_kept(removed, s, numbers)?;
    }
    Ok(())
}

/// The numbers of the sections from 1 on that are kept, ascending. It fails with `Memory` alone.
pub fn kept_numbers<S: Source>(
    alloc: Global,
    elf: &Elf<S>,
    removed: &SectionSet,
) -> Result<Words, ElfError>
    ensures ok { IfOk result (λ numbers. numbers ≡ kept_from_1 elf.now.o removed.now) }
    ensures err { IfErr result (λ e. e ≡ Memory) }
{
    let mut numbers = List::new(alloc);
    match push_below(removed, elf.shnum(), &mut numbers) {
        Ok(()) => Ok(numbers),
        Err(e) => Err(e),
    }
}
