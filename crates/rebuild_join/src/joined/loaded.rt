//! The numbers of the allocated sections.

ghost use Rattle.std.specs.Prelude.{◌≡◌, ◌<◌, ◌++◌, [], length, IfOk, IfErr, OnOk};
ghost use Rattle.elf_types.specs.declared.errors.ElfError.TheVariants.{Memory};
ghost use Rattle.rebuild_keep.specs.rebuild_model.Split.{allocated};
ghost use Rattle.rebuild_join.specs.Joined.Joined.{stands_in_memory, allocated_alone};

use elf_outside::Source;
use elf_types::{ElfError, List, ScnId, Words};
use rebuild_keep::prelude::{Elf, is_header_allocated};
use std::alloc::Global;

/// Whether a section that is there is allocated, and is not section 0.
fn stands_in_memory<S: Source>(elf: &Elf<S>, s: ScnId) -> bool
    requires { s.0 < length elf.now.o.sections }
    ensures { result ≡ stands_in_memory elf.now.o s.0 }
{
    s.0 != 0 && is_header_allocated(&elf.section_header(s))
}

/// Appends the number of a section that is there, where that is allocated.
fn push_allocated<S: Source>(elf: &Elf<S>, s: u32, numbers: &mut Words) -> Result<(), ElfError>
    requires { s < length elf.now.o.sections }
    ensures ok { OnOk result (numbers.new ≡ numbers.old ++ allocated_alone elf.now.o s) }
    ensures err { IfErr result (λ e. e ≡ Memory) }
{
    if stands_in_memory(elf, ScnId(s)) {
        return numbers.push(s);
    }
    Ok(())
}

/// Appends the numbers of all of them.
fn push_all<S: Source>(elf: &Elf<S>, numbers: &mut Words) -> Result<(), ElfError>
    requires { numbers.old ≡ [] }
    ensures ok { OnOk result (numbers.new ≡ allocated elf.now.o) }
    ensures err { IfErr result (λ e. e ≡ Memory) }
{
    for s in 0..elf.shnum() {
        push_allocated(elf, s, numbers)?;
    }
    Ok(())
}

/// The numbers of the allocated sections from 1 on, ascending. It fails with `Memory` alone.
pub fn allocated<S: Source>(alloc: Global, elf: &Elf<S>) -> Result<Words, ElfError>
    ensures ok { IfOk result (λ numbers. numbers ≡ allocated elf.now.o) }
    ensures err { IfErr result (λ e. e ≡ Memory) }
{
    let mut numbers = List::new(alloc);
    match push_all(elf, &mut numbers) {
        Ok(()) => Ok(numbers),
        Err(e) => Err(e),
    }
}
