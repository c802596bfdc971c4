//! The program headers of an object, as a list.

ghost use Rattle.std.specs.Prelude.{◌≡◌, [], OnOk, IfOk, IfErr};
ghost use Rattle.elf_types.specs.declared.errors.ElfError.TheVariants.{Memory};

use elf_outside::Source;
use elf_types::{ElfError, Phdrs};
use rebuild_tables::prelude::Elf;
use std::alloc::Global;

/// Fills an empty list with the program headers.
fn fill_segments<S: Source>(elf: &Elf<S>, phdrs: &mut Phdrs) -> Result<(), ElfError>
    requires { phdrs.old ≡ [] }
    ensures ok { OnOk result (phdrs.new ≡ elf.now.o.phdrs) }
    ensures err { IfErr result (λ e. e ≡ Memory) }
{
    for i in 0..elf.phnum() {
        phdrs.push(elf.phdr_at(i))?;
    }
    Ok(())
}

/// The program headers of an object, copied. It fails with `Memory` alone.
///
/// Source: gABI chapter 5, "Program Header".
pub(crate) fn list_segments<S: Source>(alloc: Global, elf: &Elf<S>) -> Result<Phdrs, ElfError>
    ensures ok { IfOk result (λ phdrs. phdrs ≡ elf.now.o.phdrs) }
    ensures err { IfErr result (λ e. e ≡ Memory) }
{
    let mut phdrs = Phdrs::new(alloc);
    match fill_segments(elf, &mut phdrs) {
        Ok(()) => Ok(phdrs),
        Err(e) => Err(e),
    }
}
