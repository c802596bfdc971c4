//! The image as a whole.

ghost use Rattle.std.specs.Prelude.{◌≡◌, ◌≤◌, OnOk, IfOk, IfErr};
ghost use Rattle.elf_types.specs.declared.records.Class.TheVariants.{C64};
ghost use Rattle.elf_types.specs.declared.records.Order.TheVariants.{Least};
ghost use Rattle.elf_object.specs.Open.{created};
ghost use Rattle.rebuild_model.specs.Generated.{generated};
ghost use Rattle.elf_calls_generate.specs.Stages.{StandsFor, staged, named_sections};

use crate::sections::add_data_sections;
use crate::tables::{add_names, add_symbol_tables};
use elf_descriptor::Elf;
use elf_outside::NoSource;
use elf_types::{Class, Ehdr, ElfError, Order};
use std::alloc::Global;
use strtab_build::Strings;

/// `e_type` of a relocatable file (gABI chapter 4, "ELF Header").
const ET_REL: u16 = 1;

/// `e_machine` of the AMD x86-64 architecture.
const EM_X86_64: u16 = 62;

/// Adds all sections to an object that has none. It fails with `Memory` alone.
fn add_sections(elf: &mut Elf<NoSource>, alloc: Global, n: u32) -> Result<(), ElfError>
    requires few { n ≤ 60000 }
    requires created { StandsFor (created C64 Least) elf.old }
    ensures made { OnOk result (StandsFor (staged (named_sections n)) elf.new) }
    ensures err { IfErr result (λ e. e ≡ ElfError.Memory) }
{
    let mut names = Strings::new(alloc);
    if let Err(e) = elf.newnull() {
        return Err(e);
    }
    if let Err(e) = add_data_sections(elf, alloc, &mut names, n) {
        return Err(e);
    }
    if let Err(e) = add_symbol_tables(elf, alloc, &mut names, n) {
        return Err(e);
    }
    add_names(elf, names, n)
}

/// Stores the header of an object that has all its sections. It rejects nothing.
fn store_header(elf: &mut Elf<NoSource>, n: u32) -> Result<(), ElfError>
    requires few { n ≤ 60000 }
    requires made { StandsFor (staged (named_sections n)) elf.old }
    ensures made { OnOk result (StandsFor (generated n) elf.new) }
    ensures err { IfErr result (λ e. e ≡ ElfError.Memory) }
{
    let header = Ehdr {
        etype: ET_REL,
        machine: EM_X86_64,
        shstrndx: n + 3,
        ..elf.ehdr()
    };
    elf.update_ehdr(&header)
}

/// Makes the image in an object that has no sections. It fails with `Memory` alone.
fn fill(elf: &mut Elf<NoSource>, alloc: Global, n: u32) -> Result<(), ElfError>
    requires few { n ≤ 60000 }
    requires created { StandsFor (created C64 Least) elf.old }
    ensures made { OnOk result (StandsFor (generated n) elf.new) }
    ensures err { IfErr result (λ e. e ≡ ElfError.Memory) }
{
    if let Err(e) = add_sections(elf, alloc, n) {
        return Err(e);
    }
    store_header(elf, n)
}

/// Makes the image of the self test, of `n` sections with data, at most 60,000: each has a global
/// symbol, and the sections of the symbols, of their names and of the sections' names follow. It is
/// a relocatable file of class 64, the least byte first, for the AMD x86-64 architecture. It fails
/// with `Memory` alone.
///
/// Source: elf_newscn and elf_newdata of elf(3E), and gelf_update_shdr and gelf_update_ehdr of
/// gelf(3E).
pub fn generate(alloc: Global, n: u32) -> Result<Elf<NoSource>, ElfError>
    requires { n ≤ 60000 }
    ensures made { IfOk result (StandsFor (generated n)) }
    ensures err { IfErr result (λ e. e ≡ ElfError.Memory) }
{
    let mut elf = Elf::create(alloc, Class::C64, Order::Least);
    match fill(&mut elf, alloc, n) {
        Ok(()) => Ok(elf),
        Err(e) => Err(e),
    }
}
