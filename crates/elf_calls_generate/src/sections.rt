//! The sections with data, each under a name of its own.

ghost use Rattle.std.specs.Prelude.{◌≡◌, ◌≤◌, ◌<◌, ◌+◌, ◌^◌, ℕ, List, [], ◌∷◌, ◌++◌, length, codes, OnOk, IfOk, IfErr};
ghost use Rattle.std.proofs.Math.ListN.{replicate};
ghost use Rattle.strtab_build.specs.Table.{place_of};
ghost use Rattle.elf_object.specs.Object.{Section};
ghost use Rattle.rebuild_model.specs.Generated.{numbered_name, generated_data, generated_section_names};
ghost use Rattle.rebuild_model.specs.Rebuilt.{made_section};
ghost use Rattle.elf_calls_generate.specs.Stages.{StandsFor, staged, IsStage, data_sections, data_names};

use crate::names::use_numbered;
use elf_descriptor::Elf;
use elf_outside::NoSource;
use elf_types::constants::{SHF_ALLOC, SHT_PROGBITS};
use elf_types::{ElfError, NULL_SECTION, Octets, Shdr};
use elf_xlate::Items;
use rebuild_making::add_section;
use std::alloc::Global;
use strtab_build::Strings;

/// Adds a section after others, of which there are some. In class 64 every section fits, so that it
/// fails with `Memory` alone below 2^20 sections.
pub(crate) fn add(elf: &mut Elf<NoSource>, h: &Shdr, items: Items) -> Result<(), ElfError>
    requires { 0 < length elf.old.o.sections }
    ensures made { (sections : List Section) → StandsFor (staged sections) elf.old →
        OnOk result (StandsFor (staged (sections ++ made_section h.now items ∷ [])) elf.new) }
    ensures err { (sections : List Section) → StandsFor (staged sections) elf.old →
        length sections < 2 ^ 20 → IfErr result (λ e. e ≡ ElfError.Memory) }
{
    add_section(elf, h, items)
}

/// So many bytes of one value. It fails with `Memory` alone.
fn alike_bytes(alloc: Global, byte: u8, count: usize) -> Result<Octets, ElfError>
    requires { count ≤ 7 }
    ensures ok { IfOk result (λ bytes. bytes ≡ replicate count byte) }
    ensures err { IfErr result (λ e. e ≡ ElfError.Memory) }
{
    Octets::from_slice(alloc, &[byte; 7][..count])
}

/// Adds section `i`, whose name has that place in the table of names. Of the values that its bytes
/// may have, and of their numbers, the sections have each in turn.
fn add_data(elf: &mut Elf<NoSource>, alloc: Global, name: u32, i: u32) -> Result<(), ElfError>
    requires { 0 < length elf.old.o.sections }
    ensures made { (n : ℕ) (sections : List Section) →
        name ≡ place_of (numbered_name (codes ".s") i) (generated_section_names n) →
        StandsFor (staged sections) elf.old →
        OnOk result (StandsFor (staged (sections ++ generated_data n i ∷ [])) elf.new) }
    ensures err { (sections : List Section) → StandsFor (staged sections) elf.old →
        length sections < 2 ^ 20 → IfErr result (λ e. e ≡ ElfError.Memory) }
{
    let header = Shdr {
        name,
        stype: SHT_PROGBITS,
        flags: SHF_ALLOC,
        addralign: 1,
        ..NULL_SECTION
    };
    match alike_bytes(alloc, (i % 256) as u8, (i % 7 + 1) as usize) {
        Ok(bytes) => add(elf, &header, Items::Bytes(bytes)),
        Err(e) => Err(e),
    }
}

/// Adds the section after `k` others with data, and uses its name.
fn add_next(
    elf: &mut Elf<NoSource>,
    alloc: Global,
    names: &mut Strings,
    k: u32,
) -> Result<(), ElfError>
    requires some { 0 < length elf.old.o.sections }
    requires few { k < 60000 }
    ensures made { (n : ℕ) → k < n →
        IsStage (data_sections n k) (data_names k) elf.old names.old →
        OnOk result (IsStage (data_sections n (k + 1)) (data_names (k + 1)) elf.new names.new) }
    ensures err { (n : ℕ) → k < n → n ≤ 60000 →
        IsStage (data_sections n k) (data_names k) elf.old names.old →
        IfErr result (λ e. e ≡ ElfError.Memory) }
{
    match use_numbered(alloc, names, ".s", k + 1) {
        Ok(name) => add_data(elf, alloc, name, k + 1),
        Err(e) => Err(e),
    }
}

/// Adds so many sections with data to an object that has section 0 alone. It fails with `Memory`
/// alone.
pub(crate) fn add_data_sections(
    elf: &mut Elf<NoSource>,
    alloc: Global,
    names: &mut Strings,
    n: u32,
) -> Result<(), ElfError>
    requires few { n ≤ 60000 }
    requires none { IsStage (data_sections n 0) (data_names 0) elf.old names.old }
    ensures made { OnOk result (IsStage (data_sections n n) (data_names n) elf.new names.new) }
    ensures err { IfErr result (λ e. e ≡ ElfError.Memory) }
{
    for k in 0..n {
        if let Err(e) = add_next(elf, alloc, names, k) {
            return Err(e);
        }
    }
    Ok(())
}
