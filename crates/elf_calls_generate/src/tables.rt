//! The sections of the symbols, of their names, and of the sections' names.

ghost use Rattle.std.specs.Prelude.{◌≡◌, ◌≤◌, ◌<◌, ◌^◌, ℕ, List, [], ◌∷◌, ◌++◌, length, codes, OnOk, IfErr};
ghost use Rattle.strtab_build.specs.Table.{place_of, table};
ghost use Rattle.elf_object.specs.Object.{Section};
ghost use Rattle.rebuild_model.specs.Generated.{generated_strtab, generated_symbol_names, generated_section_names};
ghost use Rattle.elf_calls_generate.specs.Stages.{StandsFor, staged, IsStage, symbols_to, data_sections, data_names, symtab_sections, symtab_names, strtab_sections, strtab_names, named_sections};

use crate::names::use_text;
use crate::sections::add;
use crate::symbols::make_symbols;
use elf_descriptor::Elf;
use elf_outside::NoSource;
use elf_types::constants::{SHT_STRTAB, SHT_SYMTAB};
use elf_types::{ElfError, NULL_SECTION, Octets, Shdr, Syms};
use elf_xlate::Items;
use std::alloc::Global;
use strtab_build::Strings;

/// How many bytes a symbol of class 64 has.
const SYMBOL_SIZE: u64 = 24;

/// Adds the section of the symbols after those with data. It fails with `Memory` alone.
fn add_symtab(
    elf: &mut Elf<NoSource>,
    names: &mut Strings,
    n: u32,
    symbols: Syms,
) -> Result<(), ElfError>
    requires few { n ≤ 60000 }
    requires symbols { symbols ≡ symbols_to n n }
    requires stage { IsStage (data_sections n n) (data_names n) elf.old names.old }
    ensures made { OnOk result (IsStage (symtab_sections n) (symtab_names n) elf.new names.new) }
    ensures err { IfErr result (λ e. e ≡ ElfError.Memory) }
{
    match use_text(names, ".symtab") {
        Ok(name) => {
            let header = Shdr {
                name,
                stype: SHT_SYMTAB,
                link: n + 2,
                info: 1,
                addralign: 8,
                entsize: SYMBOL_SIZE,
                ..NULL_SECTION
            };
            add(elf, &header, Items::Sym(symbols))
        }
        Err(e) => Err(e),
    }
}

/// Adds a section of names, whose own name has that place in the table of the sections' names.
fn add_table(elf: &mut Elf<NoSource>, name: u32, names: Octets) -> Result<(), ElfError>
    requires { 0 < length elf.old.o.sections }
    ensures made { (n : ℕ) (own : List ℕ) (strings : List (List ℕ)) (sections : List Section) →
        name ≡ place_of own (generated_section_names n) → names ≡ table strings →
        StandsFor (staged sections) elf.old →
        OnOk result (StandsFor (staged (sections ++ generated_strtab n own strings ∷ [])) elf.new) }
    ensures err { (sections : List Section) → StandsFor (staged sections) elf.old →
        length sections < 2 ^ 20 → IfErr result (λ e. e ≡ ElfError.Memory) }
{
    let header = Shdr {
        name,
        stype: SHT_STRTAB,
        addralign: 1,
        ..NULL_SECTION
    };
    add(elf, &header, Items::Bytes(names))
}

/// Adds the section of the symbols' names. It fails with `Memory` alone.
fn add_strtab(
    elf: &mut Elf<NoSource>,
    names: &mut Strings,
    n: u32,
    strings: Octets,
) -> Result<(), ElfError>
    requires few { n ≤ 60000 }
    requires strings { strings ≡ table (generated_symbol_names n) }
    requires stage { IsStage (symtab_sections n) (symtab_names n) elf.old names.old }
    ensures made { OnOk result (IsStage (strtab_sections n) (strtab_names n) elf.new names.new) }
    ensures err { IfErr result (λ e. e ≡ ElfError.Memory) }
{
    match use_text(names, ".strtab") {
        Ok(name) => add_table(elf, name, strings),
        Err(e) => Err(e),
    }
}

/// Adds the section of the symbols and that of their names. It fails with `Memory` alone.
pub(crate) fn add_symbol_tables(
    elf: &mut Elf<NoSource>,
    alloc: Global,
    names: &mut Strings,
    n: u32,
) -> Result<(), ElfError>
    requires few { n ≤ 60000 }
    requires stage { IsStage (data_sections n n) (data_names n) elf.old names.old }
    ensures made { OnOk result (IsStage (strtab_sections n) (strtab_names n) elf.new names.new) }
    ensures err { IfErr result (λ e. e ≡ ElfError.Memory) }
{
    match make_symbols(alloc, n) {
        Ok((symbols, strings)) => {
            if let Err(e) = add_symtab(elf, names, n, symbols) {
                return Err(e);
            }
            add_strtab(elf, names, n, strings)
        }
        Err(e) => Err(e),
    }
}

/// Adds the section of the sections' names, all of which are used, with the place of its own.
fn finish_names(elf: &mut Elf<NoSource>, name: u32, names: Strings) -> Result<(), ElfError>
    requires { 0 < length elf.old.o.sections }
    ensures made { (n : ℕ) (own : List ℕ) (sections : List Section) →
        name ≡ place_of own (generated_section_names n) →
        table names ≡ table (generated_section_names n) →
        StandsFor (staged sections) elf.old →
        OnOk result (StandsFor (staged
        (sections ++ generated_strtab n own (generated_section_names n) ∷ [])) elf.new) }
    ensures err { (sections : List Section) → StandsFor (staged sections) elf.old →
        length sections < 2 ^ 20 → IfErr result (λ e. e ≡ ElfError.Memory) }
{
    match names.finish() {
        Ok(table) => add_table(elf, name, table),
        Err(e) => Err(e),
    }
}

/// Adds the section of the sections' names, its own as the last one. It fails with `Memory` alone.
pub(crate) fn add_names(elf: &mut Elf<NoSource>, mut names: Strings, n: u32) -> Result<(), ElfError>
    requires few { n ≤ 60000 }
    requires stage { IsStage (strtab_sections n) (strtab_names n) elf.old names }
    ensures made { OnOk result (StandsFor (staged (named_sections n)) elf.new) }
    ensures err { IfErr result (λ e. e ≡ ElfError.Memory) }
{
    match use_text(&mut names, ".shstrtab") {
        Ok(name) => finish_names(elf, name, names),
        Err(e) => Err(e),
    }
}
