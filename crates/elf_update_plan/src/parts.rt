//! The parts of an image: the ELF header, the program header table, the sections from 1 on by
//! number, and the section header table.

ghost use Rattle.std.specs.Prelude.{◌≡◌, ◌++◌, ◌-◌, ◌<◌, ◌≤◌, ◌^◌, length, map, min, IfOk, IfErr, OnOk};
ghost use Rattle.elf_types.specs.declared.errors.ElfError.TheVariants.{Memory};
ghost use Rattle.elf_descriptor.specs.elf_layout.Capping.{capped};
ghost use Rattle.elf_descriptor.specs.elf_object.Object.{section_at};
ghost use Rattle.elf_descriptor.specs.elf_object.Joined.{file_bytes};
ghost use Rattle.elf_descriptor.specs.elf_object.Layout as stated;
ghost use Rattle.elf_descriptor.specs.elf_object.Valid.{IsObject};
ghost use Rattle.elf_update_plan.specs.Sections.{capped_section};

use crate::sections::{has_file_bytes, section_occupies_file};
use elf_descriptor::Elf;
use elf_descriptor::prelude::{PartAt, Parts, Source, ehdr_size, phdr_size, shdr_size};
use elf_types::constants::SHT_NULL;
use elf_types::{Class, ElfError, Part, ScnId, Shdr};

/// The ELF header as a part.
fn header_part<S: Source>(elf: &Elf<S>) -> PartAt
    ensures { result ≡ capped (stated.header_part elf.now.o) }
{
    PartAt {
        part: Part::Header,
        at: 0,
        len: ehdr_size(elf.ehdr().class) as u64,
        align: 1,
        filled: true,
    }
}

/// The program header table as a part.
fn segments_part<S: Source>(elf: &Elf<S>) -> PartAt
    requires { IsObject elf.now.o }
    ensures { result ≡ capped (stated.segments_part elf.now.o) }
{
    let header = elf.ehdr();
    PartAt {
        part: Part::Segments,
        at: header.phoff,
        len: elf.phnum() as u64 * phdr_size(header.class) as u64,
        align: 1,
        filled: true,
    }
}

/// The alignment of the section header table.
fn table_alignment(class: Class) -> u64
    ensures { result ≡ stated.table_alignment class }
{
    match class {
        Class::C32 => 4,
        Class::C64 => 8,
    }
}

/// The section header table as a part.
fn table_part<S: Source>(elf: &Elf<S>) -> PartAt
    requires { IsObject elf.now.o }
    ensures { result ≡ capped (stated.table_part elf.now.o) }
{
    let header = elf.ehdr();
    PartAt {
        part: Part::Table,
        at: header.shoff,
        len: elf.shnum() as u64 * shdr_size(header.class) as u64,
        align: table_alignment(header.class),
        filled: true,
    }
}

/// The alignment of a section's place: `SHT_NULL` has no place of its own.
fn alignment_of(h: &Shdr) -> u64
    ensures { result ≡ stated.alignment_of h.now }
{
    if h.stype == SHT_NULL { 1 } else { h.addralign }
}

/// The number of bytes in the file of a section that is there, and 2^64 - 1 where it is more.
fn file_length<S: Source>(elf: &Elf<S>, s: u32) -> u64
    requires { s < length elf.now.o.sections }
    ensures { result ≡ min (length (file_bytes elf.now.o s)) (2 ^ 64 - 1) }
{
    if !has_file_bytes(elf, ScnId(s)) {
        return 0;
    }
    match elf.data_size(ScnId(s)) {
        Ok(size) => size,
        Err(_) => unreachable!(),
    }
}

/// A section that is there as a part.
#[tactic(auto, unfolding(elf_descriptor::specs::Passed::section_part, elf_descriptor::specs::Passed::capped))]
fn section_part<S: Source>(elf: &Elf<S>, s: u32) -> PartAt
    requires { s < length elf.now.o.sections }
    ensures { result ≡ capped_section elf.now.o s }
{
    let header = elf.section_header(ScnId(s));
    PartAt {
        part: Part::Section(s),
        at: header.offset,
        len: file_length(elf, s),
        align: alignment_of(&header),
        filled: section_occupies_file(elf, ScnId(s)),
    }
}

/// Appends the sections from 1 on. It fails with `Memory` alone.
fn push_sections<S: Source>(elf: &Elf<S>, parts: &mut Parts) -> Result<(), ElfError>
    ensures ok { OnOk result (parts.new ≡ parts.old
        ++ map (capped_section elf.now.o) (stated.section_numbers elf.now.o)) }
    ensures err { IfErr result (λ e. e ≡ Memory) }
{
    for s in 1..elf.shnum() {
        parts.push(section_part(elf, s))?;
    }
    Ok(())
}

/// The parts of an object's image; a length that passes 2^64 - 1 is told as that. It fails with
/// `Memory` alone.
#[tactic(auto, unfolding(elf_descriptor::specs::Passed::parts_of))]
pub(crate) fn list_parts<S: Source>(elf: &Elf<S>) -> Result<Parts, ElfError>
    requires { IsObject elf.now.o }
    ensures ok { IfOk result (λ parts. parts ≡ map capped (stated.parts_of elf.now.o)) }
    ensures err { IfErr result (λ e. e ≡ Memory) }
{
    let mut parts = Parts::with_capacity(elf.alloc(), u64::from(elf.shnum()) + 3)?;
    parts.push(header_part(elf))?;
    parts.push(segments_part(elf))?;
    push_sections(elf, &mut parts)?;
    parts.push(table_part(elf))?;
    Ok(parts)
}
