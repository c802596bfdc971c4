//! The parts of an image of which the headers are listed.

ghost use Rattle.std.specs.Prelude.{◌≡◌, ◌++◌, ◌<◌, ◌≤◌, length, map, IfOk, IfErr, OnOk};
ghost use Rattle.elf_types.specs.declared.constants.TheConstants.{MAX_SECTIONS};
ghost use Rattle.elf_types.specs.declared.errors.ElfError.TheVariants.{Memory};
ghost use Rattle.elf_layout.specs.Capping.{capped};
ghost use Rattle.elf_update_plan.specs.elf_object.Object.{Object};
ghost use Rattle.elf_update_plan.specs.elf_object.Layout as stated;
ghost use Rattle.elf_update_plan.specs.elf_object.Valid.{IsObject};
ghost use Rattle.elf_update_plan.specs.Sections.{capped_section};
ghost use Rattle.rebuild_image.specs.Listed.Listing.{IsHeaderListing, part_listed};

use crate::listed::listed::HeaderListing;
use elf_layout::{PartAt, Parts};
use elf_types::constants::SHT_NULL;
use elf_types::{Class, ElfError, Part, Shdr};
use elf_update_plan::prelude::{ehdr_size, occupies_file, phdr_size, shdr_size};
use std::alloc::Global;

/// The ELF header as a part.
fn header_part(x: &HeaderListing) -> PartAt
    ensures { (o : Object) → IsHeaderListing o x.now → result ≡ capped (stated.header_part o) }
{
    PartAt {
        part: Part::Header,
        at: 0,
        len: ehdr_size(x.header.class) as u64,
        align: 1,
        filled: true,
    }
}

/// The program header table as a part.
fn segments_part(x: &HeaderListing) -> PartAt
    ensures { (o : Object) → IsObject o → IsHeaderListing o x.now
        → result ≡ capped (stated.segments_part o) }
{
    PartAt {
        part: Part::Segments,
        at: x.header.phoff,
        len: x.header.phnum as u64 * phdr_size(x.header.class) as u64,
        align: 1,
        filled: true,
    }
}

/// The alignment of the section header table.
fn table_alignment(class: Class) -> u64
    ensures { result ≡ stated.table_alignment class }
{
    match class {
        Class::C32 => 4,
        Class::C64 => 8,
    }
}

/// The section header table as a part.
fn table_part(x: &HeaderListing) -> PartAt
    ensures { (o : Object) → IsObject o → IsHeaderListing o x.now
        → result ≡ capped (stated.table_part o) }
{
    PartAt {
        part: Part::Table,
        at: x.header.shoff,
        len: x.header.shnum as u64 * shdr_size(x.header.class) as u64,
        align: table_alignment(x.header.class),
        filled: true,
    }
}

/// The alignment of a section's place: `SHT_NULL` has no place of its own.
fn alignment_of(h: &Shdr) -> u64
    ensures { result ≡ stated.alignment_of h.now }
{
    if h.stype == SHT_NULL { 1 } else { h.addralign }
}

/// A section with its header and so many bytes as a part.
fn part_of(s: u32, h: &Shdr, size: u64) -> PartAt
    ensures { result ≡ part_listed s h.now size }
{
    PartAt {
        part: Part::Section(s),
        at: h.offset,
        len: size,
        align: alignment_of(h),
        filled: occupies_file(h),
    }
}

/// A section that is there as a part.
fn section_part(x: &HeaderListing, s: u32) -> PartAt
    requires header { s < length x.now.headers }
    requires size { s < length x.now.sizes }
    ensures { (o : Object) → IsHeaderListing o x.now → result ≡ capped_section o s }
{
    let headers = x.headers.as_slice();
    let sizes = x.sizes.as_slice();
    part_of(s, &headers[s as usize], sizes[s as usize])
}

/// Appends the sections from 1 on. It fails with `Memory` alone.
fn push_sections(x: &HeaderListing, parts: &mut Parts) -> Result<(), ElfError>
    requires few { length x.now.headers ≤ MAX_SECTIONS }
    requires sizes { length x.now.sizes ≡ length x.now.headers }
    ensures ok { OnOk result ((o : Object) → IsHeaderListing o x.now → parts.new
        ≡ parts.old ++ map (capped_section o) (stated.section_numbers o)) }
    ensures err { IfErr result (λ e. e ≡ Memory) }
{
    let count = x.headers.len() as u32;
    for s in 1..count {
        parts.push(section_part(x, s))?;
    }
    Ok(())
}

/// The parts of an image, of which the headers are listed: the ELF header, the program header
/// table, the sections from 1 on by number, and the section header table. It fails with `Memory`
/// alone.
pub fn list_parts(alloc: Global, x: &HeaderListing) -> Result<Parts, ElfError>
    requires few { length x.now.headers ≤ MAX_SECTIONS }
    requires sizes { length x.now.sizes ≡ length x.now.headers }
    ensures ok { IfOk result (λ parts. (o : Object) → IsObject o → IsHeaderListing o x.now
        → parts ≡ map capped (stated.parts_of o)) }
    ensures err { IfErr result (λ e. e ≡ Memory) }
{
    let mut parts = Parts::with_capacity(alloc, x.headers.len() + 3)?;
    parts.push(header_part(x))?;
    parts.push(segments_part(x))?;
    push_sections(x, &mut parts)?;
    parts.push(table_part(x))?;
    Ok(parts)
}
