//! The headers that C hands over, as they are listed for a layout.

ghost use Rattle.std.specs.Prelude.{◌≡◌, ◌≤◌, map, length, IfOk, IfErr};
ghost use Rattle.elf_types.specs.declared.constants.TheConstants.{MAX_SECTIONS};
ghost use Rattle.elf_types.specs.declared.errors.ElfError.TheVariants.{Memory};
ghost use Rattle.c_calls.specs.Editing.From.{phdr_from_record, shdr_from_record};
ghost use Rattle.c_calls.specs.Layout.Stated.{header_stated};
ghost use Rattle.c_calls.specs.Layout.Listed.{size_listed, AreSizes, ListsHeaders};

use crate::editing::{ehdr_from, phdr_from, shdr_from};
use crate::translation::{class_from, order_from};
use c_records::{EhdrRecord, PhdrRecord, ShdrRecord};
use elf_object::occupies_file;
use elf_types::{Addrs, Ehdr, ElfError, Phdrs, Shdr, Shdrs};
use rebuild_image::prelude::HeaderListing;
use std::alloc::Global;

/// The ELF header of a record, with so many program headers and sections.
fn header_stated(x: &EhdrRecord, phnum: u32, shnum: u32) -> Ehdr
    ensures { result ≡ header_stated x.now phnum shnum }
{
    Ehdr {
        class: class_from(x.class as u32),
        order: order_from(x.order as u32),
        osabi: x.osabi,
        abiversion: x.abiversion,
        etype: x.etype,
        machine: x.machine,
        version: x.version,
        entry: x.entry,
        phoff: x.phoff,
        shoff: x.shoff,
        flags: x.flags,
        ehsize: x.ehsize,
        phentsize: x.phentsize,
        phnum,
        shentsize: x.shentsize,
        shnum,
        shstrndx: x.shstrndx,
    }
}

/// The program headers of records. It fails with `Memory` alone.
///
/// Source: gABI chapter 5, "Program Header".
pub(crate) fn list_segments(alloc: Global, phdrs: &[PhdrRecord]) -> Result<Phdrs, ElfError>
    ensures ok { IfOk result (λ list. list ≡ map phdr_from_record phdrs.now) }
    ensures err { IfErr result (λ e. e ≡ Memory) }
{
    let mut list = Phdrs::with_capacity(alloc, phdrs.len() as u64)?;
    for p in phdrs {
        list.push(phdr_from(p))?;
    }
    Ok(list)
}

/// The section headers of records. It fails with `Memory` alone.
fn list_sections(alloc: Global, shdrs: &[ShdrRecord]) -> Result<Shdrs, ElfError>
    ensures ok { IfOk result (λ list. list ≡ map shdr_from_record shdrs.now) }
    ensures err { IfErr result (λ e. e ≡ Memory) }
{
    let mut list = Shdrs::with_capacity(alloc, shdrs.len() as u64)?;
    for h in shdrs {
        list.push(shdr_from(h))?;
    }
    Ok(list)
}

/// How many bytes of a section are in the file, by its number and its header.
fn size_listed(s: usize, h: &Shdr) -> u64
    ensures { result ≡ size_listed s h.now }
{
    if s == 0 {
        return 0;
    }
    if occupies_file(h) { h.size } else { 0 }
}

/// How many bytes of each section are in the file. It fails with `Memory` alone.
fn list_sizes(alloc: Global, headers: &[Shdr]) -> Result<Addrs, ElfError>
    ensures ok { IfOk result (AreSizes headers.now) }
    ensures err { IfErr result (λ e. e ≡ Memory) }
{
    let mut sizes = Addrs::with_capacity(alloc, headers.len() as u64)?;
    for s in 0..headers.len() {
        sizes.push(size_listed(s, &headers[s]))?;
    }
    Ok(sizes)
}

/// The headers of an image as they are listed for its layout. It fails with `Memory` alone.
///
/// Source: gABI chapter 4, "ELF Header" and "Section Header".
pub(crate) fn list_headers(
    alloc: Global,
    ehdr: &EhdrRecord,
    phnum: u32,
    shdrs: &[ShdrRecord],
) -> Result<HeaderListing, ElfError>
    requires { length shdrs.now ≤ MAX_SECTIONS }
    ensures ok { IfOk result (ListsHeaders ehdr.now phnum shdrs.now) }
    ensures err { IfErr result (λ e. e ≡ Memory) }
{
    let headers = match list_sections(alloc, shdrs) {
        Ok(headers) => headers,
        Err(e) => return Err(e),
    };
    match list_sizes(alloc, headers.as_slice()) {
        Ok(sizes) => Ok(HeaderListing {
            header: header_stated(ehdr, phnum, headers.len() as u32),
            headers,
            sizes,
        }),
        Err(e) => Err(e),
    }
}
