//! What C hands over, as the plain object has it.

ghost use Rattle.std.specs.Prelude.{◌≡◌};
ghost use Rattle.c_calls.specs.Editing.From.{ehdr_from_record, phdr_from_record, shdr_from_record};

use c_records::{EhdrRecord, PhdrRecord, ShdrRecord};
use elf_types::{Ehdr, Phdr, Shdr};

/// A header with the nine fields of a record that an update stores.
///
/// Source: gABI chapter 4, "ELF Header"; gelf_update_ehdr of gelf(3E).
pub fn ehdr_from(x: &EhdrRecord, h: Ehdr) -> Ehdr
    ensures { result ≡ ehdr_from_record x.now h }
{
    Ehdr {
        osabi: x.osabi,
        abiversion: x.abiversion,
        etype: x.etype,
        machine: x.machine,
        entry: x.entry,
        phoff: x.phoff,
        shoff: x.shoff,
        flags: x.flags,
        shstrndx: x.shstrndx,
        ..h
    }
}

/// The program header of a record.
///
/// Source: gABI chapter 5, "Program Header"; gelf_update_phdr of gelf(3E).
pub fn phdr_from(x: &PhdrRecord) -> Phdr
    ensures { result ≡ phdr_from_record x.now }
{
    Phdr {
        ptype: x.ptype,
        flags: x.flags,
        offset: x.offset,
        vaddr: x.vaddr,
        paddr: x.paddr,
        filesz: x.filesz,
        memsz: x.memsz,
        align: x.align,
    }
}

/// The section header of a record.
///
/// Source: gABI chapter 4, "Section Header"; gelf_update_shdr of gelf(3E).
pub fn shdr_from(x: &ShdrRecord) -> Shdr
    ensures { result ≡ shdr_from_record x.now }
{
    Shdr {
        name: x.name,
        stype: x.stype,
        flags: x.flags,
        addr: x.addr,
        offset: x.offset,
        size: x.size,
        link: x.link,
        info: x.info,
        addralign: x.addralign,
        entsize: x.entsize,
    }
}
