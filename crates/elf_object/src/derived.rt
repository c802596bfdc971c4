//! Header values that follow from the counts of an object, and the numbers that the two-byte fields
//! of the ELF header cannot hold (gABI chapter 4, "ELF Header" and "Section Header").

ghost use Rattle.std.specs.Prelude.{◌≡◌};
ghost use Rattle.elf_ident.specs.elf_xlate.Headers.{HasNarrowCounts, ehdr_size, phdr_size, shdr_size};
ghost use Rattle.elf_object.specs.Derived.{derived_header, numbered_shdr, where_any, written_header};
ghost use Rattle.elf_object.specs.Steps.{stored_ehdr};

use elf_ident::prelude::{ehdr_size, phdr_size, shdr_size};
use elf_types::constants::{EV_CURRENT, PN_XNUM, SHN_LORESERVE, SHN_XINDEX};
use elf_types::{Class, Ehdr, Shdr};

/// A header that has the true counts, with what follows from them: the version, the sizes of the
/// header and of the tables' entries, and, where they have entries, the places of the two tables,
/// in bytes from the start of the image. Where a table has none, its place and its entries' size
/// are 0, and without sections so is the string index.
#[tactic(auto, unfolding(crate::specs::Derived::derived_header))]
pub fn derived_header(phoff: u64, shoff: u64, h: &Ehdr) -> Ehdr
    ensures { result ≡ derived_header phoff shoff h.now }
{
    let sizes = entry_sizes(h.class);
    Ehdr {
        version: EV_CURRENT,
        ehsize: sizes.ehsize,
        phoff: where_any(h.phnum, phoff),
        phentsize: size_where_any(h.phnum, sizes.phentsize),
        shoff: where_any(h.shnum, shoff),
        shentsize: size_where_any(h.shnum, sizes.shentsize),
        shstrndx: index_where_any(h.shnum, h.shstrndx),
        ..*h
    }
}

/// The sizes in bytes of a header, of a program header and of a section header.
#[derive(Clone, Copy)]
struct EntrySizes {
    ehsize: u16,
    phentsize: u16,
    shentsize: u16,
}

/// The sizes of a class.
#[tactic(auto, using(crate::proofs::Sizes::sizes_are_small))]
fn entry_sizes(class: Class) -> EntrySizes
    ensures { result
        ≡ record {
          ehsize = ehdr_size class;
          phentsize = phdr_size class;
          shentsize = shdr_size class;
        } }
{
    EntrySizes {
        ehsize: ehdr_size(class) as u16,
        phentsize: phdr_size(class) as u16,
        shentsize: shdr_size(class) as u16,
    }
}

/// A place, and 0 where there are no entries.
fn where_any(count: u32, place: u64) -> u64
    ensures { result ≡ where_any count place }
{
    if count == 0 { 0 } else { place }
}

/// A size, and 0 where there are no entries.
fn size_where_any(count: u32, size: u16) -> u16
    ensures { result ≡ where_any count size }
{
    if count == 0 { 0 } else { size }
}

/// The string index, and 0 where there are no sections.
fn index_where_any(count: u32, index: u32) -> u32
    ensures { result ≡ where_any count index }
{
    if count == 0 { 0 } else { index }
}

/// A header with its two counts and its string index as they are written. Each fits two bytes.
#[tactic(auto, unfolding(crate::specs::Derived::written_header))]
pub fn written_header(h: &Ehdr) -> Ehdr
    ensures value { result ≡ written_header h.now }
    ensures narrow { HasNarrowCounts result }
{
    Ehdr {
        phnum: if h.phnum < PN_XNUM { h.phnum } else { PN_XNUM },
        shnum: if h.shnum < SHN_LORESERVE { h.shnum } else { 0 },
        shstrndx: if h.shstrndx < SHN_LORESERVE {
            h.shstrndx
        } else {
            SHN_XINDEX
        },
        ..*h
    }
}

/// The header of section 0, which holds in `sh_size`, `sh_link` and `sh_info` the count, the string
/// index and the number of program headers of `h` that its own fields do not hold, and else 0.
#[tactic(auto, unfolding(crate::specs::Derived::numbered_shdr))]
pub fn numbered_shdr(h: &Ehdr, first: &Shdr) -> Shdr
    ensures { result ≡ numbered_shdr h.now first.now }
{
    Shdr {
        size: if h.shnum < SHN_LORESERVE {
            0
        } else {
            h.shnum as u64
        },
        link: if h.shstrndx < SHN_LORESERVE {
            0
        } else {
            h.shstrndx
        },
        info: if h.phnum < PN_XNUM { 0 } else { h.phnum },
        ..*first
    }
}

/// The header `old` with the fields of `h` that an update stores (gelf_update_ehdr): osabi,
/// abiversion, type, machine, entry, the places of the two tables, flags and the string index.
#[tactic(auto, unfolding(crate::specs::Steps::stored_ehdr))]
pub fn stored_ehdr(old: &Ehdr, h: &Ehdr) -> Ehdr
    ensures { result ≡ stored_ehdr old.now h.now }
{
    Ehdr {
        osabi: h.osabi,
        abiversion: h.abiversion,
        etype: h.etype,
        machine: h.machine,
        entry: h.entry,
        phoff: h.phoff,
        shoff: h.shoff,
        flags: h.flags,
        shstrndx: h.shstrndx,
        ..*old
    }
}
