//! What a descriptor tells without reading.

use super::{Change, DescriptorStep, SYMBOLS_PIECE};
use elf_descriptor::{Elf, Held};
use elf_outside::Source;
use elf_types::{DataId, Ehdr, ElfError, Kind, ScnId, Shdr};
use elf_xlate::item_size;
use test_kit_rows::{failed, other, same, same_bytes};

/// Whether a header has so many program headers and sections, and names that section as the one of
/// the names.
fn has_counts(rt: &HostRuntime, header: &Ehdr, segments: u32, sections: u32, names: u32) -> bool {
    same(rt, &header.phnum, &segments)
        && same(rt, &header.shnum, &sections)
        && same(rt, &header.shstrndx, &names)
}

/// The offsets of the two program headers.
fn offsets<S: Source>(elf: &Elf<S>) -> Result<(u64, u64), ElfError> {
    Ok((elf.phdr(0)?.offset, elf.phdr(1)?.offset))
}

/// Whether nothing is held of a piece.
fn is_unread<S: Source>(elf: &Elf<S>, d: DataId) -> bool {
    match elf.held(d) {
        Ok(Held::Unread) => true,
        _ => false,
    }
}

/// Whether the bytes that are held of a piece are these.
fn is_held<S: Source>(rt: &HostRuntime, elf: &Elf<S>, d: DataId, bytes: &[u8]) -> bool {
    match elf.held(d) {
        Ok(Held::Raw(there)) => same_bytes(rt, there, bytes),
        Ok(_) => other(rt, &d, "bytes that are held"),
        Err(e) => failed(rt, e),
    }
}

/// Whether what a step asks of the object as a whole, or of what is held, is told so.
pub fn is_told<S: Source>(rt: &HostRuntime, elf: &Elf<S>, step: &DescriptorStep) -> bool {
    match step {
        DescriptorStep::Counts(segments, sections) => {
            same(rt, &elf.phnum(), segments) && same(rt, &elf.shnum(), sections)
        }
        DescriptorStep::Header(segments, sections, names) => {
            has_counts(rt, &elf.ehdr(), *segments, *sections, *names)
        }
        DescriptorStep::Pad(pad) => same(rt, &elf.pad(), pad),
        DescriptorStep::Dirty(dirty) => same(rt, &elf.dirty(), dirty),
        DescriptorStep::Fill(fill) => same(rt, &elf.fill(), fill),
        DescriptorStep::Flags(part, told) => same(rt, &elf.flags(*part), told),
        DescriptorStep::Offsets(first, second) => same(rt, &offsets(elf), &Ok((*first, *second))),
        DescriptorStep::Unread(d, unread) => same(rt, &is_unread(elf, *d), unread),
        DescriptorStep::Held(d, bytes) => is_held(rt, elf, *d, bytes),
        _ => false,
    }
}

/// A section header with another number in a field.
pub fn changed(header: Shdr, change: Change) -> Shdr {
    match change {
        Change::Type(stype) => Shdr { stype, ..header },
        Change::Flags(flags) => Shdr { flags, ..header },
        Change::Offset(offset) => Shdr { offset, ..header },
        Change::Size(size) => Shdr { size, ..header },
    }
}

/// Whether a field of the header of a section has a number.
fn has<S: Source>(rt: &HostRuntime, elf: &Elf<S>, s: ScnId, change: Change) -> bool {
    match elf.shdr(s) {
        Ok(header) => same(rt, &changed(header, change), &header),
        Err(e) => failed(rt, e),
    }
}

/// Whether the home of section 2 is where its header says, as long as two symbols.
fn has_symbols_home<S: Source>(rt: &HostRuntime, elf: &Elf<S>) -> bool {
    let size = 2 * item_size(Kind::Sym, elf.ehdr().class);
    match elf.shdr(ScnId(SYMBOLS_PIECE.section)) {
        Ok(header) => same(
            rt,
            &elf.home(ScnId(SYMBOLS_PIECE.section)),
            &Ok((header.offset, size)),
        ),
        Err(e) => failed(rt, e),
    }
}

/// Whether what a step asks of a section or a piece is told so.
pub fn is_told_of_section<S: Source>(
    rt: &HostRuntime,
    elf: &Elf<S>,
    step: &DescriptorStep,
) -> bool {
    match step {
        DescriptorStep::Section(s, told) => same(rt, &elf.shdr(ScnId(*s)), told),
        DescriptorStep::Has(s, change) => has(rt, elf, ScnId(*s), *change),
        DescriptorStep::Home(s, told) => same(rt, &elf.home(ScnId(*s)), told),
        DescriptorStep::SymbolsHome => has_symbols_home(rt, elf),
        DescriptorStep::Kind(d, told) => same(rt, &elf.piece_kind(*d), told),
        DescriptorStep::Align(d, told) => same(rt, &elf.piece_align(*d), told),
        DescriptorStep::Pieces(s, told) => same(rt, &elf.pieces(ScnId(*s)), told),
        DescriptorStep::Size(s, told) => same(rt, &elf.data_size(ScnId(*s)), told),
        _ => false,
    }
}
