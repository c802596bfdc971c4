//! Edits of an object, before an update.

use elf_descriptor::Elf;
use elf_outside::Source;
use elf_types::constants::SHT_PROGBITS;
use elf_types::{DIRTY, DataId, Ehdr, ElfError, LAYOUT, Octets, Part, ScnId, Shdr};
use elf_xlate::Items;
use std::alloc::Global;
use test_kit_rows::{in_row, same};

/// An edit.
#[derive(Clone, Copy)]
pub enum Edit {
    /// The object is marked.
    Mark,
    /// Its parts keep their places.
    Layout,
    /// Another fill byte.
    Fill(u8),
    /// Another entry point.
    Entry(u64),
    /// So many program headers.
    Segments(u32),
    /// The place of the table of section headers.
    Table(u64),
    /// The place of a section.
    Place(u32, u64),
    /// The type of a section.
    Type(u32, u32),
    /// So many bytes 7 in place of those of a section.
    Bytes(u32, usize),
    /// One more piece of a section, of eight bytes 51.
    Piece(u32),
    /// One more section, of so many bytes 9.
    Section(usize),
    /// The home of a section is read, and its piece marked.
    Load(u32),
}

/// So many bytes of one value.
fn bytes_of(alloc: Global, byte: u8, len: usize) -> Result<Items, ElfError> {
    let bytes = vec![in alloc; byte; len]?;
    Ok(Items::Bytes(Octets::from_vec(bytes)))
}

/// Puts other bytes in place of those of a section.
fn replace<S: Source>(elf: &mut Elf<S>, section: u32, len: usize) -> Result<(), ElfError> {
    let items = bytes_of(elf.alloc(), 7, len)?;
    match elf.replace(DataId { section, piece: 0 }, items) {
        Ok(()) => Ok(()),
        Err((_, e)) => Err(e),
    }
}

/// Adds a piece to a section.
fn add_piece<S: Source>(elf: &mut Elf<S>, s: ScnId, byte: u8, len: usize) -> Result<(), ElfError> {
    let items = bytes_of(elf.alloc(), byte, len)?;
    match elf.newdata(s, items) {
        Ok(_) => Ok(()),
        Err((_, e)) => Err(e),
    }
}

/// Adds a section of bytes.
fn add_section<S: Source>(elf: &mut Elf<S>, len: usize) -> Result<(), ElfError> {
    let s = elf.newscn()?;
    let header = elf.shdr(s)?;
    elf.update_shdr(
        s,
        &Shdr {
            stype: SHT_PROGBITS,
            ..header
        },
    )?;
    add_piece(elf, s, 9, len)
}

/// Gives a section another place, or another type.
fn set_header<S: Source>(elf: &mut Elf<S>, edit: Edit) -> Result<(), ElfError> {
    match edit {
        Edit::Place(s, offset) => {
            let header = elf.shdr(ScnId(s))?;
            elf.update_shdr(ScnId(s), &Shdr { offset, ..header })
        }
        Edit::Type(s, stype) => {
            let header = elf.shdr(ScnId(s))?;
            elf.update_shdr(ScnId(s), &Shdr { stype, ..header })
        }
        _ => Ok(()),
    }
}

/// Sets something of the front.
fn set_front<S: Source>(elf: &mut Elf<S>, edit: Edit) -> Result<(), ElfError> {
    let header = elf.ehdr();
    match edit {
        Edit::Entry(entry) => elf.update_ehdr(&Ehdr { entry, ..header }),
        Edit::Table(shoff) => elf.update_ehdr(&Ehdr { shoff, ..header }),
        Edit::Segments(n) => elf.newphdr(n),
        _ => Ok(()),
    }
}

/// Sets a flag of the object.
fn set_flag<S: Source>(elf: &mut Elf<S>, bits: u32) -> Result<(), ElfError> {
    elf.flag(Part::Object, true, bits)?;
    Ok(())
}

/// Reads the home of a section, and marks its piece.
fn load<S: Source>(elf: &mut Elf<S>, s: u32) -> Result<(), ElfError> {
    elf.raw(ScnId(s))?;
    elf.flag(Part::Piece(s, 0), true, DIRTY)?;
    Ok(())
}

/// Makes an edit.
fn make_edit<S: Source>(elf: &mut Elf<S>, edit: Edit) -> Result<(), ElfError> {
    match edit {
        Edit::Mark => set_flag(elf, DIRTY),
        Edit::Layout => set_flag(elf, LAYOUT),
        Edit::Fill(byte) => {
            elf.set_fill(byte);
            Ok(())
        }
        Edit::Entry(_) | Edit::Table(_) | Edit::Segments(_) => set_front(elf, edit),
        Edit::Place(..) | Edit::Type(..) => set_header(elf, edit),
        Edit::Bytes(s, len) => replace(elf, s, len),
        Edit::Piece(s) => add_piece(elf, ScnId(s), 51, 8),
        Edit::Section(len) => add_section(elf, len),
        Edit::Load(s) => load(elf, s),
    }
}

/// Whether edits are made, one after the other.
pub fn are_made<S: Source>(rt: &HostRuntime, elf: &mut Elf<S>, edits: &[Edit]) -> bool {
    for (n, edit) in edits.iter().enumerate() {
        if !in_row(rt, n, same(rt, &make_edit(elf, *edit), &Ok(()))) {
            return false;
        }
    }
    true
}
