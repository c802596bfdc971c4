//! All of an object but its source.

use elf_types::{Ehdr, Octets, Phdrs, Shdrs};
use section_table::{HeaderTable, Sections};

mod bases;
mod checks;
mod creating;
mod edits;
mod fronts;
mod getters;
mod homes;
mod lending;
mod loading;
mod opening;
mod parts;
mod pieces;
mod places;
mod rooms;
mod settling;
mod sizes;
mod spares;
mod storing;

/// The front as it is in the image that was opened or last written.
#[derive(Drop)]
pub struct Written {
    /// The header, with the counts and the string index as they are.
    pub header: Ehdr,
    /// Bytes 9 to 15 of the identification.
    pub pad: [u8; 7],
    /// The program headers.
    pub phdrs: Phdrs,
    /// The section headers. As long as no header of a section changed since the image was opened,
    /// the sections hold the same ones.
    pub shdrs: HeaderTable,
}

/// Memory for the tables of a front that is written next; the values mean nothing.
#[derive(Drop)]
pub struct Spare {
    /// As many program headers as the object has.
    pub phdrs: Phdrs,
    /// As many section headers as the object has.
    pub shdrs: Shdrs,
}

/// Where the base bytes of an object are.
#[derive(Drop)]
pub enum Base {
    /// They were handed in, to an object that was created.
    Own(Octets),
    /// They are the first bytes of the source, so many. A source may have more once a write failed
    /// that made it longer.
    Source(u64),
}

/// All of an object but its source.
#[derive(Drop)]
pub struct Body {
    /// The header, with the true counts and the true string index.
    pub header: Ehdr,
    /// Bytes 9 to 15 of the identification.
    pub pad: [u8; 7],
    /// The program headers.
    pub phdrs: Phdrs,
    /// The sections.
    pub sections: Sections,
    /// The base bytes.
    pub base: Base,
    /// The front as it is in the image; a created object has none.
    pub written: Option<Written>,
    /// Memory for a front that is written next.
    pub spare: Option<Spare>,
    /// `ELF_F_LAYOUT`.
    pub layout: bool,
    /// The byte of gaps.
    pub fill: u8,
    /// The object as a whole is marked dirty.
    pub marked: bool,
    /// The ELF header is marked dirty.
    pub header_marked: bool,
    /// The program headers are marked dirty.
    pub segments_marked: bool,
    /// The spare memory is as long as the object's lists: none of them changed since it was made.
    pub ready: bool,
}
