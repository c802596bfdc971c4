//! A descriptor as what its image is written from, once the places of its parts are stored.

ghost use Rattle.std.specs.Prelude.{◌≡◌, ◌<◌, length, slice_index_or};
ghost use Rattle.elf_update_plan.specs.elf_object.Image.{front_blocks};
ghost use Rattle.elf_update_to.specs.Origins.{absent_piece, IsExtent};
ghost use Rattle.elf_update_to.specs.Descriptors.{HasStoredPlaces, kept_of_elf, faults_of, taken_of, stored_pieces, stored_due};

use crate::copies::copy_piece;
use crate::data::{piece_extent, section_pieces};
use crate::parts::{ImageParts, Origin, PieceExtent};
use elf_types::{DataId, ElfError, Part};
use elf_update_plan::prelude::{Elf, Source, ehdr_size, phdr_size, shdr_size};

/// The number of bytes of the ELF header.
fn header_length<S: Source>(elf: &Elf<S>) -> u64
    requires { HasStoredPlaces elf.now.o }
    ensures { result ≡ length (front_blocks elf.now.o).header.bytes }
{
    ehdr_size(elf.ehdr().class) as u64
}

/// The number of bytes of the program header table.
fn segments_length<S: Source>(elf: &Elf<S>) -> u64
    requires { HasStoredPlaces elf.now.o }
    ensures { result ≡ length (front_blocks elf.now.o).segments.bytes }
{
    elf.phnum() as u64 * phdr_size(elf.ehdr().class) as u64
}

/// The number of bytes of the section header table.
fn table_length<S: Source>(elf: &Elf<S>) -> u64
    requires { HasStoredPlaces elf.now.o }
    ensures { result ≡ length (front_blocks elf.now.o).table.bytes }
{
    elf.shnum() as u64 * shdr_size(elf.ehdr().class) as u64
}

/// An extent of that length that may be anywhere.
fn unaligned(len: u64) -> PieceExtent
    ensures align { result.align ≡ 1 }
    ensures len { result.len ≡ len }
{
    PieceExtent { align: 1, len }
}

/// The alignment and the length of a piece that is there.
fn extent_of<S: Source>(elf: &Elf<S>, part: Part, p: u32) -> PieceExtent
    requires stored { HasStoredPlaces elf.now.o }
    requires there { p < length (stored_pieces elf.now.o part) }
    ensures { IsExtent result (slice_index_or (stored_pieces elf.now.o part) p absent_piece) }
{
    match part {
        Part::Header => unaligned(header_length(elf)),
        Part::Segments => unaligned(segments_length(elf)),
        Part::Table => unaligned(table_length(elf)),
        Part::Section(s) => piece_extent(
            elf,
            DataId {
                section: s,
                piece: p,
            },
        ),
        Part::Object => unaligned(0),
        Part::Piece(_, _) => unaligned(0),
    }
}

/// The number of pieces of a part.
fn count_of<S: Source>(elf: &Elf<S>, part: Part) -> u32
    ensures { result ≡ length (stored_pieces elf.now.o part) }
{
    match part {
        Part::Header => 1,
        Part::Segments => 1,
        Part::Table => 1,
        Part::Section(s) => section_pieces(elf, s),
        Part::Object => 0,
        Part::Piece(_, _) => 0,
    }
}

impl<S: Source> ImageParts for Elf<S> {
    ghost use Rattle.elf_update_to.specs.Descriptors.{KeptElf};

    ghost Kept = { KeptElf };

    ghost kept = { kept_of_elf S.Source };

    ghost ready = { λ k. HasStoredPlaces k.o };

    ghost told = { λ k. k.told };

    ghost pieces = { λ k. stored_pieces k.o };

    ghost base = { λ k. k.o.base };

    ghost due = { λ k. stored_due k.o k.loaded };

    ghost faults = { faults_of S.Source };

    ghost taken = { taken_of S.Source };

    fn piece_count(&self, part: Part) -> u32 {
        count_of(self, part)
    }

    fn piece(&self, part: Part, p: u32) -> PieceExtent {
        extent_of(self, part, p)
    }

    fn copy(&mut self, of: Origin, from: u64, buf: &mut [u8]) -> Result<(), ElfError> {
        match of {
            Origin::Piece(part, p) => copy_piece(self, part, p, from, buf),
            Origin::Base => self.copy_base(from, buf),
        }
    }
}
