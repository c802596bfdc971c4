//! The ELF header and the two tables, row by row.

ghost use Rattle.std.specs.Prelude.{◌≡◌, ◌<◌, length, slice_index_or};
ghost use Rattle.elf_update_plan.specs.elf_xlate.Headers.{ehdr_size, phdr_size, shdr_size, phdr_bytes, shdr_bytes};
ghost use Rattle.elf_update_plan.specs.elf_object.Object.{no_phdr, section_at};
ghost use Rattle.elf_update_plan.specs.elf_object.Image.{front_blocks};
ghost use Rattle.elf_update_to.specs.Descriptors.{HasStoredPlaces};

use crate::rows::WritableRows;
use elf_types::ScnId;
use elf_update_plan::prelude::{
    Elf, Source, ehdr_size, phdr_size, put_ehdr, put_phdr, put_shdr, shdr_size, written_header,
};

/// Writes the ELF header. `out` has just as many bytes as it has.
fn put_header<S: Source>(elf: &Elf<S>, out: &mut [u8])
    requires stored { HasStoredPlaces elf.now.o }
    requires room { length out.old ≡ ehdr_size elf.now.o.header.class }
    ensures { out.new ≡ (front_blocks elf.now.o).header.bytes }
{
    put_ehdr(&written_header(&elf.ehdr()), elf.pad(), out);
}

/// Writes a program header that is there. `out` has just as many bytes as it has.
fn put_segment<S: Source>(elf: &Elf<S>, i: u32, out: &mut [u8])
    requires stored { HasStoredPlaces elf.now.o }
    requires there { i < length elf.now.o.phdrs }
    requires room { length out.old ≡ phdr_size elf.now.o.header.class }
    ensures { out.new ≡ phdr_bytes elf.now.o.header.class elf.now.o.header.order
        (slice_index_or elf.now.o.phdrs i no_phdr) }
{
    let header = elf.ehdr();
    put_phdr(header.class, header.order, &elf.phdr_at(i), out);
}

/// Writes the header of a section that is there. `out` has just as many bytes as it has.
fn put_section<S: Source>(elf: &Elf<S>, s: u32, out: &mut [u8])
    requires stored { HasStoredPlaces elf.now.o }
    requires there { s < length elf.now.o.sections }
    requires room { length out.old ≡ shdr_size elf.now.o.header.class }
    ensures { out.new ≡ shdr_bytes elf.now.o.header.class elf.now.o.header.order
        (section_at elf.now.o s).header }
{
    let header = elf.ehdr();
    put_shdr(
        header.class,
        header.order,
        &elf.section_header(ScnId(s)),
        out,
    );
}

/// The ELF header of an object whose places are stored, as a row.
#[derive(Drop)]
pub(crate) struct HeaderRow<'a, S: Source> {
    /// The object's descriptor.
    pub elf: &'a Elf<S>,
}

impl<S: Source> WritableRows for HeaderRow<'_, S> {
    ghost ready = { λ r. HasStoredPlaces r.elf.now.o };

    ghost bytes = { λ r. (front_blocks r.elf.now.o).header.bytes };

    ghost size = { λ r. ehdr_size r.elf.now.o.header.class };

    ghost count = { λ r. 1 };

    fn row_size(&self) -> usize {
        ehdr_size(self.elf.ehdr().class)
    }

    fn put_row(&self, _i: u64, out: &mut [u8]) {
        put_header(self.elf, out);
    }
}

/// The program headers of an object whose places are stored, as rows.
#[derive(Drop)]
pub(crate) struct SegmentRows<'a, S: Source> {
    /// The object's descriptor.
    pub elf: &'a Elf<S>,
}

impl<S: Source> WritableRows for SegmentRows<'_, S> {
    ghost ready = { λ r. HasStoredPlaces r.elf.now.o };

    ghost bytes = { λ r. (front_blocks r.elf.now.o).segments.bytes };

    ghost size = { λ r. phdr_size r.elf.now.o.header.class };

    ghost count = { λ r. length r.elf.now.o.phdrs };

    fn row_size(&self) -> usize {
        phdr_size(self.elf.ehdr().class)
    }

    fn put_row(&self, i: u64, out: &mut [u8]) {
        put_segment(self.elf, i as u32, out);
    }
}

/// The section headers of an object whose places are stored, as rows.
#[derive(Drop)]
pub(crate) struct SectionRows<'a, S: Source> {
    /// The object's descriptor.
    pub elf: &'a Elf<S>,
}

impl<S: Source> WritableRows for SectionRows<'_, S> {
    ghost ready = { λ r. HasStoredPlaces r.elf.now.o };

    ghost bytes = { λ r. (front_blocks r.elf.now.o).table.bytes };

    ghost size = { λ r. shdr_size r.elf.now.o.header.class };

    ghost count = { λ r. length r.elf.now.o.sections };

    fn row_size(&self) -> usize {
        shdr_size(self.elf.ehdr().class)
    }

    fn put_row(&self, i: u64, out: &mut [u8]) {
        put_section(self.elf, i as u32, out);
    }
}
