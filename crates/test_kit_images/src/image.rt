//! An image that is built part by part.

ghost use Rattle.std.specs.Prelude.{◌≡◌, IfErr};
ghost use Rattle.elf_types.specs.declared.errors.ElfError.TheVariants.{Memory};

use crate::fields::{Field, FieldExtent, in_header, in_section, in_segment};
use elf_types::{Ehdr, ElfError, Octets, Order, Part, Phdr, Shdr};
use elf_xlate::{
    Items, XlateError, ehdr_fits, ehdr_size, phdr_fits, phdr_size, put_ehdr, put_phdr, put_shdr,
    shdr_fits, shdr_size, to_file,
};
use std::alloc::Global;

/// An image in memory. What is put past its end makes it longer, with zeros in between.
#[derive(Drop)]
pub struct BuiltImage {
    /// The allocator of its bytes.
    pub alloc: Global,
    /// The header that it was begun with, which names the class, the order and the tables' places.
    pub header: Ehdr,
    /// The bytes.
    pub bytes: Octets,
}

/// The place of an entry of a table.
fn place_of(table: u64, number: u64, size: usize) -> u64 {
    table.saturating_add(number.saturating_mul(size as u64))
}

/// The refusal of a record that does not fit the image's class.
pub fn unfit_error(part: Part, index: u64) -> ElfError {
    ElfError::Unfit { part, index }
}

/// The bytes of an ELF header.
fn header_bytes(alloc: Global, header: &Ehdr, pad: [u8; 7]) -> Result<Octets, ElfError> {
    let narrow = header.phnum <= 0xffff && header.shnum <= 0xffff && header.shstrndx <= 0xffff;
    if !narrow || !ehdr_fits(header) {
        return Err(unfit_error(Part::Header, 0));
    }
    let mut bytes = vec![in alloc; 0u8; ehdr_size(header.class)]?;
    put_ehdr(header, pad, bytes.as_mut_slice());
    Ok(Octets::from_vec(bytes))
}

/// The bytes of a program header.
fn segment_bytes(alloc: Global, h: &Ehdr, segment: &Phdr) -> Result<Octets, ElfError> {
    if !phdr_fits(segment, h.class) {
        return Err(unfit_error(Part::Segments, 0));
    }
    let mut bytes = vec![in alloc; 0u8; phdr_size(h.class)]?;
    put_phdr(h.class, h.order, segment, bytes.as_mut_slice());
    Ok(Octets::from_vec(bytes))
}

/// The bytes of a section header.
fn section_bytes(alloc: Global, h: &Ehdr, section: &Shdr) -> Result<Octets, ElfError> {
    if !shdr_fits(section, h.class) {
        return Err(unfit_error(Part::Table, 0));
    }
    let mut bytes = vec![in alloc; 0u8; shdr_size(h.class)]?;
    put_shdr(h.class, h.order, section, bytes.as_mut_slice());
    Ok(Octets::from_vec(bytes))
}

impl BuiltImage {
    /// The image that is a header alone; `pad` is the bytes 9 to 15 of its identification. It fails
    /// with `Memory`, and `Unfit` for a header that does not fit its class.
    pub fn new(alloc: Global, header: Ehdr, pad: [u8; 7]) -> Result<BuiltImage, ElfError> {
        let bytes = header_bytes(alloc, &header, pad)?;
        Ok(BuiltImage {
            alloc,
            header,
            bytes,
        })
    }

    /// Appends zeros up to a length. It fails with `Memory` alone.
    pub fn grow(&mut self, len: u64) -> Result<(), ElfError>
        ensures err { IfErr result (λ e. e ≡ Memory) }
    {
        for _ in self.bytes.len()..len {
            self.bytes.push(0)?;
        }
        Ok(())
    }

    /// Puts bytes at a place. It fails with `Memory` alone.
    pub fn put_bytes(&mut self, at: u64, bytes: &[u8]) -> Result<(), ElfError>
        ensures err { IfErr result (λ e. e ≡ Memory) }
    {
        self.grow(at.saturating_add(bytes.len() as u64))?;
        for (i, byte) in bytes.iter().enumerate() {
            self.put_byte(at.saturating_add(i as u64), *byte);
        }
        Ok(())
    }

    /// Puts the file form of items at a place. It fails with `Memory`, and `Unfit` for an item that
    /// does not fit the class.
    pub fn put_items(&mut self, at: u64, items: &Items) -> Result<(), ElfError> {
        let mut bytes = Octets::new(self.alloc);
        match to_file(items, self.header.class, self.header.order, &mut bytes) {
            Ok(()) => self.put_bytes(at, bytes.as_slice()),
            Err(XlateError::Unfit { index }) => Err(unfit_error(Part::Object, index)),
            Err(_) => Err(ElfError::Memory),
        }
    }

    /// Puts the program header with a number into its table, at the header's `e_phoff`. It fails
    /// with `Memory`, and `Unfit` for one that does not fit the class.
    pub fn put_segment(&mut self, number: u64, segment: &Phdr) -> Result<(), ElfError> {
        let bytes = segment_bytes(self.alloc, &self.header, segment)?;
        let at = place_of(self.header.phoff, number, phdr_size(self.header.class));
        self.put_bytes(at, bytes.as_slice())
    }

    /// Puts the section header with a number into its table, at the header's `e_shoff`. It fails
    /// with `Memory`, and `Unfit` for one that does not fit the class.
    pub fn put_section(&mut self, number: u64, section: &Shdr) -> Result<(), ElfError> {
        let bytes = section_bytes(self.alloc, &self.header, section)?;
        let at = place_of(self.header.shoff, number, shdr_size(self.header.class));
        self.put_bytes(at, bytes.as_slice())
    }

    /// Sets a field to the lowest bytes of a number, where it lies in the image. The tables are
    /// where the header that the image was begun with says.
    pub fn put_field(&mut self, field: Field, value: u64) {
        let extent = self.extent_of(field);
        let mut left = value;
        for i in 0..extent.width {
            let step = match self.header.order {
                Order::Least => i,
                Order::Greatest => extent.width.saturating_sub(i).saturating_sub(1),
            };
            self.put_byte(extent.at.saturating_add(step), (left % 256) as u8);
            left /= 256;
        }
    }

    /// Where a field is in the image.
    fn extent_of(&self, field: Field) -> FieldExtent {
        let h = &self.header;
        let (base, extent) = match field {
            Field::Ident(at) => (at as u64, FieldExtent { at: 0, width: 1 }),
            Field::Header(field) => (0, in_header(h.class, field)),
            Field::Segment(number, field) => (
                place_of(h.phoff, number, phdr_size(h.class)),
                in_segment(h.class, field),
            ),
            Field::Section(number, field) => (
                place_of(h.shoff, number, shdr_size(h.class)),
                in_section(h.class, field),
            ),
        };
        FieldExtent {
            at: base.saturating_add(extent.at),
            width: extent.width,
        }
    }

    /// Sets one byte, where it lies in the image.
    fn put_byte(&mut self, at: u64, value: u8) {
        if let Some(byte) = self.bytes.as_mut_slice().get_mut(at as usize) {
            *byte = value;
        }
    }
}
