//! The executable: its header, and its parts put into one image.

use crate::sections::{EXECUTABLE_SECTIONS, Section};
use crate::segments::SEGMENTS;
use elf_types::{Class, Ehdr, ElfError, Order};
use std::alloc::Global;
use test_kit_images::{BuiltImage, Field, NULL_SECTION, SectionField, header_of};

/// `e_type` of a shared object, and of an executable that is loaded at any address.
const ET_DYN: u16 = 3;

/// Where the names of the sections are, the content of the last section.
const NAMES_AT: u64 = 0xd4f;

/// The header, whose entry is the text section.
fn header() -> Ehdr {
    Ehdr {
        etype: ET_DYN,
        entry: 0x14a0,
        phoff: 64,
        shoff: 0x538,
        phentsize: 56,
        phnum: 14,
        shentsize: 64,
        shnum: 31,
        shstrndx: 30,
        ..header_of(Class::C64, Order::Least)
    }
}

/// Puts the program headers.
fn put_segments(image: &mut BuiltImage) -> Result<(), ElfError> {
    for (i, segment) in SEGMENTS.iter().enumerate() {
        image.put_segment(i as u64, segment)?;
    }
    Ok(())
}

/// Puts the section with a number: its name at a place of the names, its header and its content.
fn put_section(
    image: &mut BuiltImage,
    number: u64,
    name: u64,
    section: &Section,
) -> Result<(), ElfError> {
    image.put_section(number, &section.header)?;
    image.put_field(Field::Section(number, SectionField::Name), name);
    image.put_bytes(NAMES_AT.saturating_add(name), section.name)?;
    image.put_content(section.header.offset, &section.content)
}

/// Puts the sections from 1 on, the name of each after those before it.
fn put_sections(image: &mut BuiltImage) -> Result<(), ElfError> {
    let mut name = 1u64;
    for (i, section) in EXECUTABLE_SECTIONS.iter().enumerate() {
        put_section(image, (i as u64).saturating_add(1), name, section)?;
        name = name.saturating_add(section.name.len() as u64);
    }
    Ok(())
}

/// Puts the parts after the header.
fn put_parts(image: &mut BuiltImage) -> Result<(), ElfError> {
    put_segments(image)?;
    image.put_section(0, &NULL_SECTION)?;
    put_sections(image)
}

/// The executable, of 3,696 bytes. It fails with `Memory`.
pub fn executable(alloc: Global) -> Result<BuiltImage, ElfError> {
    let mut image = BuiltImage::new(alloc, header(), [0; 7])?;
    match put_parts(&mut image) {
        Ok(()) => Ok(image),
        Err(e) => Err(e),
    }
}
