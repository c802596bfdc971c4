//! A program whose parts are where the joined ones are placed, sources of its image, and the bytes
//! of what is made of them.

use elf_descriptor::Elf;
use elf_outside::{MemSink, MemSource, NoSource, Source};
use elf_types::constants::{SHF_ALLOC, SHT_NOBITS, SHT_PROGBITS, SHT_STRTAB};
use elf_types::{Addrs, Class, Ehdr, ElfError, NULL_SECTION, Octets, Phdr, Shdr};
use elf_update_to::update_to;
use elf_xlate::{ehdr_size, phdr_size, shdr_size};
use std::alloc::Global;
use test_kit_images::{BuiltImage, ClassAndOrder, ET_EXEC, Field, WIDE, header_of};
use test_kit_rows::{failed, same_bytes};
use test_kit_sources::{Sparse, source};

/// A field that has another value than in the program.
pub type Twist = (Field, u64);

/// A segment that is loaded, without a place.
const SEGMENT: Phdr = Phdr {
    ptype: 1,
    flags: 5,
    offset: 0,
    vaddr: 0x1000,
    paddr: 0x1000,
    filesz: 8,
    memsz: 64,
    align: 16,
};

/// The bytes of its sections: eight of section 1, eight of section 2, four of section 4 and one of
/// section 5.
const BYTES: &[u8] = b"\x01\x02\x03\x04\x05\x06\x07\x08\x0b\x0c\x0d\x0e\x0f\x10\x11\x12dbg\n\0";

/// Its sections from 1 on: two that are loaded, one without bytes in the file, one that is not
/// loaded, and the names. Their places are told from the first one's.
static SECTIONS: [Shdr; 5] = [
    Shdr {
        stype: SHT_PROGBITS,
        flags: SHF_ALLOC,
        size: 8,
        addralign: 8,
        ..NULL_SECTION
    },
    Shdr {
        stype: SHT_PROGBITS,
        flags: SHF_ALLOC + 1,
        offset: 8,
        size: 8,
        addralign: 8,
        ..NULL_SECTION
    },
    Shdr {
        stype: SHT_NOBITS,
        flags: SHF_ALLOC + 1,
        offset: 16,
        size: 32,
        addralign: 16,
        ..NULL_SECTION
    },
    Shdr {
        stype: SHT_PROGBITS,
        offset: 16,
        size: 4,
        addralign: 1,
        ..NULL_SECTION
    },
    Shdr {
        stype: SHT_STRTAB,
        offset: 20,
        size: 1,
        addralign: 1,
        ..NULL_SECTION
    },
];

/// Where its first section begins, in bytes.
fn start_of(class: Class) -> u64 {
    match class {
        Class::C32 => 96,
        Class::C64 => 128,
    }
}

/// The program's header in a form.
fn header_in(form: ClassAndOrder) -> Ehdr {
    let (class, order) = form;
    Ehdr {
        etype: ET_EXEC,
        entry: 0x1000,
        phoff: ehdr_size(class) as u64,
        phentsize: phdr_size(class) as u16,
        phnum: 1,
        shoff: start_of(class).saturating_add(24),
        shentsize: shdr_size(class) as u16,
        shnum: 6,
        shstrndx: 5,
        ..header_of(class, order)
    }
}

/// Puts its section headers.
fn put_sections(image: &mut BuiltImage, start: u64) -> Result<(), ElfError> {
    image.put_section(0, &NULL_SECTION)?;
    for (s, section) in SECTIONS.iter().enumerate() {
        let mut header = *section;
        header.offset = start.saturating_add(section.offset);
        image.put_section((s as u64).saturating_add(1), &header)?;
    }
    Ok(())
}

/// Puts its parts after the header, and then other values of some fields.
fn put_parts(image: &mut BuiltImage, start: u64, twists: &[Twist]) -> Result<(), ElfError> {
    image.put_segment(0, &SEGMENT)?;
    image.put_bytes(start, BYTES)?;
    put_sections(image, start)?;
    for (field, value) in twists.iter() {
        image.put_field(*field, *value);
    }
    Ok(())
}

/// The program in a form: a segment, two sections that it loads, one without bytes in the file, one
/// that is not loaded, and the names. Some fields have other values.
pub fn program(alloc: Global, form: ClassAndOrder, twists: &[Twist]) -> Result<Octets, ElfError> {
    let mut image = BuiltImage::new(alloc, header_in(form), [0; 7])?;
    match put_parts(&mut image, start_of(form.0), twists) {
        Ok(()) => Ok(image.bytes),
        Err(e) => Err(e),
    }
}

/// Whether these bytes are the program of class 64, the least byte first.
pub fn is_program(rt: &HostRuntime, bytes: &Octets) -> bool {
    match program(rt.alloc(), WIDE, &[]) {
        Ok(whole) => same_bytes(rt, bytes.as_slice(), whole.as_slice()),
        Err(e) => failed(rt, e),
    }
}

/// A source of an image, of which the read of a number fails, or none where that is 0.
pub fn source_of(alloc: Global, image: &Octets, bad_read: u64) -> Result<MemSource, ElfError> {
    match Octets::from_slice(alloc, image.as_slice()) {
        Ok(bytes) => source(alloc, bytes, bad_read),
        Err(e) => Err(e),
    }
}

/// A source of an image that does not tell its bytes.
pub fn untold(image: Octets) -> Sparse {
    let len = image.len();
    Sparse::new(image, len)
}

/// A sink with room for each image of these tests.
fn sink(alloc: Global) -> Result<MemSink, ElfError> {
    match Addrs::from_slice(alloc, &[0]) {
        Ok(bad_puts) => MemSink::new(alloc, 10_000, bad_puts),
        Err(e) => Err(e),
    }
}

/// What an update puts into a sink.
fn put_into<S: Source>(elf: &mut Elf<S>, mut sink: MemSink) -> Result<Octets, ElfError> {
    match update_to(elf, &mut sink) {
        Ok(_) => Ok(sink.into_bytes()),
        Err(e) => Err(e),
    }
}

/// The bytes that an update of an object puts.
pub fn written(alloc: Global, mut elf: Elf<NoSource>) -> Result<Octets, ElfError> {
    match sink(alloc) {
        Ok(sink) => put_into(&mut elf, sink),
        Err(e) => Err(e),
    }
}
