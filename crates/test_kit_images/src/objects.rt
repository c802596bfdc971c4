//! Small images of all forms.

use crate::fields::{Field, HeaderField, SectionField};
use crate::image::{BuiltImage, unfit_error};
use elf_types::constants::{
    EV_CURRENT, PN_XNUM, SHN_ABS, SHN_XINDEX, SHT_PROGBITS, SHT_STRTAB, SHT_SYMTAB, STB_GLOBAL,
};
use elf_types::{Class, Ehdr, ElfError, Kind, NULL_SECTION, Order, Part, Phdr, Shdr, Sym, Syms};
use elf_xlate::{Items, ehdr_size, item_size, phdr_size, shdr_size};
use std::alloc::Global;

/// The two classes, each in both orders.
pub const FORMS: [(Class, Order); 4] = [
    (Class::C32, Order::Least),
    (Class::C32, Order::Greatest),
    (Class::C64, Order::Least),
    (Class::C64, Order::Greatest),
];

/// `e_type` of a relocatable file.
pub const ET_REL: u16 = 1;
/// `e_type` of an executable file.
pub const ET_EXEC: u16 = 2;
/// `e_machine` of the AMD x86-64 architecture.
pub const EM_X86_64: u16 = 62;

/// The type of a symbol for a function, `STT_FUNC`.
const STT_FUNC: u8 = 2;

/// A program header of zeros.
const NULL_SEGMENT: Phdr = Phdr {
    ptype: 0,
    flags: 0,
    offset: 0,
    vaddr: 0,
    paddr: 0,
    filesz: 0,
    memsz: 0,
    align: 0,
};

/// A symbol of zeros.
const NULL_SYMBOL: Sym = Sym {
    name: 0,
    info: 0,
    other: 0,
    shndx: 0,
    value: 0,
    size: 0,
};

/// The header of an x86-64 object that has no table.
pub fn header_of(class: Class, order: Order) -> Ehdr {
    Ehdr {
        class,
        order,
        osabi: 0,
        abiversion: 0,
        etype: ET_REL,
        machine: EM_X86_64,
        version: EV_CURRENT,
        entry: 0,
        phoff: 0,
        shoff: 0,
        flags: 0,
        ehsize: ehdr_size(class) as u16,
        phentsize: 0,
        phnum: 0,
        shentsize: 0,
        shnum: 0,
        shstrndx: 0,
    }
}

/// The header of an x86-64 object with a table of so many section headers at a place.
fn with_table(class: Class, order: Order, shoff: u64, shnum: u32) -> Ehdr {
    Ehdr {
        shoff,
        shentsize: shdr_size(class) as u16,
        shnum,
        ..header_of(class, order)
    }
}

/// The header of an x86-64 object with a table of section headers, where the section with a number
/// holds the names.
pub fn with_names(form: (Class, Order), shoff: u64, shnum: u32, shstrndx: u32) -> Ehdr {
    Ehdr {
        shstrndx,
        ..with_table(form.0, form.1, shoff, shnum)
    }
}

/// An executable that is a header alone; its entry is 0x401000.
pub fn header_alone(alloc: Global, class: Class, order: Order) -> Result<BuiltImage, ElfError> {
    let header = Ehdr {
        etype: ET_EXEC,
        entry: 0x40_1000,
        ..header_of(class, order)
    };
    BuiltImage::new(alloc, header, [0; 7])
}

/// An image, once its parts are put, or why they were not.
pub fn filled(image: BuiltImage, put: Result<(), ElfError>) -> Result<BuiltImage, ElfError> {
    match put {
        Ok(()) => Ok(image),
        Err(e) => Err(e),
    }
}

/// Puts these program headers, the first as number 0.
fn put_segments(image: &mut BuiltImage, segments: &[Phdr]) -> Result<(), ElfError> {
    for (i, segment) in segments.iter().enumerate() {
        image.put_segment(i as u64, segment)?;
    }
    Ok(())
}

/// An executable with these program headers after its header, and nothing else. It fails with
/// `Memory`, and `Unfit` for a program header that does not fit the class and for more than 65,535
/// of them.
pub fn with_segments(
    alloc: Global,
    class: Class,
    order: Order,
    segments: &[Phdr],
) -> Result<BuiltImage, ElfError> {
    let Ok(phnum) = u16::try_from(segments.len()) else {
        return Err(unfit_error(Part::Header, 0));
    };
    let header = Ehdr {
        etype: ET_EXEC,
        phoff: ehdr_size(class) as u64,
        phentsize: phdr_size(class) as u16,
        phnum: u32::from(phnum),
        ..header_of(class, order)
    };
    let mut image = BuiltImage::new(alloc, header, [0; 7])?;
    let put = put_segments(&mut image, segments);
    filled(image, put)
}

/// The symbols of [`symbol_object`]: a zero symbol, and an absolute function of 4 bytes at 0x1000.
const TWO_SYMBOLS: [Sym; 2] = [
    NULL_SYMBOL,
    Sym {
        name: 1,
        info: STB_GLOBAL * 16 + STT_FUNC,
        shndx: SHN_ABS as u16,
        value: 0x1000,
        size: 4,
        ..NULL_SYMBOL
    },
];

/// Puts those symbols at a place.
fn put_two_symbols(image: &mut BuiltImage, alloc: Global, at: u64) -> Result<(), ElfError> {
    let symbols = Items::Sym(Syms::from_slice(alloc, &TWO_SYMBOLS)?);
    image.put_items(at, &symbols)
}

/// The header of the string table of [`symbol_object`].
fn strings_at(offset: u64) -> Shdr {
    Shdr {
        stype: SHT_STRTAB,
        offset,
        size: 3,
        addralign: 1,
        ..NULL_SECTION
    }
}

/// The header of its symbol table.
fn symbols_at(class: Class, offset: u64) -> Shdr {
    let entsize = item_size(Kind::Sym, class);
    Shdr {
        stype: SHT_SYMTAB,
        offset,
        size: 2 * entsize,
        link: 1,
        info: 1,
        addralign: item_size(Kind::Addr, class),
        entsize,
        ..NULL_SECTION
    }
}

/// Puts its three section headers.
fn put_headers(image: &mut BuiltImage, strings: &Shdr, symbols: &Shdr) -> Result<(), ElfError> {
    image.put_section(0, &NULL_SECTION)?;
    image.put_section(1, strings)?;
    image.put_section(2, symbols)
}

/// Puts its two sections.
fn put_strings_and_symbols(
    image: &mut BuiltImage,
    alloc: Global,
    strings: &Shdr,
    symbols: &Shdr,
) -> Result<(), ElfError> {
    image.put_bytes(strings.offset, b"\0a\0")?;
    put_two_symbols(image, alloc, symbols.offset)?;
    put_headers(image, strings, symbols)
}

/// An object with a string table, section 1, which holds the name `a` at 1 and is the table of the
/// sections' names, and a symbol table of two symbols, section 2. Its table of section headers ends
/// the image.
pub fn symbol_object(alloc: Global, class: Class, order: Order) -> Result<BuiltImage, ElfError> {
    let start = ehdr_size(class) as u64;
    let strings = strings_at(start);
    let symbols = symbols_at(class, start.saturating_add(item_size(Kind::Addr, class)));
    let header = Ehdr {
        shstrndx: 1,
        ..with_table(class, order, symbols.offset.saturating_add(symbols.size), 3)
    };
    let mut image = BuiltImage::new(alloc, header, [0; 7])?;
    let put = put_strings_and_symbols(&mut image, alloc, &strings, &symbols);
    filled(image, put)
}

/// Puts a section of eight bytes that are its number, at a multiple of 8 after that place, and its
/// header.
fn put_numbered(image: &mut BuiltImage, start: u64, number: u8) -> Result<(), ElfError> {
    let offset = start.saturating_add(8 * u64::from(number.saturating_sub(1)));
    image.put_bytes(offset, &[number; 8])?;
    let section = Shdr {
        stype: SHT_PROGBITS,
        offset,
        size: 8,
        addralign: 8,
        ..NULL_SECTION
    };
    image.put_section(u64::from(number), &section)
}

/// Puts section 0 and five such sections.
fn put_five(image: &mut BuiltImage, start: u64) -> Result<(), ElfError> {
    image.put_section(0, &NULL_SECTION)?;
    for number in 1..6u8 {
        put_numbered(image, start, number)?;
    }
    Ok(())
}

/// An object with sections 1 to 5, each of eight bytes that are the section's number, one after the
/// other at multiples of 8. Its table of section headers ends the image, and no section holds
/// names.
pub fn five_sections(alloc: Global, class: Class, order: Order) -> Result<BuiltImage, ElfError> {
    let start = (ehdr_size(class) as u64).next_multiple_of(8);
    let header = with_table(class, order, start + 40, 6);
    let mut image = BuiltImage::new(alloc, header, [0; 7])?;
    let put = put_five(&mut image, start);
    filled(image, put)
}

/// Puts program header 1 and section header 2, of zeros.
fn put_last_headers(image: &mut BuiltImage) -> Result<(), ElfError> {
    image.put_segment(1, &NULL_SEGMENT)?;
    image.put_section(2, &NULL_SECTION)
}

/// An image with two program headers at 64 and three section headers at 192, all of zeros, at its
/// end. Section 1 is named as the one of the names.
pub fn two_tables(alloc: Global, class: Class, order: Order) -> Result<BuiltImage, ElfError> {
    let header = Ehdr {
        osabi: 3,
        abiversion: 1,
        phoff: 64,
        phentsize: phdr_size(class) as u16,
        phnum: 2,
        shstrndx: 1,
        ..with_table(class, order, 192, 3)
    };
    let mut image = BuiltImage::new(alloc, header, *b"padding")?;
    let put = put_last_headers(&mut image);
    filled(image, put)
}

/// The image with two tables, with the counts of both in section 0, and the string index 70,000.
pub fn numbers_in_section_0(
    alloc: Global,
    class: Class,
    order: Order,
) -> Result<BuiltImage, ElfError> {
    let mut image = two_tables(alloc, class, order)?;
    image.put_field(Field::Header(HeaderField::Phnum), u64::from(PN_XNUM));
    image.put_field(Field::Header(HeaderField::Shnum), 0);
    image.put_field(Field::Header(HeaderField::Shstrndx), u64::from(SHN_XINDEX));
    image.put_field(Field::Section(0, SectionField::Size), 3);
    image.put_field(Field::Section(0, SectionField::Link), 70_000);
    image.put_field(Field::Section(0, SectionField::Info), 2);
    Ok(image)
}
