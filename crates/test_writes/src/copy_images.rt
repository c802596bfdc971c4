//! Images that copy is run over and that it makes, in tests.

use elf_types::constants::{SHF_ALLOC, SHT_NOBITS, SHT_PROGBITS, SHT_STRTAB, SHT_SYMTAB};
use elf_types::{Shdr, Sym};
use test_kit_images::{
    Content, Field, HeaderField, ImageStart, NARROW, NULL_SECTION, OBJECT, Put, Recipe,
    SectionField, WIDE,
};

/// A symbol of zeros.
const ZERO: Sym = Sym {
    name: 0,
    info: 0,
    other: 0,
    shndx: 0,
    value: 0,
    size: 0,
};

/// An absolute function of four bytes, whose name is `a` in the object with two symbols.
const FUNCTION: Sym = Sym {
    name: 1,
    info: 0x12,
    shndx: 0xfff1,
    value: 0x1000,
    size: 4,
    ..ZERO
};

/// The object with two symbols, in which no section links to the table of the names.
pub const UNLINKED: Recipe = Recipe {
    puts: &[Put::Field(Field::Section(2, SectionField::Link), 0)],
    ..OBJECT
};

/// The object in which no section links to the table of the names, in class 32, the greatest byte
/// first.
pub const NARROW_UNLINKED: Recipe = Recipe {
    form: NARROW,
    ..UNLINKED
};

/// A string table.
const NAMES: Shdr = Shdr {
    stype: SHT_STRTAB,
    addralign: 1,
    ..NULL_SECTION
};

/// A section of bytes.
const BYTES: Shdr = Shdr {
    stype: SHT_PROGBITS,
    addralign: 1,
    ..NULL_SECTION
};

/// The sections of that object with another one.
const WIDE_ADDED: &[Shdr] = &[
    NULL_SECTION,
    Shdr {
        offset: 64,
        size: 4,
        ..NAMES
    },
    Shdr {
        stype: SHT_SYMTAB,
        offset: 72,
        size: 48,
        info: 1,
        addralign: 8,
        entsize: 24,
        ..NULL_SECTION
    },
    Shdr {
        name: 1,
        offset: 120,
        size: 2,
        ..BYTES
    },
];

/// The object with a section `.x` of two bytes, whose name is in the table of the names, and with
/// its table of section headers after it.
pub const ADDED: Recipe = Recipe {
    form: WIDE,
    start: ImageStart::Table(128, 4, 1),
    puts: &[
        Put::Sections(WIDE_ADDED),
        Put::Bytes(64, b"\0.x\0"),
        Put::Content(72, Content::Syms(&[ZERO, FUNCTION])),
        Put::Bytes(120, b"hi"),
    ],
};

/// The sections of the object of class 32 with another one.
const NARROW_SECTIONS: &[Shdr] = &[
    NULL_SECTION,
    Shdr {
        offset: 52,
        size: 4,
        ..NAMES
    },
    Shdr {
        stype: SHT_SYMTAB,
        offset: 56,
        size: 32,
        info: 1,
        addralign: 4,
        entsize: 16,
        ..NULL_SECTION
    },
    Shdr {
        name: 1,
        offset: 88,
        size: 2,
        ..BYTES
    },
];

/// The object with another section, in class 32.
pub const NARROW_ADDED: Recipe = Recipe {
    form: NARROW,
    start: ImageStart::Table(92, 4, 1),
    puts: &[
        Put::Sections(NARROW_SECTIONS),
        Put::Bytes(52, b"\0.x\0"),
        Put::Content(56, Content::Syms(&[ZERO, FUNCTION])),
        Put::Bytes(88, b"hi"),
    ],
};

/// A section without bytes in the file.
const NO_BYTES: Shdr = Shdr {
    stype: SHT_NOBITS,
    size: 16,
    addralign: 1,
    ..NULL_SECTION
};

/// An object with the sections `.names`, `.one`, `.two` and `.bss`, the first of which holds the
/// names.
pub const NAMED: Recipe = Recipe {
    form: WIDE,
    start: ImageStart::Table(64, 5, 1),
    puts: &[
        Put::Sections(&[
            NULL_SECTION,
            Shdr { name: 1, ..NAMES },
            Shdr { name: 8, ..BYTES },
            Shdr { name: 13, ..BYTES },
            Shdr {
                name: 18,
                ..NO_BYTES
            },
        ]),
        Put::Home(1, Content::Bytes(b"\0.names\0.one\0.two\0.bss\0")),
        Put::Home(2, Content::Bytes(b"aaaa")),
        Put::Home(3, Content::Bytes(b"bbbb")),
    ],
};

/// The named sections without `.two`: `.one` is `.uno`, with two bytes and flags, and the sections
/// `.x`, of two bytes, and `.y`, of none, are added.
pub const CHANGED: Recipe = Recipe {
    form: WIDE,
    start: ImageStart::Table(96, 6, 1),
    puts: &[
        Put::Sections(&[
            NULL_SECTION,
            Shdr {
                name: 1,
                offset: 64,
                size: 24,
                ..NAMES
            },
            Shdr {
                name: 8,
                flags: 4,
                offset: 88,
                size: 2,
                ..BYTES
            },
            Shdr {
                name: 13,
                offset: 90,
                ..NO_BYTES
            },
            Shdr {
                name: 18,
                offset: 90,
                size: 2,
                ..BYTES
            },
            Shdr {
                name: 21,
                offset: 92,
                ..BYTES
            },
        ]),
        Put::Bytes(64, b"\0.names\0.uno\0.bss\0.x\0.y\0"),
        Put::Bytes(88, b"hihi"),
    ],
};

/// The sections of a program: `.text`, which is loaded, `.names` and `.data`.
const PROGRAM_SECTIONS: &[Shdr] = &[
    NULL_SECTION,
    Shdr {
        name: 1,
        flags: SHF_ALLOC,
        offset: 120,
        size: 4,
        ..BYTES
    },
    Shdr {
        name: 7,
        offset: 124,
        size: 20,
        ..NAMES
    },
    Shdr {
        name: 14,
        offset: 144,
        size: 2,
        ..BYTES
    },
];

/// A program with a segment of zeros, `.text`, `.names` and `.data`.
pub const PROGRAM: Recipe = Recipe {
    form: WIDE,
    start: ImageStart::Table(152, 4, 2),
    puts: &[
        Put::Field(Field::Header(HeaderField::Phoff), 64),
        Put::Field(Field::Header(HeaderField::Phentsize), 56),
        Put::Field(Field::Header(HeaderField::Phnum), 1),
        Put::Sections(PROGRAM_SECTIONS),
        Put::Bytes(120, b"text\0.text\0.names\0.data\0da"),
    ],
};

/// The program with other bytes in `.text` and `.data`.
pub const PROGRAM_CHANGED: Recipe = Recipe {
    form: WIDE,
    start: ImageStart::Table(152, 4, 2),
    puts: &[
        Put::Field(Field::Header(HeaderField::Phoff), 64),
        Put::Field(Field::Header(HeaderField::Phentsize), 56),
        Put::Field(Field::Header(HeaderField::Phnum), 1),
        Put::Sections(PROGRAM_SECTIONS),
        Put::Bytes(120, b"wxyz\0.text\0.names\0.data\0hi"),
    ],
};
