//! Small images that copy changes.

use elf_types::constants::{SHF_ALLOC, SHT_NOBITS, SHT_PROGBITS, SHT_STRTAB};
use elf_types::{NULL_SECTION, Shdr};
use test_kit_images::{Content, Field, HeaderField, ImageStart, Put, Recipe, SectionField, WIDE};

/// The names of the sections.
const NAMES: &[u8] = b"\0.text\0.data\0.bss\0.shstrtab\0";

/// The sections `.text`, `.data`, `.bss` and `.shstrtab`.
const SECTIONS: &[Shdr] = &[
    NULL_SECTION,
    Shdr {
        name: 1,
        stype: SHT_PROGBITS,
        flags: SHF_ALLOC,
        ..NULL_SECTION
    },
    Shdr {
        name: 7,
        stype: SHT_PROGBITS,
        ..NULL_SECTION
    },
    Shdr {
        name: 13,
        stype: SHT_NOBITS,
        flags: SHF_ALLOC,
        size: 16,
        ..NULL_SECTION
    },
    Shdr {
        name: 18,
        stype: SHT_STRTAB,
        ..NULL_SECTION
    },
];

/// An object with these sections.
pub static RELOCATABLE_OBJECT: Recipe = Recipe {
    form: WIDE,
    start: ImageStart::Table(128, 5, 4),
    puts: &[
        Put::Sections(SECTIONS),
        Put::Home(1, Content::Bytes(b"code")),
        Put::Home(2, Content::Bytes(b"data")),
        Put::Home(4, Content::Bytes(NAMES)),
    ],
};

/// A program with them.
pub static EXECUTABLE: Recipe = Recipe {
    form: WIDE,
    start: ImageStart::Table(128, 5, 4),
    puts: &[
        Put::Sections(SECTIONS),
        Put::Home(1, Content::Bytes(b"code")),
        Put::Home(2, Content::Bytes(b"data")),
        Put::Home(4, Content::Bytes(NAMES)),
        Put::Field(Field::Header(HeaderField::Phoff), 64),
        Put::Field(Field::Header(HeaderField::Phentsize), 56),
        Put::Field(Field::Header(HeaderField::Phnum), 1),
    ],
};

/// An object with them, where `.data` links to the names.
pub static LINKED: Recipe = Recipe {
    form: WIDE,
    start: ImageStart::Table(128, 5, 4),
    puts: &[
        Put::Sections(SECTIONS),
        Put::Home(1, Content::Bytes(b"code")),
        Put::Home(2, Content::Bytes(b"data")),
        Put::Home(4, Content::Bytes(NAMES)),
        Put::Field(Field::Section(2, SectionField::Link), 4),
    ],
};
