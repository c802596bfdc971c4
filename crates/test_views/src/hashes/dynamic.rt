//! Images with dynamic symbols that are out of order, both hash sections, and sections whose items
//! go by the symbols.

use crate::hashes::images::{OUT_OF_ORDER, STRINGS};
use elf_types::constants::{
    SHT_DYNSYM, SHT_GNU_HASH, SHT_GNU_VERSYM, SHT_GROUP, SHT_HASH, SHT_REL, SHT_RELA, SHT_STRTAB,
    SHT_SYMTAB_SHNDX,
};
use elf_types::{NULL_SECTION, Rel, Rela, ScnId, Shdr};
use test_kit_images::{Content, Field, ImageStart, Put, Recipe, SectionField, WIDE};

/// The versions of the symbols.
pub const VERSIONS: ScnId = ScnId(5);

/// Relocations with addends.
pub const RELAS: ScnId = ScnId(6);

/// Relocations without.
pub const RELS: ScnId = ScnId(7);

/// A group whose signature is symbol 1.
pub const GROUP: ScnId = ScnId(8);

/// The extended indexes of the symbols.
pub const INDEXES: ScnId = ScnId(9);

/// A section that goes by the symbols.
const BY_SYMBOLS: Shdr = Shdr {
    link: 2,
    ..NULL_SECTION
};

/// The strings, the symbols, both hash sections, and what goes by the symbols.
const SECTIONS: &[Shdr] = &[
    NULL_SECTION,
    Shdr {
        stype: SHT_STRTAB,
        ..NULL_SECTION
    },
    Shdr {
        stype: SHT_DYNSYM,
        link: 1,
        ..NULL_SECTION
    },
    Shdr {
        stype: SHT_HASH,
        ..BY_SYMBOLS
    },
    Shdr {
        stype: SHT_GNU_HASH,
        ..BY_SYMBOLS
    },
    Shdr {
        stype: SHT_GNU_VERSYM,
        ..BY_SYMBOLS
    },
    Shdr {
        stype: SHT_RELA,
        ..BY_SYMBOLS
    },
    Shdr {
        stype: SHT_REL,
        ..BY_SYMBOLS
    },
    Shdr {
        stype: SHT_GROUP,
        info: 1,
        ..BY_SYMBOLS
    },
    Shdr {
        stype: SHT_SYMTAB_SHNDX,
        ..BY_SYMBOLS
    },
];

/// A relocation by symbol 1.
const BY_FIRST: Rela = Rela {
    offset: 8,
    sym: 1,
    rtype: 1,
    addend: -4,
};

/// Relocations by symbols that are there, and by one that is not.
const RELA_ITEMS: &[Rela] = &[
    BY_FIRST,
    Rela { sym: 3, ..BY_FIRST },
    Rela { sym: 7, ..BY_FIRST },
];

/// Relocations without addends by symbols that are there, and by one that is not.
const REL_ITEMS: &[Rel] = &[
    Rel {
        offset: 8,
        sym: 1,
        rtype: 1,
    },
    Rel {
        offset: 8,
        sym: 7,
        rtype: 1,
    },
];

/// How GNU's hash section begins: two buckets and one bloom word, where the least byte is first.
const TWO_BUCKETS: &[u8] = &[2, 0, 0, 0, 0, 0, 0, 0, 1, 0, 0, 0, 6, 0, 0, 0];

/// The image. Its versions and extended indexes are one more than its symbols.
pub static DYNAMIC: Recipe = IMAGE;

const IMAGE: Recipe = Recipe {
    form: WIDE,
    start: ImageStart::Table(64, 10, 0),
    puts: &[
        Put::Sections(SECTIONS),
        Put::Home(1, Content::Bytes(STRINGS)),
        Put::Home(2, Content::Syms(OUT_OF_ORDER)),
        Put::Home(3, Content::Words(&[2])),
        Put::Home(4, Content::Bytes(TWO_BUCKETS)),
        Put::Home(5, Content::Halves(&[0, 1, 2, 3, 4, 9])),
        Put::Home(6, Content::Relas(RELA_ITEMS)),
        Put::Home(7, Content::Rels(REL_ITEMS)),
        Put::Home(8, Content::Words(&[1])),
        Put::Home(9, Content::Words(&[10, 11, 12, 13, 14, 15])),
    ],
};

/// Fewer versions than symbols.
pub static FEW_VERSIONS: Recipe = Recipe {
    puts: &[
        Put::Sections(SECTIONS),
        Put::Home(1, Content::Bytes(STRINGS)),
        Put::Home(2, Content::Syms(OUT_OF_ORDER)),
        Put::Home(4, Content::Bytes(TWO_BUCKETS)),
        Put::Home(5, Content::Halves(&[0, 1, 2])),
        Put::Home(9, Content::Words(&[1])),
    ],
    ..IMAGE
};

/// Fewer extended indexes than symbols.
pub static FEW_INDEXES: Recipe = Recipe {
    puts: &[
        Put::Sections(SECTIONS),
        Put::Home(1, Content::Bytes(STRINGS)),
        Put::Home(2, Content::Syms(OUT_OF_ORDER)),
        Put::Home(4, Content::Bytes(TWO_BUCKETS)),
        Put::Home(5, Content::Halves(&[0, 1, 2, 3, 4])),
        Put::Home(9, Content::Words(&[1])),
    ],
    ..IMAGE
};

/// A table of symbols that is no whole number of them.
pub static RAGGED: Recipe = Recipe {
    puts: &[
        Put::Sections(SECTIONS),
        Put::Home(1, Content::Bytes(STRINGS)),
        Put::Home(2, Content::Syms(OUT_OF_ORDER)),
        Put::Home(4, Content::Bytes(TWO_BUCKETS)),
        Put::Field(Field::Section(2, SectionField::Size), 5 * 24 - 1),
    ],
    ..IMAGE
};

/// GNU's hash section lies out of the file, and the table of symbols is ragged.
pub static OUT: Recipe = Recipe {
    puts: &[
        Put::Sections(SECTIONS),
        Put::Home(1, Content::Bytes(STRINGS)),
        Put::Home(2, Content::Syms(OUT_OF_ORDER)),
        Put::Home(4, Content::Bytes(TWO_BUCKETS)),
        Put::Field(Field::Section(2, SectionField::Size), 5 * 24 - 1),
        Put::Field(Field::Section(4, SectionField::Offset), 0x100_0000),
    ],
    ..IMAGE
};

/// Relocations that are no whole number of them.
pub static RAGGED_RELOCATIONS: Recipe = Recipe {
    puts: &[
        Put::Sections(SECTIONS),
        Put::Home(1, Content::Bytes(STRINGS)),
        Put::Home(2, Content::Syms(OUT_OF_ORDER)),
        Put::Home(4, Content::Bytes(TWO_BUCKETS)),
        Put::Home(5, Content::Halves(&[0, 1, 2, 3, 4])),
        Put::Home(6, Content::Bytes(&[0; 25])),
    ],
    ..IMAGE
};

/// Both hash sections link to the strings.
pub static OTHER_LINKS: Recipe = Recipe {
    puts: &[
        Put::Sections(SECTIONS),
        Put::Home(1, Content::Bytes(STRINGS)),
        Put::Home(2, Content::Syms(OUT_OF_ORDER)),
        Put::Field(Field::Section(3, SectionField::Link), 1),
        Put::Field(Field::Section(4, SectionField::Link), 1),
    ],
    ..IMAGE
};

/// GNU's hash section links to the strings, and that of words to the symbols.
pub static WORDS_ALONE: Recipe = Recipe {
    puts: &[
        Put::Sections(SECTIONS),
        Put::Home(1, Content::Bytes(STRINGS)),
        Put::Home(2, Content::Syms(OUT_OF_ORDER)),
        Put::Home(3, Content::Words(&[2])),
        Put::Home(5, Content::Halves(&[0, 1, 2])),
        Put::Field(Field::Section(4, SectionField::Link), 1),
    ],
    ..IMAGE
};
