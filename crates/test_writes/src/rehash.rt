//! What rehash leaves: its message, and the file that is made of the image, or none.

use crate::calls::OLD;
use elf_types::constants::{
    SHT_DYNSYM, SHT_GNU_HASH, SHT_GNU_VERSYM, SHT_HASH, SHT_RELA, SHT_STRTAB,
};
use elf_types::{Rela, Shdr, Sym};
use test_kit_images::{
    Content, Field, HeaderField, ImageStart, NULL_SECTION, OBJECT, Put, Recipe, SectionField, WIDE,
};
use test_kit_runs::cases::{Case, HeldAfter, RUN, Stored, are_so, is_so};
use test_kit_runs::{Ending, REFUSED};

/// A run over the object with two symbols, beside the empty file S, which leaves the file O as it
/// was.
const KEPT: Case = Case {
    line: "rehash -o O F",
    file: Stored::Image(OBJECT),
    script: Stored::Bytes(b""),
    held: HeldAfter::Before,
    ..RUN
};

// ---- Nothing to build

/// An image without dynamic symbols.
static UNBUILT: Case = Case {
    ending: Ending {
        err: b"rehash: F: no dynamic hash\n",
        ..REFUSED
    },
    ..KEPT
};

#[test]
fn an_image_without_dynamic_symbols_has_no_dynamic_hash(rt: HostRuntime) {
    assert!(rt; is_so(&rt, &OLD, &UNBUILT));
}

/// A file that is not there, and one that is no image.
static NO_IMAGE: [Case; 2] = [
    Case {
        line: "rehash -o O X",
        ending: Ending {
            err: b"rehash: X: not found\n",
            ..REFUSED
        },
        ..KEPT
    },
    Case {
        line: "rehash -o O S",
        ending: Ending {
            err: b"rehash: S: too short\n",
            ..REFUSED
        },
        ..KEPT
    },
];

#[test]
fn a_file_that_is_not_there_and_one_that_is_no_image_are_refused(rt: HostRuntime) {
    assert!(rt; are_so(&rt, &OLD, &NO_IMAGE));
}

// ---- An object

/// A symbol of zeros.
const ZERO: Sym = Sym {
    name: 0,
    info: 0,
    other: 0,
    shndx: 0,
    value: 0,
    size: 0,
};

/// `a`, which is global and defined.
const A: Sym = Sym {
    name: 1,
    info: 0x10,
    shndx: 0xfff1,
    value: 0x1000,
    ..ZERO
};

/// `x`, which is undefined.
const X: Sym = Sym {
    name: 3,
    info: 0x10,
    ..ZERO
};

/// The strings.
const STRINGS: Shdr = Shdr {
    stype: SHT_STRTAB,
    offset: 64,
    size: 5,
    addralign: 1,
    ..NULL_SECTION
};

/// The dynamic symbols.
const SYMBOLS: Shdr = Shdr {
    stype: SHT_DYNSYM,
    offset: 72,
    size: 72,
    link: 1,
    info: 1,
    addralign: 8,
    entsize: 24,
    ..NULL_SECTION
};

/// The hash section of words.
const WORDS: Shdr = Shdr {
    stype: SHT_HASH,
    offset: 144,
    size: 24,
    link: 2,
    addralign: 8,
    entsize: 4,
    ..NULL_SECTION
};

/// GNU's hash section.
const GNU: Shdr = Shdr {
    stype: SHT_GNU_HASH,
    offset: 168,
    size: 32,
    link: 2,
    addralign: 8,
    ..NULL_SECTION
};

/// Relocations by the symbols.
const RELOCATIONS: Shdr = Shdr {
    stype: SHT_RELA,
    offset: 200,
    size: 24,
    link: 2,
    addralign: 8,
    entsize: 24,
    ..NULL_SECTION
};

/// Versions of the symbols.
const VERSIONS: Shdr = Shdr {
    stype: SHT_GNU_VERSYM,
    entsize: 2,
    ..RELOCATIONS
};

/// A relocation by symbol 1.
const BY_FIRST: Rela = Rela {
    offset: 8,
    sym: 1,
    rtype: 1,
    addend: 0,
};

/// A relocation by symbol 2.
const BY_SECOND: Rela = Rela { sym: 2, ..BY_FIRST };

/// `a` is before the undefined symbol, and both hash sections are too short.
const FILE: Recipe = Recipe {
    form: WIDE,
    start: ImageStart::Table(64, 6, 0),
    puts: &[
        Put::Sections(&[NULL_SECTION, STRINGS, SYMBOLS, WORDS, GNU, RELOCATIONS]),
        Put::Home(1, Content::Bytes(b"\0a\0x\0")),
        Put::Home(2, Content::Syms(&[ZERO, A, X])),
        Put::Home(3, Content::Words(&[1])),
        Put::Home(
            4,
            Content::Bytes(&[1, 0, 0, 0, 0, 0, 0, 0, 1, 0, 0, 0, 6, 0, 0, 0]),
        ),
        Put::Home(5, Content::Relas(&[BY_FIRST])),
    ],
};

/// GNU's hash section of `a`, whose hash is 0x2b606, as symbol 2.
const GNU_OF_A: &[u8] = &[
    1, 0, 0, 0, 2, 0, 0, 0, 1, 0, 0, 0, 6, 0, 0, 0, 0x40, 0, 0, 1, 0, 0, 0, 0, 2, 0, 0, 0, 7, 0xb6,
    2, 0,
];

/// The undefined symbol is first, the relocation names `a` as before, and the parts are one after
/// the other.
const MADE: Recipe = Recipe {
    form: WIDE,
    start: ImageStart::Table(224, 6, 0),
    puts: &[
        Put::Sections(&[NULL_SECTION, STRINGS, SYMBOLS, WORDS, GNU, RELOCATIONS]),
        Put::Bytes(64, b"\0a\0x\0"),
        Put::Content(72, Content::Syms(&[ZERO, X, A])),
        Put::Content(144, Content::Words(&[1, 3, 2, 0, 0, 0])),
        Put::Bytes(168, GNU_OF_A),
        Put::Content(200, Content::Relas(&[BY_SECOND])),
    ],
};

/// What is built of both.
static BUILT: [Case; 2] = [
    Case {
        file: Stored::Image(FILE),
        held: HeldAfter::Now(Stored::Image(MADE)),
        ..KEPT
    },
    Case {
        file: Stored::Image(MADE),
        held: HeldAfter::Now(Stored::Image(MADE)),
        ..KEPT
    },
];

#[test]
fn hash_sections_and_relocations_of_an_object_are_rebuilt(rt: HostRuntime) {
    assert!(rt; are_so(&rt, &OLD, &BUILT));
}

// ---- Refusals of the steps

/// A version for each symbol but one.
const FEW: Recipe = Recipe {
    form: WIDE,
    start: ImageStart::Table(64, 6, 0),
    puts: &[
        Put::Sections(&[NULL_SECTION, STRINGS, SYMBOLS, WORDS, GNU, VERSIONS]),
        Put::Home(1, Content::Bytes(b"\0a\0x\0")),
        Put::Home(2, Content::Syms(&[ZERO, A, X])),
        Put::Home(3, Content::Words(&[1])),
        Put::Home(4, Content::Bytes(&[0; 16])),
        Put::Home(5, Content::Halves(&[0, 1])),
    ],
};

/// GNU's hash section lies out of the file.
const OUT: Recipe = Recipe {
    form: WIDE,
    start: ImageStart::Table(64, 6, 0),
    puts: &[
        Put::Sections(&[NULL_SECTION, STRINGS, SYMBOLS, WORDS, GNU, RELOCATIONS]),
        Put::Home(1, Content::Bytes(b"\0a\0x\0")),
        Put::Home(2, Content::Syms(&[ZERO, A, X])),
        Put::Field(Field::Section(4, SectionField::Offset), 0x1_0000),
    ],
};

/// What is rejected of both.
static UNMADE: [Case; 2] = [
    Case {
        file: Stored::Image(FEW),
        ending: Ending {
            err: b"rehash: F: no entry 2 of 2\n",
            ..REFUSED
        },
        ..KEPT
    },
    Case {
        file: Stored::Image(OUT),
        ending: Ending {
            err: b"rehash: F: section 4 out of file\n",
            ..REFUSED
        },
        ..KEPT
    },
];

#[test]
fn a_refused_step_is_told_and_makes_no_file(rt: HostRuntime) {
    assert!(rt; are_so(&rt, &OLD, &UNMADE));
}

// ---- A program

/// The sections of a program, each after the other. Only GNU's hash section is there.
const PROGRAM_SECTIONS: &[Shdr] = &[NULL_SECTION, STRINGS, SYMBOLS, GNU, RELOCATIONS];

/// A program whose section is as long as it becomes.
const PROGRAM: Recipe = Recipe {
    form: WIDE,
    start: ImageStart::Table(120, 5, 0),
    puts: &[
        Put::Field(Field::Header(HeaderField::Phoff), 64),
        Put::Field(Field::Header(HeaderField::Phentsize), 56),
        Put::Field(Field::Header(HeaderField::Phnum), 1),
        Put::Sections(PROGRAM_SECTIONS),
        Put::Home(1, Content::Bytes(b"\0a\0x\0\0\0\0")),
        Put::Home(2, Content::Syms(&[ZERO, A, X])),
        Put::Home(3, Content::Bytes(&[0; 32])),
        Put::Home(4, Content::Relas(&[BY_FIRST])),
    ],
};

/// Its parts stay where they are.
const PROGRAM_MADE: Recipe = Recipe {
    form: WIDE,
    start: ImageStart::Table(120, 5, 0),
    puts: &[
        Put::Field(Field::Header(HeaderField::Phoff), 64),
        Put::Field(Field::Header(HeaderField::Phentsize), 56),
        Put::Field(Field::Header(HeaderField::Phnum), 1),
        Put::Sections(PROGRAM_SECTIONS),
        Put::Home(1, Content::Bytes(b"\0a\0x\0\0\0\0")),
        Put::Home(2, Content::Syms(&[ZERO, X, A])),
        Put::Home(3, Content::Bytes(GNU_OF_A)),
        Put::Home(4, Content::Relas(&[BY_SECOND])),
    ],
};

/// A program whose section is shorter than it becomes, with another part right after it.
const SHORT: Recipe = Recipe {
    form: WIDE,
    start: ImageStart::Table(120, 5, 0),
    puts: &[
        Put::Field(Field::Header(HeaderField::Phoff), 64),
        Put::Field(Field::Header(HeaderField::Phentsize), 56),
        Put::Field(Field::Header(HeaderField::Phnum), 1),
        Put::Sections(PROGRAM_SECTIONS),
        Put::Home(1, Content::Bytes(b"\0a\0x\0\0\0\0")),
        Put::Home(2, Content::Syms(&[ZERO, A, X])),
        Put::Home(3, Content::Bytes(&[0; 16])),
        Put::Home(4, Content::Relas(&[BY_FIRST])),
    ],
};

/// The program, and what is built of it.
static IN_PLACE: Case = Case {
    file: Stored::Image(PROGRAM),
    held: HeldAfter::Now(Stored::Image(PROGRAM_MADE)),
    ..KEPT
};

#[test]
fn the_parts_of_a_program_stay_where_they_are(rt: HostRuntime) {
    assert!(rt; is_so(&rt, &OLD, &IN_PLACE));
}

/// The shorter one, of which nothing is.
static TOO_LONG: Case = Case {
    file: Stored::Image(SHORT),
    ending: Ending {
        err: b"rehash: F: overlap section 3 section 4\n",
        ..REFUSED
    },
    ..KEPT
};

#[test]
fn a_section_of_a_program_that_grows_into_another_part_is_refused(rt: HostRuntime) {
    assert!(rt; is_so(&rt, &OLD, &TOO_LONG));
}
