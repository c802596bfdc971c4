//! The parts of readelf that its own call shows of a descriptor over a small object.

use elf_types::Dyn;
use test_kit_images::{
    Content, Field, HeaderField, NARROW, NARROW_OBJECT, OBJECT, Put, Recipe, SectionField,
    changed_image, image_of,
};
use test_kit_rows::{failed, in_row, same_bytes};
use test_kit_runs::prelude::ReadelfParts;
use test_kit_runs::readelf_of;

/// No part.
const NONE: ReadelfParts = ReadelfParts {
    header: false,
    segments: false,
    sections: false,
    symbols: false,
    relocations: false,
    dynamic: false,
    notes: false,
    versions: false,
};

/// The section headers.
const SECTIONS: ReadelfParts = ReadelfParts {
    sections: true,
    ..NONE
};

/// The symbol tables.
const SYMBOLS: ReadelfParts = ReadelfParts {
    symbols: true,
    ..NONE
};

/// The dynamic sections.
const DYNAMIC: ReadelfParts = ReadelfParts {
    dynamic: true,
    ..NONE
};

/// Whether this text is shown of an image, and nothing is rejected.
fn shows(rt: &HostRuntime, recipe: &Recipe, parts: &ReadelfParts, text: &[u8]) -> bool {
    match image_of(rt.alloc(), recipe) {
        Ok(image) => match readelf_of(rt.alloc(), image, parts) {
            Ok(said) => said.is(rt, false, text, b""),
            Err(e) => failed(rt, e),
        },
        Err(e) => failed(rt, e),
    }
}

/// The last bytes, so many, or all where there are fewer.
fn last_of(bytes: &[u8], count: usize) -> &[u8] {
    bytes
        .get(bytes.len().saturating_sub(count)..)
        .unwrap_or(bytes)
}

/// Whether the text that is shown of an image ends so.
fn ends_with(rt: &HostRuntime, recipe: &Recipe, parts: &ReadelfParts, end: &[u8]) -> bool {
    match image_of(rt.alloc(), recipe) {
        Ok(image) => match readelf_of(rt.alloc(), image, parts) {
            Ok(said) => same_bytes(rt, last_of(said.out.as_slice(), end.len()), end),
            Err(e) => failed(rt, e),
        },
        Err(e) => failed(rt, e),
    }
}

/// The object with two symbols, whose symbol table is named `a`.
static NAMED: Recipe = Recipe {
    puts: &[Put::Field(Field::Section(2, SectionField::Name), 1)],
    ..OBJECT
};

/// The section headers of that object.
const HEADERS: &[u8] = b"Section headers: 3\n  \
      0 [] NULL flags 0x0 addr 0x0 offset 0x0 size 0x0 link 0 info 0 align 0 entsize 0\n  \
      1 [] STRTAB flags 0x0 addr 0x0 offset 0x40 size 0x3 link 0 info 0 align 1 entsize 0\n  \
      2 [a] SYMTAB flags 0x0 addr 0x0 offset 0x48 size 0x30 link 1 info 1 align 8 entsize 24\n";

/// The object of class 32, the greatest byte first, where the names can not be read and the last
/// section is of a type without a name.
static NAMELESS: Recipe = Recipe {
    form: NARROW,
    puts: &[
        Put::Field(Field::Header(HeaderField::Shstrndx), 0),
        Put::Field(Field::Section(2, SectionField::Type), 0x7000_0001),
    ],
    ..OBJECT
};

/// The last section header of that object of class 32.
const NAMELESS_LINE: &[u8] = b"  2 <none> 0x70000001 flags 0x0 addr 0x0 offset 0x38 size 0x20 \
      link 1 info 1 align 4 entsize 16\n";

#[test]
fn section_headers_are_shown_and_numbers_stand_for_names(rt: HostRuntime) {
    assert!(rt; shows(&rt, &NAMED, &SECTIONS, HEADERS));
    assert!(rt; ends_with(&rt, &NAMELESS, &SECTIONS, NAMELESS_LINE));
}

/// The symbols of an object with two.
const TWO_SYMBOLS: &[u8] = b"Symbols of section 2 []: 2\n  \
      0 value 0x0 size 0 type NOTYPE bind LOCAL vis DEFAULT shndx UND []\n  \
      1 value 0x1000 size 4 type FUNC bind GLOBAL vis DEFAULT shndx ABS [a]\n";

/// The object in class 32, the greatest byte first.
static OBJECT_OF_CLASS_32: Recipe = NARROW_OBJECT;

#[test]
fn symbols_are_shown_alike_in_both_classes(rt: HostRuntime) {
    assert!(rt; shows(&rt, &OBJECT, &SYMBOLS, TWO_SYMBOLS));
    assert!(rt; shows(&rt, &OBJECT_OF_CLASS_32, &SYMBOLS, TWO_SYMBOLS));
}

/// A field of section 2, what is put there, and the line that rejects its symbols.
static REFUSALS: [(SectionField, u64, &[u8]); 3] = [
    (
        SectionField::Offset,
        1 << 63,
        b"readelf: F: section 2 out of file\n",
    ),
    (SectionField::Size, 25, b"readelf: F: section 2 ragged\n"),
    (
        SectionField::Flags,
        0x800,
        b"readelf: F: section 2: compressed\n",
    ),
];

/// Whether the symbols of the object with that field are rejected by that line alone.
fn refuses(rt: &HostRuntime, refusal: &(SectionField, u64, &[u8])) -> bool {
    let (field, value, line) = *refusal;
    match changed_image(
        rt.alloc(),
        &OBJECT,
        &Put::Field(Field::Section(2, field), value),
    ) {
        Ok(image) => match readelf_of(rt.alloc(), image, &SYMBOLS) {
            Ok(said) => said.is(rt, true, b"", line),
            Err(e) => failed(rt, e),
        },
        Err(e) => failed(rt, e),
    }
}

/// Whether the symbols are rejected for each of these fields.
fn refuse(rt: &HostRuntime, refusals: &[(SectionField, u64, &[u8])]) -> bool {
    for (n, refusal) in refusals.iter().enumerate() {
        if !in_row(rt, n, refuses(rt, refusal)) {
            return false;
        }
    }
    true
}

#[test]
fn a_message_stands_in_place_of_symbols(rt: HostRuntime) {
    assert!(rt; refuse(&rt, &REFUSALS));
}

/// The object whose last symbol has an extended index, where section 1 is the table of extended
/// indexes of section 2, which are the first two numbers of it.
static INDEXED: Recipe = Recipe {
    puts: &[
        Put::Field(Field::Section(1, SectionField::Type), 18),
        Put::Field(Field::Section(1, SectionField::Link), 2),
        Put::Field(Field::Section(1, SectionField::Offset), 72),
        Put::Field(Field::Section(1, SectionField::Size), 8),
        Put::Bytes(72 + 24 + 6, b"\xff\xff"),
    ],
    ..OBJECT
};

/// The object whose last symbol has an extended index, without a table of extended indexes.
static UNINDEXED: Recipe = Recipe {
    puts: &[Put::Bytes(72 + 24 + 6, b"\xff\xff")],
    ..OBJECT
};

#[test]
fn extended_indexes_are_followed(rt: HostRuntime) {
    assert!(rt; ends_with(&rt, &INDEXED, &SYMBOLS, b" shndx 0 <none>\n"));
    assert!(rt; ends_with(&rt, &UNINDEXED, &SYMBOLS, b" shndx XINDEX [a]\n"));
}

/// The entries of the object below.
const ENTRIES: &[u8] = b"Dynamic section 2 []: 3\n  \
      0 SONAME [a]\n  1 0xfffffffffffffffe 0x7\n  2 NULL 0x0\n";

/// The object whose section 2 is a dynamic section, which links to the strings: a name, a tag without
/// a name, and the end.
static LINKED: Recipe = Recipe {
    puts: &[
        Put::Field(Field::Section(2, SectionField::Type), 6),
        Put::Content(
            72,
            Content::Dyns(&[
                Dyn { tag: 14, val: 1 },
                Dyn { tag: -2, val: 7 },
                Dyn { tag: 0, val: 0 },
            ]),
        ),
    ],
    ..OBJECT
};

#[test]
fn dynamic_entries_are_shown(rt: HostRuntime) {
    assert!(rt; shows(&rt, &LINKED, &DYNAMIC, ENTRIES));
}
