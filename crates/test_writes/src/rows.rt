//! A symbol table of more symbols than strip reads at a time, with their extended indexes.

use elf_types::constants::{SHF_ALLOC, SHT_PROGBITS, SHT_STRTAB, SHT_SYMTAB, SHT_SYMTAB_SHNDX};
use elf_types::{ElfError, Shdr, Sym, Syms, Words};
use elf_xlate::Items;
use std::alloc::Global;
use test_kit_images::{BuiltImage, ImageStart, NULL_SECTION, Put, Recipe, WIDE, image_of};
use test_kit_rows::{failed, other};
use test_kit_runs::{DONE, NOTHING, run_leaving, same_file};

/// How many symbols there are: those of two readings and of a part of a third.
const COUNT: u32 = 5_000;

/// Debug data, which goes.
const DEBUG: Shdr = Shdr {
    name: 1,
    stype: SHT_PROGBITS,
    offset: 448,
    size: 2,
    addralign: 1,
    ..NULL_SECTION
};

/// A section that stays.
const TEXT: Shdr = Shdr {
    name: 13,
    stype: SHT_PROGBITS,
    flags: SHF_ALLOC,
    offset: 450,
    size: 2,
    addralign: 1,
    ..NULL_SECTION
};

/// The symbols.
const SYMBOLS: Shdr = Shdr {
    stype: SHT_SYMTAB,
    offset: 456,
    size: 120_000,
    addralign: 8,
    entsize: 24,
    ..NULL_SECTION
};

/// The extended indexes of the symbols.
const INDEXES: Shdr = Shdr {
    stype: SHT_SYMTAB_SHNDX,
    offset: 120_456,
    size: 20_000,
    link: 3,
    addralign: 4,
    entsize: 4,
    ..NULL_SECTION
};

/// The names.
const NAMES: Shdr = Shdr {
    stype: SHT_STRTAB,
    offset: 140_456,
    size: 19,
    addralign: 1,
    ..NULL_SECTION
};

/// An object with these sections, but for the symbols and their extended indexes.
static OBJECT: Recipe = Recipe {
    form: WIDE,
    start: ImageStart::Table(64, 6, 5),
    puts: &[
        Put::Sections(&[NULL_SECTION, DEBUG, TEXT, SYMBOLS, INDEXES, NAMES]),
        Put::Bytes(448, b"aabb"),
        Put::Bytes(140_456, b"\0.debug_info\0.text\0"),
    ],
};

/// What is left of it, but for the same.
static LEFT: Recipe = Recipe {
    form: WIDE,
    start: ImageStart::Table(140_080, 5, 4),
    puts: &[
        Put::Bytes(64, b"bb"),
        Put::Bytes(140_072, b"\0.text\0"),
        Put::Sections(&[
            NULL_SECTION,
            Shdr {
                name: 1,
                offset: 64,
                ..TEXT
            },
            Shdr {
                offset: 72,
                ..SYMBOLS
            },
            Shdr {
                offset: 120_072,
                link: 2,
                ..INDEXES
            },
            Shdr {
                offset: 140_072,
                size: 7,
                ..NAMES
            },
        ]),
    ],
};

/// The section index, the value and the extended index of a symbol, and what they become. One in
/// four is in the section that goes, one in the other, one in that by its extended index, and one
/// in none.
static ROWS: [((u16, u64, u32), (u16, u64, u32)); 4] = [
    ((1, 7, 0), (0, 0, 0)),
    ((2, 7, 0), (1, 7, 0)),
    ((0xffff, 7, 2), (1, 7, 0)),
    ((0xfff1, 7, 0), (0xfff1, 7, 0)),
];

/// The row of a symbol, as it is or as it becomes.
fn row_of(i: u32, left: bool) -> (u16, u64, u32) {
    let row = ROWS[(i % 4) as usize];
    if left { row.1 } else { row.0 }
}

/// Puts the symbols and their extended indexes into lists.
fn fill(left: bool, syms: &mut Syms, words: &mut Words) -> Result<(), ElfError> {
    for i in 0..COUNT {
        let (shndx, value, word) = row_of(i, left);
        syms.push(Sym {
            name: i,
            info: 0,
            other: 0,
            shndx,
            value,
            size: 1,
        })?;
        words.push(word)?;
    }
    Ok(())
}

/// Puts lists at two places.
fn put_both(
    image: &mut BuiltImage,
    lists: &(Items, Items),
    at: (u64, u64),
) -> Result<(), ElfError> {
    image.put_items(at.0, &lists.0)?;
    image.put_items(at.1, &lists.1)
}

/// Puts the symbols and their extended indexes at two places.
fn put_lists(image: &mut BuiltImage, left: bool, at: (u64, u64)) -> Result<(), ElfError> {
    let mut syms = Syms::new(image.alloc);
    let mut words = Words::new(image.alloc);
    match fill(left, &mut syms, &mut words) {
        Ok(()) => put_both(image, &(Items::Sym(syms), Items::Word(words)), at),
        Err(e) => Err(e),
    }
}

/// The image of a recipe with them.
fn image_with(alloc: Global, recipe: &Recipe, left: bool, at: (u64, u64)) -> Option<BuiltImage> {
    let Ok(mut image) = image_of(alloc, recipe) else {
        return None;
    };
    match put_lists(&mut image, left, at) {
        Ok(()) => Some(image),
        Err(_) => None,
    }
}

/// Whether strip leaves these bytes of an image.
fn leaves(rt: &HostRuntime, given: &BuiltImage, made: &[u8]) -> bool {
    match run_leaving(rt.alloc(), "strip -g -o O F", given, NOTHING, "O") {
        Ok(left) => match &left.held {
            Some(held) => left.ran.is(rt, &DONE) && same_file(rt, held.as_slice(), made),
            None => other(rt, &"no file", "an image"),
        },
        Err(e) => failed(rt, e),
    }
}

/// Whether strip leaves the image that it should.
fn is_left(rt: &HostRuntime) -> bool {
    let Some(given) = image_with(rt.alloc(), &OBJECT, false, (456, 120_456)) else {
        return other(rt, &"no memory", "the image that is given");
    };
    match image_with(rt.alloc(), &LEFT, true, (72, 120_072)) {
        Some(made) => leaves(rt, &given, made.bytes.as_slice()),
        None => other(rt, &"no memory", "the image that is left"),
    }
}

#[test]
fn each_symbol_follows_in_a_table_of_many(rt: HostRuntime) {
    assert!(rt; is_left(&rt));
}
