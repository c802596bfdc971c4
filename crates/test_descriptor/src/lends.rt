//! A list of each kind is lent and changed, and then one of its items is stored.

use crate::rows::{DescriptorRow, ROW, rows_are_so};
use crate::steps::{DescriptorStep, Lending};
use elf_types::constants::{
    SHT_DYNAMIC, SHT_GNU_VERSYM, SHT_INIT_ARRAY, SHT_PROGBITS, SHT_REL, SHT_RELA, SHT_SYMTAB,
    SHT_SYMTAB_SHNDX,
};
use elf_types::{Dyn, Rel, Rela, Sym};
use test_kit_images::{Content, Field, ImageStart, OBJECT, Put, Recipe, SectionField};

/// Five sections.
const FIVE: Recipe = Recipe {
    start: ImageStart::FiveSections,
    ..OBJECT
};

/// Five sections of which the first holds one number, and what is appended to it and then stored.
static NUMBERS: [DescriptorRow; 4] = [
    DescriptorRow {
        recipe: Recipe {
            puts: &[
                Put::Field(Field::Section(1, SectionField::Type), SHT_PROGBITS as u64),
                Put::Home(1, Content::Bytes(&[1])),
            ],
            ..FIVE
        },
        steps: &[DescriptorStep::Lent(Lending::Byte(9))],
        ..ROW
    },
    DescriptorRow {
        recipe: Recipe {
            puts: &[
                Put::Field(Field::Section(1, SectionField::Type), SHT_GNU_VERSYM as u64),
                Put::Home(1, Content::Halves(&[1])),
            ],
            ..FIVE
        },
        steps: &[DescriptorStep::Lent(Lending::Half(7, 8))],
        ..ROW
    },
    DescriptorRow {
        recipe: Recipe {
            puts: &[
                Put::Field(
                    Field::Section(1, SectionField::Type),
                    SHT_SYMTAB_SHNDX as u64,
                ),
                Put::Home(1, Content::Words(&[1])),
            ],
            ..FIVE
        },
        steps: &[DescriptorStep::Lent(Lending::Word(7, 8))],
        ..ROW
    },
    DescriptorRow {
        recipe: Recipe {
            puts: &[
                Put::Field(Field::Section(1, SectionField::Type), SHT_INIT_ARRAY as u64),
                Put::Home(1, Content::Addrs(&[1])),
            ],
            ..FIVE
        },
        steps: &[DescriptorStep::Lent(Lending::Addr(7, 8))],
        ..ROW
    },
];

#[test]
fn numbers_are_lent_and_stored(rt: HostRuntime) {
    assert!(rt; rows_are_so(&rt, &NUMBERS));
}

/// A symbol.
const SYMBOL: Sym = Sym {
    name: 1,
    info: 18,
    other: 0,
    shndx: 2,
    value: 7,
    size: 4,
};

/// A relocation.
const RELOCATION: Rel = Rel {
    offset: 7,
    sym: 1,
    rtype: 2,
};

/// A relocation with an addend.
const ADDING: Rela = Rela {
    offset: 1,
    sym: 2,
    rtype: 3,
    addend: -7,
};

/// An entry of a dynamic section.
const ENTRY: Dyn = Dyn { tag: -1, val: 7 };

/// Five sections of which the first holds one record, and what is appended to it and then stored.
static RECORDS: [DescriptorRow; 4] = [
    DescriptorRow {
        recipe: Recipe {
            puts: &[
                Put::Field(Field::Section(1, SectionField::Type), SHT_SYMTAB as u64),
                Put::Home(1, Content::Syms(&[SYMBOL])),
            ],
            ..FIVE
        },
        steps: &[DescriptorStep::Lent(Lending::Sym(SYMBOL, Sym { value: 8, ..SYMBOL }))],
        ..ROW
    },
    DescriptorRow {
        recipe: Recipe {
            puts: &[
                Put::Field(Field::Section(1, SectionField::Type), SHT_REL as u64),
                Put::Home(1, Content::Rels(&[RELOCATION])),
            ],
            ..FIVE
        },
        steps: &[DescriptorStep::Lent(Lending::Rel(
            RELOCATION,
            Rel {
                offset: 8,
                ..RELOCATION
            },
        ))],
        ..ROW
    },
    DescriptorRow {
        recipe: Recipe {
            puts: &[
                Put::Field(Field::Section(1, SectionField::Type), SHT_RELA as u64),
                Put::Home(1, Content::Relas(&[ADDING])),
            ],
            ..FIVE
        },
        steps: &[DescriptorStep::Lent(Lending::Rela(
            ADDING,
            Rela {
                addend: 8,
                ..ADDING
            },
        ))],
        ..ROW
    },
    DescriptorRow {
        recipe: Recipe {
            puts: &[
                Put::Field(Field::Section(1, SectionField::Type), SHT_DYNAMIC as u64),
                Put::Home(1, Content::Dyns(&[ENTRY])),
            ],
            ..FIVE
        },
        steps: &[DescriptorStep::Lent(Lending::Dyn(ENTRY, Dyn { val: 8, ..ENTRY }))],
        ..ROW
    },
];

#[test]
fn records_are_lent_and_stored(rt: HostRuntime) {
    assert!(rt; rows_are_so(&rt, &RECORDS));
}
