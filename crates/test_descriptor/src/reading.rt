//! What descriptors read, and what they hold.

use crate::rows::{DescriptorRow, Due, ROW, rows_are_so};
use crate::steps::{DescriptorStep, STRINGS_PIECE, SYMBOLS_PIECE};
use elf_types::constants::{
    SHF_COMPRESSED, SHT_NOBITS, SHT_NULL, SHT_PROGBITS, SHT_REL, SHT_SYMTAB, SHT_SYMTAB_SHNDX,
};
use elf_types::{DataId, ElfError, Kind, Sym};
use test_kit_images::{Field, ImageStart, OBJECT, Put, Recipe, SectionField, WIDE};

/// Five sections.
const FIVE: Recipe = Recipe {
    start: ImageStart::FiveSections,
    ..OBJECT
};

/// The piece of the third.
const THIRD: DataId = DataId {
    section: 3,
    piece: 0,
};

/// The headers of that image.
const FRONT: Due = Due {
    segments: 0,
    sections: 6,
    more: 0,
};

/// The headers of the image, and the eight bytes of a section.
const FRONT_AND_EIGHT: Due = Due { more: 8, ..FRONT };

/// Five sections of which two fields of the third are set: the kind and the number of its items, or
/// the refusal, told twice, and no more bytes are asked for than once.
static KINDS: [DescriptorRow; 9] = [
    DescriptorRow {
        recipe: Recipe {
            puts: &[
                Put::Field(Field::Section(3, SectionField::Type), SHT_PROGBITS as u64),
                Put::Field(Field::Section(3, SectionField::Size), 8),
            ],
            ..FIVE
        },
        steps: &[
            DescriptorStep::Data(THIRD, Ok((Kind::Bytes, 8))),
            DescriptorStep::Data(THIRD, Ok((Kind::Bytes, 8))),
        ],
        due: Some(FRONT_AND_EIGHT),
        ..ROW
    },
    DescriptorRow {
        recipe: Recipe {
            puts: &[
                Put::Field(Field::Section(3, SectionField::Type), SHT_NULL as u64),
                Put::Field(Field::Section(3, SectionField::Size), 7),
            ],
            ..FIVE
        },
        steps: &[
            DescriptorStep::Data(THIRD, Ok((Kind::Empty, 0))),
            DescriptorStep::Data(THIRD, Ok((Kind::Empty, 0))),
        ],
        due: Some(FRONT),
        ..ROW
    },
    DescriptorRow {
        recipe: Recipe {
            puts: &[
                Put::Field(Field::Section(3, SectionField::Type), SHT_NOBITS as u64),
                Put::Field(Field::Section(3, SectionField::Size), 100_000),
            ],
            ..FIVE
        },
        steps: &[
            DescriptorStep::Data(THIRD, Ok((Kind::Empty, 0))),
            DescriptorStep::Data(THIRD, Ok((Kind::Empty, 0))),
        ],
        due: Some(FRONT),
        ..ROW
    },
    DescriptorRow {
        recipe: Recipe {
            puts: &[
                Put::Field(Field::Section(3, SectionField::Offset), 100_000),
                Put::Field(Field::Section(3, SectionField::Size), 0),
            ],
            ..FIVE
        },
        steps: &[
            DescriptorStep::Data(THIRD, Ok((Kind::Bytes, 0))),
            DescriptorStep::Data(THIRD, Ok((Kind::Bytes, 0))),
        ],
        due: Some(FRONT),
        ..ROW
    },
    DescriptorRow {
        recipe: Recipe {
            puts: &[
                Put::Field(Field::Section(3, SectionField::Type), SHT_REL as u64),
                Put::Field(Field::Section(3, SectionField::Size), 7),
            ],
            ..FIVE
        },
        steps: &[
            DescriptorStep::Data(THIRD, Err(ElfError::Ragged { section: 3 })),
            DescriptorStep::Data(THIRD, Err(ElfError::Ragged { section: 3 })),
        ],
        due: Some(FRONT),
        ..ROW
    },
    DescriptorRow {
        recipe: Recipe {
            puts: &[
                Put::Field(Field::Section(3, SectionField::Type), SHT_SYMTAB as u64),
                Put::Field(Field::Section(3, SectionField::Offset), 100_000),
            ],
            ..FIVE
        },
        steps: &[
            DescriptorStep::Data(THIRD, Err(ElfError::OutOfFile { section: 3 })),
            DescriptorStep::Data(THIRD, Err(ElfError::OutOfFile { section: 3 })),
        ],
        due: Some(FRONT),
        ..ROW
    },
    DescriptorRow {
        recipe: Recipe {
            puts: &[
                Put::Field(Field::Section(3, SectionField::Type), SHT_SYMTAB as u64),
                Put::Field(Field::Section(3, SectionField::Flags), SHF_COMPRESSED),
            ],
            ..FIVE
        },
        steps: &[
            DescriptorStep::Data(THIRD, Ok((Kind::Bytes, 8))),
            DescriptorStep::Data(THIRD, Ok((Kind::Bytes, 8))),
        ],
        due: Some(FRONT_AND_EIGHT),
        ..ROW
    },
    DescriptorRow {
        recipe: Recipe {
            puts: &[
                Put::Field(Field::Section(3, SectionField::Type), 0x6000_1234),
                Put::Field(Field::Section(3, SectionField::Entsize), 4),
            ],
            ..FIVE
        },
        steps: &[
            DescriptorStep::Data(THIRD, Ok((Kind::Bytes, 8))),
            DescriptorStep::Data(THIRD, Ok((Kind::Bytes, 8))),
        ],
        due: Some(FRONT_AND_EIGHT),
        ..ROW
    },
    DescriptorRow {
        recipe: Recipe {
            puts: &[
                Put::Field(
                    Field::Section(3, SectionField::Type),
                    SHT_SYMTAB_SHNDX as u64,
                ),
                Put::Field(Field::Section(3, SectionField::Entsize), 4),
            ],
            ..FIVE
        },
        steps: &[
            DescriptorStep::Data(THIRD, Ok((Kind::Word, 2))),
            DescriptorStep::Data(THIRD, Ok((Kind::Word, 2))),
        ],
        due: Some(FRONT_AND_EIGHT),
        ..ROW
    },
];

#[test]
fn sections_of_all_kinds_are_told_or_refused(rt: HostRuntime) {
    assert!(rt; rows_are_so(&rt, &KINDS));
}

/// A section whose first read fails is read again; the first three reads are those of the front.
static REPEATED: [DescriptorRow; 1] = [DescriptorRow {
    recipe: FIVE,
    forms: &[WIDE],
    bad_read: 4,
    steps: &[
        DescriptorStep::Data(THIRD, Err(ElfError::Read)),
        DescriptorStep::Data(THIRD, Ok((Kind::Bytes, 8))),
    ],
    ..ROW
}];

#[test]
fn a_failed_read_is_repeated(rt: HostRuntime) {
    assert!(rt; rows_are_so(&rt, &REPEATED));
}

/// The zero symbol.
const ZERO: Sym = Sym {
    name: 0,
    info: 0,
    other: 0,
    shndx: 0,
    value: 0,
    size: 0,
};

/// The function.
pub const FUNCTION: Sym = Sym {
    name: 1,
    info: 0x12,
    other: 0,
    shndx: 0xfff1,
    value: 0x1000,
    size: 4,
};

/// There are two symbols, a zero one and an absolute function of 4 bytes.
pub const SYMBOL_STEPS: &[DescriptorStep] = &[
    DescriptorStep::FirstTwo(SYMBOLS_PIECE, ZERO, FUNCTION),
    DescriptorStep::Symbol(
        SYMBOLS_PIECE,
        2,
        Err(ElfError::NoEntry { index: 2, count: 2 }),
    ),
    DescriptorStep::Symbol(
        STRINGS_PIECE,
        0,
        Err(ElfError::WrongKind { held: Kind::Bytes }),
    ),
];

/// Symbols; the home of the strings, which is held once it is read, and nothing of another section;
/// and the first base bytes, which are copied.
static HELD: [DescriptorRow; 3] = [
    DescriptorRow {
        steps: SYMBOL_STEPS,
        ..ROW
    },
    DescriptorRow {
        steps: &[
            DescriptorStep::Unread(STRINGS_PIECE, true),
            DescriptorStep::Long(1, Ok((3, 3))),
            DescriptorStep::Held(STRINGS_PIECE, b"\0a\0"),
            DescriptorStep::Unread(SYMBOLS_PIECE, true),
            DescriptorStep::Dirty(false),
        ],
        ..ROW
    },
    DescriptorRow {
        recipe: FIVE,
        steps: &[
            DescriptorStep::Base(*b"\x7fE"),
            DescriptorStep::Unread(STRINGS_PIECE, true),
        ],
        ..ROW
    },
];

#[test]
fn what_is_read_is_told_and_held(rt: HostRuntime) {
    assert!(rt; rows_are_so(&rt, &HELD));
}
