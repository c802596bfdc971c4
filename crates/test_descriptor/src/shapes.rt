//! Objects with two symbols of which some fields are set.

use crate::rows::{DescriptorRow, ROW, rows_are_so};
use crate::steps::{Change, DescriptorStep, SYMBOLS_PIECE};
use elf_types::constants::{SHN_XINDEX, SHT_PROGBITS};
use elf_types::{ElfError, Kind};
use test_kit_images::{Field, HeaderField, OBJECT, Put, Recipe, SectionField, WIDE};

/// There are three sections, and section 1 holds their names: both are in section 0.
pub const COUNTS: Recipe = Recipe {
    puts: &[
        Put::Field(Field::Header(HeaderField::Shnum), 0),
        Put::Field(Field::Header(HeaderField::Shstrndx), SHN_XINDEX as u64),
        Put::Field(Field::Section(0, SectionField::Size), 3),
        Put::Field(Field::Section(0, SectionField::Link), 1),
    ],
    ..OBJECT
};

/// The counts are those of section 0.
pub const COUNT_STEPS: &[DescriptorStep] = &[DescriptorStep::Header(0, 3, 1)];

/// Section 2 has 25 bytes.
pub const RAGGED_SYMBOLS: Recipe = Recipe {
    puts: &[Put::Field(Field::Section(2, SectionField::Size), 25)],
    ..OBJECT
};

/// The zero symbol and the first byte of the function.
const RAGGED_BYTES: &[u8] = &[
    0, 0, 0, 0, 0, 0, 0, 0, 0, 0, 0, 0, 0, 0, 0, 0, 0, 0, 0, 0, 0, 0, 0, 0, 1,
];

/// The bytes are no whole symbols, and are told as raw bytes alone.
pub const RAGGED_STEPS: &[DescriptorStep] = &[
    DescriptorStep::Data(SYMBOLS_PIECE, Err(ElfError::Ragged { section: 2 })),
    DescriptorStep::Raw(2, Ok(RAGGED_BYTES)),
];

/// Section 2 passes the end of the image.
pub const OUT_OF_IMAGE: Recipe = Recipe {
    puts: &[
        Put::Field(Field::Section(2, SectionField::Type), SHT_PROGBITS as u64),
        Put::Field(Field::Section(2, SectionField::Offset), u64::MAX),
        Put::Field(Field::Section(2, SectionField::Size), 2),
    ],
    ..OBJECT
};

/// Section 2 is out of the file.
const OUT_OF_FILE: ElfError = ElfError::OutOfFile { section: 2 };

/// The section is rejected when it is read, and hinders no edit.
pub const OUT_STEPS: &[DescriptorStep] = &[
    DescriptorStep::Raw(2, Err(OUT_OF_FILE)),
    DescriptorStep::Data(SYMBOLS_PIECE, Err(OUT_OF_FILE)),
    DescriptorStep::ReserveHome(2, Err(OUT_OF_FILE)),
    DescriptorStep::Store(1, 1, Change::Flags(2), Ok(())),
    DescriptorStep::Has(1, Change::Flags(2)),
];

/// The header of section 2 as it was opened says what its data are, and not the present one.
pub const AS_OPENED_STEPS: &[DescriptorStep] = &[
    DescriptorStep::Store(2, 2, Change::Type(SHT_PROGBITS), Ok(())),
    DescriptorStep::Has(2, Change::Type(SHT_PROGBITS)),
    DescriptorStep::Data(SYMBOLS_PIECE, Ok((Kind::Sym, 2))),
];

/// The images above, and what is told of them.
static ROWS: [DescriptorRow; 4] = [
    DescriptorRow {
        recipe: COUNTS,
        steps: COUNT_STEPS,
        ..ROW
    },
    DescriptorRow {
        recipe: RAGGED_SYMBOLS,
        forms: &[WIDE],
        steps: RAGGED_STEPS,
        ..ROW
    },
    DescriptorRow {
        recipe: OUT_OF_IMAGE,
        steps: OUT_STEPS,
        ..ROW
    },
    DescriptorRow {
        steps: AS_OPENED_STEPS,
        ..ROW
    },
];

#[test]
fn fields_decide_what_is_told(rt: HostRuntime) {
    assert!(rt; rows_are_so(&rt, &ROWS));
}
