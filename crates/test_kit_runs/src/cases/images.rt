//! Images that tests of more than one command look at: before a change, and after it.

use elf_types::Shdr;
use elf_types::constants::SHT_PROGBITS;
use test_kit_images::{ImageStart, NULL_SECTION, OBJECT, Put, Recipe};

/// A section of eight bytes at a multiple of 8.
pub const EIGHT: Shdr = Shdr {
    stype: SHT_PROGBITS,
    size: 8,
    addralign: 8,
    ..NULL_SECTION
};

/// Five sections of eight bytes, one after the other from 64 on, each of its number, and the
/// section headers at 104: 488 bytes.
pub const FIVE: Recipe = Recipe {
    start: ImageStart::FiveSections,
    ..OBJECT
};

/// Five sections with eight bytes more in section 3, so that sections 4 and 5 and the section
/// headers are eight bytes later: 496 bytes.
pub const GROWN: Recipe = Recipe {
    start: ImageStart::Table(112, 6, 0),
    puts: &[
        Put::Sections(&[
            NULL_SECTION,
            Shdr {
                offset: 64,
                ..EIGHT
            },
            Shdr {
                offset: 72,
                ..EIGHT
            },
            Shdr {
                offset: 80,
                size: 16,
                ..EIGHT
            },
            Shdr {
                offset: 96,
                ..EIGHT
            },
            Shdr {
                offset: 104,
                ..EIGHT
            },
        ]),
        Put::Bytes(64, &[1; 8]),
        Put::Bytes(72, &[2; 8]),
        Put::Bytes(80, &[3; 8]),
        Put::Bytes(88, &[0x33; 8]),
        Put::Bytes(96, &[4; 8]),
        Put::Bytes(104, &[5; 8]),
    ],
    ..OBJECT
};
