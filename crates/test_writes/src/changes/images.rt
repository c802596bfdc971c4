//! Images of files before and after they are changed in place.

use elf_types::Shdr;
use test_kit_images::{ImageStart, NARROW, NULL_SECTION, OBJECT, Put, Recipe};
use test_kit_runs::cases::EIGHT;

/// The five sections without the bytes of the last one: 480 bytes.
pub const CUT_IMAGE: Recipe = Recipe {
    start: ImageStart::Table(96, 6, 0),
    puts: &[
        Put::Sections(&[
            NULL_SECTION,
            Shdr {
                offset: 64,
                ..EIGHT
            },
            Shdr {
                offset: 72,
                ..EIGHT
            },
            Shdr {
                offset: 80,
                ..EIGHT
            },
            Shdr {
                offset: 88,
                ..EIGHT
            },
            Shdr {
                offset: 96,
                size: 0,
                ..EIGHT
            },
        ]),
        Put::Bytes(64, &[1; 8]),
        Put::Bytes(72, &[2; 8]),
        Put::Bytes(80, &[3; 8]),
        Put::Bytes(88, &[4; 8]),
    ],
    ..OBJECT
};

/// The five sections in class 32, from 56 on: 336 bytes.
pub const NARROW_FIVE: Recipe = Recipe {
    form: NARROW,
    start: ImageStart::FiveSections,
    puts: &[],
};

/// The five sections in class 32 with eight bytes more in section 3: 344 bytes.
pub const NARROW_GROWN: Recipe = Recipe {
    form: NARROW,
    start: ImageStart::Table(104, 6, 0),
    puts: &[
        Put::Sections(&[
            NULL_SECTION,
            Shdr {
                offset: 56,
                ..EIGHT
            },
            Shdr {
                offset: 64,
                ..EIGHT
            },
            Shdr {
                offset: 72,
                size: 16,
                ..EIGHT
            },
            Shdr {
                offset: 88,
                ..EIGHT
            },
            Shdr {
                offset: 96,
                ..EIGHT
            },
        ]),
        Put::Bytes(56, &[1; 8]),
        Put::Bytes(64, &[2; 8]),
        Put::Bytes(72, &[3; 8]),
        Put::Bytes(80, &[0x33; 8]),
        Put::Bytes(88, &[4; 8]),
        Put::Bytes(96, &[5; 8]),
    ],
};

/// The object with two symbols, with 16 more in the value of each.
pub const ADDED: Recipe = Recipe {
    puts: &[Put::Bytes(80, b"\x10"), Put::Bytes(104, b"\x10")],
    ..OBJECT
};

/// The object with two symbols in class 32, with 16 more in the value of each.
pub const NARROW_ADDED: Recipe = Recipe {
    form: NARROW,
    puts: &[Put::Bytes(63, b"\x10"), Put::Bytes(79, b"\x10")],
    ..OBJECT
};
