//! Sizes of sections' data, homes that are freed, and memory that is taken for an update.

use crate::rows::{DescriptorRow, Due, ROW, rows_are_so};
use crate::steps::{DescriptorStep, STRINGS_PIECE, SYMBOLS_PIECE};
use elf_types::{DIRTY, ElfError, Part};

/// There is no section 1,000.
const NO_SECTION: ElfError = ElfError::NoSection {
    index: 1_000,
    count: 3,
};

/// The headers of the object with two symbols.
const FRONT: Due = Due {
    segments: 0,
    sections: 3,
    more: 0,
};

/// The headers of the object, and the three bytes of its strings.
const STRINGS_ONCE: Due = Due { more: 3, ..FRONT };

/// The headers of the object, and the three bytes of its strings twice.
const STRINGS_TWICE: Due = Due { more: 6, ..FRONT };

/// The object with two symbols, and how many bytes are asked for.
static ROWS: [DescriptorRow; 4] = [
    // the data are as long as their pieces, and nothing is read for that
    DescriptorRow {
        steps: &[
            DescriptorStep::Size(0, Ok(0)),
            DescriptorStep::Size(1, Ok(3)),
            DescriptorStep::Size(1_000, Err(NO_SECTION)),
            DescriptorStep::Unread(STRINGS_PIECE, true),
        ],
        due: Some(FRONT),
        ..ROW
    },
    // a home that was freed is read again
    DescriptorRow {
        steps: &[
            DescriptorStep::Unload(1, Ok(())),
            DescriptorStep::Long(1, Ok((3, 3))),
            DescriptorStep::Unload(1, Ok(())),
            DescriptorStep::Unread(STRINGS_PIECE, true),
            DescriptorStep::Long(1, Ok((3, 3))),
            DescriptorStep::Unread(STRINGS_PIECE, false),
            DescriptorStep::Unload(1_000, Err(NO_SECTION)),
        ],
        due: Some(STRINGS_TWICE),
        ..ROW
    },
    // a home whose piece is marked is kept
    DescriptorRow {
        steps: &[
            DescriptorStep::Long(1, Ok((3, 3))),
            DescriptorStep::Flag(Part::Piece(1, 0), true, DIRTY, Ok(DIRTY)),
            DescriptorStep::Unload(1, Ok(())),
            DescriptorStep::Unread(STRINGS_PIECE, false),
        ],
        due: Some(STRINGS_ONCE),
        ..ROW
    },
    // memory for an update is taken, and nothing is read for that
    DescriptorRow {
        steps: &[
            DescriptorStep::Reserve,
            DescriptorStep::ReserveHome(1, Ok(())),
            DescriptorStep::ReserveHome(1_000, Err(NO_SECTION)),
            DescriptorStep::Unread(STRINGS_PIECE, true),
            DescriptorStep::Unread(SYMBOLS_PIECE, true),
            DescriptorStep::Long(1, Ok((3, 3))),
            DescriptorStep::Reserve,
        ],
        due: Some(STRINGS_ONCE),
        ..ROW
    },
];

#[test]
fn a_home_is_read_once_until_it_is_released(rt: HostRuntime) {
    assert!(rt; rows_are_so(&rt, &ROWS));
}
