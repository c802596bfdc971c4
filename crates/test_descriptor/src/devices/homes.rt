//! An object of two homes over a device in memory.

use elf_descriptor::Elf;
use elf_outside::Source;
use elf_types::constants::SHT_PROGBITS;
use elf_types::{DIRTY, DataId, ElfError, Octets, Part, ScnId, Shdr};
use elf_xlate::Items;
use test_kit_descriptors::Setting;
use test_kit_images::{ImageStart, NULL_SECTION, OBJECT, Put, Recipe};

/// Eight bytes.
const EIGHT: Shdr = Shdr {
    stype: SHT_PROGBITS,
    size: 8,
    addralign: 16,
    ..NULL_SECTION
};

/// How long the device can get.
pub const ROOM: u64 = 400;

/// An object with eight bytes at 64, section 1, and eight at 80, section 2. Between them are eight
/// bytes that no part covers, and eight more before its table of section headers, which begins at
/// 96 and ends it: at 216 in class 32, and at 288 in class 64.
pub static TWO_HOMES: Setting = Setting {
    recipe: Recipe {
        start: ImageStart::Table(96, 3, 0),
        puts: &[
            Put::Sections(&[
                NULL_SECTION,
                Shdr {
                    offset: 64,
                    ..EIGHT
                },
                Shdr {
                    offset: 80,
                    ..EIGHT
                },
            ]),
            Put::Bytes(64, b"abcdefgh--------ijklmnop"),
        ],
        ..OBJECT
    },
    room: ROOM,
};

/// The piece of section 1.
pub const FIRST_PIECE: DataId = DataId {
    section: 1,
    piece: 0,
};

/// Gives section 1 so many other bytes.
pub fn give_bytes<S: Source>(elf: &mut Elf<S>, len: usize) -> Result<(), ElfError> {
    let bytes = Octets::from_vec(vec![in elf.alloc(); 7u8; len]?);
    match elf.replace(FIRST_PIECE, Items::Bytes(bytes)) {
        Ok(()) => Ok(()),
        Err((_, e)) => Err(e),
    }
}

/// Reads a home, and marks the piece.
pub fn keep<S: Source>(elf: &mut Elf<S>, s: u32) -> Result<(), ElfError> {
    elf.raw(ScnId(s))?;
    elf.flag(Part::Piece(s, 0), true, DIRTY)?;
    Ok(())
}
