//! Edits of small objects.

use crate::reading::FUNCTION;
use crate::rows::{DescriptorRow, ROW, rows_are_so};
use crate::steps::{Change, DescriptorStep, Given, STRINGS_PIECE, SYMBOLS_PIECE};
use elf_types::constants::SHT_PROGBITS;
use elf_types::{
    Class, DIRTY, DataId, ElfError, Kind, LAYOUT, NULL_SECTION, Order, Part, ScnId, Shdr, Sym,
};
use test_kit_images::{ImageStart, NARROW, NARROW_OBJECT, OBJECT, Recipe, WIDE};

/// A number that does not fit class 32.
const LARGE: u64 = 1 << 32;

/// An item of the piece of the symbols does not fit.
const UNFIT: ElfError = ElfError::Unfit {
    part: Part::Piece(2, 0),
    index: 1,
};

/// Symbol 1 with a large value.
const LARGE_FUNCTION: Sym = Sym {
    value: LARGE,
    ..FUNCTION
};

/// Items that are stored, and lists of items that are lent.
static ITEMS: [DescriptorRow; 3] = [
    // in class 32 a value of 2^32 is rejected for symbol 1, which then is as before
    DescriptorRow {
        recipe: NARROW_OBJECT,
        forms: &[NARROW],
        steps: &[
            DescriptorStep::Symbol(SYMBOLS_PIECE, 1, Ok(FUNCTION)),
            DescriptorStep::StoreSymbol(SYMBOLS_PIECE, 1, LARGE_FUNCTION, Err(UNFIT)),
            DescriptorStep::Symbol(SYMBOLS_PIECE, 1, Ok(FUNCTION)),
        ],
        ..ROW
    },
    // a borrower may leave values that do not fit, and others again
    DescriptorRow {
        recipe: NARROW_OBJECT,
        forms: &[NARROW],
        steps: &[
            DescriptorStep::AddToValues(LARGE, Ok(2)),
            DescriptorStep::Symbol(
                SYMBOLS_PIECE,
                1,
                Ok(Sym {
                    value: 0x1_0000_1000,
                    ..FUNCTION
                }),
            ),
            DescriptorStep::AddToValues(0xffff_ffff_0000_0000, Ok(2)),
            DescriptorStep::Symbol(SYMBOLS_PIECE, 1, Ok(FUNCTION)),
        ],
        ..ROW
    },
    // what is left in bytes is told as data, and the raw bytes stay
    DescriptorRow {
        forms: &[WIDE],
        steps: &[
            DescriptorStep::AddToBytes(Ok(3)),
            DescriptorStep::Byte(b'b'),
            DescriptorStep::Raw(1, Ok(b"\0a\0")),
        ],
        ..ROW
    },
];

#[test]
fn items_are_stored_and_left(rt: HostRuntime) {
    assert!(rt; rows_are_so(&rt, &ITEMS));
}

/// An object with two program headers.
const TWO_TABLES: Recipe = Recipe {
    start: ImageStart::TwoTables,
    ..OBJECT
};

/// Flags, and the program headers that are lent.
static MARKS: [DescriptorRow; 2] = [
    // the flags are told as stated, and nothing is dirty until the header is marked
    DescriptorRow {
        forms: &[WIDE],
        steps: &[
            DescriptorStep::Flag(Part::Object, true, LAYOUT, Ok(LAYOUT)),
            DescriptorStep::Flag(Part::Object, true, LAYOUT, Ok(LAYOUT)),
            DescriptorStep::Flag(Part::Object, false, LAYOUT, Ok(0)),
            DescriptorStep::Flag(Part::Object, false, DIRTY, Err(ElfError::FlagKept)),
            DescriptorStep::Flag(Part::Object, true, LAYOUT, Ok(LAYOUT)),
            DescriptorStep::Dirty(false),
            DescriptorStep::Flag(Part::Header, true, DIRTY, Ok(DIRTY)),
            DescriptorStep::Dirty(true),
        ],
        ..ROW
    },
    // a program header that is lent keeps what is stored, and only they are marked
    DescriptorRow {
        recipe: TWO_TABLES,
        steps: &[
            DescriptorStep::PutOffset(9),
            DescriptorStep::Flags(Part::Segments, Ok(DIRTY)),
            DescriptorStep::Flags(Part::Header, Ok(0)),
            DescriptorStep::Offsets(0, 9),
            DescriptorStep::Counts(2, 3),
        ],
        ..ROW
    },
];

#[test]
fn parts_are_flagged_and_marked(rt: HostRuntime) {
    assert!(rt; rows_are_so(&rt, &MARKS));
}

/// The home piece of section 0.
const FIRST: DataId = DataId {
    section: 0,
    piece: 0,
};

/// A second piece of the strings.
const SECOND: DataId = DataId {
    section: 1,
    piece: 1,
};

/// A second piece of the symbols.
const MORE_SYMBOLS: DataId = DataId {
    section: 2,
    piece: 1,
};

/// A symbol of zeros.
const ZERO: Sym = Sym {
    name: 0,
    info: 0,
    other: 0,
    shndx: 0,
    value: 0,
    size: 0,
};

/// Two symbols, of which the second has a value of 2^32.
const LARGE_SYMBOLS: &[Sym] = &[
    ZERO,
    Sym {
        value: LARGE,
        ..ZERO
    },
];

/// Pieces that are added, and pieces whose items are replaced.
static PIECES: [DescriptorRow; 4] = [
    // a piece may become empty, but none of section 0
    DescriptorRow {
        forms: &[WIDE],
        steps: &[
            DescriptorStep::Replace(STRINGS_PIECE, Given::Bytes(&[]), Ok(())),
            DescriptorStep::Data(STRINGS_PIECE, Ok((Kind::Bytes, 0))),
            DescriptorStep::Replace(FIRST, Given::Bytes(&[]), Err(ElfError::Reserved)),
        ],
        ..ROW
    },
    // a second piece of the strings is at a multiple of 8, with other bytes before it
    DescriptorRow {
        forms: &[WIDE],
        steps: &[
            DescriptorStep::SetFill(0xaa),
            DescriptorStep::Fill(0xaa),
            DescriptorStep::Dirty(false),
            DescriptorStep::Add(1, Some(8), Given::Bytes(b"b"), Ok(SECOND)),
            DescriptorStep::Align(SECOND, Ok(8)),
            DescriptorStep::Add(
                1,
                Some(3),
                Given::Bytes(b"b"),
                Err(ElfError::BadAlign { align: 3 }),
            ),
        ],
        ..ROW
    },
    // a symbol with a value of 2^32 fits class 64 alone, as the second item of the symbols and of a
    // new piece
    DescriptorRow {
        forms: &[(Class::C32, Order::Least), (Class::C32, Order::Greatest)],
        steps: &[
            DescriptorStep::Replace(SYMBOLS_PIECE, Given::Syms(LARGE_SYMBOLS), Err(UNFIT)),
            DescriptorStep::Add(
                2,
                Some(1),
                Given::Syms(LARGE_SYMBOLS),
                Err(ElfError::Unfit {
                    part: Part::Piece(2, 1),
                    index: 1,
                }),
            ),
        ],
        ..ROW
    },
    DescriptorRow {
        forms: &[(Class::C64, Order::Least), (Class::C64, Order::Greatest)],
        steps: &[
            DescriptorStep::Replace(SYMBOLS_PIECE, Given::Syms(LARGE_SYMBOLS), Ok(())),
            DescriptorStep::Add(2, Some(1), Given::Syms(LARGE_SYMBOLS), Ok(MORE_SYMBOLS)),
        ],
        ..ROW
    },
];

#[test]
fn pieces_are_added_and_replaced(rt: HostRuntime) {
    assert!(rt; rows_are_so(&rt, &PIECES));
}

/// The header of a section of bytes at a multiple of 4.
const BYTES: Shdr = Shdr {
    stype: SHT_PROGBITS,
    addralign: 4,
    ..NULL_SECTION
};

/// The first piece of section 3.
const THIRD: DataId = DataId {
    section: 3,
    piece: 0,
};

/// Sections that are added, and headers that are stored.
static SECTIONS: [DescriptorRow; 2] = [
    // a section is added to three with a piece, and a program header
    DescriptorRow {
        steps: &[
            DescriptorStep::Newscn(Ok(ScnId(3))),
            DescriptorStep::Put(3, BYTES),
            DescriptorStep::Newphdr(1, Ok(())),
            DescriptorStep::Add(3, None, Given::Bytes(&[1, 2]), Ok(THIRD)),
            DescriptorStep::Header(1, 4, 1),
            DescriptorStep::Section(3, Ok(BYTES)),
            DescriptorStep::Home(3, Ok((0, 0))),
        ],
        ..ROW
    },
    // under the flag of the layout any place is stored
    DescriptorRow {
        forms: &[WIDE],
        steps: &[
            DescriptorStep::Flag(Part::Object, true, LAYOUT, Ok(LAYOUT)),
            DescriptorStep::Store(2, 2, Change::Offset(66), Ok(())),
            DescriptorStep::Has(2, Change::Offset(66)),
            DescriptorStep::Store(2, 2, Change::Offset(67), Ok(())),
            DescriptorStep::Has(2, Change::Offset(67)),
            DescriptorStep::Flags(Part::Section(2), Ok(DIRTY)),
        ],
        ..ROW
    },
];

#[test]
fn headers_are_added_and_stored(rt: HostRuntime) {
    assert!(rt; rows_are_so(&rt, &SECTIONS));
}
