//! Edits of an object of five sections, and what an update in place does after them.

use crate::in_place::edits::{Edit, are_made};
use elf_descriptor::Elf;
use elf_outside::{Device, MemSink, Source};
use elf_types::constants::{SHT_NOBITS, SHT_NOTE};
use elf_types::{Addrs, Octets};
use elf_update_in_place::update_in_place;
use elf_update_to::{update_null, update_to};
use test_kit_descriptors::Setting;
use test_kit_images::{BuiltImage, Field, ImageStart, OBJECT, Put, Recipe, SectionField};
use test_kit_rows::{same, same_bytes};

/// Room for the images of small objects, and for those of long ones.
const ROOM: u64 = 1_000;

const LONG_ROOM: u64 = 300_000;

/// Five sections of eight bytes, one after the other, and then the table of section headers. In
/// class 64 they are at 64, 72, 80, 88 and 96, and the table at 104, up to 488.
const FIVE: Setting = Setting {
    recipe: FIVE_SECTIONS,
    room: ROOM,
};

/// Its image.
pub const FIVE_SECTIONS: Recipe = Recipe {
    start: ImageStart::FiveSections,
    ..OBJECT
};

/// Edits, and what the update after them does in class 64.
#[derive(Clone, Copy)]
pub struct UpdateRow {
    /// The edits.
    pub edits: &'static [Edit],
    /// How many homes they read.
    pub loads: u64,
    /// How many homes the update reads.
    pub reads: u64,
    /// How many writes it makes, with the one change of the device's length.
    pub writes: u64,
    /// How many the next one makes where a write of it fails.
    pub again: u64,
}

/// Nothing is read.
const UNREAD: UpdateRow = UpdateRow {
    edits: &[],
    loads: 0,
    reads: 0,
    writes: 0,
    again: 0,
};

/// The object is marked: the header and the table are written.
const MARKED: UpdateRow = UpdateRow {
    edits: &[Edit::Mark],
    writes: 3,
    again: 3,
    ..UNREAD
};

/// Edits for any class, without the caller's layout. What the update writes, in the order of its
/// places, is beside each; the length is set besides.
const ROWS: &[UpdateRow] = &[
    MARKED,
    // the header, and once a write failed the table
    UpdateRow {
        edits: &[Edit::Entry(7)],
        writes: 2,
        again: 3,
        ..UNREAD
    },
    // the table, and once a write failed the header
    UpdateRow {
        edits: &[Edit::Type(2, SHT_NOTE)],
        writes: 2,
        again: 3,
        ..UNREAD
    },
    // the header, sections 4 and 5 from 80 on, where section 3 had its bytes, and the table at 96
    UpdateRow {
        edits: &[Edit::Type(3, SHT_NOBITS)],
        reads: 3,
        writes: 5,
        again: 5,
        ..UNREAD
    },
    // section 2, and once a write failed the header and the table
    UpdateRow {
        edits: &[Edit::Bytes(2, 8)],
        reads: 1,
        writes: 2,
        again: 4,
        ..UNREAD
    },
    // section 3, which is held
    UpdateRow {
        edits: &[Edit::Load(3)],
        loads: 1,
        writes: 2,
        again: 4,
        ..UNREAD
    },
    // section 2 up to 75, the fill up to 80, and the table
    UpdateRow {
        edits: &[Edit::Bytes(2, 3)],
        reads: 1,
        writes: 4,
        again: 5,
        ..UNREAD
    },
    // the header, sections 3 to 5 from 72 on, and the table at 96
    UpdateRow {
        edits: &[Edit::Bytes(2, 0)],
        reads: 4,
        writes: 6,
        again: 6,
        ..UNREAD
    },
    // the header, section 2 up to 172, the fill, sections 3 to 5 from 176 on, the table at 200
    UpdateRow {
        edits: &[Edit::Bytes(2, 100)],
        reads: 4,
        writes: 8,
        again: 8,
        ..UNREAD
    },
    // the same with another fill byte
    UpdateRow {
        edits: &[Edit::Fill(9), Edit::Bytes(2, 100)],
        reads: 4,
        writes: 8,
        again: 8,
        ..UNREAD
    },
    // the header, both pieces of section 3, sections 4 and 5 from 96 on, the table at 112
    UpdateRow {
        edits: &[Edit::Piece(3)],
        reads: 3,
        writes: 7,
        again: 7,
        ..UNREAD
    },
    // the header, section 6 up to 137, the fill, and the table at 144
    UpdateRow {
        edits: &[Edit::Section(33)],
        writes: 5,
        again: 5,
        ..UNREAD
    },
    // the header, a program header, all sections from 120 on, and the table at 160
    UpdateRow {
        edits: &[Edit::Segments(1)],
        reads: 5,
        writes: 9,
        again: 9,
        ..UNREAD
    },
    // the header, section 1 up to 73, the fill, sections 2 to 4 from 80 on, the byte of section 5
    // at 104, the fill, and the table at 112
    UpdateRow {
        edits: &[Edit::Bytes(1, 9), Edit::Bytes(5, 1)],
        reads: 5,
        writes: 10,
        again: 10,
        ..UNREAD
    },
];

/// Edits for class 64, under the caller's layout.
const LAID: &[UpdateRow] = &[
    UpdateRow {
        edits: &[Edit::Layout, Edit::Mark],
        ..MARKED
    },
    // sections 2 and 1, which change their places, and the table
    UpdateRow {
        edits: &[Edit::Layout, Edit::Place(1, 72), Edit::Place(2, 64)],
        reads: 2,
        writes: 4,
        again: 5,
        ..UNREAD
    },
    // the table, and section 2 after it
    UpdateRow {
        edits: &[Edit::Layout, Edit::Place(2, 488)],
        reads: 1,
        writes: 3,
        again: 4,
        ..UNREAD
    },
    // the header, section 5 four bytes after its place, and the table at 112
    UpdateRow {
        edits: &[Edit::Layout, Edit::Table(112), Edit::Place(5, 100)],
        reads: 1,
        writes: 4,
        again: 4,
        ..UNREAD
    },
    // section 5 four bytes before its place, where section 4 was, and the table
    UpdateRow {
        edits: &[Edit::Layout, Edit::Bytes(4, 0), Edit::Place(5, 92)],
        reads: 2,
        writes: 3,
        again: 4,
        ..UNREAD
    },
    // the table, and section 5 at 600; the zeros between them follow the old end
    UpdateRow {
        edits: &[Edit::Layout, Edit::Place(5, 600)],
        reads: 1,
        writes: 3,
        again: 4,
        ..UNREAD
    },
    // the same with another fill byte, which is put
    UpdateRow {
        edits: &[Edit::Layout, Edit::Fill(9), Edit::Place(5, 600)],
        reads: 1,
        writes: 4,
        again: 5,
        ..UNREAD
    },
];

/// Edits for class 64, after which a gap lies after the end that the device has, at 488.
const GAPS: &[UpdateRow] = &[
    // the header, section 2 up to 492, sections 3 to 5 from 496 on, the table at 520
    UpdateRow {
        edits: &[Edit::Bytes(2, 420)],
        reads: 4,
        writes: 7,
        again: 7,
        ..UNREAD
    },
    // the same with another fill byte, which is put after section 2
    UpdateRow {
        edits: &[Edit::Fill(9), Edit::Bytes(2, 420)],
        reads: 4,
        writes: 8,
        again: 8,
        ..UNREAD
    },
];

/// Section 5 far after the others, with zeros between them.
pub static FAR: [UpdateRow; 1] = [UpdateRow {
    edits: &[Edit::Layout, Edit::Place(5, 1 << 20)],
    reads: 1,
    writes: 3,
    again: 4,
    ..UNREAD
}];

/// The five sections, over a device that can get long.
const LONG: Setting = Setting {
    recipe: FIVE_SECTIONS,
    room: LONG_ROOM,
};

/// Edits of that object in class 64, after which more than a page is written in one place.
const LONG_ROWS: &[UpdateRow] = &[
    // the header, section 2 in two pages, sections 3 to 5 from 70,072 on, the table at 70,096
    UpdateRow {
        edits: &[Edit::Bytes(2, 70_000)],
        reads: 4,
        writes: 8,
        again: 8,
        ..UNREAD
    },
    // the table, four pages of fill, and section 5 at 200,000
    UpdateRow {
        edits: &[Edit::Layout, Edit::Fill(9), Edit::Place(5, 200_000)],
        reads: 1,
        writes: 7,
        again: 8,
        ..UNREAD
    },
];

/// The five sections, of which the fifth has the same home as the first.
const SHARED: Setting = Setting {
    recipe: Recipe {
        puts: &[Put::Field(Field::Section(5, SectionField::Offset), 64)],
        ..FIVE_SECTIONS
    },
    room: ROOM,
};

/// Edits of that object in class 64: each section gets a place of its own.
const SHARED_ROWS: &[UpdateRow] = &[
    // the header, section 5 at 96, and the table
    UpdateRow {
        reads: 1,
        writes: 4,
        again: 4,
        ..MARKED
    },
    // sections 1 and 5 and the table, and once a write failed the header
    UpdateRow {
        edits: &[Edit::Bytes(1, 8)],
        reads: 2,
        writes: 4,
        again: 5,
        ..UNREAD
    },
];

/// The five sections, and five bytes after all parts.
const TAILED: Setting = Setting {
    recipe: Recipe {
        puts: &[Put::Bytes(488, b"tail\n")],
        ..FIVE_SECTIONS
    },
    room: ROOM,
};

/// Edits of that object in class 64: what follows the parts is cut off, or written over, or stays
/// under the caller's layout.
const TAILED_ROWS: &[UpdateRow] = &[
    MARKED,
    // the header, section 2 up to 489, the fill up to the old end, 493, sections 3 to 5 from 496
    // on, and the table
    UpdateRow {
        edits: &[Edit::Bytes(2, 417)],
        reads: 4,
        writes: 8,
        again: 8,
        ..UNREAD
    },
    UpdateRow {
        edits: &[Edit::Layout, Edit::Entry(7)],
        writes: 2,
        again: 3,
        ..UNREAD
    },
];

/// An object, and edits of it.
pub struct Edited {
    /// The object.
    pub setting: Setting,
    /// The edits.
    pub rows: &'static [UpdateRow],
}

/// Which object it is.
#[derive(Clone, Copy)]
pub enum Which {
    /// Five sections, in any class and without the caller's layout.
    Five,
    /// Five sections under the caller's layout.
    Laid,
    /// Five sections with a gap after the end that the device has.
    Gaps,
    /// Five sections over a device that can get long.
    Long,
    /// Five sections of which two share a home.
    Shared,
    /// Five sections with bytes after all parts.
    Tailed,
}

/// All of them.
pub static ALL: [Which; 6] = [
    Which::Five,
    Which::Laid,
    Which::Gaps,
    Which::Long,
    Which::Shared,
    Which::Tailed,
];

static FIVE_TABLE: Edited = Edited {
    setting: FIVE,
    rows: ROWS,
};

static LAID_TABLE: Edited = Edited {
    setting: FIVE,
    rows: LAID,
};

static GAPS_TABLE: Edited = Edited {
    setting: FIVE,
    rows: GAPS,
};

static LONG_TABLE: Edited = Edited {
    setting: LONG,
    rows: LONG_ROWS,
};

static SHARED_TABLE: Edited = Edited {
    setting: SHARED,
    rows: SHARED_ROWS,
};

static TAILED_TABLE: Edited = Edited {
    setting: TAILED,
    rows: TAILED_ROWS,
};

/// An object with its edits. This function alone names the tables, so that no other one's proof has
/// them before it.
pub fn table(which: Which) -> &'static Edited {
    match which {
        Which::Five => &FIVE_TABLE,
        Which::Laid => &LAID_TABLE,
        Which::Gaps => &GAPS_TABLE,
        Which::Long => &LONG_TABLE,
        Which::Shared => &SHARED_TABLE,
        Which::Tailed => &TAILED_TABLE,
    }
}

/// The bytes that an update to a sink puts: the image.
pub fn sink_image<S: Source>(elf: &mut Elf<S>) -> Option<Octets> {
    let Ok(len) = update_null(elf) else {
        return None;
    };
    let Ok(mut sink) = MemSink::new(elf.alloc(), len, Addrs::new(elf.alloc())) else {
        return None;
    };
    match update_to(elf, &mut sink) {
        Ok(_) => Some(sink.into_bytes()),
        Err(_) => None,
    }
}

/// Whether an object has this image.
pub fn has_image<S: Source>(rt: &HostRuntime, elf: &mut Elf<S>, image: &BuiltImage) -> bool {
    match sink_image(elf) {
        Some(bytes) => same_bytes(rt, bytes.as_slice(), image.bytes.as_slice()),
        None => false,
    }
}

/// Takes the image of a descriptor for what the device is to hold.
pub fn expect_image<S: Source>(elf: &mut Elf<S>, image: &mut BuiltImage) -> bool {
    match sink_image(elf) {
        Some(bytes) => {
            image.bytes = bytes;
            true
        }
        None => false,
    }
}

/// Makes edits of a descriptor, and takes its image for what the device is to hold.
pub fn expect<S: Source>(
    rt: &HostRuntime,
    fresh: &mut Elf<S>,
    edits: &[Edit],
    image: &mut BuiltImage,
) -> bool {
    are_made(rt, fresh, edits) && expect_image(fresh, image)
}

/// Whether an update in place ends, returns the length of the image, and leaves nothing dirty.
pub fn update_ends<D: Device>(rt: &HostRuntime, elf: &mut Elf<D>, image: &BuiltImage) -> bool {
    same(rt, &update_in_place(elf), &Ok(image.bytes.len())) && !elf.dirty()
}
