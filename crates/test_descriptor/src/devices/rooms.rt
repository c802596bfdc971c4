//! Homes that are read into memory that is reserved.

ghost use Rattle.std.specs.Prelude.{◌≡◌, length, IsTrue};
ghost use Rattle.elf_descriptor.specs.Rooms.{has_room_for};

use crate::callers::rooms::{keep_room, load_later, load_loaded, load_patiently, load_twice};
use crate::devices::homes::TWO_HOMES;
use elf_descriptor::{Elf, Held};
use elf_outside::{Device, Source};
use elf_types::{DIRTY, DataId, ElfError, Part, ScnId};
use test_kit_descriptors::{DescriptorWork, DeviceFaults, NONE, all_agree, are_done};
use test_kit_images::BuiltImage;
use test_kit_rows::{holds, same};

/// The bytes that are held of the home of section 1, if they are.
fn is_held<S: Source>(elf: &Elf<S>) -> bool {
    match elf.held(DataId {
        section: 1,
        piece: 0,
    }) {
        Ok(Held::Raw(bytes)) => bytes == b"abcdefgh".as_slice(),
        _ => false,
    }
}

/// What is done with the home of section 1.
#[derive(Clone, Copy, PartialEq, Eq)]
enum Way {
    /// It is read into its memory.
    Once,
    /// It is read into its memory, and once more, where nothing is left to be read.
    Twice,
    /// The memory is reserved, the other home is read, the object is marked and memory is taken for
    /// a front; then it is read.
    Later,
    /// It is read without memory of its own, and told again by the call that needs such memory.
    Loaded,
}

/// What came of it.
#[derive(Clone, Copy, PartialEq, Eq)]
enum End {
    /// There was no memory to be reserved.
    NoMemory,
    /// The home was read.
    Read,
    /// Anything else.
    Other,
}

/// What comes of a home for which memory is reserved.
fn read_kept<S: Source>(elf: &mut Elf<S>, way: Way) -> End
    requires { IsTrue (has_room_for elf.old 1) }
{
    match way {
        Way::Once => end_of(load_patiently(elf, ScnId(1))),
        Way::Twice => end_of(load_twice(elf, ScnId(1))),
        Way::Later => end_of(load_later(elf, ScnId(1), ScnId(2))),
        Way::Loaded => End::Other,
    }
}

/// What came of a read for which there is memory.
fn end_of(read: Result<(), ElfError>) -> End {
    match read {
        Ok(()) => End::Read,
        Err(_) => End::Other,
    }
}

/// What comes of a home.
fn read_by<S: Source>(elf: &mut Elf<S>, way: Way) -> End
    requires { length elf.old.room ≡ length elf.old.o.sections }
{
    if way == Way::Loaded {
        return end_of(load_loaded(elf, ScnId(1)));
    }
    match keep_room(elf, ScnId(1)) {
        Ok(()) => read_kept(elf, way),
        Err(_) => End::NoMemory,
    }
}

/// What is done with a home over a device of which some calls fail, how it ends, and how many bytes
/// are asked for besides the front.
struct Row {
    way: Way,
    bad: DeviceFaults,
    end: End,
    asked: u64,
}

impl DescriptorWork for Row {
    fn bad(&self) -> DeviceFaults {
        self.bad
    }

    fn asked(&self) -> Option<u64> {
        Some(self.asked)
    }

    fn is_done<D: Device, F: Source>(
        &self,
        rt: &HostRuntime,
        elf: &mut Elf<D>,
        fresh: &mut Elf<F>,
        _image: &mut BuiltImage,
    ) -> bool
        requires { length elf.old.room ≡ length elf.old.o.sections }
    {
        let stated = holds(rt, "the read ends so", read_by(elf, self.way) == self.end)
            && same(rt, &is_held(elf), &(self.end == End::Read));
        if self.way == Way::Later && fresh.flag(Part::Object, true, DIRTY).is_err() {
            return false;
        }
        stated && all_agree(rt, elf, fresh)
    }
}

/// Device calls of which the first read of the home fails, and of which the second does too.
const FIRST: DeviceFaults = DeviceFaults {
    reads: [4, 0, 0],
    ..NONE
};

const BOTH: DeviceFaults = DeviceFaults {
    reads: [4, 5, 0],
    ..NONE
};

/// Homes that are read and not read.
static ROWS: [Row; 6] = [
    Row {
        way: Way::Once,
        bad: NONE,
        end: End::Read,
        asked: 8,
    },
    Row {
        way: Way::Once,
        bad: FIRST,
        end: End::Read,
        asked: 16,
    },
    Row {
        way: Way::Once,
        bad: BOTH,
        end: End::Other,
        asked: 16,
    },
    Row {
        way: Way::Twice,
        bad: NONE,
        end: End::Read,
        asked: 8,
    },
    Row {
        way: Way::Later,
        bad: NONE,
        end: End::Read,
        asked: 16,
    },
    Row {
        way: Way::Loaded,
        bad: NONE,
        end: End::Read,
        asked: 8,
    },
];

#[test]
fn a_home_is_read_into_the_reserved_memory(rt: HostRuntime) {
    assert!(rt; are_done(&rt, &TWO_HOMES, &ROWS));
}
