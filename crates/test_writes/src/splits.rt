//! What strip with -f leaves: both halves, or a message or a fault and neither, or the first one
//! and a prefix of the second.

use elf_types::Shdr;
use elf_types::constants::{SHT_PROGBITS, SHT_STRTAB};
use test_kit_images::{
    Field, HeaderField, ImageStart, NARROW_OBJECT, NULL_SECTION, OBJECT, Put, Recipe, SectionField,
    WIDE,
};
use test_kit_runs::cases::{
    Case, Earlier, FailingCall, FoundFile, HeldAfter, Outcome, RUN, State, Stored, are_so, fail_so,
    is_so,
};
use test_kit_runs::{DONE, Ending, Failing, NOTHING, REFUSED};
use tool_output::Status;

/// Files O and D, which are there before each run.
static BOTH: [FoundFile; 2] = [
    FoundFile {
        name: "O",
        stored: Stored::Bytes(b"old"),
    },
    FoundFile {
        name: "D",
        stored: Stored::Bytes(b"old"),
    },
];

/// A run over the object with two symbols, which leaves both files as they were.
const KEPT: Case = Case {
    line: "strip -f D -o O F",
    file: Stored::Image(OBJECT),
    held: HeldAfter::Before,
    also: HeldAfter::Before,
    ..RUN
};

// ---- Both halves

/// The object with two symbols in both classes: how long it is without the symbols, and that its
/// debug half is the object byte for byte, since nothing of it is loaded.
static OBJECTS: [Case; 2] = [
    Case {
        held: HeldAfter::Length(200),
        also: HeldAfter::Now(Stored::Image(OBJECT)),
        ..KEPT
    },
    Case {
        file: Stored::Image(NARROW_OBJECT),
        held: HeldAfter::Length(136),
        also: HeldAfter::Now(Stored::Image(NARROW_OBJECT)),
        ..KEPT
    },
];

#[test]
fn an_object_of_which_nothing_is_loaded_is_its_own_debug_file(rt: HostRuntime) {
    assert!(rt; are_so(&rt, &BOTH, &OBJECTS));
}

/// The names of the sections of an object with debug data.
const NAMES: Shdr = Shdr {
    stype: SHT_STRTAB,
    offset: 64,
    size: 8,
    addralign: 1,
    ..NULL_SECTION
};

/// Its debug data.
const DATA: Shdr = Shdr {
    name: 1,
    stype: SHT_PROGBITS,
    offset: 72,
    size: 4,
    addralign: 1,
    ..NULL_SECTION
};

/// The debug data, at a multiple of 524,288.
const FAR_DATA: Shdr = Shdr {
    addralign: 524_288,
    ..DATA
};

/// An object with debug data, section 2, which strip removes by its name and which is at 524,288 in
/// an image whose parts are placed again.
const FAR: Recipe = Recipe {
    form: WIDE,
    start: ImageStart::Table(96, 3, 1),
    puts: &[
        Put::Sections(&[NULL_SECTION, NAMES, FAR_DATA]),
        Put::Bytes(64, b"\0.debug\0data"),
    ],
};

/// The debug half of the far image.
const FAR_HALF: Recipe = Recipe {
    form: WIDE,
    start: ImageStart::Table(524_296, 3, 1),
    puts: &[
        Put::Sections(&[
            NULL_SECTION,
            NAMES,
            Shdr {
                offset: 524_288,
                ..FAR_DATA
            },
        ]),
        Put::Bytes(64, b"\0.debug\0"),
        Put::Bytes(524_288, b"data"),
    ],
};

/// The data is in the debug half alone.
static MOVED: Case = Case {
    file: Stored::Image(FAR),
    held: HeldAfter::Length(200),
    also: HeldAfter::Now(Stored::Image(FAR_HALF)),
    ..KEPT
};

#[test]
fn what_is_removed_is_in_the_debug_file(rt: HostRuntime) {
    assert!(rt; is_so(&rt, &BOTH, &MOVED));
}

// ---- Neither half

/// The form of the words.
const USAGE: Ending = Ending {
    status: Status::BadWords,
    err: b"usage: elfkit strip [-g] [-R NAME].. [-f DEBUG] -o OUT FILE\n",
    ..DONE
};

/// Two of the three names are the same.
static SAME_NAMES: [Case; 3] = [
    Case {
        line: "strip -f O -o O F",
        ending: USAGE,
        ..KEPT
    },
    Case {
        line: "strip -f F -o O F",
        ending: USAGE,
        ..KEPT
    },
    Case {
        line: "strip -f D -o F F",
        ending: USAGE,
        ..KEPT
    },
];

#[test]
fn no_two_names_are_the_same_argument(rt: HostRuntime) {
    assert!(rt; are_so(&rt, &BOTH, &SAME_NAMES));
}

/// The file and its front.
static NO_IMAGE: [Case; 3] = [
    Case {
        line: "strip -f D -o O G",
        ending: Ending {
            err: b"strip: G: not found\n",
            ..REFUSED
        },
        ..KEPT
    },
    Case {
        file: Stored::Changed(OBJECT, Put::Bytes(0, b"no")),
        ending: Ending {
            err: b"strip: F: not an ELF image\n",
            ..REFUSED
        },
        ..KEPT
    },
    Case {
        file: Stored::Changed(OBJECT, Put::Bytes(0, b"!<arch>\n")),
        ending: Ending {
            err: b"strip: F: not an ELF image\n",
            ..REFUSED
        },
        ..KEPT
    },
];

#[test]
fn what_is_no_image_is_not_split(rt: HostRuntime) {
    assert!(rt; are_so(&rt, &BOTH, &NO_IMAGE));
}

/// An object with debug data, of which one section is removed and allocated, and another one is out
/// of the file.
const LOADED: Recipe = Recipe {
    form: WIDE,
    start: ImageStart::Table(96, 4, 1),
    puts: &[
        Put::Sections(&[
            NULL_SECTION,
            NAMES,
            Shdr { flags: 2, ..DATA },
            Shdr {
                name: 0,
                offset: u64::MAX,
                ..DATA
            },
        ]),
        Put::Bytes(64, b"\0.debug\0data"),
    ],
};

/// An object whose debug data is out of the file.
const DATA_OUT: Recipe = Recipe {
    form: WIDE,
    start: ImageStart::Table(96, 3, 1),
    puts: &[
        Put::Sections(&[
            NULL_SECTION,
            NAMES,
            Shdr {
                offset: u64::MAX,
                ..DATA
            },
        ]),
        Put::Bytes(64, b"\0.debug\0data"),
    ],
};

/// One whose debug data should be too high.
const TOO_HIGH: Recipe = Recipe {
    form: WIDE,
    start: ImageStart::Table(96, 3, 1),
    puts: &[
        Put::Sections(&[
            NULL_SECTION,
            NAMES,
            Shdr {
                addralign: 1 << 41,
                ..DATA
            },
        ]),
        Put::Bytes(64, b"\0.debug\0data"),
    ],
};

/// A section that is removed is allocated, which comes before a home that is out of the file; that
/// home, of a section that is kept, before the index of the names of the debug half; and each of
/// these.
static UNMADE: [Case; 5] = [
    Case {
        line: "strip -R .debug -f D -o O F",
        file: Stored::Image(LOADED),
        ending: Ending {
            err: b"strip: F: section 2 is allocated\n",
            ..REFUSED
        },
        ..KEPT
    },
    Case {
        line: "strip -g -f D -o O F",
        file: Stored::Changed(
            OBJECT,
            Put::Field(Field::Section(2, SectionField::Offset), u64::MAX),
        ),
        ending: Ending {
            err: b"strip: F: section 2 out of file\n",
            ..REFUSED
        },
        ..KEPT
    },
    Case {
        file: Stored::Changed(OBJECT, Put::Field(Field::Header(HeaderField::Shstrndx), 9)),
        ending: Ending {
            err: b"strip: F: no section 9 of 1\n",
            ..REFUSED
        },
        ..KEPT
    },
    Case {
        file: Stored::Image(DATA_OUT),
        ending: Ending {
            err: b"strip: F: section 2 out of file\n",
            ..REFUSED
        },
        ..KEPT
    },
    Case {
        file: Stored::Image(TOO_HIGH),
        ending: Ending {
            err: b"strip: F: too large\n",
            ..REFUSED
        },
        ..KEPT
    },
];

#[test]
fn what_is_rejected_makes_neither_file(rt: HostRuntime) {
    assert!(rt; are_so(&rt, &BOTH, &UNMADE));
}

// ---- Calls that fail

/// The stripped half of the object whose data is far after.
const FAR_STRIPPED: Stored = Stored::Left(Earlier {
    line: "strip -f D -o O F",
    file: FAR,
    script: b"",
    name: "O",
});

/// A run that makes both halves of it.
static SPLIT: Case = Case {
    held: HeldAfter::Now(FAR_STRIPPED),
    also: HeldAfter::Now(Stored::Image(FAR_HALF)),
    ..STOPPED
};

/// A run over it that makes neither.
const STOPPED: Case = Case {
    file: Stored::Image(FAR),
    ..KEPT
};

/// A write failed.
const UNWRITTEN: Ending = Ending {
    status: Status::WriteFailed,
    ..DONE
};

/// The image is not handed out, which comes before both are made; the first is not; the second is
/// not, once the first is whole; and files want more memory than there is.
static FAULTS: [Case; 4] = [
    Case {
        failing: Failing { open: 1, ..NOTHING },
        ending: Ending {
            status: Status::ReadFailed,
            ..DONE
        },
        ..STOPPED
    },
    Case {
        failing: Failing { open: 2, ..NOTHING },
        ending: UNWRITTEN,
        ..STOPPED
    },
    Case {
        failing: Failing { open: 3, ..NOTHING },
        ending: UNWRITTEN,
        held: HeldAfter::Now(FAR_STRIPPED),
        ..STOPPED
    },
    Case {
        failing: Failing {
            memory: true,
            ..NOTHING
        },
        ending: Ending {
            status: Status::NoMemory,
            ..DONE
        },
        ..STOPPED
    },
];

/// A write of the first half stops a run in that, and one of the second in that, once the first is
/// whole.
static IN_EACH: [Outcome; 2] = [
    Outcome {
        status: Status::WriteFailed,
        held: State::Front,
        also: State::Before,
        least: 1,
        most: 8,
    },
    Outcome {
        status: Status::WriteFailed,
        held: State::After,
        also: State::Front,
        least: 1,
        most: 8,
    },
];

#[test]
fn the_first_file_is_whole_before_the_second_is_created(rt: HostRuntime) {
    assert!(rt; are_so(&rt, &BOTH, &FAULTS));
    assert!(rt; fail_so(&rt, &BOTH, &SPLIT, &FailingCall::Made, 8, &IN_EACH));
}

/// A read of the image stops a run before it makes a file, or in the debug half, whose bytes are
/// copied of the image, once the first half is whole.
static IN_DEBUG: [Outcome; 2] = [
    Outcome {
        status: Status::ReadFailed,
        held: State::Before,
        also: State::Before,
        least: 4,
        most: 8,
    },
    Outcome {
        status: Status::ReadFailed,
        held: State::After,
        also: State::Front,
        least: 2,
        most: 4,
    },
];

#[test]
fn a_failing_read_makes_neither_file_or_a_prefix_of_the_second(rt: HostRuntime) {
    assert!(rt; fail_so(&rt, &BOTH, &SPLIT, &FailingCall::Read("F"), 12, &IN_DEBUG));
}
