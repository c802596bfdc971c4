//! What unstrip leaves: the file of what two halves are halves of, or a message or a fault and none.

use elf_types::Shdr;
use elf_types::constants::{SHF_ALLOC, SHT_PROGBITS, SHT_STRTAB};
use test_kit_images::{
    Field, HeaderField, ImageStart, NARROW_OBJECT, NULL_SECTION, OBJECT, Put, Recipe, SectionField,
    WIDE,
};
use test_kit_runs::cases::{
    Case, Earlier, FailingCall, FoundFile, HeldAfter, Outcome, RUN, State, Stored, are_so, fail_so,
};
use test_kit_runs::{DONE, Ending, Failing, NOTHING, REFUSED};
use tool_output::Status;

/// A file X, which is there before each run.
static OLD: [FoundFile; 1] = [FoundFile {
    name: "X",
    stored: Stored::Bytes(b"old"),
}];

/// A run over files O and D that are both the object with two symbols, which leaves the file X as it
/// was.
const KEPT: Case = Case {
    line: "unstrip -o X O D",
    names: ("O", "D"),
    file: Stored::Image(OBJECT),
    script: Stored::Image(OBJECT),
    name: "X",
    held: HeldAfter::Before,
    ..RUN
};

// ---- Halves that are joined

/// The stripped half of the object.
const STRIPPED: Earlier = Earlier {
    line: "strip -f D -o O F",
    file: OBJECT,
    script: b"",
    name: "O",
};

/// Its debug half.
const DEBUG: Earlier = Earlier {
    name: "D",
    ..STRIPPED
};

/// The halves of the object in class 32, the greatest byte first.
const NARROW_STRIPPED: Earlier = Earlier {
    file: NARROW_OBJECT,
    ..STRIPPED
};

const NARROW_DEBUG: Earlier = Earlier {
    name: "D",
    ..NARROW_STRIPPED
};

/// An object with debug data, section 2, which strip removes by its name.
const DEBUGGED: Recipe = Recipe {
    form: WIDE,
    start: ImageStart::Table(96, 3, 1),
    puts: &[
        Put::Sections(&[
            NULL_SECTION,
            Shdr {
                stype: SHT_STRTAB,
                offset: 64,
                size: 8,
                addralign: 1,
                ..NULL_SECTION
            },
            Shdr {
                name: 1,
                stype: SHT_PROGBITS,
                offset: 72,
                size: 4,
                addralign: 1,
                ..NULL_SECTION
            },
        ]),
        Put::Bytes(64, b"\0.debug\0data"),
    ],
};

/// Its halves.
const DATA_STRIPPED: Earlier = Earlier {
    file: DEBUGGED,
    ..STRIPPED
};

const DATA_DEBUG: Earlier = Earlier {
    name: "D",
    ..DATA_STRIPPED
};

/// An object whose data is loaded, section 2, after its names.
const LOADED_DATA: Recipe = Recipe {
    form: WIDE,
    start: ImageStart::Table(80, 3, 1),
    puts: &[
        Put::Sections(&[
            NULL_SECTION,
            Shdr {
                stype: SHT_STRTAB,
                offset: 64,
                size: 8,
                addralign: 1,
                ..NULL_SECTION
            },
            Shdr {
                name: 1,
                stype: SHT_PROGBITS,
                flags: SHF_ALLOC,
                offset: 72,
                size: 4,
                addralign: 1,
                ..NULL_SECTION
            },
        ]),
        Put::Bytes(64, b"\0.data\0\0data"),
    ],
};

/// Its halves, of which the first has the data and the second the names.
const LOADED_STRIPPED: Earlier = Earlier {
    file: LOADED_DATA,
    ..STRIPPED
};

const LOADED_DEBUG: Earlier = Earlier {
    name: "D",
    ..LOADED_STRIPPED
};

/// The halves of the object with loaded sections are joined to it.
const LOADED_JOINED: Case = Case {
    file: Stored::Left(LOADED_STRIPPED),
    script: Stored::Left(LOADED_DEBUG),
    held: HeldAfter::Now(Stored::Image(LOADED_DATA)),
    ..KEPT
};

/// The halves of the object are joined to it.
const JOINED: Case = Case {
    file: Stored::Left(STRIPPED),
    script: Stored::Left(DEBUG),
    held: HeldAfter::Now(Stored::Image(OBJECT)),
    ..KEPT
};

/// Halves of objects in both classes are joined to these; where nothing is loaded, they are joined
/// to the debug half; what is loaded is copied out of the stripped half and the rest out of the
/// debug half; and an object is both halves of itself.
static WHOLE: [Case; 6] = [
    JOINED,
    Case {
        file: Stored::Left(NARROW_STRIPPED),
        script: Stored::Left(NARROW_DEBUG),
        held: HeldAfter::Now(Stored::Image(NARROW_OBJECT)),
        ..KEPT
    },
    Case {
        file: Stored::Left(DATA_STRIPPED),
        script: Stored::Left(DATA_DEBUG),
        held: HeldAfter::Now(Stored::Left(DATA_DEBUG)),
        ..KEPT
    },
    LOADED_JOINED,
    Case {
        file: Stored::Image(LOADED_DATA),
        script: Stored::Image(LOADED_DATA),
        ..LOADED_JOINED
    },
    Case {
        held: HeldAfter::Now(Stored::Image(OBJECT)),
        ..KEPT
    },
];

#[test]
fn what_was_split_is_merged(rt: HostRuntime) {
    assert!(rt; are_so(&rt, &OLD, &WHOLE));
}

// ---- Messages

/// The first file that is not there, or is no image, has the message.
static UNOPENED: [Case; 5] = [
    Case {
        line: "unstrip -o X G E",
        ending: Ending {
            err: b"unstrip: G: not found\n",
            ..REFUSED
        },
        ..KEPT
    },
    Case {
        line: "unstrip -o X O G",
        ending: Ending {
            err: b"unstrip: G: not found\n",
            ..REFUSED
        },
        ..KEPT
    },
    Case {
        line: "unstrip -o X O G",
        file: Stored::Changed(OBJECT, Put::Length(2)),
        ending: Ending {
            err: b"unstrip: O: too short\n",
            ..REFUSED
        },
        ..KEPT
    },
    Case {
        script: Stored::Changed(OBJECT, Put::Length(2)),
        ending: Ending {
            err: b"unstrip: D: too short\n",
            ..REFUSED
        },
        ..KEPT
    },
    Case {
        script: Stored::Changed(OBJECT, Put::Bytes(0, b"!<arch>\n")),
        ending: Ending {
            err: b"unstrip: D: not an ELF image\n",
            ..REFUSED
        },
        ..KEPT
    },
];

#[test]
fn the_first_file_that_is_missing_or_no_image_has_the_message(rt: HostRuntime) {
    assert!(rt; are_so(&rt, &OLD, &UNOPENED));
}

/// The object whose symbols are allocated.
const LOADED: Recipe = Recipe {
    puts: &[Put::Field(Field::Section(2, SectionField::Flags), 2)],
    ..OBJECT
};

/// The symbols are out of the file.
const SYMBOLS_OUT: Put = Put::Field(Field::Section(2, SectionField::Offset), u64::MAX);

/// Two files that do not match.
const MISMATCH: Ending = Ending {
    err: b"unstrip: O: files do not match\n",
    ..REFUSED
};

/// Files that do not match, each other refusal under the file that it is of, and the update.
static UNJOINED: [Case; 7] = [
    Case {
        file: Stored::Image(Recipe {
            start: ImageStart::HeaderAlone,
            ..OBJECT
        }),
        ending: MISMATCH,
        ..KEPT
    },
    Case {
        script: Stored::Changed(OBJECT, Put::Field(Field::Header(HeaderField::Entry), 1)),
        ending: MISMATCH,
        ..KEPT
    },
    Case {
        file: Stored::Image(LOADED),
        ending: MISMATCH,
        ..KEPT
    },
    Case {
        file: Stored::Changed(LOADED, SYMBOLS_OUT),
        script: Stored::Image(LOADED),
        ending: Ending {
            err: b"unstrip: O: section 2 out of file\n",
            ..REFUSED
        },
        ..KEPT
    },
    Case {
        script: Stored::Changed(OBJECT, SYMBOLS_OUT),
        ending: Ending {
            err: b"unstrip: D: section 2 out of file\n",
            ..REFUSED
        },
        ..KEPT
    },
    Case {
        script: Stored::Changed(OBJECT, Put::Field(Field::Header(HeaderField::Shstrndx), 9)),
        ending: Ending {
            err: b"unstrip: D: no section 9 of 3\n",
            ..REFUSED
        },
        ..KEPT
    },
    Case {
        script: Stored::Changed(
            OBJECT,
            Put::Field(Field::Section(2, SectionField::Addralign), 1 << 41),
        ),
        ending: Ending {
            err: b"unstrip: O: too large\n",
            ..REFUSED
        },
        ..KEPT
    },
];

#[test]
fn what_is_not_merged_makes_no_file(rt: HostRuntime) {
    assert!(rt; are_so(&rt, &OLD, &UNJOINED));
}

/// The usage line of unstrip.
const USAGE: Ending = Ending {
    status: Status::BadWords,
    err: b"usage: elfkit unstrip -o OUT STRIPPED DEBUG\n",
    ..DONE
};

/// Two of the three names are the same.
static SAME_NAMES: [Case; 3] = [
    Case {
        line: "unstrip -o O O D",
        ending: USAGE,
        ..KEPT
    },
    Case {
        line: "unstrip -o D O D",
        ending: USAGE,
        ..KEPT
    },
    Case {
        line: "unstrip -o X O O",
        ending: USAGE,
        ..KEPT
    },
];

#[test]
fn no_two_names_are_the_same_argument(rt: HostRuntime) {
    assert!(rt; are_so(&rt, &OLD, &SAME_NAMES));
}

// ---- Calls that fail

/// A run that joins the halves of the object, of which calls fail.
static JOINING: Case = Case { ..JOINED };

/// A run over the halves of the object that makes no file.
const STOPPED: Case = Case {
    held: HeldAfter::Before,
    ..JOINED
};

/// A read failed.
const UNREAD: Ending = Ending {
    status: Status::ReadFailed,
    ..DONE
};

/// The one or the other half is not handed out, or the new file; and files want more memory than
/// there is.
static FAULTS: [Case; 4] = [
    Case {
        failing: Failing { open: 1, ..NOTHING },
        ending: UNREAD,
        ..STOPPED
    },
    Case {
        failing: Failing { open: 2, ..NOTHING },
        ending: UNREAD,
        ..STOPPED
    },
    Case {
        failing: Failing { open: 3, ..NOTHING },
        ending: Ending {
            status: Status::WriteFailed,
            ..DONE
        },
        ..STOPPED
    },
    Case {
        failing: Failing {
            memory: true,
            ..NOTHING
        },
        ending: Ending {
            status: Status::NoMemory,
            ..DONE
        },
        ..STOPPED
    },
];

/// The first write stops a run with a prefix in the new file.
static FRONT: [Outcome; 1] = [Outcome {
    status: Status::WriteFailed,
    held: State::Front,
    also: State::Any,
    least: 1,
    most: 1,
}];

#[test]
fn a_failing_call_leaves_the_old_file_or_a_prefix(rt: HostRuntime) {
    assert!(rt; are_so(&rt, &OLD, &FAULTS));
    assert!(rt; fail_so(&rt, &OLD, &JOINING, &FailingCall::Made, 1, &FRONT));
}

/// A run that joins the halves of the object whose data is loaded, of which reads fail.
static COPYING: Case = Case { ..LOADED_JOINED };

/// A read of the one or the other half stops a run before it makes the file; or in that, where the
/// bytes of the half are copied, with a prefix in it.
static HALF_UNREAD: [Outcome; 2] = [
    Outcome {
        status: Status::ReadFailed,
        held: State::Before,
        also: State::Any,
        least: 2,
        most: 5,
    },
    Outcome {
        status: Status::ReadFailed,
        held: State::Front,
        also: State::Any,
        least: 1,
        most: 1,
    },
];

#[test]
fn a_failing_read_of_either_file_leaves_the_old_file_or_a_prefix(rt: HostRuntime) {
    assert!(rt;
        fail_so(
            &rt,
            &OLD,
            &COPYING,
            &FailingCall::Read("O"),
            6,
            &HALF_UNREAD
        )
    );
    assert!(rt;
        fail_so(
            &rt,
            &OLD,
            &COPYING,
            &FailingCall::Read("D"),
            6,
            &HALF_UNREAD
        )
    );
}
