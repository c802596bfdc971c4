//! The rows of nm: their forms by the options, and the letters of symbols.

use crate::nm::SAME;
use test_kit_images::{Field, OBJECT, Put, Recipe, SectionField};
use test_kit_runs::cases::{Case, Stored, are_so};
use test_kit_runs::{DONE, Ending};

/// Where the fields of the symbol are in the object of class 64.
const NAME: u64 = 96;

const INFO: u64 = 100;

const SHNDX: u64 = 102;

/// The object, section 1 of which has the flags of code.
const CODE: Recipe = Recipe {
    puts: &[Put::Field(Field::Section(1, SectionField::Flags), 6)],
    ..OBJECT
};

/// The object, section 1 of which has the flags of data.
const DATA: Recipe = Recipe {
    puts: &[Put::Field(Field::Section(1, SectionField::Flags), 3)],
    ..OBJECT
};

/// The object, section 1 of which has the flags of constants.
const CONSTANTS: Recipe = Recipe {
    puts: &[Put::Field(Field::Section(1, SectionField::Flags), 2)],
    ..OBJECT
};

/// The row by its options.
static OPTIONS: [Case; 9] = [
    Case {
        ending: Ending {
            out: b"0000000000001000 A a\n",
            ..DONE
        },
        ..SAME
    },
    Case {
        line: "nm -P F",
        ending: Ending {
            out: b"a A 1000 4\n",
            ..DONE
        },
        ..SAME
    },
    Case {
        line: "nm -t d F",
        ending: Ending {
            out: b"0000000000004096 A a\n",
            ..DONE
        },
        ..SAME
    },
    Case {
        line: "nm -t o F",
        ending: Ending {
            out: b"0000000000010000 A a\n",
            ..DONE
        },
        ..SAME
    },
    Case {
        line: "nm -Pt d F",
        ending: Ending {
            out: b"a A 4096 4\n",
            ..DONE
        },
        ..SAME
    },
    Case {
        line: "nm -A F",
        ending: Ending {
            out: b"F: 0000000000001000 A a\n",
            ..DONE
        },
        ..SAME
    },
    Case {
        line: "nm -AP F",
        ending: Ending {
            out: b"F: a A 1000 4\n",
            ..DONE
        },
        ..SAME
    },
    Case {
        line: "nm -v F",
        ending: Ending {
            out: b"0000000000001000 A a\n",
            ..DONE
        },
        ..SAME
    },
    Case {
        line: "nm -u F",
        ..SAME
    },
];

#[test]
fn rows_follow_the_options(rt: HostRuntime) {
    assert!(rt; are_so(&rt, &[], &OPTIONS));
}

/// Its letter by the type and the binding of the symbol, and symbols that are not listed.
static BINDINGS: [Case; 12] = [
    Case {
        file: Stored::Changed(OBJECT, Put::Bytes(INFO, b"\x02")),
        ending: Ending {
            out: b"0000000000001000 a a\n",
            ..DONE
        },
        ..SAME
    },
    Case {
        line: "nm -g F",
        file: Stored::Changed(OBJECT, Put::Bytes(INFO, b"\x02")),
        ..SAME
    },
    Case {
        file: Stored::Changed(OBJECT, Put::Bytes(INFO, b"\x22")),
        ending: Ending {
            out: b"0000000000001000 W a\n",
            ..DONE
        },
        ..SAME
    },
    Case {
        file: Stored::Changed(OBJECT, Put::Bytes(INFO, b"\x21")),
        ending: Ending {
            out: b"0000000000001000 V a\n",
            ..DONE
        },
        ..SAME
    },
    Case {
        file: Stored::Changed(OBJECT, Put::Bytes(INFO, b"\xa2")),
        ending: Ending {
            out: b"0000000000001000 u a\n",
            ..DONE
        },
        ..SAME
    },
    Case {
        file: Stored::Changed(OBJECT, Put::Bytes(INFO, b"\x1a")),
        ending: Ending {
            out: b"0000000000001000 i a\n",
            ..DONE
        },
        ..SAME
    },
    Case {
        file: Stored::Changed(OBJECT, Put::Bytes(INFO, b"\x13")),
        ..SAME
    },
    Case {
        file: Stored::Changed(OBJECT, Put::Bytes(INFO, b"\x14")),
        ..SAME
    },
    Case {
        file: Stored::Changed(OBJECT, Put::Bytes(INFO, b"\x12\0\0\0")),
        ending: Ending {
            out: b"                 U a\n",
            ..DONE
        },
        ..SAME
    },
    Case {
        file: Stored::Changed(OBJECT, Put::Bytes(INFO, b"\x22\0\0\0")),
        ending: Ending {
            out: b"                 w a\n",
            ..DONE
        },
        ..SAME
    },
    Case {
        line: "nm -Pu F",
        file: Stored::Changed(OBJECT, Put::Bytes(INFO, b"\x21\0\0\0")),
        ending: Ending {
            out: b"a v\n",
            ..DONE
        },
        ..SAME
    },
    Case {
        line: "nm -t o F",
        file: Stored::Changed(OBJECT, Put::Bytes(INFO, b"\x12\0\0\0")),
        ending: Ending {
            out: b"                 U a\n",
            ..DONE
        },
        ..SAME
    },
];

#[test]
fn rows_have_their_letters(rt: HostRuntime) {
    assert!(rt; are_so(&rt, &[], &BINDINGS));
}

/// Its letter by the section of the symbol; a name out of the table, and an empty one.
static SECTIONS: [Case; 9] = [
    Case {
        file: Stored::Changed(OBJECT, Put::Bytes(SHNDX, b"\xf2\xff")),
        ending: Ending {
            out: b"0000000000001000 C a\n",
            ..DONE
        },
        ..SAME
    },
    Case {
        file: Stored::Changed(OBJECT, Put::Bytes(SHNDX, b"\x09\0")),
        ending: Ending {
            out: b"0000000000001000 ? a\n",
            ..DONE
        },
        ..SAME
    },
    Case {
        file: Stored::Changed(OBJECT, Put::Bytes(SHNDX, b"\xff\xff")),
        ending: Ending {
            out: b"0000000000001000 ? a\n",
            ..DONE
        },
        ..SAME
    },
    Case {
        file: Stored::Changed(OBJECT, Put::Bytes(SHNDX, b"\x01\0")),
        ending: Ending {
            out: b"0000000000001000 N a\n",
            ..DONE
        },
        ..SAME
    },
    Case {
        file: Stored::Changed(CODE, Put::Bytes(SHNDX, b"\x01\0")),
        ending: Ending {
            out: b"0000000000001000 T a\n",
            ..DONE
        },
        ..SAME
    },
    Case {
        file: Stored::Changed(DATA, Put::Bytes(SHNDX, b"\x01\0")),
        ending: Ending {
            out: b"0000000000001000 D a\n",
            ..DONE
        },
        ..SAME
    },
    Case {
        file: Stored::Changed(CONSTANTS, Put::Bytes(SHNDX, b"\x01\0")),
        ending: Ending {
            out: b"0000000000001000 R a\n",
            ..DONE
        },
        ..SAME
    },
    Case {
        file: Stored::Changed(OBJECT, Put::Bytes(NAME, b"\x03")),
        ending: Ending {
            out: b"0000000000001000 A <none>\n",
            ..DONE
        },
        ..SAME
    },
    Case {
        file: Stored::Changed(OBJECT, Put::Bytes(NAME, b"\x02")),
        ..SAME
    },
];

#[test]
fn letters_are_those_of_sections(rt: HostRuntime) {
    assert!(rt; are_so(&rt, &[], &SECTIONS));
}
