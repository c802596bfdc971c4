//! What strings shows of files and of images.

use elf_types::constants::{SHF_ALLOC, SHT_PROGBITS};
use elf_types::{ElfError, Octets, Shdr};
use test_kit_images::{Field, ImageStart, NULL_SECTION, Put, Recipe, SectionField, WIDE};
use test_kit_rows::{failed, in_row, same};
use test_kit_runs::cases::{Case, Portion, RUN, Stored, are_so};
use test_kit_runs::prelude::StringsOptions;
use test_kit_runs::{DONE, Ending, NOTHING, REFUSED, run_line, strings_of};
use tool_output::Status;
use tool_text::Radix;

/// Words, the bytes of the file F, and what is shown.
static SHOWN: [Case; 9] = [
    Case {
        line: "strings -t d F",
        file: Stored::Bytes(b"abc\0abcd\0a\tbc\0wxyz"),
        ending: Ending {
            out: b"      4 abcd\n      9 a\tbc\n     14 wxyz\n",
            ..DONE
        },
        ..RUN
    },
    Case {
        line: "strings -t o F",
        file: Stored::Bytes(b"\0\0\0\0\0\0\0\0abcd"),
        ending: Ending {
            out: b"     10 abcd\n",
            ..DONE
        },
        ..RUN
    },
    Case {
        line: "strings -t x F",
        file: Stored::Bytes(b"\0\0\0\0\0\0\0\0\0\0abcd\n"),
        ending: Ending {
            out: b"      a abcd\n",
            ..DONE
        },
        ..RUN
    },
    Case {
        line: "strings -t d F",
        file: Stored::Portions(&[Portion::Fill(0, 4094), Portion::Bytes(b"abcd")]),
        ending: Ending {
            out: b"   4094 abcd\n",
            ..DONE
        },
        ..RUN
    },
    Case {
        line: "strings F",
        file: Stored::Bytes(b"abc\x1fabcd\x7fabcde\x80"),
        ending: Ending {
            out: b"abcd\nabcde\n",
            ..DONE
        },
        ..RUN
    },
    Case {
        line: "strings -n 1 F",
        file: Stored::Bytes(b"a\0b\0\0cd"),
        ending: Ending {
            out: b"a\nb\ncd\n",
            ..DONE
        },
        ..RUN
    },
    Case {
        line: "strings -n 5 F",
        file: Stored::Bytes(b"abcd\0abcde"),
        ending: Ending {
            out: b"abcde\n",
            ..DONE
        },
        ..RUN
    },
    Case {
        line: "strings -a F",
        file: Stored::Bytes(b"\x7fELF\0four"),
        ending: Ending {
            out: b"four\n",
            ..DONE
        },
        ..RUN
    },
    Case {
        line: "strings F",
        file: Stored::Bytes(b""),
        ending: Ending { out: b"", ..DONE },
        ..RUN
    },
];

#[test]
fn runs_are_shown_with_their_places(rt: HostRuntime) {
    assert!(rt; are_so(&rt, &[], &SHOWN));
}

/// Appends so many bytes that are not printable, and then so many that are.
fn put_run(bytes: &mut Octets, gap: u64, len: u64) -> Result<(), ElfError> {
    for _ in 0..gap {
        bytes.push(0)?;
    }
    for _ in 0..len {
        bytes.push(b'x')?;
    }
    Ok(())
}

/// Whether so many bytes are shown of a file.
fn shows_bytes(rt: &HostRuntime, bytes: &Octets, count: u64) -> bool {
    match run_line(rt.alloc(), "strings F", bytes, NOTHING) {
        Ok(ran) => same(rt, &ran.out.len(), &count),
        Err(e) => failed(rt, e),
    }
}

/// Numbers of bytes before a run and in it, with the pieces of 65,536 bytes in which a file is read
/// ending in the run, before it and after it; and how many bytes are shown then.
static EDGES: [(u64, u64, u64); 6] = [
    (4094, 4, 5),
    (65535, 4, 5),
    (65533, 3, 0),
    (65533, 4, 5),
    (65532, 4, 5),
    (65000, 200_000, 200_001),
];

/// Whether so many are shown of one with a run.
fn shows_run(rt: &HostRuntime, edge: &(u64, u64, u64)) -> bool {
    let mut bytes = Octets::new(rt.alloc());
    match put_run(&mut bytes, edge.0, edge.1) {
        Ok(()) => shows_bytes(rt, &bytes, edge.2),
        Err(e) => failed(rt, e),
    }
}

/// Whether each run is shown so.
fn show_runs(rt: &HostRuntime, edges: &[(u64, u64, u64)]) -> bool {
    for (n, edge) in edges.iter().enumerate() {
        if !in_row(rt, n, shows_run(rt, edge)) {
            return false;
        }
    }
    true
}

#[test]
fn runs_go_over_the_edges_of_pieces(rt: HostRuntime) {
    assert!(rt; show_runs(&rt, &EDGES));
}

/// A section of eight bytes that takes memory in a process.
const LOADED: Shdr = Shdr {
    stype: SHT_PROGBITS,
    flags: SHF_ALLOC,
    size: 8,
    ..NULL_SECTION
};

/// An object of two sections that share four of their bytes. After them are bytes of none.
const SHARING: Recipe = Recipe {
    form: WIDE,
    start: ImageStart::Table(64, 3, 0),
    puts: &[
        Put::Sections(&[
            NULL_SECTION,
            Shdr {
                offset: 256,
                ..LOADED
            },
            Shdr {
                offset: 260,
                ..LOADED
            },
        ]),
        Put::Bytes(256, b"abcdefghijkl\0wxyz"),
    ],
};

/// A field of section 1, what is put there, and how strings ends then.
static HOMES: [Case; 4] = [
    Case {
        line: "strings -t d F",
        file: Stored::Changed(
            SHARING,
            Put::Field(Field::Section(1, SectionField::Size), 8),
        ),
        ending: Ending {
            status: Status::Done,
            out: b"    256 abcdefgh\n    260 efghijkl\n",
            err: b"",
        },
        ..RUN
    },
    Case {
        line: "strings -t d F",
        file: Stored::Changed(
            SHARING,
            Put::Field(Field::Section(1, SectionField::Size), 4),
        ),
        ending: Ending {
            status: Status::Done,
            out: b"    256 abcd\n    260 efghijkl\n",
            err: b"",
        },
        ..RUN
    },
    Case {
        line: "strings -t d F",
        file: Stored::Changed(
            SHARING,
            Put::Field(Field::Section(1, SectionField::Flags), 0),
        ),
        ending: Ending {
            status: Status::Done,
            out: b"    260 efghijkl\n",
            err: b"",
        },
        ..RUN
    },
    Case {
        line: "strings -t d F",
        file: Stored::Changed(
            SHARING,
            Put::Field(Field::Section(1, SectionField::Size), 18),
        ),
        ending: Ending {
            out: b"    260 efghijkl\n",
            err: b"strings: F: section 1 out of file\n",
            ..REFUSED
        },
        ..RUN
    },
];

#[test]
fn each_home_is_shown_by_itself(rt: HostRuntime) {
    assert!(rt; are_so(&rt, &[], &HOMES));
}

/// All bytes, runs of four, and their places in decimal.
const PLACED: StringsOptions = StringsOptions {
    all: true,
    least: 4,
    place: Some(Radix::Decimal),
};

/// Whether the own call of strings shows the runs of bytes.
fn own_call_shows_the_runs(rt: &HostRuntime) -> Result<bool, ElfError> {
    Ok(strings_of(rt.alloc(), b"abc\0abcd", &PLACED)?.is(rt, false, b"      4 abcd\n", b""))
}

#[test]
fn the_own_call_shows_runs_over_two_outputs(rt: HostRuntime) {
    assert!(rt; same(&rt, &own_call_shows_the_runs(&rt), &Ok(true)));
}
