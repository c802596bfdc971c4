//! What the self test shows and what it leaves: five lines, and the image that it makes.

use crate::calls::OLD;
use elf_outside::MemFiles;
use elf_types::constants::{SHF_ALLOC, SHT_PROGBITS, SHT_STRTAB, SHT_SYMTAB};
use elf_types::{Addrs, ElfError, NULL_SECTION, Octets, Shdr, Sym};
use std::alloc::Global;
use test_kit_images::{Content, ImageStart, Put, Recipe, WIDE};
use test_kit_rows::{failed, in_row, same};
use test_kit_runs::cases::{Case, HeldAfter, RUN, Stored, are_so};
use test_kit_runs::{DONE, Ending, Failing, GivenFiles, NOTHING, run_leaving};
use tool_output::Status;

/// The image of one section with data: that section, the symbols, each with 1 added to its value,
/// their names, and the sections' names.
const ONE: Recipe = Recipe {
    form: WIDE,
    start: ImageStart::Table(160, 5, 4),
    puts: &[
        Put::Bytes(64, &[1, 1]),
        Put::Content(
            72,
            Content::Syms(&[
                Sym {
                    name: 0,
                    info: 0,
                    other: 0,
                    shndx: 0,
                    value: 1,
                    size: 0,
                },
                Sym {
                    name: 1,
                    info: 0x11,
                    other: 0,
                    shndx: 1,
                    value: 4,
                    size: 2,
                },
            ]),
        ),
        Put::Bytes(120, b"\0y1\0"),
        Put::Bytes(124, b"\0.s1\0.symtab\0.strtab\0.shstrtab\0"),
        Put::Sections(&[
            NULL_SECTION,
            Shdr {
                name: 1,
                stype: SHT_PROGBITS,
                flags: SHF_ALLOC,
                offset: 64,
                size: 2,
                addralign: 1,
                ..NULL_SECTION
            },
            Shdr {
                name: 5,
                stype: SHT_SYMTAB,
                offset: 72,
                size: 48,
                link: 3,
                info: 1,
                addralign: 8,
                entsize: 24,
                ..NULL_SECTION
            },
            Shdr {
                name: 13,
                stype: SHT_STRTAB,
                offset: 120,
                size: 4,
                addralign: 1,
                ..NULL_SECTION
            },
            Shdr {
                name: 21,
                stype: SHT_STRTAB,
                offset: 124,
                size: 31,
                addralign: 1,
                ..NULL_SECTION
            },
        ]),
    ],
};

/// What is shown of it.
const ONE_LINES: &[u8] = b"sections 5\nsymbols 2\nbytes 480\nvalue sum 5\nfound 1\n";

/// A run of the self test with one section, which leaves its image.
const MADE: Case = Case {
    line: "selftest -o O 1",
    ending: TOLD,
    held: HeldAfter::Now(Stored::Image(ONE)),
    ..RUN
};

/// The lines are shown.
const TOLD: Ending = Ending {
    out: ONE_LINES,
    ..DONE
};

/// A write failed, and nothing is shown.
const UNWRITTEN: Ending = Ending {
    status: Status::WriteFailed,
    ..DONE
};

/// A read failed, and nothing is shown.
const UNREAD: Ending = Ending {
    status: Status::ReadFailed,
    ..DONE
};

/// Runs where the name O is not there: no call fails, O is not made, O is not handed out again, and
/// the put of the lines fails.
static FIRST: [Case; 4] = [
    MADE,
    Case {
        failing: Failing { open: 1, ..NOTHING },
        ending: UNWRITTEN,
        held: HeldAfter::Before,
        ..MADE
    },
    Case {
        failing: Failing { open: 2, ..NOTHING },
        ending: UNREAD,
        ..MADE
    },
    Case {
        failing: Failing { out: 1, ..NOTHING },
        ending: UNWRITTEN,
        ..MADE
    },
];

/// Runs where O is there: no call fails, O is not made, and O can not be written.
static AGAIN: [Case; 3] = [
    MADE,
    Case {
        failing: Failing { open: 1, ..NOTHING },
        ending: UNWRITTEN,
        held: HeldAfter::Before,
        ..MADE
    },
    Case {
        failing: Failing {
            write: 1,
            ..NOTHING
        },
        ending: UNWRITTEN,
        held: HeldAfter::Now(Stored::Bytes(b"")),
        ..MADE
    },
];

#[test]
fn one_section_is_reported_and_each_fault_has_its_status(rt: HostRuntime) {
    assert!(rt; are_so(&rt, &[], &FIRST));
    assert!(rt; are_so(&rt, &OLD, &AGAIN));
}

/// No file, in a set of files in which each has room for eight megabytes.
#[derive(Clone, Copy)]
struct Roomy;

impl GivenFiles for Roomy {
    fn add_to(&self, alloc: Global, files: &mut MemFiles) -> Result<(), ElfError> {
        *files = MemFiles::new(alloc, 1 << 23, Addrs::new(alloc), Addrs::new(alloc));
        Ok(())
    }
}

/// The words, what is shown, and how many bytes the image has.
type Size = (&'static str, &'static [u8], u64);

/// Eight sections with data, and as many as there may be.
static SIZES: [Size; 2] = [
    (
        "selftest -o O 8",
        b"sections 12\nsymbols 9\nbytes 1168\nvalue sum 180\nfound 8\n",
        1168,
    ),
    (
        "selftest -o O 60000",
        b"sections 60004\nsymbols 60001\nbytes 6398160\nvalue sum 9000150000\nfound 60000\n",
        6398160,
    ),
];

/// Whether a name holds so many bytes.
fn has_length(rt: &HostRuntime, held: &Option<Octets>, length: u64) -> bool {
    match held {
        Some(bytes) => same(rt, &bytes.len(), &length),
        None => false,
    }
}

/// Whether a run of these arguments shows and leaves so much.
fn is_size(rt: &HostRuntime, size: &Size) -> bool {
    let (line, out, length) = *size;
    match run_leaving(rt.alloc(), line, &Roomy, NOTHING, "O") {
        Ok(left) => left.ran.is(rt, &Ending { out, ..DONE }) && has_length(rt, &left.held, length),
        Err(e) => failed(rt, e),
    }
}

/// Whether each run shows and leaves what it should.
fn are_sizes(rt: &HostRuntime, sizes: &[Size]) -> bool {
    for (n, size) in sizes.iter().enumerate() {
        if !in_row(rt, n, is_size(rt, size)) {
            return false;
        }
    }
    true
}

#[test]
fn up_to_60000_sections_are_reported(rt: HostRuntime) {
    assert!(rt; are_sizes(&rt, &SIZES));
}
