//! What readelf shows, and which fronts it rejects.

use elf_types::constants::{EI_CLASS, EI_DATA, EI_VERSION, PN_XNUM, SHN_XINDEX};
use elf_types::{Class, Order, Phdr};
use test_kit_images::{
    ClassAndOrder, Field, HeaderField, ImageStart, NARROW, OBJECT, Put, Recipe, SectionField,
};
use test_kit_runs::cases::{Case, RUN, Stored, are_so, are_so_in_all_forms, is_so};
use test_kit_runs::{DONE, Ending, REFUSED};

/// The header of an executable that has nothing else.
const HEADER: &[u8] = b"ELF header\n  class: 64\n  order: least\n  osabi: 0\n  abiversion: 0\n  \
      type: EXEC\n  machine: X86_64\n  version: 1\n  entry: 0x401000\n  phoff: 0\n  \
      shoff: 0\n  flags: 0x0\n  ehsize: 64\n  phentsize: 0\n  phnum: 0\n  \
      shentsize: 0\n  shnum: 0\n  shstrndx: 0\n";

/// The header of an object of class 32, the greatest byte first, and its program headers.
const NARROW_LINES: &[u8] =
    b"ELF header\n  class: 32\n  order: greatest\n  osabi: 0\n  abiversion: 0\n  \
      type: REL\n  machine: X86_64\n  version: 1\n  entry: 0x0\n  phoff: 0\n  \
      shoff: 88\n  flags: 0x0\n  ehsize: 52\n  phentsize: 0\n  phnum: 0\n  \
      shentsize: 40\n  shnum: 3\n  shstrndx: 1\nProgram headers: 0\n";

/// The program header of a file of class 64.
const SEGMENT: &[u8] = b"Program headers: 1\n  \
      0 LOAD offset 0x1 vaddr 0x401000 paddr 0x2 filesz 0x78 memsz 0x90 \
      flags R-X+0x8 align 0x1000\n";

/// The program header that is shown.
const LOADED: Phdr = Phdr {
    ptype: 1,
    flags: 13,
    offset: 1,
    vaddr: 0x401000,
    paddr: 2,
    filesz: 0x78,
    memsz: 0x90,
    align: 0x1000,
};

/// Class 64, and the greatest byte first.
const WIDE_GREATEST: ClassAndOrder = (Class::C64, Order::Greatest);

/// Headers and program headers of three files.
static SHOWN: [Case; 3] = [
    Case {
        line: "readelf -h F",
        file: Stored::Image(Recipe {
            start: ImageStart::HeaderAlone,
            ..OBJECT
        }),
        ending: Ending {
            out: HEADER,
            ..DONE
        },
        ..RUN
    },
    Case {
        line: "readelf -hl F",
        file: Stored::Image(Recipe {
            form: NARROW,
            ..OBJECT
        }),
        ending: Ending {
            out: NARROW_LINES,
            ..DONE
        },
        ..RUN
    },
    Case {
        line: "readelf -l F",
        file: Stored::Image(Recipe {
            form: WIDE_GREATEST,
            start: ImageStart::Segments(&[LOADED]),
            puts: &[],
        }),
        ending: Ending {
            out: SEGMENT,
            ..DONE
        },
        ..RUN
    },
];

#[test]
fn headers_and_program_headers_are_shown_in_both_classes(rt: HostRuntime) {
    assert!(rt; are_so(&rt, &[], &SHOWN));
}

/// An object whose number of sections, and whose section of their names, are in section 0: both are
/// shown as they are.
static EXTENDED: Case = Case {
    line: "readelf -h F",
    file: Stored::Image(Recipe {
        puts: &[
            Put::Field(Field::Header(HeaderField::Shnum), 0),
            Put::Field(Field::Header(HeaderField::Shstrndx), SHN_XINDEX as u64),
            Put::Field(Field::Section(0, SectionField::Size), 3),
            Put::Field(Field::Section(0, SectionField::Link), 1),
        ],
        ..OBJECT
    }),
    ending: Ending {
        out: b"ELF header\n  class: 64\n  order: least\n  osabi: 0\n  abiversion: 0\n  \
            type: REL\n  machine: X86_64\n  version: 1\n  entry: 0x0\n  phoff: 0\n  \
            shoff: 120\n  flags: 0x0\n  ehsize: 64\n  phentsize: 0\n  phnum: 0\n  \
            shentsize: 64\n  shnum: 3\n  shstrndx: 1\n",
        ..DONE
    },
    ..RUN
};

#[test]
fn numbers_that_do_not_fit_stand_in_section_0(rt: HostRuntime) {
    assert!(rt; is_so(&rt, &[], &EXTENDED));
}

/// The message that rejects an image whose section headers do not lie in it.
const NO_SECTIONS: Ending = Ending {
    err: b"readelf: F: bad section header table\n",
    ..REFUSED
};

/// The message that rejects one whose program headers do not.
const NO_SEGMENTS: Ending = Ending {
    err: b"readelf: F: bad program header table\n",
    ..REFUSED
};

/// The header of an object.
const FRONT: Case = Case {
    line: "readelf -h F",
    file: Stored::Image(OBJECT),
    ending: NO_SECTIONS,
    ..RUN
};

/// Damage of the header's fields, in the order of the checks, and the message.
static DAMAGES: [Case; 12] = [
    Case {
        file: Stored::Changed(OBJECT, Put::Field(Field::Ident(0), 0x7e)),
        ending: Ending {
            err: b"readelf: F: not an ELF image\n",
            ..REFUSED
        },
        ..FRONT
    },
    Case {
        file: Stored::Changed(OBJECT, Put::Field(Field::Ident(EI_CLASS), 3)),
        ending: Ending {
            err: b"readelf: F: bad class\n",
            ..REFUSED
        },
        ..FRONT
    },
    Case {
        file: Stored::Changed(OBJECT, Put::Field(Field::Ident(EI_DATA), 0)),
        ending: Ending {
            err: b"readelf: F: bad byte order\n",
            ..REFUSED
        },
        ..FRONT
    },
    Case {
        file: Stored::Changed(OBJECT, Put::Field(Field::Ident(EI_VERSION), 2)),
        ending: Ending {
            err: b"readelf: F: bad version\n",
            ..REFUSED
        },
        ..FRONT
    },
    Case {
        file: Stored::Changed(OBJECT, Put::Field(Field::Header(HeaderField::Version), 2)),
        ending: Ending {
            err: b"readelf: F: bad version\n",
            ..REFUSED
        },
        ..FRONT
    },
    Case {
        file: Stored::Changed(OBJECT, Put::Field(Field::Header(HeaderField::Shoff), 0)),
        ..FRONT
    },
    Case {
        file: Stored::Changed(
            OBJECT,
            Put::Field(Field::Header(HeaderField::Shoff), 0xffff_ffff),
        ),
        ..FRONT
    },
    Case {
        file: Stored::Changed(
            OBJECT,
            Put::Field(Field::Header(HeaderField::Shoff), u64::MAX),
        ),
        ..FRONT
    },
    Case {
        file: Stored::Changed(
            OBJECT,
            Put::Field(Field::Header(HeaderField::Shentsize), 63),
        ),
        ..FRONT
    },
    Case {
        file: Stored::Changed(OBJECT, Put::Field(Field::Header(HeaderField::Shnum), 4)),
        ..FRONT
    },
    Case {
        file: Stored::Changed(OBJECT, Put::Field(Field::Header(HeaderField::Phnum), 1)),
        ending: NO_SEGMENTS,
        ..FRONT
    },
    Case {
        file: Stored::Changed(
            OBJECT,
            Put::Field(Field::Header(HeaderField::Phnum), PN_XNUM as u64),
        ),
        ending: NO_SEGMENTS,
        ..FRONT
    },
];

#[test]
fn damaged_headers_are_rejected_in_all_forms(rt: HostRuntime) {
    assert!(rt; are_so_in_all_forms(&rt, &[], &DAMAGES));
}

/// The message that rejects a file that ends before the header does.
const SHORT: Ending = Ending {
    err: b"readelf: F: too short\n",
    ..REFUSED
};

/// The first bytes of an object, up to three places in its header, and to one in its last section
/// header.
static CUTS: [Case; 4] = [
    Case {
        file: Stored::Changed(OBJECT, Put::Length(0)),
        ending: SHORT,
        ..FRONT
    },
    Case {
        file: Stored::Changed(OBJECT, Put::Length(15)),
        ending: SHORT,
        ..FRONT
    },
    Case {
        file: Stored::Changed(OBJECT, Put::Length(63)),
        ending: SHORT,
        ..FRONT
    },
    Case {
        file: Stored::Changed(OBJECT, Put::Length(311)),
        ..FRONT
    },
];

#[test]
fn files_that_are_cut_are_refused(rt: HostRuntime) {
    assert!(rt; are_so(&rt, &[], &CUTS));
}
