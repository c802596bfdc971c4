//! The images that the calls of a script leave, told byte by byte.

use crate::calls::{OLD, SCRIPTED};
use elf_types::constants::{SHT_PROGBITS, SHT_STRTAB, SHT_SYMTAB};
use elf_types::{Shdr, Sym};
use test_kit_images::{
    Content, Field, HeaderField, ImageStart, NARROW_OBJECT, NULL_SECTION, OBJECT, Put, Recipe,
    SectionField,
};
use test_kit_runs::cases::{Case, HeldAfter, Stored, are_so};
use test_kit_runs::{DONE, Ending, REFUSED};

/// A symbol of zeros.
const ZERO: Sym = Sym {
    name: 0,
    info: 0,
    other: 0,
    shndx: 0,
    value: 0,
    size: 0,
};

/// The second symbol of the object with two: an absolute function of 4 bytes.
const FUNCTION: Sym = Sym {
    name: 1,
    info: 0x12,
    shndx: 0xfff1,
    value: 0x1000,
    size: 4,
    ..ZERO
};

/// The strings of that object, after its header.
const STRINGS: Shdr = Shdr {
    stype: SHT_STRTAB,
    offset: 64,
    size: 3,
    addralign: 1,
    ..NULL_SECTION
};

/// Its symbols.
const SYMBOLS: Shdr = Shdr {
    stype: SHT_SYMTAB,
    offset: 72,
    size: 48,
    link: 1,
    info: 1,
    addralign: 8,
    entsize: 24,
    ..NULL_SECTION
};

/// The object with five bytes after it.
const TAILED: Recipe = Recipe {
    puts: &[Put::Bytes(312, b"tail\n")],
    ..OBJECT
};

/// Its symbols' values are raised by 16.
const RAISED: Case = Case {
    script: Stored::Bytes(b"addall 2 0 16\n"),
    ending: Ending {
        out: b"changed 2\nsize 312\n",
        ..DONE
    },
    held: HeldAfter::Now(Stored::Image(Recipe {
        puts: &[Put::Bytes(80, b"\x10"), Put::Bytes(104, b"\x10")],
        ..OBJECT
    })),
    ..SCRIPTED
};

/// Values that do not fit class 32 reject the update, until they fit again.
const UNFIT: Case = Case {
    file: Stored::Image(NARROW_OBJECT),
    script: Stored::Bytes(
        b"set sym 2 0 1 value 4294967296\naddall 2 0 4294967296\nnull\n\
        addall 2 0 0xffffffff00000000\nnull\n",
    ),
    ending: Ending {
        out: b"refused unfit piece 2 0 index 1\nchanged 2\nrefused unfit piece 2 0 index 0\n\
            changed 2\nsize 208\nsize 208\n",
        ..REFUSED
    },
    held: HeldAfter::Now(Stored::Image(NARROW_OBJECT)),
    ..SCRIPTED
};

/// Where nothing is dirty, what follows the parts is copied.
const COPIED: Case = Case {
    file: Stored::Image(TAILED),
    script: Stored::Bytes(b""),
    ending: Ending {
        out: b"size 317\n",
        ..DONE
    },
    held: HeldAfter::Now(Stored::Image(TAILED)),
    ..SCRIPTED
};

/// Under the caller's layout it is kept.
const KEPT: Case = Case {
    file: Stored::Image(TAILED),
    script: Stored::Bytes(
        b"flag object set 4\nflag object set 4\nflag object clear 4\nflag object clear 1\n\
        flag object set 4\nflag header set 1\n",
    ),
    ending: Ending {
        out: b"flags 0x4\nflags 0x4\nflags 0x0\nrefused flag kept\nflags 0x4\nflags 0x1\n\
            size 317\n",
        ..REFUSED
    },
    held: HeldAfter::Now(Stored::Image(TAILED)),
    ..SCRIPTED
};

/// Without it, it is left out.
const LEFT_OUT: Case = Case {
    file: Stored::Image(TAILED),
    script: Stored::Bytes(b"flag object set 4\nflag object clear 4\nflag header set 1\n"),
    ending: Ending {
        out: b"flags 0x4\nflags 0x0\nflags 0x1\nsize 312\n",
        ..DONE
    },
    held: HeldAfter::Now(Stored::Image(OBJECT)),
    ..SCRIPTED
};

/// A section that shares a byte with another one is rejected, and follows right after it.
const MOVED: Case = Case {
    script: Stored::Bytes(
        b"flag object set 4\nset shdr 2 offset 66\nnull\nset shdr 2 offset 67\nnull\n",
    ),
    ending: Ending {
        out: b"flags 0x4\nok\nrefused overlap section 1 section 2\nok\nsize 312\nsize 312\n",
        ..REFUSED
    },
    held: HeldAfter::Now(Stored::Image(Recipe {
        puts: &[
            Put::Field(Field::Section(2, SectionField::Offset), 67),
            Put::Content(67, Content::Syms(&[ZERO, FUNCTION])),
        ],
        ..OBJECT
    })),
    ..SCRIPTED
};

/// A section and a program header are added.
const ADDED: Case = Case {
    script: Stored::Bytes(
        b"newscn\nset shdr 3 type 1\nset shdr 3 addralign 4\nnewdata 3 0102\nnewphdr 1\nnull\n\
        shdr 3\n",
    ),
    ending: Ending {
        out: b"section 3\nok\nok\npiece 3 0\nok\nsize 440\n\
            shdr name 0 type 0x1 flags 0x0 addr 0x0 offset 0xb0 size 0x2 link 0 info 0 \
            addralign 4 entsize 0\nsize 440\n",
        ..DONE
    },
    held: HeldAfter::Now(Stored::Image(Recipe {
        start: ImageStart::Table(184, 4, 1),
        puts: &[
            Put::Field(Field::Header(HeaderField::Phoff), 64),
            Put::Field(Field::Header(HeaderField::Phentsize), 56),
            Put::Field(Field::Header(HeaderField::Phnum), 1),
            Put::Sections(&[
                NULL_SECTION,
                Shdr {
                    offset: 120,
                    ..STRINGS
                },
                Shdr {
                    offset: 128,
                    ..SYMBOLS
                },
                Shdr {
                    stype: SHT_PROGBITS,
                    offset: 176,
                    size: 2,
                    addralign: 4,
                    ..NULL_SECTION
                },
            ]),
            Put::Bytes(120, b"\0a\0"),
            Put::Content(128, Content::Syms(&[ZERO, FUNCTION])),
            Put::Bytes(176, b"\x01\x02"),
        ],
        ..OBJECT
    })),
    ..SCRIPTED
};

/// Pieces and sections have the fill byte between them.
const FILLED: Case = Case {
    script: Stored::Bytes(b"fill 0xaa\nnewdata 1 62 8\nstr 1 4\nstr 1 8\nnewdata 1 62 3\n"),
    ending: Ending {
        out: b"ok\npiece 1 1\nrefused no string at 4 of 9\nrefused string at 8 has no end\n\
            refused bad alignment 3\nsize 320\n",
        ..REFUSED
    },
    held: HeldAfter::Now(Stored::Image(Recipe {
        start: ImageStart::Table(128, 3, 1),
        puts: &[
            Put::Sections(&[
                NULL_SECTION,
                Shdr { size: 9, ..STRINGS },
                Shdr {
                    offset: 80,
                    ..SYMBOLS
                },
            ]),
            Put::Bytes(
                64,
                b"\0a\0\xaa\xaa\xaa\xaa\xaab\xaa\xaa\xaa\xaa\xaa\xaa\xaa",
            ),
            Put::Content(80, Content::Syms(&[ZERO, FUNCTION])),
        ],
        ..OBJECT
    })),
    ..SCRIPTED
};

/// Images of which nothing is edited, or items alone.
static KEEPING: [Case; 5] = [COPIED, KEPT, LEFT_OUT, RAISED, UNFIT];

/// Images whose parts are placed again.
static PLACING: [Case; 3] = [MOVED, ADDED, FILLED];

#[test]
fn what_is_not_edited_is_in_the_image(rt: HostRuntime) {
    assert!(rt; are_so(&rt, &OLD, &KEEPING));
}

#[test]
fn parts_are_in_the_image_where_they_are_placed(rt: HostRuntime) {
    assert!(rt; are_so(&rt, &OLD, &PLACING));
}
