//! What readelf shows of relocations, notes and version sections.

use elf_types::constants::{
    SHT_GNU_VERDEF, SHT_GNU_VERNEED, SHT_GNU_VERSYM, SHT_NOTE, SHT_REL, SHT_RELA,
};
use elf_types::{Rel, Rela, Shdr};
use test_kit_images::{
    Content, Field, HeaderField, NULL_SECTION, OBJECT, Put, Recipe, SectionField,
};
use test_kit_runs::cases::{Case, RUN, Stored, are_so, are_so_in_all_forms};
use test_kit_runs::{DONE, Ending, REFUSED};

/// The relocations, the notes and the versions of the object with two symbols.
const RECORDS: Case = Case {
    line: "readelf -rnV F",
    file: Stored::Image(OBJECT),
    ..RUN
};

/// A note, the least byte first.
const NOTE: &[u8] = b"\x04\0\0\0\x04\0\0\0\x03\0\0\0GNU\0\x01\x02\x03\x04";

/// A definition with one name.
const VERDEF: &[u8] = b"\x01\0\0\0\x01\0\x01\0\xcf\x6c\0\0\x14\0\0\0\0\0\0\0\x01\0\0\0\0\0\0\0";

/// One whose next would be the byte before it.
const BACKWARDS: &[u8] =
    b"\x01\0\0\0\x01\0\x01\0\xcf\x6c\0\0\x14\0\0\0\xff\xff\xff\xff\x01\0\0\0\0\0\0\0";

/// One that says it has two names, of which the first says that it is the last.
const SHORT_LIST: &[u8] = b"\x01\0\0\0\x01\0\x02\0\xcf\x6c\0\0\x14\0\0\0\0\0\0\0\x01\0\0\0\0\0\0\0";

/// The need of one version of a file.
const VERNEED: &[u8] = b"\x01\0\x01\0\x01\0\0\0\x10\0\0\0\0\0\0\0\
      \x91\x05\0\0\0\0\x02\0\x01\0\0\0\0\0\0\0";

/// What is shown of the definition.
const DEFINED: &[u8] = b"Version definitions of section 2 []\n  \
      def ndx 1 flags 0x0 hash 0x6ccf\n    name [a]\n";

/// The bytes of the second section, which links to the strings of the object, its type, and what is
/// said of it.
static ROWS: [Case; 11] = [
    Case {
        file: Stored::Image(Recipe {
            puts: &[
                Put::Home(2, Content::Bytes(NOTE)),
                Put::Field(Field::Section(2, SectionField::Type), SHT_NOTE as u64),
            ],
            ..OBJECT
        }),
        ending: Ending {
            out: b"Notes of section 2 []\n  owner [GNU] type 3 size 4 desc 01020304\n",
            ..DONE
        },
        ..RECORDS
    },
    Case {
        file: Stored::Image(Recipe {
            puts: &[
                Put::Home(2, Content::Bytes(b"\x04\0\0\0\0\0\0\0\x07\0\0\0abcd")),
                Put::Field(Field::Section(2, SectionField::Type), SHT_NOTE as u64),
            ],
            ..OBJECT
        }),
        ending: Ending {
            out: b"Notes of section 2 []\n  owner [abcd] type 7 size 0\n",
            ..DONE
        },
        ..RECORDS
    },
    Case {
        file: Stored::Image(Recipe {
            puts: &[
                Put::Home(
                    2,
                    Content::Bytes(b"\x04\0\0\0\x05\0\0\0\x03\0\0\0GNU\0\x01\x02\x03\x04"),
                ),
                Put::Field(Field::Section(2, SectionField::Type), SHT_NOTE as u64),
            ],
            ..OBJECT
        }),
        ending: Ending {
            out: b"Notes of section 2 []\n",
            err: b"readelf: F: section 2: bad chain at 0\n",
            ..REFUSED
        },
        ..RECORDS
    },
    Case {
        file: Stored::Image(Recipe {
            puts: &[
                Put::Home(2, Content::Bytes(VERDEF)),
                Put::Field(Field::Section(2, SectionField::Type), SHT_GNU_VERDEF as u64),
            ],
            ..OBJECT
        }),
        ending: Ending {
            out: DEFINED,
            ..DONE
        },
        ..RECORDS
    },
    Case {
        file: Stored::Image(Recipe {
            puts: &[
                Put::Home(2, Content::Bytes(BACKWARDS)),
                Put::Field(Field::Section(2, SectionField::Type), SHT_GNU_VERDEF as u64),
            ],
            ..OBJECT
        }),
        ending: Ending {
            out: DEFINED,
            err: b"readelf: F: section 2: bad chain at 4294967295\n",
            ..REFUSED
        },
        ..RECORDS
    },
    Case {
        file: Stored::Image(Recipe {
            puts: &[
                Put::Home(2, Content::Bytes(SHORT_LIST)),
                Put::Field(Field::Section(2, SectionField::Type), SHT_GNU_VERDEF as u64),
            ],
            ..OBJECT
        }),
        ending: Ending {
            out: DEFINED,
            err: b"readelf: F: section 2: bad chain at 20\n",
            ..REFUSED
        },
        ..RECORDS
    },
    Case {
        file: Stored::Image(Recipe {
            puts: &[
                Put::Home(2, Content::Bytes(VERDEF)),
                Put::Field(Field::Section(2, SectionField::Type), SHT_GNU_VERDEF as u64),
                Put::Field(Field::Section(2, SectionField::Link), 9),
            ],
            ..OBJECT
        }),
        ending: Ending {
            out: b"Version definitions of section 2 []\n  \
                  def ndx 1 flags 0x0 hash 0x6ccf\n    name <none>\n",
            ..DONE
        },
        ..RECORDS
    },
    Case {
        file: Stored::Image(Recipe {
            puts: &[
                Put::Home(2, Content::Bytes(VERNEED)),
                Put::Field(
                    Field::Section(2, SectionField::Type),
                    SHT_GNU_VERNEED as u64,
                ),
            ],
            ..OBJECT
        }),
        ending: Ending {
            out: b"Version needs of section 2 []\n  need [a]\n    \
                  version [a] ndx 2 flags 0x0 hash 0x591\n",
            ..DONE
        },
        ..RECORDS
    },
    Case {
        file: Stored::Image(Recipe {
            puts: &[
                Put::Home(2, Content::Bytes(VERNEED)),
                Put::Field(
                    Field::Section(2, SectionField::Type),
                    SHT_GNU_VERNEED as u64,
                ),
                Put::Field(Field::Section(2, SectionField::Link), 2),
            ],
            ..OBJECT
        }),
        ending: Ending {
            out: b"Version needs of section 2 []\n  need <none>\n    \
                  version <none> ndx 2 flags 0x0 hash 0x591\n",
            ..DONE
        },
        ..RECORDS
    },
    Case {
        file: Stored::Image(Recipe {
            puts: &[
                Put::Home(2, Content::Bytes(b"\0\0\x01\x80")),
                Put::Field(Field::Section(2, SectionField::Type), SHT_GNU_VERSYM as u64),
            ],
            ..OBJECT
        }),
        ending: Ending {
            out: b"Version indexes of section 2 []: 2\n  0 ndx 0\n  1 ndx 1 hidden\n",
            ..DONE
        },
        ..RECORDS
    },
    Case {
        file: Stored::Image(Recipe {
            puts: &[
                Put::Home(2, Content::Bytes(b"\0\0\x01")),
                Put::Field(Field::Section(2, SectionField::Type), SHT_GNU_VERSYM as u64),
            ],
            ..OBJECT
        }),
        ending: Ending {
            err: b"readelf: F: section 2 ragged\n",
            ..REFUSED
        },
        ..RECORDS
    },
];

#[test]
fn notes_and_versions_are_shown_up_to_what_goes_bad(rt: HostRuntime) {
    assert!(rt; are_so(&rt, &[], &ROWS));
}

/// The header of a third section of relocations with addends, which links to the symbols.
const RELAS: Shdr = Shdr {
    stype: SHT_RELA,
    link: 2,
    addralign: 8,
    ..NULL_SECTION
};

/// A relocation by a symbol.
const BY_SYMBOL: Rela = Rela {
    offset: 0x10,
    sym: 1,
    rtype: 2,
    addend: -3,
};

/// The section of a relocation by that symbol, the section to which it links, and its line.
static LINKED: [Case; 5] = [
    Case {
        file: Stored::Image(Recipe {
            puts: &[
                Put::Field(Field::Header(HeaderField::Shnum), 4),
                Put::Section(3, RELAS),
                Put::Home(3, Content::Relas(&[BY_SYMBOL])),
            ],
            ..OBJECT
        }),
        ending: Ending {
            out: b"Relocations of section 3 []: 1\n  0 offset 0x10 type 2 sym 1 [a] addend -3\n",
            ..DONE
        },
        ..RECORDS
    },
    Case {
        file: Stored::Image(Recipe {
            puts: &[
                Put::Field(Field::Header(HeaderField::Shnum), 4),
                Put::Section(3, RELAS),
                Put::Home(
                    3,
                    Content::Relas(&[Rela {
                        sym: 7,
                        ..BY_SYMBOL
                    }]),
                ),
            ],
            ..OBJECT
        }),
        ending: Ending {
            out: b"Relocations of section 3 []: 1\n  0 offset 0x10 type 2 sym 7 <none> addend -3\n",
            ..DONE
        },
        ..RECORDS
    },
    Case {
        file: Stored::Image(Recipe {
            puts: &[
                Put::Field(Field::Header(HeaderField::Shnum), 4),
                Put::Section(3, Shdr { link: 1, ..RELAS }),
                Put::Home(3, Content::Relas(&[BY_SYMBOL])),
            ],
            ..OBJECT
        }),
        ending: Ending {
            out: b"Relocations of section 3 []: 1\n  0 offset 0x10 type 2 sym 1 <none> addend -3\n",
            ..DONE
        },
        ..RECORDS
    },
    Case {
        file: Stored::Image(Recipe {
            puts: &[
                Put::Field(Field::Header(HeaderField::Shnum), 4),
                Put::Section(3, Shdr { link: 3, ..RELAS }),
                Put::Home(3, Content::Relas(&[BY_SYMBOL])),
            ],
            ..OBJECT
        }),
        ending: Ending {
            out: b"Relocations of section 3 []: 1\n  0 offset 0x10 type 2 sym 1 <none> addend -3\n",
            ..DONE
        },
        ..RECORDS
    },
    Case {
        file: Stored::Image(Recipe {
            puts: &[
                Put::Field(Field::Header(HeaderField::Shnum), 4),
                Put::Section(3, Shdr { link: 9, ..RELAS }),
                Put::Home(3, Content::Relas(&[BY_SYMBOL])),
            ],
            ..OBJECT
        }),
        ending: Ending {
            out: b"Relocations of section 3 []: 1\n  0 offset 0x10 type 2 sym 1 <none> addend -3\n",
            ..DONE
        },
        ..RECORDS
    },
];

#[test]
fn a_relocation_is_named_by_its_symbol_in_the_linked_table(rt: HostRuntime) {
    assert!(rt; are_so_in_all_forms(&rt, &[], &LINKED));
}

/// One without an addend.
static WITHOUT_ADDEND: [Case; 1] = [Case {
    file: Stored::Image(Recipe {
        puts: &[
            Put::Field(Field::Header(HeaderField::Shnum), 4),
            Put::Section(
                3,
                Shdr {
                    stype: SHT_REL,
                    ..RELAS
                },
            ),
            Put::Home(
                3,
                Content::Rels(&[Rel {
                    offset: 0x10,
                    sym: 1,
                    rtype: 2,
                }]),
            ),
        ],
        ..OBJECT
    }),
    ending: Ending {
        out: b"Relocations of section 3 []: 1\n  0 offset 0x10 type 2 sym 1 [a]\n",
        ..DONE
    },
    ..RECORDS
}];

#[test]
fn relocations_without_addends_are_shown_in_all_forms(rt: HostRuntime) {
    assert!(rt; are_so_in_all_forms(&rt, &[], &WITHOUT_ADDEND));
}
