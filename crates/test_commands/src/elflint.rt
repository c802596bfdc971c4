//! What elflint finds in images, in several files and in the members of an archive.

use crate::archives::LIBRARY;
use elf_types::constants::{SHN_ABS, SHT_DYNSYM, SHT_GNU_HASH, SHT_HASH, SHT_STRTAB, STB_GLOBAL};
use elf_types::{ElfError, Phdr, Shdr, Sym};
use test_kit_images::{
    Content, Field, HeaderField, ImageStart, NULL_SECTION, OBJECT, Put, Recipe, SectionField, WIDE,
    image_of,
};
use test_kit_rows::same;
use test_kit_runs::cases::{Case, RUN, Stored, are_so, are_so_in_all_forms, is_so};
use test_kit_runs::{DONE, Elflint, Ending, REFUSED, said_by};
use tool_output::Status;

/// No rule finds anything.
const CLEAN: Ending = Ending {
    out: b"F: no findings\n",
    ..DONE
};

/// An object with a string table and a symbol table, in which nothing is found.
const SOUND: Case = Case {
    line: "elflint F",
    file: Stored::Image(OBJECT),
    ending: CLEAN,
    ..RUN
};

/// A run over the sound object.
static SOUND_OBJECT: [Case; 1] = [SOUND];

#[test]
fn nothing_is_found_in_a_sound_object(rt: HostRuntime) {
    assert!(rt; are_so_in_all_forms(&rt, &[], &SOUND_OBJECT));
}

/// A field of such an object, the value that it gets, and what is found then: at each kind of place,
/// the header, a section, an item of one, and the file.
static DAMAGES: [Case; 9] = [
    Case {
        file: Stored::Changed(OBJECT, Put::Field(Field::Header(HeaderField::Ehsize), 0)),
        ending: Ending {
            out: b"F: 1 header: wrong header size\n",
            ..REFUSED
        },
        ..SOUND
    },
    Case {
        file: Stored::Changed(OBJECT, Put::Field(Field::Header(HeaderField::Shstrndx), 0)),
        ending: Ending {
            out: b"F: 3 header: no name table\n",
            ..REFUSED
        },
        ..SOUND
    },
    Case {
        file: Stored::Changed(OBJECT, Put::Field(Field::Section(2, SectionField::Name), 3)),
        ending: Ending {
            out: b"F: 5 section 2: name cannot be read\n",
            ..REFUSED
        },
        ..SOUND
    },
    Case {
        file: Stored::Changed(
            OBJECT,
            Put::Field(Field::Section(2, SectionField::Size), 47),
        ),
        ending: Ending {
            out: b"F: 7 section 2: size is no multiple of the item\n",
            ..REFUSED
        },
        ..SOUND
    },
    Case {
        file: Stored::Changed(
            OBJECT,
            Put::Field(Field::Section(1, SectionField::Addralign), 3),
        ),
        ending: Ending {
            out: b"F: 8 section 1: alignment is no power of two\n",
            ..REFUSED
        },
        ..SOUND
    },
    Case {
        file: Stored::Changed(OBJECT, Put::Field(Field::Section(2, SectionField::Link), 9)),
        ending: Ending {
            out: b"F: 10 section 2: link to no section\nF: 15 section 2: link is no string table\n",
            ..REFUSED
        },
        ..SOUND
    },
    Case {
        file: Stored::Changed(OBJECT, Put::Field(Field::Section(2, SectionField::Info), 0)),
        ending: Ending {
            out: b"F: 23 section 2 item 0: local symbol among the others\n",
            ..REFUSED
        },
        ..SOUND
    },
    Case {
        file: Stored::Changed(OBJECT, Put::Field(Field::Section(2, SectionField::Info), 2)),
        ending: Ending {
            out: b"F: 24 section 2 item 1: symbol among the local ones\n",
            ..REFUSED
        },
        ..SOUND
    },
    Case {
        file: Stored::Changed(
            OBJECT,
            Put::Field(Field::Section(1, SectionField::Size), 10),
        ),
        ending: Ending {
            out: b"F: 20 file: section 1 and section 2 overlap\n",
            ..REFUSED
        },
        ..SOUND
    },
];

#[test]
fn damaged_fields_are_found(rt: HostRuntime) {
    assert!(rt; are_so(&rt, &[], &DAMAGES));
}

/// A `PT_LOAD` of more bytes than memory, which pass the end of the file.
const LOAD: Phdr = Phdr {
    ptype: 1,
    flags: 4,
    offset: 0,
    vaddr: 0,
    paddr: 0,
    filesz: 4096,
    memsz: 16,
    align: 1,
};

/// Both are found of it.
static LOADED: [Case; 1] = [Case {
    file: Stored::Image(Recipe {
        start: ImageStart::Segments(&[LOAD]),
        ..OBJECT
    }),
    ending: Ending {
        out: b"F: 2 segment 0: outside the file\n\
            F: 26 segment 0: file size is greater than memory size\n",
        ..REFUSED
    },
    ..SOUND
}];

#[test]
fn findings_of_segments_stand_by_rule(rt: HostRuntime) {
    assert!(rt; are_so_in_all_forms(&rt, &[], &LOADED));
}

/// The object of an archive is sound, and the other members are no images.
static MEMBERS: Case = Case {
    file: LIBRARY,
    ending: Ending {
        out: b"F[a_member_with_long_name.o]: no findings\n",
        err: b"elflint: F[empty.o]: too short\nelflint: F[odd.txt]: too short\n",
        ..REFUSED
    },
    ..SOUND
};

#[test]
fn members_of_archives_are_looked_at(rt: HostRuntime) {
    assert!(rt; is_so(&rt, &[], &MEMBERS));
}

/// The second file is not there, and the third is the first again; and there is no file.
static FILES: [Case; 2] = [
    Case {
        line: "elflint F G F",
        ending: Ending {
            out: b"F: no findings\nF: no findings\n",
            err: b"elflint: G: not found\n",
            ..REFUSED
        },
        ..SOUND
    },
    Case {
        line: "elflint",
        file: Stored::Bytes(b""),
        ending: Ending {
            status: Status::BadWords,
            out: b"",
            err: b"usage: elfkit elflint FILE..\n",
        },
        ..SOUND
    },
];

#[test]
fn files_are_looked_at_in_their_order(rt: HostRuntime) {
    assert!(rt; are_so(&rt, &[], &FILES));
}

/// Where the section of type `SHT_HASH` is in the object below.
const HASH: u64 = 120;
/// Where GNU's hash section is in the object below.
const GNU_HASH: u64 = 144;

/// The symbol `a`, global and absolute.
const A: Sym = Sym {
    name: 1,
    info: STB_GLOBAL * 16,
    other: 0,
    shndx: SHN_ABS as u16,
    value: 0,
    size: 0,
};

/// An object whose one symbol, `a`, is found in both kinds of hash sections. The words of the one are
/// a bucket, two chain words, the first symbol of the bucket, and the chain words. Those of GNU's are a
/// bucket, the first symbol, a bloom word and its shift; the bloom word with the bits 6 and 24, the
/// first symbol of the bucket, and the hash of `a` with the end mark.
const HASHED: Recipe = Recipe {
    form: WIDE,
    start: ImageStart::Table(176, 5, 1),
    puts: &[
        Put::Bytes(64, b"\0a\0"),
        Put::Content(96, Content::Syms(&[A])),
        Put::Content(HASH, Content::Words(&[1, 2, 1, 0, 0])),
        Put::Content(
            GNU_HASH,
            Content::Words(&[1, 1, 1, 6, 0x100_0040, 0, 1, 177_671]),
        ),
        Put::Sections(&[
            NULL_SECTION,
            Shdr {
                stype: SHT_STRTAB,
                offset: 64,
                size: 3,
                ..NULL_SECTION
            },
            Shdr {
                stype: SHT_DYNSYM,
                offset: 72,
                size: 48,
                link: 1,
                info: 1,
                entsize: 24,
                ..NULL_SECTION
            },
            Shdr {
                stype: SHT_HASH,
                offset: HASH,
                size: 20,
                link: 2,
                entsize: 4,
                ..NULL_SECTION
            },
            Shdr {
                stype: SHT_GNU_HASH,
                offset: GNU_HASH,
                size: 32,
                link: 2,
                ..NULL_SECTION
            },
        ]),
    ],
};

/// The section of type `SHT_HASH` is not whole.
const NOT_WHOLE: Case = Case {
    ending: Ending {
        out: b"F: 31 section 3: hash is not whole\n",
        ..REFUSED
    },
    ..SOUND
};

/// GNU's is not.
const GNU_NOT_WHOLE: Case = Case {
    ending: Ending {
        out: b"F: 32 section 4: hash is not whole\n",
        ..REFUSED
    },
    ..SOUND
};

/// A word of a hash section gets another value, or its own: no bucket, a count that is not the
/// section's, no symbol in the bucket, a chain without an end; and in GNU's section no bucket, a
/// bucket below the first symbol, no bloom word, a bit missing in it, no symbol in the bucket, another
/// hash, and no end mark.
static BROKEN: [Case; 12] = [
    Case {
        file: Stored::Changed(HASHED, Put::Content(HASH, Content::Words(&[1]))),
        ..SOUND
    },
    Case {
        file: Stored::Changed(HASHED, Put::Content(HASH, Content::Words(&[0]))),
        ..NOT_WHOLE
    },
    Case {
        file: Stored::Changed(HASHED, Put::Content(HASH + 4, Content::Words(&[3]))),
        ..NOT_WHOLE
    },
    Case {
        file: Stored::Changed(HASHED, Put::Content(HASH + 8, Content::Words(&[0]))),
        ..NOT_WHOLE
    },
    Case {
        file: Stored::Changed(HASHED, Put::Content(HASH + 16, Content::Words(&[1]))),
        ..NOT_WHOLE
    },
    Case {
        file: Stored::Changed(HASHED, Put::Content(GNU_HASH, Content::Words(&[0]))),
        ..GNU_NOT_WHOLE
    },
    Case {
        file: Stored::Changed(HASHED, Put::Content(GNU_HASH + 4, Content::Words(&[2]))),
        ..GNU_NOT_WHOLE
    },
    Case {
        file: Stored::Changed(HASHED, Put::Content(GNU_HASH + 8, Content::Words(&[0]))),
        ..GNU_NOT_WHOLE
    },
    Case {
        file: Stored::Changed(HASHED, Put::Content(GNU_HASH + 16, Content::Words(&[0x40]))),
        ..GNU_NOT_WHOLE
    },
    Case {
        file: Stored::Changed(HASHED, Put::Content(GNU_HASH + 24, Content::Words(&[0]))),
        ..GNU_NOT_WHOLE
    },
    Case {
        file: Stored::Changed(
            HASHED,
            Put::Content(GNU_HASH + 28, Content::Words(&[177_669])),
        ),
        ..GNU_NOT_WHOLE
    },
    Case {
        file: Stored::Changed(
            HASHED,
            Put::Content(GNU_HASH + 28, Content::Words(&[177_670])),
        ),
        ..GNU_NOT_WHOLE
    },
];

#[test]
fn hash_sections_that_are_not_whole_are_found(rt: HostRuntime) {
    assert!(rt; are_so(&rt, &[], &BROKEN));
}

/// Whether elflint's own call finds nothing in a sound object.
fn own_call_finds_nothing(rt: &HostRuntime) -> Result<bool, ElfError> {
    let object = image_of(rt.alloc(), &OBJECT)?;
    Ok(said_by(rt.alloc(), &Elflint, object)?.is(rt, false, b"F: no findings\n", b""))
}

#[test]
fn the_own_call_looks_over_two_outputs(rt: HostRuntime) {
    assert!(rt; same(&rt, &own_call_finds_nothing(&rt), &Ok(true)));
}
