//! What calls answers to the lines of a script, and why a script or a file is rejected.

use elf_types::constants::SHN_XINDEX;
use test_kit_images::{Field, HeaderField, ImageStart, NARROW, OBJECT, Put, Recipe, SectionField};
use test_kit_runs::cases::{Case, FileFaults, GOOD, Portion, RUN, Stored, are_so};
use test_kit_runs::{DONE, Ending, Failing, NOTHING, REFUSED};
use tool_output::Status;

/// A run over an object with two symbols, class 64 and the least byte first.
const SCRIPTED: Case = Case {
    line: "calls F S",
    file: Stored::Image(OBJECT),
    ..RUN
};

/// A run over the object in class 32 with the greatest byte first.
const NARROW_SCRIPTED: Case = Case {
    file: Stored::Image(Recipe {
        form: NARROW,
        ..OBJECT
    }),
    ..SCRIPTED
};

/// Scripts, and how they end with no message: on the one object, and on the other.
static LINES: [Case; 9] = [
    Case {
        script: Stored::Bytes(b""),
        ending: DONE,
        ..SCRIPTED
    },
    Case {
        script: Stored::Bytes(b"item 2 0 1\n"),
        ending: Ending {
            out: b"sym name 1 value 0x1000 size 4 info 0x12 other 0x0 shndx 0xfff1\n",
            ..DONE
        },
        ..SCRIPTED
    },
    Case {
        script: Stored::Bytes(b"# a comment\n\nehdr"),
        ending: Ending {
            out: b"ehdr class 64 order least osabi 0 abiversion 0 type 1 machine 62 version 1 entry 0x0 \
        phoff 0 shoff 120 flags 0x0 ehsize 64 phentsize 0 phnum 0 shentsize 64 shnum 3 \
        shstrndx 1\n",
            ..DONE
        },
        ..SCRIPTED
    },
    Case {
        script: Stored::Bytes(b"set shdr 2 type 1\ndata 2 0\n"),
        ending: Ending {
            out: b"ok\nkind sym count 2\n",
            ..DONE
        },
        ..SCRIPTED
    },
    Case {
        script: Stored::Bytes(b"str 1 1\nstr 1 3\nstr 2 0\nfind 2 a\nfind 2 b\ndata 9 0\n"),
        ending: Ending {
            out: b"str [a]\nrefused no string at 3 of 3\nrefused section 2 not strings\nfound 1\n\
        found none\nrefused no section 9 of 3\n",
            ..REFUSED
        },
        ..SCRIPTED
    },
    Case {
        script: Stored::Bytes(
            b"addall 1 0 1\nitem 1 0 1\nraw 1\nreplace 1 0 -\ndata 1 0\nreplace 0 0 -\nraw 0\n",
        ),
        ending: Ending {
            out: b"changed 3\nbyte 0x62\nraw 006100\nok\nkind bytes count 0\nrefused section 0 reserved\n\
        raw -\n",
            ..REFUSED
        },
        ..SCRIPTED
    },
    Case {
        script: Stored::Bytes(b"fill 0xaa\nnewdata 1 62 8\nstr 1 4\nstr 1 8\nnewdata 1 62 3\n"),
        ending: Ending {
            out: b"ok\npiece 1 1\nrefused no string at 4 of 9\nrefused string at 8 has no end\n\
        refused bad alignment 3\n",
            ..REFUSED
        },
        ..SCRIPTED
    },
    Case {
        script: Stored::Bytes(b"item 2 0 1"),
        ending: Ending {
            out: b"sym name 1 value 0x1000 size 4 info 0x12 other 0x0 shndx 0xfff1\n",
            ..DONE
        },
        ..NARROW_SCRIPTED
    },
    Case {
        script: Stored::Bytes(
            b"set sym 2 0 1 value 4294967296\nitem 2 0 1\naddall 2 0 4294967296\n",
        ),
        ending: Ending {
            out: b"refused unfit piece 2 0 index 1\n\
        sym name 1 value 0x1000 size 4 info 0x12 other 0x0 shndx 0xfff1\nchanged 2\n",
            ..REFUSED
        },
        ..NARROW_SCRIPTED
    },
];

#[test]
fn each_call_of_a_script_has_its_line(rt: HostRuntime) {
    assert!(rt; are_so(&rt, &[], &LINES));
}

/// A section whose size is no multiple of its item, and one that passes the end of the file.
static CHANGED: [Case; 2] = [
    Case {
        file: Stored::Changed(
            OBJECT,
            Put::Field(Field::Section(2, SectionField::Size), 25),
        ),
        script: Stored::Bytes(b"data 2 0\nraw 2\n"),
        ending: Ending {
            out: b"refused section 2 ragged\n\
            raw 00000000000000000000000000000000000000000000000001\n",
            ..REFUSED
        },
        ..SCRIPTED
    },
    Case {
        file: Stored::Changed(
            OBJECT,
            Put::Field(Field::Section(2, SectionField::Offset), u64::MAX),
        ),
        script: Stored::Bytes(b"raw 2\nset shdr 1 flags 2\n"),
        ending: Ending {
            out: b"refused section 2 out of file\nok\n",
            ..REFUSED
        },
        ..SCRIPTED
    },
];

#[test]
fn raw_shows_what_the_items_of_a_section_can_not(rt: HostRuntime) {
    assert!(rt; are_so(&rt, &[], &CHANGED));
}

/// The object where section 0 holds the number of sections, 3, and the string index.
const NUMBERED: Recipe = Recipe {
    puts: &[
        Put::Field(Field::Header(HeaderField::Shnum), 0),
        Put::Field(Field::Header(HeaderField::Shstrndx), SHN_XINDEX as u64),
        Put::Field(Field::Section(0, SectionField::Size), 3),
        Put::Field(Field::Section(0, SectionField::Link), 1),
    ],
    ..OBJECT
};

/// The line of its header; and there are not so many sections in the file.
static NUMBERS: [Case; 2] = [
    Case {
        file: Stored::Image(NUMBERED),
        script: Stored::Bytes(b"ehdr\n"),
        ending: Ending {
            out: b"ehdr class 64 order least osabi 0 abiversion 0 type 1 machine 62 version 1 entry 0x0 \
    phoff 0 shoff 120 flags 0x0 ehsize 64 phentsize 0 phnum 0 shentsize 64 shnum 3 shstrndx 1\n",
            ..DONE
        },
        ..SCRIPTED
    },
    Case {
        file: Stored::Changed(
            NUMBERED,
            Put::Field(Field::Section(0, SectionField::Size), 1 << 60),
        ),
        script: Stored::Bytes(b"ehdr\n"),
        ending: Ending {
            err: b"calls: F: bad section header table\n",
            ..REFUSED
        },
        ..SCRIPTED
    },
];

#[test]
fn ehdr_shows_the_numbers_that_section_0_holds(rt: HostRuntime) {
    assert!(rt; are_so(&rt, &[], &NUMBERS));
}

/// A run over a file of no bytes. The second file is not handed out: a run that asks for it ends
/// with 3.
const UNASKED: Case = Case {
    file: Stored::Bytes(b""),
    failing: Failing { open: 2, ..NOTHING },
    ..SCRIPTED
};

/// Scripts that are rejected, and their messages.
static REFUSALS: [Case; 5] = [
    Case {
        script: Stored::Bytes(b"ehdr\nfoo 1 2"),
        ending: Ending {
            err: b"calls: S: line 2: no such call\n",
            ..REFUSED
        },
        ..UNASKED
    },
    Case {
        script: Stored::Bytes(b"#\n\nraw\n"),
        ending: Ending {
            err: b"calls: S: line 3: wrong words\n",
            ..REFUSED
        },
        ..UNASKED
    },
    Case {
        script: Stored::Bytes(b"set ehdr size 1"),
        ending: Ending {
            err: b"calls: S: line 1: wrong words\n",
            ..REFUSED
        },
        ..UNASKED
    },
    Case {
        script: Stored::Bytes(b"fill 256\nfoo\n"),
        ending: Ending {
            err: b"calls: S: line 1: number out of range\n",
            ..REFUSED
        },
        ..UNASKED
    },
    Case {
        script: Stored::Bytes(b" ehdr\n"),
        ending: Ending {
            err: b"calls: S: line 1: no such call\n",
            ..REFUSED
        },
        ..UNASKED
    },
];

#[test]
fn a_script_with_a_bad_line_opens_no_file(rt: HostRuntime) {
    assert!(rt; are_so(&rt, &[], &REFUSALS));
}

/// A run over a script alone.
const ALONE: Case = Case {
    file: Stored::Nothing,
    ..SCRIPTED
};

/// A script of a comment that is one byte too long, and the longest one: then the file is looked
/// for.
static LENGTHS: [Case; 2] = [
    Case {
        script: Stored::Portions(&[Portion::Fill(b'#', 1_048_577)]),
        ending: Ending {
            err: b"calls: S: line 0: script too long\n",
            ..REFUSED
        },
        ..ALONE
    },
    Case {
        script: Stored::Portions(&[Portion::Fill(b'#', 1_048_576)]),
        ending: Ending {
            err: b"calls: F: not found\n",
            ..REFUSED
        },
        ..ALONE
    },
];

#[test]
fn a_script_has_at_most_a_mebibyte(rt: HostRuntime) {
    assert!(rt; are_so(&rt, &[], &LENGTHS));
}

/// Bytes of the file F that are no image, the words, and the message.
static FILES: [Case; 5] = [
    Case {
        line: "calls G S",
        file: Stored::Bytes(b""),
        ending: Ending {
            err: b"calls: S: not found\n",
            ..REFUSED
        },
        ..RUN
    },
    Case {
        line: "calls F F",
        file: Stored::Bytes(b""),
        ending: Ending {
            err: b"calls: F: too short\n",
            ..REFUSED
        },
        ..RUN
    },
    Case {
        line: "calls F F",
        file: Stored::Bytes(b"abcdefgh"),
        ending: Ending {
            err: b"calls: F: line 1: no such call\n",
            ..REFUSED
        },
        ..RUN
    },
    Case {
        line: "calls F F",
        file: Stored::Bytes(b"#!<arch>\n"),
        ending: Ending {
            err: b"calls: F: too short\n",
            ..REFUSED
        },
        ..RUN
    },
    Case {
        line: "calls -i F S",
        file: Stored::Bytes(b""),
        ending: Ending {
            err: b"calls: S: not found\n",
            ..REFUSED
        },
        ..RUN
    },
];

#[test]
fn what_is_no_script_or_no_image_has_its_message(rt: HostRuntime) {
    assert!(rt; are_so(&rt, &[], &FILES));
}

/// An archive is rejected.
static ARCHIVE: [Case; 1] = [Case {
    file: Stored::Bytes(b"!<arch>\n"),
    script: Stored::Bytes(b""),
    ending: Ending {
        err: b"calls: F: not an ELF image\n",
        ..REFUSED
    },
    ..SCRIPTED
}];

#[test]
fn an_archive_is_no_image(rt: HostRuntime) {
    assert!(rt; are_so(&rt, &[], &ARCHIVE));
}

/// A run over five sections, of which each read fails that begin does not need.
const UNREAD: Case = Case {
    file: Stored::Image(Recipe {
        start: ImageStart::FiveSections,
        ..OBJECT
    }),
    bad: FileFaults {
        name: "F",
        reads: 5,
        ..GOOD
    },
    ..SCRIPTED
};

/// The header is there, and no section is; what was answered before a read failed stays; and a
/// section that is loaded is not read again.
static READS: [Case; 3] = [
    Case {
        script: Stored::Bytes(b"ehdr\n"),
        ending: Ending {
            out: b"ehdr class 64 order least osabi 0 abiversion 0 type 1 machine 62 version 1 entry 0x0 \
    phoff 0 shoff 104 flags 0x0 ehsize 64 phentsize 0 phnum 0 shentsize 64 shnum 6 shstrndx 0\n",
            ..DONE
        },
        ..UNREAD
    },
    Case {
        script: Stored::Bytes(b"pieces 3\ndata 3 0\n"),
        ending: Ending {
            status: Status::ReadFailed,
            out: b"pieces 1\n",
            ..DONE
        },
        ..UNREAD
    },
    Case {
        bad: FileFaults {
            name: "F",
            reads: 6,
            ..GOOD
        },
        script: Stored::Bytes(b"data 3 0\ndata 3 0\nraw 3\n"),
        ending: Ending {
            out: b"kind bytes count 8\nkind bytes count 8\nraw 0303030303030303\n",
            ..DONE
        },
        ..UNREAD
    },
];

#[test]
fn a_section_is_read_at_the_first_call_that_names_it(rt: HostRuntime) {
    assert!(rt; are_so(&rt, &[], &READS));
}

/// A run that ends where a file is not handed out.
const UNOPENED: Case = Case {
    script: Stored::Bytes(b"ehdr"),
    ending: Ending {
        status: Status::ReadFailed,
        ..DONE
    },
    ..SCRIPTED
};

/// The script is not, or the file.
static OPENS: [Case; 2] = [
    Case {
        failing: Failing { open: 1, ..NOTHING },
        ..UNOPENED
    },
    Case {
        failing: Failing { open: 2, ..NOTHING },
        ..UNOPENED
    },
];

#[test]
fn a_failed_open_stops_the_run(rt: HostRuntime) {
    assert!(rt; are_so(&rt, &[], &OPENS));
}
