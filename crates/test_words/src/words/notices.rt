//! Help and the version: where they are asked for, and what they show.

use super::{Comparison, Reading, Row, all_hold};
use elfkit_words::{Notice, Request, Usage};
use test_kit_rows::{in_row, same};

/// What elfkit tells of itself: its version, or help on the command of this name.
struct Told;

const TOLD: [Row; 22] = [
    ("--help", ""),
    ("--help|nm|F", ""),
    ("--help|--version", ""),
    ("--version", "version"),
    ("--version|-x", "version"),
    ("readelf|--help", "readelf"),
    ("readelf|--help|-x", "readelf"),
    ("readelf|-h|--help|F", "readelf"),
    ("nm|--help|--", "nm"),
    ("nm|-t|z|--help", "nm"),
    ("nm|-t|--|--help|F", "nm"),
    ("nm|-tz|-g|--help", "nm"),
    ("size|--help", "size"),
    ("strings|-n0|--help", "strings"),
    ("strip|-o|F|--help|F", "strip"),
    ("elflint|--help|F", "elflint"),
    ("calls|-i|-oO|--help", "calls"),
    ("selftest|--help|0", "selftest"),
    ("rehash|--help", "rehash"),
    ("copy|-u.a|--help", "copy"),
    ("unstrip|--help", "unstrip"),
    ("lines|--help", "lines"),
];

/// The notice of a name.
fn notice_named(name: &str) -> Notice {
    match name {
        "version" => Notice::Version,
        _ => Notice::Help(Usage::named(name).unwrap_or(Usage::General)),
    }
}

impl Comparison for Told {
    fn holds(read: &Reading, wanted: &str) -> bool {
        match read {
            Ok(Request::Tell(notice)) => *notice == notice_named(wanted),
            _ => false,
        }
    }
}

#[test]
fn help_and_version_are_asked_for(rt: HostRuntime) {
    assert!(rt; all_hold::<Told>(&rt, &TOLD));
}

/// Names of notices, and what these show.
const TEXTS: [Row; 5] = [
    (
        "",
        concat!(
            "elfkit shows, checks and changes ELF object files.\n",
            "\n",
            "usage: elfkit readelf [-hlSsrdnV] FILE..\n",
            "       elfkit nm [-AguvP] [-t d|o|x] FILE..\n",
            "       elfkit size FILE..\n",
            "       elfkit strings [-a] [-n N] [-t d|o|x] FILE..\n",
            "       elfkit strip [-g] [-R NAME].. [-f DEBUG] -o OUT FILE\n",
            "       elfkit elflint FILE..\n",
            "       elfkit calls [-o OUT | -i] FILE SCRIPT\n",
            "       elfkit selftest -o OUT N\n",
            "       elfkit rehash -o OUT FILE\n",
            "       elfkit copy [-R NAME].. [-u NAME=FILE].. [-n OLD=NEW].. [-f NAME=BITS]..",
            " [-a NAME=FILE].. -o OUT FILE\n",
            "       elfkit unstrip -o OUT STRIPPED DEBUG\n",
            "       elfkit lines FILE..\n",
            "       elfkit COMMAND --help\n",
            "       elfkit --version\n",
            "\n",
            "  readelf   show headers, symbols, relocations, dynamic section, notes, versions\n",
            "  nm        list symbols with their values\n",
            "  size      sum the sizes of text, data and bss\n",
            "  strings   list runs of printable bytes\n",
            "  strip     copy without debug data and symbols\n",
            "  elflint   check files by 32 rules\n",
            "  calls     run a script of library calls on a file\n",
            "  selftest  make, change, write and reread an image\n",
            "  rehash    copy with the hash sections of dynamic symbols rebuilt\n",
            "  copy      copy with sections removed, replaced, renamed or added\n",
            "  unstrip   join the two files that strip -f makes\n",
            "  lines     show line tables of DWARF 2 to 4\n",
        ),
    ),
    ("version", "elfkit 1.0.0\n"),
    ("size", "usage: elfkit size FILE..\n"),
    (
        "nm",
        concat!(
            "usage: elfkit nm [-AguvP] [-t d|o|x] FILE..\n",
            "  -A            write the file name before each symbol\n",
            "  -g            leave out local symbols\n",
            "  -u            list only undefined symbols\n",
            "  -v            sort by value, not by name\n",
            "  -P            portable form: name, letter, value and size\n",
            "  -t d|o|x      radix of values: decimal, octal or hexadecimal (default)\n",
        ),
    ),
    (
        "copy",
        concat!(
            "usage: elfkit copy [-R NAME].. [-u NAME=FILE].. [-n OLD=NEW].. [-f NAME=BITS]..",
            " [-a NAME=FILE].. -o OUT FILE\n",
            "  -R NAME       remove the sections of this name\n",
            "  -u NAME=FILE  replace the bytes of a section by those of a file\n",
            "  -n OLD=NEW    rename a section\n",
            "  -f NAME=BITS  set the flags of a section to a number\n",
            "  -a NAME=FILE  add a section with the bytes of a file\n",
            "  -o OUT        the file to write\n",
        ),
    ),
];

/// Whether each notice shows its text.
fn are_shown(rt: &HostRuntime, rows: &[Row]) -> bool {
    for (n, (name, text)) in rows.iter().enumerate() {
        if !in_row(rt, n, same(rt, &notice_named(name).text(), text)) {
            return false;
        }
    }
    true
}

#[test]
fn notices_have_their_texts(rt: HostRuntime) {
    assert!(rt; are_shown(&rt, &TEXTS));
}
