//! The usage lines, and the arguments that they reject.

use super::{Comparison, Reading, are_read_as, is_read_as};
use elfkit_words::{Usage, WordsFault};
use test_kit_rows::{holds, in_row, same};
use tool_text::Args;

/// Lines that name no command.
const NO_COMMAND: [&str; 13] = [
    "",
    "|nm",
    "--",
    "--|nm|F",
    "--Help",
    "--help=nm",
    "--helping",
    "--versio",
    "-h",
    "help",
    "Nm|F",
    "nm |F",
    "nms|F",
];

/// Lines of the commands that list: without a file, a letter or a good option-argument; of those
/// that write: without a file, with too many, or with the same one twice; and of copy: the same,
/// and bad option-arguments.
const COMMANDS: [&str; 160] = [
    "readelf",
    "readelf|F",
    "readelf|-h",
    "readelf|-h|--",
    "readelf|--|-h|F",
    "readelf||-h",
    "readelf|-|-h",
    "readelf|-hx|F",
    "readelf|-h-|F",
    "readelf|--helps|F",
    "readelf|-h--help|F",
    "nm",
    "nm|-g",
    "nm|--",
    "nm|-gx|F",
    "nm|--version|F",
    "nm|-t|--help",
    "nm|-t|--help|F",
    "nm|-x|--help|F",
    "nm|--hel|F",
    "nm|-t",
    "nm|-gt",
    "nm|-t|d",
    "nm|-tq|F",
    "nm|-t||F",
    "nm|-tD|F",
    "nm|-tdd|F",
    "nm|-tdg|F",
    "nm|-t|--|F",
    "nm|-tq|-tx|F",
    "nm|-tx|-tq|F",
    "strings",
    "strings|-a",
    "strings|--",
    "strings|-n",
    "strings|-n4",
    "strings|-an",
    "strings|-t",
    "strings|-tx",
    "strings|-n0|F",
    "strings|-n4097|F",
    "strings|-n|5000|-n4|F",
    "strings|-n0000000004|F",
    "strings|-n+4|F",
    "strings|-n-4|F",
    "strings|-n||F",
    "strings|-n4a|F",
    "strings|-n0x4|F",
    "strings|-tq|F",
    "strings|-tq|-td|F",
    "strings|-t||F",
    "size",
    "size|--",
    "size|-A|F",
    "size|--version",
    "elflint",
    "elflint|--",
    "elflint|-x|F",
    "lines",
    "lines|--",
    "lines|-l|F",
    "strip",
    "strip|F",
    "strip|-oO",
    "strip|-oO|F|G",
    "strip|F|-oO",
    "strip|-o",
    "strip|-oO|-R",
    "strip|-oO|-f",
    "strip|-go",
    "strip|-x|-oO|F",
    "strip|-o|A|A",
    "strip|-oO|-oF|F",
    "strip|-oO|-fO|F",
    "strip|-oO|-f|F|F",
    "strip|-fD|-o|D|F",
    "strip|-fD|-fO|-oO|F",
    "calls",
    "calls|F",
    "calls|F|S|T",
    "calls|--",
    "calls|-o",
    "calls|-o|O|F",
    "calls|-oO|-i|F|S",
    "calls|-i|-oO|F|S",
    "calls|-io|O|F|S",
    "calls|-oF|F|S",
    "calls|-o|S|F|S",
    "calls|-oO|-oF|F|S",
    "calls|-x|F|S",
    "selftest",
    "selftest|1",
    "selftest|-oO",
    "selftest|-o",
    "selftest|-oO|1|2",
    "selftest|-oO|0",
    "selftest|-oO|60001",
    "selftest|-oO|0x1",
    "selftest|-oO|",
    "selftest|-oO|0000000001",
    "selftest|-oO|+1",
    "selftest|-oO|-1",
    "selftest|-x|-oO|1",
    "rehash",
    "rehash|F",
    "rehash|-oO",
    "rehash|-o",
    "rehash|-oF|F",
    "rehash|-oO|-oF|F",
    "rehash|-oO|F|G",
    "rehash|-x|-oO|F",
    "unstrip",
    "unstrip|-oX|O",
    "unstrip|-oX|O|D|E",
    "unstrip|O|D",
    "unstrip|-o",
    "unstrip|-oO|O|D",
    "unstrip|-oD|O|D",
    "unstrip|-oX|O|O",
    "unstrip|-oX|-oD|O|D",
    "unstrip|-x|-oX|O|D",
    "copy",
    "copy|F",
    "copy|-oO",
    "copy|-oO|F|G",
    "copy|-o",
    "copy|-oO|-R",
    "copy|-oO|-u",
    "copy|-oO|-n",
    "copy|-oO|-f",
    "copy|-oO|-a",
    "copy|-x|-oO|F",
    "copy|-oF|F",
    "copy|-oO|-oF|F",
    "copy|-u.a=O|-oO|F",
    "copy|-a.a=O|-oO|F",
    "copy|-u.a=A|-u.b=O|-oO|F",
    "copy|-u.a|-oO|F",
    "copy|-u=A|-oO|F",
    "copy|-u|-oO|F",
    "copy|-n.a|-oO|F",
    "copy|-n=.b|-oO|F",
    "copy|-a.a|-oO|F",
    "copy|-a=A|-oO|F",
    "copy|-f.a|-oO|F",
    "copy|-f=1|-oO|F",
    "copy|-f.a=|-oO|F",
    "copy|-f.a=x|-oO|F",
    "copy|-f.a=-1|-oO|F",
    "copy|-f.a=18446744073709551616|-oO|F",
    "copy|-f.a=000000000000000000001|-oO|F",
    "copy|-f.a=0x|-oO|F",
    "copy|-f.a=0X1|-oO|F",
    "copy|-f.a=0x00000000000000001|-oO|F",
    "copy|-R.a\0|-oO|F",
    "copy|-u.a\0=A|-oO|F",
    "copy|-n.a\0=.b|-oO|F",
    "copy|-n.a=.b\0|-oO|F",
    "copy|-f.a\0=1|-oO|F",
    "copy|-a.a\0=A|-oO|F",
];

/// The usage line of the command that a line names, or the general one where it names none.
fn usage_named(line: &str) -> Usage {
    let name = line.split('|').next().unwrap_or("");
    Usage::named(name).unwrap_or(Usage::General)
}

/// The usage line of the command that a line names rejects it.
struct Refused;

impl Comparison for Refused {
    fn holds(read: &Reading, wanted: &str) -> bool {
        match read {
            Err(WordsFault::Usage(usage)) => *usage == usage_named(wanted),
            _ => false,
        }
    }
}

/// Whether each line is rejected so.
fn are_refused(rt: &HostRuntime, lines: &[&str]) -> bool {
    for (n, line) in lines.iter().enumerate() {
        if !in_row(rt, n, is_read_as::<Refused>(rt, line, line)) {
            return false;
        }
    }
    true
}

/// Whether no words at all are.
fn none_is_refused(rt: &HostRuntime) -> bool {
    let so = are_read_as::<Refused>(rt.alloc(), &Args::new(rt.alloc()), "");
    holds(rt, "no words are rejected by the general usage line", so)
}

#[test]
fn arguments_that_name_no_command_are_rejected(rt: HostRuntime) {
    assert!(rt; none_is_refused(&rt));
    assert!(rt; are_refused(&rt, &NO_COMMAND));
}

#[test]
fn commands_are_rejected_with_their_usage_line(rt: HostRuntime) {
    assert!(rt; are_refused(&rt, &COMMANDS));
}

/// The commands by their names, and their usage lines.
const USAGE_LINES: [(&str, &str); 13] = [
    ("readelf", "usage: elfkit readelf [-hlSsrdnV] FILE.."),
    ("nm", "usage: elfkit nm [-AguvP] [-t d|o|x] FILE.."),
    ("size", "usage: elfkit size FILE.."),
    (
        "strings",
        "usage: elfkit strings [-a] [-n N] [-t d|o|x] FILE..",
    ),
    (
        "strip",
        "usage: elfkit strip [-g] [-R NAME].. [-f DEBUG] -o OUT FILE",
    ),
    ("elflint", "usage: elfkit elflint FILE.."),
    ("calls", "usage: elfkit calls [-o OUT | -i] FILE SCRIPT"),
    ("selftest", "usage: elfkit selftest -o OUT N"),
    ("rehash", "usage: elfkit rehash -o OUT FILE"),
    (
        "copy",
        concat!(
            "usage: elfkit copy [-R NAME].. [-u NAME=FILE].. [-n OLD=NEW]..",
            " [-f NAME=BITS].. [-a NAME=FILE].. -o OUT FILE"
        ),
    ),
    ("unstrip", "usage: elfkit unstrip -o OUT STRIPPED DEBUG"),
    ("lines", "usage: elfkit lines FILE.."),
    (
        "",
        concat!(
            "usage: elfkit readelf|nm|size|strings|strip|elflint",
            "|calls|selftest|rehash|copy|unstrip|lines"
        ),
    ),
];

/// Whether these are the usage lines of the commands.
fn are_usage_lines(rt: &HostRuntime, rows: &[(&str, &str)]) -> bool {
    for (n, (name, line)) in rows.iter().enumerate() {
        if !in_row(rt, n, same(rt, &usage_named(name).line(), line)) {
            return false;
        }
    }
    true
}

#[test]
fn usage_lines_are_the_stated_ones(rt: HostRuntime) {
    assert!(rt; are_usage_lines(&rt, &USAGE_LINES));
}
