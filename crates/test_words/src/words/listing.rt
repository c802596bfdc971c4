//! The commands that list what files hold.

use super::{Comparison, Reading, Row, all_hold, are, command};
use elfkit_words::Command;
use elfkit_words::prelude::{NmOptions, ReadelfParts, StringsOptions};
use tool_text::{Args, Radix};

/// The letters of readelf's parts, for the file F.
struct Readelf;

const READELF: [Row; 12] = [
    ("readelf|-h|F", "h"),
    ("readelf|-l|F", "l"),
    ("readelf|-S|F", "S"),
    ("readelf|-s|F", "s"),
    ("readelf|-r|F", "r"),
    ("readelf|-d|F", "d"),
    ("readelf|-n|F", "n"),
    ("readelf|-V|F", "V"),
    ("readelf|-hlSsrdnV|F", "hlSsrdnV"),
    ("readelf|-Vs|-l|F", "Vsl"),
    ("readelf|-hh|-h|F", "h"),
    ("readelf|-S|--|F", "S"),
];

/// The parts that letters name.
fn parts_named(letters: &str) -> ReadelfParts {
    ReadelfParts {
        header: letters.contains('h'),
        segments: letters.contains('l'),
        sections: letters.contains('S'),
        symbols: letters.contains('s'),
        relocations: letters.contains('r'),
        dynamic: letters.contains('d'),
        notes: letters.contains('n'),
        versions: letters.contains('V'),
    }
}

impl Comparison for Readelf {
    fn holds(read: &Reading, wanted: &str) -> bool {
        match command(read) {
            Some(Command::Readelf { parts, files }) => *parts == parts_named(wanted)
                && are(files.as_slice(), "|F"),
            _ => false,
        }
    }
}

/// The letters of nm, with `d` or `o` for another radix than the usual one, for the file F.
struct Nm;

const NM: [Row; 13] = [
    ("nm|F", ""),
    ("nm|-A|F", "A"),
    ("nm|-g|F", "g"),
    ("nm|-u|F", "u"),
    ("nm|-v|F", "v"),
    ("nm|-P|F", "P"),
    ("nm|-AguvP|F", "AguvP"),
    ("nm|-gg|-P|-g|--|F", "gP"),
    ("nm|-td|F", "d"),
    ("nm|-t|o|F", "o"),
    ("nm|-t|d|-tx|F", ""),
    ("nm|-Ptd|-g|F", "Pgd"),
    ("nm|-vt|o|F", "vo"),
];

/// The radix that one of the letters names.
fn radix_named(letters: &str) -> Option<Radix> {
    if letters.contains('d') {
        Some(Radix::Decimal)
    } else if letters.contains('o') {
        Some(Radix::Octal)
    } else if letters.contains('x') {
        Some(Radix::Hex)
    } else {
        None
    }
}

/// The options that letters name.
fn nm_named(letters: &str) -> NmOptions {
    NmOptions {
        name_each: letters.contains('A'),
        globals: letters.contains('g'),
        undefined: letters.contains('u'),
        by_value: letters.contains('v'),
        portable: letters.contains('P'),
        radix: radix_named(letters).unwrap_or(Radix::Hex),
    }
}

impl Comparison for Nm {
    fn holds(read: &Reading, wanted: &str) -> bool {
        match command(read) {
            Some(Command::Nm { options, files }) => *options == nm_named(wanted)
                && are(files.as_slice(), "|F"),
            _ => false,
        }
    }
}

/// The letter `a` of strings, that of its radix, and after `n` the least length, for the file F.
struct Strings;

const STRINGS: [Row; 10] = [
    ("strings|F", "n4"),
    ("strings|-a|F", "an4"),
    ("strings|-aa|-a|--|F", "an4"),
    ("strings|-td|F", "dn4"),
    ("strings|-t|x|-to|F", "on4"),
    ("strings|-an2|-at|x|F", "axn2"),
    ("strings|-n1|F", "n1"),
    ("strings|-n|4096|F", "n4096"),
    ("strings|-n7|-n000000009|F", "n9"),
    ("strings|-n004|F", "n4"),
];

/// Whether these are the options.
fn are_options(options: &StringsOptions, wanted: &str) -> bool {
    match wanted.split_once('n') {
        Some((letters, least)) => {
            options.all == letters.contains('a')
                && options.place == radix_named(letters)
                && least.parse() == Ok(options.least)
        }
        None => false,
    }
}

impl Comparison for Strings {
    fn holds(read: &Reading, wanted: &str) -> bool {
        match command(read) {
            Some(Command::Strings { options, files }) => {
                are_options(options, wanted) && are(files.as_slice(), "|F")
            }
            _ => false,
        }
    }
}

/// The files, which are the operands.
struct Operands;

const OPERANDS: [Row; 10] = [
    ("readelf|-h|F|-l", "|F|-l"),
    ("readelf|-h||-l", "||-l"),
    ("nm||", "||"),
    ("nm|-|-g", "|-|-g"),
    ("nm|-gP|--|-x", "|-x"),
    ("nm|-t|d|F|-t", "|F|-t"),
    ("size|F|--|", "|F|--|"),
    ("strings|--|--", "|--"),
    ("elflint|--|-F|G", "|-F|G"),
    ("lines|-|-l", "|-|-l"),
];

/// The files of a command that lists.
fn files(command: &Command) -> Option<&Args> {
    match command {
        Command::Readelf { files, .. } => Some(files),
        Command::Nm { files, .. } => Some(files),
        Command::Size { files } => Some(files),
        Command::Strings { files, .. } => Some(files),
        Command::Elflint { files } => Some(files),
        Command::Lines { files } => Some(files),
        _ => None,
    }
}

/// Whether a command lists these files.
fn lists(command: &Command, wanted: &str) -> bool {
    match files(command) {
        Some(files) => are(files.as_slice(), wanted),
        None => false,
    }
}

impl Comparison for Operands {
    fn holds(read: &Reading, wanted: &str) -> bool {
        match command(read) {
            Some(command) => lists(command, wanted),
            None => false,
        }
    }
}

#[test]
fn readelf_takes_its_options(rt: HostRuntime) {
    assert!(rt; all_hold::<Readelf>(&rt, &READELF));
}

#[test]
fn nm_takes_its_options_and_the_last_radix(rt: HostRuntime) {
    assert!(rt; all_hold::<Nm>(&rt, &NM));
}

#[test]
fn strings_takes_its_options_the_last_radix_and_the_last_length(rt: HostRuntime) {
    assert!(rt; all_hold::<Strings>(&rt, &STRINGS));
}

#[test]
fn files_are_the_arguments_after_the_options(rt: HostRuntime) {
    assert!(rt; all_hold::<Operands>(&rt, &OPERANDS));
}
