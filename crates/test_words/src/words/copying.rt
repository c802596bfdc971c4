//! The changes of copy. What is wanted of a list follows its letter, each item after a bar.

use super::{Comparison, Reading, Row, Worded, all_hold, are, are_two, command, is};
use elfkit_words::Command;
use elfkit_words::prelude::{CopyChanges, NamedBits, NamedFile, Renaming};

/// The lists of copy that have items, for the output O and the file F.
struct Letters;

const LETTERS: [Row; 10] = [
    ("copy|-oO|F", ""),
    ("copy|-o|O|--|F", ""),
    ("copy|-oF|-o|O|F", ""),
    ("copy|-R.a|-oO|F", "R"),
    ("copy|-u.a=A|-oO|F", "u"),
    ("copy|-n.a=.b|-oO|F", "n"),
    ("copy|-f.a=1|-oO|F", "f"),
    ("copy|-a.a=A|-oO|F", "a"),
    ("copy|-un=F|-oO|F", "u"),
    ("copy|-a.a=A|-f.a=1|-n.a=.b|-u.a=A|-R.a|-oO|F", "Runfa"),
];

/// The changes of copy for the output O and the file F.
fn changes(read: &Reading) -> Option<&CopyChanges> {
    match command(read) {
        Some(Command::Copy { changes, out, file }) if is(out, "O") && is(file, "F") => Some(
            changes,
        ),
        _ => None,
    }
}

/// Whether just the lists of these letters have items.
fn have_items(changes: &CopyChanges, letters: &str) -> bool {
    changes.remove.is_empty() != letters.contains('R')
        && changes.update.is_empty() != letters.contains('u')
        && changes.rename.is_empty() != letters.contains('n')
        && changes.flags.is_empty() != letters.contains('f')
        && changes.add.is_empty() != letters.contains('a')
}

impl Comparison for Letters {
    fn holds(read: &Reading, wanted: &str) -> bool {
        match changes(read) {
            Some(changes) => have_items(changes, wanted),
            None => false,
        }
    }
}

/// The items of the list of a letter.
struct Items;

const ITEMS: [Row; 12] = [
    ("copy|-R.a|-oO|F", "R|.a"),
    (
        "copy|-R|.b|-R||-u.a=A|-R.a|-R|-R|-R=|-oO|F",
        "R|.b||.a|-R|=",
    ),
    ("copy|-u.a=A|-oO|F", "u|.a=A"),
    (
        "copy|-u|.b=B|-a.c=C|-u.a=F=G|-un=F|-u|-u=|-oO|F",
        "u|.b=B|.a=F=G|n=F|-u=",
    ),
    ("copy|-a.a=A|-oO|F", "a|.a=A"),
    ("copy|-a|.b=|-u.c=C|-a.a==|-a|-a=-|-oO|F", "a|.b=|.a==|-a=-"),
    ("copy|-n.a=.b|-oO|F", "n|.a=.b"),
    (
        "copy|-n|.b=.a|-u.c=C|-n.a==|-n|.c=|-oO|F",
        "n|.b=.a|.a==|.c=",
    ),
    ("copy|-f.a=6|-oO|F", "f|.a=6"),
    ("copy|-f|.b=0x1F|-f.a=00|-oO|F", "f|.b=31|.a=0"),
    (
        "copy|-f.a=18446744073709551615|-oO|F",
        "f|.a=18446744073709551615",
    ),
    (
        "copy|-f.a=0xfFffffffffffffff|-oO|F",
        "f|.a=18446744073709551615",
    ),
];

impl Worded for NamedFile {
    fn is_word(&self, word: &str) -> bool {
        are_two(&self.name, &self.file, word, '=')
    }
}

impl Worded for Renaming {
    fn is_word(&self, word: &str) -> bool {
        are_two(&self.old, &self.new, word, '=')
    }
}

impl Worded for NamedBits {
    fn is_word(&self, word: &str) -> bool {
        match word.split_once('=') {
            Some((name, bits)) => is(&self.name, name) && bits.parse() == Ok(self.bits),
            None => false,
        }
    }
}

/// Whether the list of the letter that the text begins with has these items.
fn are_items(changes: &CopyChanges, wanted: &str) -> bool {
    match wanted.as_bytes().first() {
        Some(b'R') => are(changes.remove.as_slice(), wanted),
        Some(b'u') => are(changes.update.as_slice(), wanted),
        Some(b'n') => are(changes.rename.as_slice(), wanted),
        Some(b'f') => are(changes.flags.as_slice(), wanted),
        Some(b'a') => are(changes.add.as_slice(), wanted),
        _ => false,
    }
}

impl Comparison for Items {
    fn holds(read: &Reading, wanted: &str) -> bool {
        match changes(read) {
            Some(changes) => are_items(changes, wanted),
            None => false,
        }
    }
}

#[test]
fn copy_has_a_list_for_each_option(rt: HostRuntime) {
    assert!(rt; all_hold::<Letters>(&rt, &LETTERS));
    assert!(rt; all_hold::<Items>(&rt, &ITEMS));
}
