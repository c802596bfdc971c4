//! The option letters of each command, found by trying every character.

use super::{put_words, reading_of};
use elf_types::ElfError;
use test_kit_rows::{failed, in_row, same, within};
use tool_text::Args;

/// The two parts of a line, and the letters that can be between them.
type Row = (&'static str, &'static str, &'static str);

/// First letters that are alone, then those that take the rest of their word, and those that take
/// the next word.
const LETTERS: [Row; 31] = [
    // A dash makes the word `--`, after which the operands are.
    ("readelf|-", "|F", "SVdhlnrs"),
    ("nm|-", "|F", "-APguv"),
    ("size|-", "|F", "-"),
    ("strings|-", "|F", "-a"),
    ("strip|-oO|-", "|F", "-g"),
    ("elflint|-", "|F", "-"),
    ("calls|-", "|F|S", "-i"),
    ("selftest|-oO|-", "|1", "-"),
    ("rehash|-oO|-", "|F", "-"),
    ("copy|-oO|-", "|F", "-"),
    ("unstrip|-oX|-", "|O|D", "-"),
    ("lines|-", "|F", "-"),
    ("readelf|-h|-", "x|F", ""),
    ("nm|-", "x|F", "t"),
    ("size|-", "x|F", ""),
    ("strings|-", "4|F", "n"),
    ("strings|-", "x|F", "t"),
    ("strip|-oO|-", "A|F", "Rfo"),
    ("elflint|-", "x|F", ""),
    ("calls|-", "A|F|S", "o"),
    ("selftest|-oO|-", "A|1", "o"),
    ("rehash|-oO|-", "A|F", "o"),
    ("copy|-oO|-", "A=1|F", "Rafnou"),
    ("unstrip|-oX|-", "A|O|D", "o"),
    ("lines|-", "x|F", ""),
    // The next word is no option of its own, so a letter that leaves it there is rejected.
    ("strip|-oO|-g", "|-A|--|F", "Rfo"),
    ("calls|-", "|-A|--|F|S", "o"),
    ("selftest|-oO|-", "|-A|--|1", "o"),
    ("rehash|-oO|-", "|-A|--|F", "o"),
    ("copy|-oO|-", "|-A=1|--|F", "Rafnou"),
    ("unstrip|-oX|-", "|-A|--|O|D", "o"),
];

/// Puts a letter between two parts of a line.
fn put_line(line: &mut String, before: &str, letter: char, after: &str) -> Result<(), ElfError> {
    line.push_str(before)?;
    line.push(letter)?;
    line.push_str(after)?;
    Ok(())
}

/// Whether words are read as a command.
fn is_command(rt: &HostRuntime, words: &Args) -> bool {
    let read = reading_of(rt.alloc(), words);
    let is_command = read.is_ok();
    drop(read);
    is_command
}

/// Whether a line is read as a command, or else rejected.
fn is_read(rt: &HostRuntime, line: &str, wanted: bool) -> bool {
    let mut words = Args::new(rt.alloc());
    match put_words(&mut words, line) {
        Ok(()) => within(rt, &line, same(rt, &is_command(rt, &words), &wanted)),
        Err(e) => failed(rt, e),
    }
}

/// Whether a letter can be between the parts just where it is a wanted one.
fn is_option(rt: &HostRuntime, row: &Row, letter: char) -> bool {
    let mut line = String::new(rt.alloc());
    match put_line(&mut line, row.0, letter, row.1) {
        Ok(()) => is_read(rt, line.as_str(), row.2.contains(letter)),
        Err(e) => failed(rt, e),
    }
}

/// Whether just the wanted ones of the characters from `!` to `z` can be between the parts.
fn is_so(rt: &HostRuntime, row: &Row) -> bool {
    for byte in b'!'..=b'z' {
        if !is_option(rt, row, char::from(byte)) {
            return false;
        }
    }
    true
}

/// Whether each row is so.
fn are_so(rt: &HostRuntime, rows: &[Row]) -> bool {
    for (n, row) in rows.iter().enumerate() {
        if !in_row(rt, n, is_so(rt, row)) {
            return false;
        }
    }
    true
}

#[test]
fn each_command_has_these_options(rt: HostRuntime) {
    assert!(rt; are_so(&rt, &LETTERS));
}
