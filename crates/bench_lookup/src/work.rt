//! The words of the command line.

use std::env::Args;

/// The words that the program takes.
pub const LOOKUP_USAGE: &str = "usage: bench_lookup open|linear|sysv|gnu ROUNDS FILE NAME";

/// What a round does.
#[derive(Clone, Copy, Debug, PartialEq, Eq)]
pub enum LookupRound {
    /// The file is opened, and its table read and looked through.
    Open,
    /// The table, which was read before, is looked through.
    Linear,
    /// The name is looked up by the hash section of type `SHT_HASH`, all being read before.
    Sysv,
    /// The symbol is looked up by GNU's hash section.
    Gnu,
}

/// What to do, how often, and with which file and name.
#[derive(Drop)]
pub struct LookupTask {
    /// What a round does.
    pub what: LookupRound,
    /// The number of rounds.
    pub rounds: u32,
    /// The name of the file.
    pub file: String,
    /// The name of the symbol.
    pub name: String,
}

/// What the words after the program's name ask for, or None where they are not of the form of
/// `LOOKUP_USAGE`.
pub fn read_lookup_task(mut words: Args) -> Option<LookupTask> {
    let task = read_words(&mut words)?;
    match words.next() {
        Some(_) => None,
        None => Some(task),
    }
}

/// What the words up to the name of the symbol ask for.
fn read_words(words: &mut Args) -> Option<LookupTask> {
    let _program = words.next()?;
    Some(LookupTask {
        what: read_what(words.next()?.as_str())?,
        rounds: read_number(words)?,
        file: words.next()?,
        name: words.next()?,
    })
}

/// The number that the next word names.
fn read_number(words: &mut Args) -> Option<u32> {
    words.next()?.as_str().parse().ok()
}

/// What a word names.
fn read_what(word: &str) -> Option<LookupRound> {
    match word {
        "open" => Some(LookupRound::Open),
        "linear" => Some(LookupRound::Linear),
        "sysv" => Some(LookupRound::Sysv),
        "gnu" => Some(LookupRound::Gnu),
        _ => None,
    }
}
