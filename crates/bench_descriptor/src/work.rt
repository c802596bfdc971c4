//! The words of the command line.

use std::env::Args;

/// The words that the program takes.
pub const DESCRIPTOR_USAGE: &str =
    "usage: bench_descriptor open|decode|headers|symbols|once|twice ROUNDS FILE
       bench_descriptor sections|lists ROUNDS COUNT";

/// What a round reads or makes.
#[derive(Clone, Copy, Debug, PartialEq, Eq)]
pub enum DescriptorRound {
    /// Nothing: an image is opened and dropped.
    Open,
    /// A file of section headers alone, which are decoded.
    Decode,
    /// Each section header.
    Headers,
    /// Each symbol of the first symbol table.
    Symbols,
    /// One symbol of the first symbol table is edited once.
    Once,
    /// It is edited twice.
    Twice,
    /// So many sections are added to an object, each with a piece.
    Sections,
    /// So many headers and pieces are pushed to lists.
    Lists,
}

/// What to read or to make, how often, and of which file or how many.
#[derive(Drop)]
pub struct DescriptorTask {
    /// What a round reads or makes.
    pub what: DescriptorRound,
    /// The number of rounds.
    pub rounds: u32,
    /// The name of the file, or the number.
    pub name: String,
}

impl DescriptorTask {
    /// The number, where there is one.
    pub fn count(&self) -> Option<u32> {
        self.name.as_str().parse().ok()
    }
}

/// What the words after the program's name ask for, or None where they are not of the form of
/// `DESCRIPTOR_USAGE`.
pub fn read_descriptor_task(mut words: Args) -> Option<DescriptorTask> {
    let _program = words.next()?;
    let what = read_what(words.next()?.as_str())?;
    let rounds = words.next()?.as_str().parse().ok()?;
    let name = words.next()?;
    if words.next().is_some() {
        return None;
    }
    Some(DescriptorTask { what, rounds, name })
}

/// What a word names.
fn read_what(word: &str) -> Option<DescriptorRound> {
    match word {
        "open" => Some(DescriptorRound::Open),
        "decode" => Some(DescriptorRound::Decode),
        "headers" => Some(DescriptorRound::Headers),
        "symbols" => Some(DescriptorRound::Symbols),
        "once" => Some(DescriptorRound::Once),
        "twice" => Some(DescriptorRound::Twice),
        "sections" => Some(DescriptorRound::Sections),
        "lists" => Some(DescriptorRound::Lists),
        _ => None,
    }
}
