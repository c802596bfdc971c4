//! The reading of words. A line is the arguments of a command line as one text, with a bar between
//! two words.

mod copying;
mod letters;
mod listing;
mod notices;
mod numbers;
mod refusals;
mod writing;

use elf_types::ElfError;
use elfkit_words::{Command, Request, WordsFault, read_words};
use std::alloc::Global;
use test_kit_rows::{failed, in_row, other, within};
use tool_text::{Args, Text};

/// A line, and a text that tells what it should be read as.
type Row = (&'static str, &'static str);

/// What words are read as.
type Reading = Result<Request, WordsFault>;

/// The command that words are read as.
fn command(read: &Reading) -> Option<&Command> {
    match read {
        Ok(Request::Run(command)) => Some(command),
        _ => None,
    }
}

/// What is compared of a reading.
trait Comparison {
    /// Whether the reading is as the text tells.
    fn holds(read: &Reading, wanted: &str) -> bool;
}

/// Adds the arguments of a line.
fn put_words(words: &mut Args, line: &str) -> Result<(), ElfError> {
    for word in line.split('|') {
        words.add(word)?;
    }
    Ok(())
}

/// What words are read as. Whoever gets it ends by `drop`: one call is cheaper to prove than what
/// it takes to release each of the commands.
fn reading_of(alloc: Global, words: &Args) -> Reading {
    read_words(alloc, words)
}

/// Whether words are read as the text tells. It says nothing.
fn are_read_as<C: Comparison>(alloc: Global, words: &Args, wanted: &str) -> bool {
    let read = reading_of(alloc, words);
    let holds = C::holds(&read, wanted);
    drop(read);
    holds
}

/// What a reading is, in a few words; where the arguments are rejected, the usage line that says so.
fn outcome_of(read: &Reading) -> &'static str {
    match read {
        Ok(Request::Run(_)) => "a command",
        Ok(Request::Tell(_)) => "a notice",
        Err(WordsFault::Usage(usage)) => usage.line(),
        Err(WordsFault::Memory) => "out of memory",
    }
}

/// Whether a reading of a line is as the text tells. It says what the line is read as where not.
fn is_as_told<C: Comparison>(rt: &HostRuntime, read: &Reading, line: &str, wanted: &str) -> bool {
    C::holds(read, wanted) || within(rt, &line, other(rt, &outcome_of(read), wanted))
}

/// Whether the words of a line are read as the text tells. It says what they are read as where not.
fn are_told<C: Comparison>(rt: &HostRuntime, words: &Args, line: &str, wanted: &str) -> bool {
    let read = reading_of(rt.alloc(), words);
    let told = is_as_told::<C>(rt, &read, line, wanted);
    drop(read);
    told
}

/// Whether a line is read as the text tells. It says what it is read as where not.
fn is_read_as<C: Comparison>(rt: &HostRuntime, line: &str, wanted: &str) -> bool {
    let mut words = Args::new(rt.alloc());
    match put_words(&mut words, line) {
        Ok(()) => are_told::<C>(rt, &words, line, wanted),
        Err(e) => failed(rt, e),
    }
}

/// Whether each row is read as it tells. It says which one is not.
fn all_hold<C: Comparison>(rt: &HostRuntime, rows: &[Row]) -> bool {
    for (n, (line, wanted)) in rows.iter().enumerate() {
        if !in_row(rt, n, is_read_as::<C>(rt, line, wanted)) {
            return false;
        }
    }
    true
}

/// Whether a text is this one.
fn is(text: &Text, wanted: &str) -> bool {
    text.as_str() == wanted
}

/// What a word of a text stands for.
trait Worded {
    /// Whether the word stands for it.
    fn is_word(&self, word: &str) -> bool;
}

impl Worded for Text {
    fn is_word(&self, word: &str) -> bool {
        self.as_str() == word
    }
}

/// Whether items are these, each after a bar.
fn are<T: Worded>(items: &[T], wanted: &str) -> bool {
    let mut words = wanted.split('|').skip(1);
    for item in items {
        match words.next() {
            Some(word) if item.is_word(word) => {}
            _ => return false,
        }
    }
    words.next().is_none()
}

/// Whether two texts are these, with that character between them.
fn are_two(first: &Text, second: &Text, wanted: &str, between: char) -> bool {
    wanted.split_once(between) == Some((first.as_str(), second.as_str()))
}
