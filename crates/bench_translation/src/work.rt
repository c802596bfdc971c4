//! The words of the command line.

ghost use Rattle.std.specs.Prelude.{◌≡◌};
ghost use Rattle.bench_translation.specs.Words.{way_of, class_of_word, order_of_word};

use elf_types::{Class, Order};
use std::env::Args;

/// The words that the program takes.
pub const TRANSLATION_USAGE: &str =
    "usage: bench_translation decode|encode 32|64 little|big SYMBOLS ROUNDS";

/// What a round does.
#[derive(Clone, Copy, Debug, PartialEq, Eq)]
pub enum Way {
    /// From the file form to the memory form.
    Decode,
    /// From the memory form to the file form.
    Encode,
}

/// What to translate, and how often.
#[derive(Clone, Copy, Debug)]
pub struct TranslationTask {
    /// What a round does.
    pub way: Way,
    /// The class of the file form.
    pub class: Class,
    /// The byte order of the file form.
    pub order: Order,
    /// The number of symbols.
    pub symbols: u32,
    /// The number of rounds.
    pub rounds: u32,
}

/// What the words after the program's name ask for, or None where they are not of the form of
/// `TRANSLATION_USAGE`.
pub fn read_translation_task(mut words: Args) -> Option<TranslationTask> {
    let task = read_words(&mut words)?;
    match words.next() {
        Some(_) => None,
        None => Some(task),
    }
}

/// What the words up to the rounds ask for.
fn read_words(words: &mut Args) -> Option<TranslationTask> {
    let _program = words.next()?;
    Some(TranslationTask {
        way: read_way(words.next()?.as_str())?,
        class: read_class(words.next()?.as_str())?,
        order: read_order(words.next()?.as_str())?,
        symbols: read_number(words)?,
        rounds: read_number(words)?,
    })
}

/// The number that the next word names.
fn read_number(words: &mut Args) -> Option<u32> {
    words.next()?.as_str().parse().ok()
}

/// The way that a word names.
#[tactic(auto, unfolding(crate::specs::Words::way_of))]
fn read_way(word: &str) -> Option<Way>
    ensures { result ≡ way_of word.now }
{
    match word {
        "decode" => Some(Way::Decode),
        "encode" => Some(Way::Encode),
        _ => None,
    }
}

/// The class that a word names.
#[tactic(auto, unfolding(crate::specs::Words::class_of_word))]
fn read_class(word: &str) -> Option<Class>
    ensures { result ≡ class_of_word word.now }
{
    match word {
        "32" => Some(Class::C32),
        "64" => Some(Class::C64),
        _ => None,
    }
}

/// The byte order that a word names.
#[tactic(auto, unfolding(crate::specs::Words::order_of_word))]
fn read_order(word: &str) -> Option<Order>
    ensures { result ≡ order_of_word word.now }
{
    match word {
        "little" => Some(Order::Least),
        "big" => Some(Order::Greatest),
        _ => None,
    }
}
