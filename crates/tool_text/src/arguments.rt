//! The arguments of a command line.

ghost use Rattle.std.specs.Prelude.{◌≡◌, ◌++◌, ◌∷◌, ◌==◌, [], length, slice_get, OnOk, OnErr, IfOk, IfErr};
ghost use Rattle.std.specs.Option.{option_copied};
ghost use Rattle.tool_text.specs.Arguments.{last, only_one, only_two};
ghost use Rattle.elf_types.specs.declared.errors.ElfError.TheVariants.{Memory};

use crate::texts::Text;
use elf_types::{ElfError, List};
use std::alloc::{AllocError, Global};
use std::marker::Model;

/// A list of texts, which contracts see as the list of their bytes. It keeps its allocator.
#[derive(Drop)]
pub struct Args {
    alloc: Global,
    words: List<Text>,
}

impl Model for Args {
    ghost use Rattle.std.specs.Prelude.{List, ℕ};

    ghost Value = { List (List ℕ) };

    ghost view = { λ a. a.words };
}

impl Args {
    /// The empty list. It takes no memory.
    pub fn new(alloc: Global) -> Args
        ensures { result ≡ [] }
    {
        Args {
            alloc,
            words: List::new(alloc),
        }
    }

    /// A copy of texts. Only memory can be missing for it.
    pub fn copy_of(alloc: Global, words: &[Text]) -> Result<Args, ElfError>
        ensures ok { IfOk result (λ a. a ≡ words.now) }
        ensures err { IfErr result (λ e. e ≡ Memory) }
    {
        let mut copy = Args::new(alloc);
        for word in words {
            copy.add(word.as_str())?;
        }
        Ok(copy)
    }

    /// The list of these texts. It takes no memory.
    pub fn from_texts(alloc: Global, words: List<Text>) -> Args
        ensures { result ≡ words }
    {
        Args { alloc, words }
    }

    /// Appends a copy of a text. It fails with `Memory` alone, and then the list is as before.
    pub fn add(&mut self, word: &str) -> Result<(), ElfError>
        ensures ok { OnOk result (self.new ≡ self.old ++ word.now ∷ []) }
        ensures unchanged { OnErr result (self.new ≡ self.old) }
        ensures err { IfErr result (λ e. e ≡ Memory) }
    {
        let text = Text::copy_of(self.alloc, word)?;
        self.words.push(text)
    }

    /// The number of texts.
    pub fn len(&self) -> u64
        ensures { result ≡ length self.now }
    {
        self.words.len()
    }

    /// Whether there is no text.
    pub fn is_empty(&self) -> bool
        ensures { result ≡ (length self.now == 0) }
    {
        self.words.is_empty()
    }

    /// The text at an index, or None exactly where the index is not below the length.
    pub fn get(&self, i: u64) -> Option<&str>
        ensures { option_copied result ≡ slice_get self.now i }
    {
        match self.words.as_slice().get(i as usize) {
            Some(word) => Some(word.as_str()),
            None => None,
        }
    }

    /// The texts.
    pub fn as_slice(&self) -> &[Text]
        ensures { result.now ≡ self.now }
    {
        self.words.as_slice()
    }

    /// The last text, if there is one.
    #[tactic(auto, unfolding(crate::specs::Arguments::last))]
    pub fn into_last(self) -> Option<Text>
        ensures { result ≡ last self }
    {
        let Args { alloc: _, words } = self;
        words.into_vec().pop()
    }

    /// The one text, if there is exactly one.
    #[tactic(auto, unfolding(crate::specs::Arguments::only_one))]
    pub fn into_one(self) -> Option<Text>
        ensures { result ≡ only_one self }
    {
        if self.len() == 1 {
            self.into_last()
        } else {
            None
        }
    }

    /// The two texts, if there are exactly two.
    #[tactic(auto, unfolding(crate::specs::Arguments::only_two))]
    pub fn into_two(self) -> Option<(Text, Text)>
        ensures { result ≡ only_two self }
    {
        if self.len() != 2 {
            return None;
        }
        let Args { alloc: _, words } = self;
        let mut words = words.into_vec();
        match (words.pop(), words.pop()) {
            (Some(second), Some(first)) => Some((first, second)),
            _ => None,
        }
    }
}
