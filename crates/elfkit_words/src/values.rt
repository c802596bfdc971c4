//! The values of option-arguments.

ghost use Rattle.std.specs.Prelude.{◌≡◌, List, ℕ, Option, option_map};
ghost use Rattle.elfkit_words.specs.Splitting.{FollowsWords};
ghost use Rattle.elfkit_words.specs.Reading.{radix_of, number_within, least_run_length, name_of, named_file_of, renaming_of, named_bits_of, split_at_equals};
ghost use Rattle.rebuild_changes.specs.Names.{is_section_name};

use crate::faults::Fault;
use crate::numbers::{script_number, word_number};
use rebuild_changes::{NamedBits, NamedFile, Renaming};
use std::alloc::Global;
use tool_text::{Radix, Text};

/// A value that an option-argument stands for.
pub(crate) trait OptionArgument: Drop {
    ghost of_word: { List ℕ → Option Self };

    /// The value of an option-argument.
    fn from_word(alloc: Global, word: &str) -> Result<Self, Fault>
        ensures { FollowsWords result (of_word word.now) };
}

/// `-t` of nm and strings.
impl OptionArgument for Radix {
    ghost of_word = { radix_of };

    #[tactic(auto, unfolding(crate::specs::Reading::radix_of))]
    fn from_word(_alloc: Global, word: &str) -> Result<Radix, Fault> {
        match word {
            "d" => Ok(Radix::Decimal),
            "o" => Ok(Radix::Octal),
            "x" => Ok(Radix::Hex),
            _ => Err(Fault::Words),
        }
    }
}

/// `-n` of strings, the only number among the options: the least length of a run, from 1 to 4096.
impl OptionArgument for u32 {
    ghost of_word = { least_run_length };

    #[tactic(auto, unfolding(crate::specs::Reading::least_run_length))]
    fn from_word(_alloc: Global, word: &str) -> Result<u32, Fault> {
        number_within(word, 1, 4096).ok_or(Fault::Words)
    }
}

/// The number of the command line that a word is, or None exactly where it is none from `low` to
/// `high`.
#[tactic(auto, unfolding(crate::specs::Reading::number_within))]
pub(crate) fn number_within(word: &str, low: u32, high: u32) -> Option<u32>
    ensures { result ≡ number_within low high word.now }
{
    match word_number(word) {
        Some(n) if u64::from(low) <= n && n <= u64::from(high) => Some(n as u32),
        _ => None,
    }
}

/// `-R` of copy: the name of a section.
impl OptionArgument for Text {
    ghost of_word = { name_of };

    #[tactic(auto, unfolding(crate::specs::Reading::name_of))]
    fn from_word(alloc: Global, word: &str) -> Result<Text, Fault> {
        if !is_section_name(word) {
            return Err(Fault::Words);
        }
        Ok(Text::copy_of(alloc, word)?)
    }
}

/// `-u` and `-a` of copy.
impl OptionArgument for NamedFile {
    ghost of_word = { named_file_of };

    #[tactic(auto, unfolding(crate::specs::Reading::named_file_of))]
    fn from_word(alloc: Global, word: &str) -> Result<NamedFile, Fault> {
        let Some((name, file)) = split_at_equals(word) else {
            return Err(Fault::Words);
        };
        if !is_section_name(name) {
            return Err(Fault::Words);
        }
        Ok(NamedFile {
            name: Text::copy_of(alloc, name)?,
            file: Text::copy_of(alloc, file)?,
        })
    }
}

/// `-n` of copy.
impl OptionArgument for Renaming {
    ghost of_word = { renaming_of };

    #[tactic(auto, unfolding(crate::specs::Reading::renaming_of))]
    fn from_word(alloc: Global, word: &str) -> Result<Renaming, Fault> {
        let Some((old, new)) = split_at_equals(word) else {
            return Err(Fault::Words);
        };
        if !is_section_name(old) || !is_section_name(new) {
            return Err(Fault::Words);
        }
        Ok(Renaming {
            old: Text::copy_of(alloc, old)?,
            new: Text::copy_of(alloc, new)?,
        })
    }
}

/// `-f` of copy.
impl OptionArgument for NamedBits {
    ghost of_word = { named_bits_of };

    #[tactic(auto, unfolding(crate::specs::Reading::named_bits_of))]
    fn from_word(alloc: Global, word: &str) -> Result<NamedBits, Fault> {
        let Some((name, bits)) = split_at_equals(word) else {
            return Err(Fault::Words);
        };
        let Some(bits) = script_number(bits) else {
            return Err(Fault::Words);
        };
        if !is_section_name(name) {
            return Err(Fault::Words);
        }
        let name = Text::copy_of(alloc, name)?;
        Ok(NamedBits { name, bits })
    }
}

/// What is before and after the first `=` of a word, or None exactly where there is none or nothing
/// is before it.
#[tactic(auto, unfolding(crate::specs::Reading::split_at_equals))]
fn split_at_equals(word: &str) -> Option<(&str, &str)>
    ensures { option_map (λ p. (p.0.now, p.1.now)) result ≡ split_at_equals word.now }
{
    match word.split_once('=') {
        Some((name, text)) if !name.is_empty() => Some((name, text)),
        _ => None,
    }
}

/// Whether a word can be the name of a section: it holds no NUL byte.
#[tactic(auto, unfolding(rebuild_changes::specs::Names::is_section_name))]
fn is_section_name(word: &str) -> bool
    ensures { result ≡ is_section_name word.now }
{
    !word.as_bytes().contains(&0)
}
