//! What the options say, one by one.

ghost use Rattle.std.specs.Prelude.{◌≡◌, IfOk, IfErr, option_map};
ghost use Rattle.elfkit_words.specs.Splitting.{FollowsWords, AddsValue};
ghost use Rattle.elfkit_words.specs.Reading.{has_option, option_arguments, all_values};
ghost use Rattle.tool_text.specs.Arguments.{last};
ghost use Rattle.elfkit_words.specs.declared.faults.Fault.TheVariants.{Memory};

use crate::faults::Fault;
use crate::splitting::CommandOption;
use crate::values::OptionArgument;
use elf_types::List;
use std::alloc::Global;
use tool_text::{Args, Text};

/// Whether an option is among them.
#[tactic(auto, unfolding(crate::specs::Reading::has_option))]
pub(crate) fn has_option(options: &[CommandOption], letter: u8) -> bool
    ensures { result ≡ has_option letter options.now }
{
    options.iter().any(|option| option.letter == letter)
}

/// The option-arguments of an option, in the order of the arguments. Only memory can be missing for
/// it.
#[tactic(auto, unfolding(crate::specs::Reading::option_arguments))]
pub(crate) fn option_arguments(
    alloc: Global,
    options: &[CommandOption],
    letter: u8,
) -> Result<Args, Fault>
    ensures ok { IfOk result (λ a. a ≡ option_arguments letter options.now) }
    ensures err { IfErr result (λ e. e ≡ Memory) }
{
    let mut words = Args::new(alloc);
    for option in options {
        if option.letter == letter {
            if let Some(word) = &option.option_argument {
                words.add(word.as_str())?;
            }
        }
    }
    Ok(words)
}

/// The last option-argument of an option. Only memory can be missing for it.
pub(crate) fn last_option_argument(
    alloc: Global,
    options: &[CommandOption],
    letter: u8,
) -> Result<Option<Text>, Fault>
    ensures ok { IfOk result (λ o. o ≡ last (option_arguments letter options.now)) }
    ensures err { IfErr result (λ e. e ≡ Memory) }
{
    let words = option_arguments(alloc, options, letter)?;
    Ok(words.into_last())
}

/// Appends the value of a word, which must have one.
fn add_value<T: OptionArgument>(
    alloc: Global,
    values: &mut List<T>,
    word: &str,
) -> Result<(), Fault>
    ensures { AddsValue (T.of_word word.now) values.old values.new result }
{
    let value = T::from_word(alloc, word)?;
    values.push(value)?;
    Ok(())
}

/// The values of words, in their order. Each must have one.
fn values_of<T: OptionArgument>(alloc: Global, words: &[Text]) -> Result<List<T>, Fault>
    ensures { FollowsWords result (all_values T.of_word words.now) }
{
    let mut values = List::new(alloc);
    for word in words {
        add_value(alloc, &mut values, word.as_str())?;
    }
    Ok(values)
}

/// The values of the option-arguments of an option, in the order of the arguments. Each must have
/// one.
pub(crate) fn all_values<T: OptionArgument>(
    alloc: Global,
    options: &[CommandOption],
    letter: u8,
) -> Result<List<T>, Fault>
    ensures { FollowsWords result (all_values T.of_word (option_arguments letter options.now)) }
{
    let words = option_arguments(alloc, options, letter)?;
    values_of(alloc, words.as_slice())
}

/// The value of the last option-argument of an option. Each of them must have one.
pub(crate) fn last_value<T: OptionArgument + Copy>(
    alloc: Global,
    options: &[CommandOption],
    letter: u8,
) -> Result<Option<T>, Fault>
    ensures { FollowsWords result
        (option_map last (all_values T.of_word (option_arguments letter options.now))) }
{
    let values = all_values::<T>(alloc, options, letter)?;
    Ok(values.as_slice().last().copied())
}
