//! The arguments after a command, as options and operands.

ghost use Rattle.std.specs.Prelude.{◌≡◌, ◌≤◌, ◌<◌, ◌++◌, [], None, length, drop, unwrap_or, OnOk, IfOk, IfErr};
ghost use Rattle.std.specs.Option.{option_copied};
ghost use Rattle.elfkit_words.specs.Splitting.{FollowsWords, is_option_word, option_with, group_of, split_of, split_after, split_by_group, AddsGroup, GoesOn, EndsOptions};
ghost use Rattle.elfkit_words.specs.declared.faults.Fault.TheVariants.{Memory};

use crate::faults::Fault;
use crate::usages::Usage;
use elf_types::List;
use std::alloc::Global;
use tool_text::{Args, Text};

/// An option, as the arguments give it.
#[derive(Drop)]
pub(crate) struct CommandOption {
    /// Its letter.
    pub letter: u8,
    /// Its option-argument, where the letter takes one.
    pub option_argument: Option<Text>,
}

/// The arguments after a command, split.
#[derive(Drop)]
pub(crate) struct Split {
    /// The options, in the order of the arguments.
    pub options: List<CommandOption>,
    /// The operands, in the order of the arguments.
    pub operands: Args,
    /// Whether `--help` is where an option word is looked for. Nothing after it is looked at.
    pub asks_help: bool,
}

/// Splits the arguments after a command into options and operands.
pub(crate) fn split_words(alloc: Global, usage: Usage, words: &[Text]) -> Result<Split, Fault>
    ensures { FollowsWords result (split_of usage None words.now) }
{
    let mut options = List::new(alloc);
    let rest = read_options(alloc, &mut options, usage, words)?;
    let operands = copy_operands(alloc, rest)?;
    Ok(Split {
        options,
        operands,
        asks_help: rest.is_none(),
    })
}

/// The operands, of which there are none where help is asked for.
fn copy_operands(alloc: Global, rest: Option<&[Text]>) -> Result<Args, Fault>
    ensures ok { IfOk result (λ a. a ≡ unwrap_or (option_copied rest.entry) []) }
    ensures err { IfErr result (λ e. e ≡ Memory) }
{
    match rest {
        Some(words) => Ok(Args::copy_of(alloc, words)?),
        None => Ok(Args::new(alloc)),
    }
}

/// Appends the options at the start of words. It gives the operands after them, or None where
/// `--help` is where an option word is looked for.
fn read_options<'a>(
    alloc: Global,
    options: &mut List<CommandOption>,
    usage: Usage,
    words: &'a [Text],
) -> Result<Option<&'a [Text]>, Fault>
    ensures { EndsOptions (split_after options.old (split_of usage None words.now))
        options.new result }
{
    let mut rest = words;
    while let Some((word, after)) = rest.split_first() {
        if !is_option_word(word.as_bytes()) {
            return Ok(Some(rest));
        }
        if word.as_str() == "--" {
            return Ok(Some(after));
        }
        if word.as_str() == "--help" {
            return Ok(None);
        }
        rest = read_option_word(alloc, options, usage, word.as_str(), after)?;
    }
    Ok(Some(rest))
}

/// Appends the options of an option word, which words follow. It gives those that are left.
fn read_option_word<'a>(
    alloc: Global,
    options: &mut List<CommandOption>,
    usage: Usage,
    word: &str,
    words: &'a [Text],
) -> Result<&'a [Text], Fault>
    ensures value { GoesOn usage (split_after options.old
        (split_by_group usage (group_of usage (drop 1 word.now)) words.now)) options.new result }
    ensures no_longer { IfOk result (λ rest. length rest.now ≤ length words.now) }
{
    let Some(letter) = read_group(alloc, options, usage, word)? else {
        return Ok(words);
    };
    let Some((option_argument, rest)) = words.split_first() else {
        return Err(Fault::Words);
    };
    push_option(alloc, options, letter, option_argument.as_str())?;
    Ok(rest)
}

/// Appends an option with its option-argument.
fn push_option(
    alloc: Global,
    options: &mut List<CommandOption>,
    letter: u8,
    option_argument: &str,
) -> Result<(), Fault>
    ensures ok { OnOk result
        (options.new ≡ options.old ++ option_with letter option_argument.now) }
    ensures err { IfErr result (λ e. e ≡ Memory) }
{
    let option_argument = Some(Text::copy_of(alloc, option_argument)?);
    options.push(CommandOption {
        letter,
        option_argument,
    })?;
    Ok(())
}

/// Whether a word is an option word, where one may be.
fn is_option_word(word: &[u8]) -> bool
    ensures { result ≡ is_option_word word.now }
{
    word.len() >= 2 && word[0] == b'-'
}

/// Appends the options of an option word. It gives the letter whose option-argument is the next
/// word.
fn read_group(
    alloc: Global,
    options: &mut List<CommandOption>,
    usage: Usage,
    word: &str,
) -> Result<Option<u8>, Fault>
    ensures { AddsGroup usage (drop 1 word.now) options.old options.new result }
{
    let letters = word.as_bytes();
    for i in 1..letters.len() {
        let letter = letters[i];
        if usage.takes_option_argument(letter) {
            if i + 1 == letters.len() {
                return Ok(Some(letter));
            }
            push_option(alloc, options, letter, &word[i + 1..])?;
            return Ok(None);
        }
        if !usage.stands_alone(letter) {
            return Err(Fault::Words);
        }
        options.push(CommandOption {
            letter,
            option_argument: None,
        })?;
    }
    Ok(None)
}
