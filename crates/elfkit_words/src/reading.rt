//! The reading of the arguments: the command with its options and operands.

ghost use Rattle.std.specs.Prelude.{◌≡◌, ◌∷◌, [], option_to_list, IfOk};
ghost use Rattle.std.specs.Str.{byte};
ghost use Rattle.elf_types.specs.Answers.{FollowsBy};
ghost use Rattle.elfkit_words.specs.Forms.{IsGoodRequest};
ghost use Rattle.elfkit_words.specs.Splitting.{FollowsWords};
ghost use Rattle.elfkit_words.specs.Reading.{request_of_words, stated_usage, request_of, option_arguments, one_or_more, of_split, readelf_command, readelf_parts_of, nm_command, size_command, strings_command, strip_command, elflint_command, calls_command, selftest_command, rehash_command, copy_command, changes_of, unstrip_command, lines_command, all_differ, is_file_of};
ghost use Rattle.tool_text.specs.Arguments.{last};

use crate::commands::{Command, Request, WordsFault};
use crate::faults::Fault;
use crate::notices::Notice;
use crate::option_arguments::{
    all_values, has_option, last_option_argument, last_value, option_arguments,
};
use crate::splitting::{CommandOption, Split, split_words};
use crate::usages::Usage;
use crate::values::number_within;
use calls_tool::update::CallsOutput;
use elfkit_outcomes::StripOptions;
use nm_tool::NmOptions;
use readelf_tool::ReadelfParts;
use rebuild_changes::{CopyChanges, NamedFile};
use std::alloc::Global;
use strings_tool::StringsOptions;
use tool_text::{Args, Radix, Text};

/// Reads the arguments after the program's name, of which the first is the command, or asks for a
/// notice. It fails with the usage line that is due exactly where the arguments are not of that
/// form, and for lack of memory.
#[tactic(auto, unfolding(crate::specs::Reading::request_of_words))]
pub fn read_words(alloc: Global, words: &Args) -> Result<Request, WordsFault>
    ensures value { FollowsBy (λ r. r) stated_usage result (request_of_words words.now) }
    ensures form { IfOk result IsGoodRequest }
{
    let Some((name, words)) = words.as_slice().split_first() else {
        return Err(WordsFault::Usage(Usage::General));
    };
    if let Some(notice) = Notice::named(name.as_str()) {
        return Ok(Request::Tell(notice));
    }
    let Some(usage) = Usage::named(name.as_str()) else {
        return Err(WordsFault::Usage(Usage::General));
    };
    match read_request(alloc, usage, words) {
        Ok(request) => Ok(request),
        Err(Fault::Words) => Err(WordsFault::Usage(usage)),
        Err(Fault::Memory) => Err(WordsFault::Memory),
    }
}

/// What the arguments after a command's name ask for.
#[tactic(auto, unfolding(crate::specs::Reading::request_of))]
fn read_request(alloc: Global, usage: Usage, words: &[Text]) -> Result<Request, Fault>
    ensures { FollowsWords result (request_of usage words.now) }
{
    let split = split_words(alloc, usage, words)?;
    if split.asks_help {
        return Ok(Request::Tell(Notice::Help(usage)));
    }
    Ok(Request::Run(read_split(alloc, usage, split)?))
}

/// The command with these options and operands.
#[tactic(auto, unfolding(crate::specs::Reading::of_split))]
fn read_split(alloc: Global, usage: Usage, split: Split) -> Result<Command, Fault>
    ensures { FollowsWords result (of_split usage split) }
{
    match usage {
        Usage::Readelf => readelf(split).ok_or(Fault::Words),
        Usage::Nm => nm(alloc, split),
        Usage::Size => size(split).ok_or(Fault::Words),
        Usage::Strings => strings(alloc, split),
        Usage::Strip => strip(alloc, split),
        Usage::Elflint => elflint(split).ok_or(Fault::Words),
        Usage::Calls => calls(alloc, split),
        Usage::Selftest => selftest(alloc, split),
        Usage::Rehash => rehash(alloc, split),
        Usage::Copy => copy(alloc, split),
        Usage::Unstrip => unstrip(alloc, split),
        Usage::Lines => lines(split).ok_or(Fault::Words),
        Usage::General => Err(Fault::Words),
    }
}

/// The operands, or None exactly where there is none.
#[tactic(auto, unfolding(crate::specs::Reading::one_or_more))]
fn one_or_more(operands: Args) -> Option<Args>
    ensures { result ≡ one_or_more operands }
{
    if operands.is_empty() {
        return None;
    }
    Some(operands)
}

/// The option-argument of the last `-o`, which must be there.
fn output(alloc: Global, options: &[CommandOption]) -> Result<Text, Fault>
    ensures { FollowsWords result (last (option_arguments (byte "o") options.now)) }
{
    last_option_argument(alloc, options, b'o')?.ok_or(Fault::Words)
}

/// At least one option and one file.
#[tactic(auto, unfolding(crate::specs::Reading::readelf_command))]
fn readelf(split: Split) -> Option<Command>
    ensures { result ≡ readelf_command split }
{
    let Split {
        options,
        operands,
        ..
    } = split;
    let files = one_or_more(operands)?;
    if options.is_empty() {
        return None;
    }
    Some(Command::Readelf {
        parts: parts(options.as_slice()),
        files,
    })
}

/// The parts that the options name.
#[tactic(auto, unfolding(crate::specs::Reading::readelf_parts_of))]
fn parts(options: &[CommandOption]) -> ReadelfParts
    ensures { result ≡ readelf_parts_of options.now }
{
    ReadelfParts {
        header: has_option(options, b'h'),
        segments: has_option(options, b'l'),
        sections: has_option(options, b'S'),
        symbols: has_option(options, b's'),
        relocations: has_option(options, b'r'),
        dynamic: has_option(options, b'd'),
        notes: has_option(options, b'n'),
        versions: has_option(options, b'V'),
    }
}

/// At least one file. The radix is hexadecimal where none is given.
#[tactic(auto, unfolding(crate::specs::Reading::nm_command))]
fn nm(alloc: Global, split: Split) -> Result<Command, Fault>
    ensures { FollowsWords result (nm_command split) }
{
    let Split {
        options,
        operands,
        ..
    } = split;
    let options = options.as_slice();
    let files = one_or_more(operands).ok_or(Fault::Words)?;
    let radix = last_value(alloc, options, b't')?.unwrap_or(Radix::Hex);
    Ok(Command::Nm {
        options: NmOptions {
            name_each: has_option(options, b'A'),
            globals: has_option(options, b'g'),
            undefined: has_option(options, b'u'),
            by_value: has_option(options, b'v'),
            portable: has_option(options, b'P'),
            radix,
        },
        files,
    })
}

/// At least one file.
#[tactic(auto, unfolding(crate::specs::Reading::size_command))]
fn size(split: Split) -> Option<Command>
    ensures { result ≡ size_command split }
{
    let files = one_or_more(split.operands)?;
    Some(Command::Size { files })
}

/// At least one file. A run has at least four bytes where nothing else is given.
#[tactic(auto, unfolding(crate::specs::Reading::strings_command))]
fn strings(alloc: Global, split: Split) -> Result<Command, Fault>
    ensures { FollowsWords result (strings_command split) }
{
    let Split {
        options,
        operands,
        ..
    } = split;
    let options = options.as_slice();
    let files = one_or_more(operands).ok_or(Fault::Words)?;
    let least = last_value(alloc, options, b'n')?.unwrap_or(4);
    let place = last_value(alloc, options, b't')?;
    Ok(Command::Strings {
        options: StringsOptions {
            all: has_option(options, b'a'),
            least,
            place,
        },
        files,
    })
}

/// One file and an output. No two of them and the file for debugging have the same name.
#[tactic(auto, unfolding(crate::specs::Reading::strip_command))]
fn strip(alloc: Global, split: Split) -> Result<Command, Fault>
    ensures { FollowsWords result (strip_command split) }
{
    let Split {
        options,
        operands,
        ..
    } = split;
    let options = options.as_slice();
    let file = operands.into_one().ok_or(Fault::Words)?;
    let out = output(alloc, options)?;
    let debug = last_option_argument(alloc, options, b'f')?;
    if !strip_files_differ(&out, &file, &debug) {
        return Err(Fault::Words);
    }
    Ok(Command::Strip {
        options: StripOptions {
            debug_only: has_option(options, b'g'),
            names: option_arguments(alloc, options, b'R')?,
            debug,
            out,
        },
        file,
    })
}

/// Whether no two of the files of strip have the same name.
#[tactic(auto, unfolding(crate::specs::Reading::all_differ))]
fn strip_files_differ(out: &Text, file: &Text, debug: &Option<Text>) -> bool
    ensures { result ≡ all_differ (out.now ∷ file.now ∷ option_to_list debug.now) }
{
    match debug {
        Some(debug) => all_three_differ(out, file, debug),
        None => !out.is_same(file),
    }
}

/// Whether no two of three texts are the same.
#[tactic(auto, unfolding(crate::specs::Reading::all_differ))]
fn all_three_differ(first: &Text, second: &Text, third: &Text) -> bool
    ensures { result ≡ all_differ (first.now ∷ second.now ∷ third.now ∷ []) }
{
    !first.is_same(second) && !first.is_same(third) && !second.is_same(third)
}

/// At least one file.
#[tactic(auto, unfolding(crate::specs::Reading::elflint_command))]
fn elflint(split: Split) -> Option<Command>
    ensures { result ≡ elflint_command split }
{
    let files = one_or_more(split.operands)?;
    Some(Command::Elflint { files })
}

/// A file and a script, and not both of `-o` and `-i`. The output has another name than either.
#[tactic(auto, unfolding(crate::specs::Reading::calls_command, crate::specs::Reading::output_of))]
fn calls(alloc: Global, split: Split) -> Result<Command, Fault>
    ensures { FollowsWords result (calls_command split) }
{
    let Split {
        options,
        operands,
        ..
    } = split;
    let options = options.as_slice();
    let (file, script) = operands.into_two().ok_or(Fault::Words)?;
    let output = match (
        last_option_argument(alloc, options, b'o')?,
        has_option(options, b'i'),
    ) {
        (None, false) => None,
        (None, true) => Some(CallsOutput::InPlace),
        (Some(out), false) if !out.is_same(&file) && !out.is_same(&script) => {
            Some(CallsOutput::To(out))
        }
        (Some(_), _) => return Err(Fault::Words),
    };
    Ok(Command::Calls {
        output,
        file,
        script,
    })
}

/// An output, and one number from 1 to 60000.
#[tactic(auto, unfolding(crate::specs::Reading::selftest_command))]
fn selftest(alloc: Global, split: Split) -> Result<Command, Fault>
    ensures { FollowsWords result (selftest_command split) }
{
    let Split {
        options,
        operands,
        ..
    } = split;
    let word = operands.into_one().ok_or(Fault::Words)?;
    let out = output(alloc, options.as_slice())?;
    let count = number_within(word.as_str(), 1, 60000).ok_or(Fault::Words)?;
    Ok(Command::Selftest { out, count })
}

/// An output and one file, which have different names.
#[tactic(auto, unfolding(crate::specs::Reading::rehash_command, crate::specs::Reading::all_differ))]
fn rehash(alloc: Global, split: Split) -> Result<Command, Fault>
    ensures { FollowsWords result (rehash_command split) }
{
    let Split {
        options,
        operands,
        ..
    } = split;
    let file = operands.into_one().ok_or(Fault::Words)?;
    let out = output(alloc, options.as_slice())?;
    if out.is_same(&file) {
        return Err(Fault::Words);
    }
    Ok(Command::Rehash { out, file })
}

/// An output and one file. The output has another name than the file and the files of the changes.
#[tactic(auto, unfolding(crate::specs::Reading::copy_command))]
fn copy(alloc: Global, split: Split) -> Result<Command, Fault>
    ensures { FollowsWords result (copy_command split) }
{
    let Split {
        options,
        operands,
        ..
    } = split;
    let options = options.as_slice();
    let file = operands.into_one().ok_or(Fault::Words)?;
    let out = output(alloc, options)?;
    let changes = changes(alloc, options)?;
    if out.is_same(&file)
        || is_file_of(&out, changes.update.as_slice())
        || is_file_of(&out, changes.add.as_slice())
    {
        return Err(Fault::Words);
    }
    Ok(Command::Copy { changes, out, file })
}

/// The changes of copy.
#[tactic(auto, unfolding(crate::specs::Reading::changes_of))]
fn changes(alloc: Global, options: &[CommandOption]) -> Result<CopyChanges, Fault>
    ensures { FollowsWords result (changes_of options.now) }
{
    let remove = Args::from_texts(alloc, all_values(alloc, options, b'R')?);
    let update = all_values(alloc, options, b'u')?;
    let rename = all_values(alloc, options, b'n')?;
    let flags = all_values(alloc, options, b'f')?;
    let add = all_values(alloc, options, b'a')?;
    Ok(CopyChanges {
        remove,
        update,
        rename,
        flags,
        add,
    })
}

/// Whether a word is one of the files.
#[tactic(auto, unfolding(crate::specs::Reading::is_file_of))]
fn is_file_of(word: &Text, named: &[NamedFile]) -> bool
    ensures { result ≡ is_file_of word.now named.now }
{
    named.iter().any(|each| each.file.is_same(word))
}

/// An output and two files, no two of which have the same name.
#[tactic(auto, unfolding(crate::specs::Reading::unstrip_command))]
fn unstrip(alloc: Global, split: Split) -> Result<Command, Fault>
    ensures { FollowsWords result (unstrip_command split) }
{
    let Split {
        options,
        operands,
        ..
    } = split;
    let (stripped, debug) = operands.into_two().ok_or(Fault::Words)?;
    let out = output(alloc, options.as_slice())?;
    if !all_three_differ(&out, &stripped, &debug) {
        return Err(Fault::Words);
    }
    Ok(Command::Unstrip {
        out,
        stripped,
        debug,
    })
}

/// At least one file.
#[tactic(auto, unfolding(crate::specs::Reading::lines_command))]
fn lines(split: Split) -> Option<Command>
    ensures { result ≡ lines_command split }
{
    let files = one_or_more(split.operands)?;
    Some(Command::Lines { files })
}
