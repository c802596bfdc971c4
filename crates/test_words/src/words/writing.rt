//! The commands that write a file, but for the changes of copy.

use super::{Comparison, Reading, Row, all_hold, are, are_two, command, is};
use elfkit_words::Command;
use elfkit_words::prelude::{CallsOutput, StripOptions};
use tool_text::Text;

/// Whether a text is this one, after `=`, or there is neither.
fn is_maybe(text: &Option<Text>, wanted: &str) -> bool {
    match text {
        Some(text) => wanted.strip_prefix('=') == Some(text.as_str()),
        None => wanted.is_empty(),
    }
}

/// The letter `g` of strip and the file for debugging, where no names are given, for the output O
/// and the file F.
struct Strip;

const STRIP: [Row; 12] = [
    ("strip|-o|O|F", ""),
    ("strip|-oO|--|F", ""),
    ("strip|-oF|-o|O|F", ""),
    ("strip|-o|-g|-oO|F", ""),
    ("strip|-g|-oO|F", "g"),
    ("strip|-gg|-g|-oO|F", "g"),
    ("strip|-goO|F", "g"),
    ("strip|-fD|-oO|F", "=D"),
    ("strip|-g|-f|D|-oO|F", "g=D"),
    ("strip|-f|O|-fF|-f|E|-oO|F", "=E"),
    ("strip|-f||-oO|F", "="),
    ("strip|-f|-g|-oO|F", "=-g"),
];

/// The options of strip for the output O and the file F.
fn strip_options(read: &Reading) -> Option<&StripOptions> {
    match command(read) {
        Some(Command::Strip { options, file }) if is(file, "F") && is(&options.out, "O") => Some(
            options,
        ),
        _ => None,
    }
}

/// Whether these are the letter and the file for debugging.
fn has_debug(options: &StripOptions, debug_only: bool, debug: &str) -> bool {
    options.debug_only == debug_only && options.names.is_empty() && is_maybe(&options.debug, debug)
}

/// Whether these are the options.
fn are_options(options: &StripOptions, wanted: &str) -> bool {
    match wanted.strip_prefix('g') {
        Some(debug) => has_debug(options, true, debug),
        None => has_debug(options, false, wanted),
    }
}

impl Comparison for Strip {
    fn holds(read: &Reading, wanted: &str) -> bool {
        match strip_options(read) {
            Some(options) => are_options(options, wanted),
            None => false,
        }
    }
}

/// The names that strip removes.
struct StripNames;

const STRIP_NAMES: [Row; 3] = [
    ("strip|-R.a|-oO|F", "|.a"),
    ("strip|-R|.b|-R.a|-fD|-R|.b|-Rg|-oO|F", "|.b|.a|.b|g"),
    ("strip|-R||-R|--|-oO|-R|-g|F", "||--|-g"),
];

impl Comparison for StripNames {
    fn holds(read: &Reading, wanted: &str) -> bool {
        match strip_options(read) {
            Some(options) => !options.debug_only && are(options.names.as_slice(), wanted),
            None => false,
        }
    }
}

/// The output of calls: nothing, `i`, or a file after `=`.
struct Output;

const OUTPUTS: [Row; 10] = [
    ("calls|F|S", ""),
    ("calls|--|F|S", ""),
    ("calls|-i|F|S", "i"),
    ("calls|-ii|-i|--|F|S", "i"),
    ("calls|-oO|F|S", "=O"),
    ("calls|-o|O|F|S", "=O"),
    ("calls|-oF|-oS|-o|O|F|S", "=O"),
    ("calls|-o|-i|F|S", "=-i"),
    ("calls|-o|--|F|S", "=--"),
    ("calls|-o||F|S", "="),
];

/// Whether this is the output.
fn is_output(output: &Option<CallsOutput>, wanted: &str) -> bool {
    match output {
        Some(CallsOutput::To(out)) => wanted.strip_prefix('=') == Some(out.as_str()),
        Some(CallsOutput::InPlace) => wanted == "i",
        None => wanted.is_empty(),
    }
}

impl Comparison for Output {
    fn holds(read: &Reading, wanted: &str) -> bool {
        match command(read) {
            Some(Command::Calls { output, .. }) => is_output(output, wanted),
            _ => false,
        }
    }
}

/// Two words of a command: the file and the script of calls, or the output and the file of rehash.
struct TwoFiles;

const TWO_FILES: [Row; 9] = [
    ("calls|F|S", "F|S"),
    ("calls|-i|--|-|-o", "-|-o"),
    ("calls|-oO|A|A", "A|A"),
    ("calls||", "|"),
    ("rehash|-oO|F", "O|F"),
    ("rehash|-o|F|-o|O|--|F", "O|F"),
    ("rehash|-o|-o|-", "-o|-"),
    ("rehash|-oO|", "O|"),
    ("rehash|-o||F", "|F"),
];

impl Comparison for TwoFiles {
    fn holds(read: &Reading, wanted: &str) -> bool {
        match command(read) {
            Some(Command::Calls { file, script, .. }) => are_two(file, script, wanted, '|'),
            Some(Command::Rehash { out, file }) => are_two(out, file, wanted, '|'),
            _ => false,
        }
    }
}

/// The number of selftest, for the output O.
struct Count;

const COUNTS: [Row; 3] = [
    ("selftest|-oO|1", "1"),
    ("selftest|-o|O|60000", "60000"),
    ("selftest|-oA|-o|O|--|000000007", "7"),
];

impl Comparison for Count {
    fn holds(read: &Reading, wanted: &str) -> bool {
        match command(read) {
            Some(Command::Selftest { out, count }) => is(out, "O") && wanted.parse() == Ok(*count),
            _ => false,
        }
    }
}

/// The output of unstrip, for the files S and D.
struct Unstrip;

const UNSTRIP: [Row; 4] = [
    ("unstrip|-oX|S|D", "X"),
    ("unstrip|-o|X|S|D", "X"),
    ("unstrip|-oS|-oD|-o|X|--|S|D", "X"),
    ("unstrip|-o||S|D", ""),
];

impl Comparison for Unstrip {
    fn holds(read: &Reading, wanted: &str) -> bool {
        match command(read) {
            Some(
                Command::Unstrip {
                    out,
                    stripped,
                    debug,
                },
            ) => is(out, wanted) && are_two(stripped, debug, "S|D", '|'),
            _ => false,
        }
    }
}

#[test]
fn strip_takes_names_and_the_last_files(rt: HostRuntime) {
    assert!(rt; all_hold::<Strip>(&rt, &STRIP));
    assert!(rt; all_hold::<StripNames>(&rt, &STRIP_NAMES));
}

#[test]
fn calls_takes_two_files_and_the_last_output_or_none(rt: HostRuntime) {
    assert!(rt; all_hold::<Output>(&rt, &OUTPUTS));
    assert!(rt; all_hold::<TwoFiles>(&rt, &TWO_FILES));
}

#[test]
fn selftest_and_unstrip_take_the_last_output(rt: HostRuntime) {
    assert!(rt; all_hold::<Count>(&rt, &COUNTS));
    assert!(rt; all_hold::<Unstrip>(&rt, &UNSTRIP));
}
