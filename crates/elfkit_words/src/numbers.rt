//! Words that are numbers.

ghost use Rattle.std.specs.Prelude.{◌≡◌, ◌≤◌};
ghost use Rattle.elfkit_words.specs.Numbers.{numeral, word_number_of, script_number_of};

use elf_types::are_digits;

/// The number that a word of one to `most` digits stands for in a radix, or None exactly where the
/// word has another form or the number is 2^64 or greater.
#[tactic(auto, unfolding(crate::specs::Numbers::numeral))]
fn numeral(word: &str, radix: u32, most: usize) -> Option<u64>
    requires low { 2 ≤ radix }
    requires high { radix ≤ 36 }
    ensures { result ≡ numeral radix most word.now }
{
    if word.len() > most || !are_digits(word.as_bytes(), radix) {
        return None;
    }
    u64::from_str_radix(word, radix).ok()
}

/// A number of the command line, which has one to nine decimal digits, or None exactly where the
/// word is none.
#[tactic(auto, unfolding(crate::specs::Numbers::word_number_of))]
pub fn word_number(word: &str) -> Option<u64>
    ensures { result ≡ word_number_of word.now }
{
    numeral(word, 10, 9)
}

/// A number of a script, which has one to twenty decimal digits, or `0x` and one to sixteen
/// hexadecimal ones, and is below 2^64; or None exactly where the word is none.
#[tactic(auto, unfolding(crate::specs::Numbers::script_number_of))]
pub fn script_number(word: &str) -> Option<u64>
    ensures { result ≡ script_number_of word.now }
{
    match word.strip_prefix("0x") {
        Some(digits) => numeral(digits, 16, 16),
        None => numeral(word, 10, 20),
    }
}
