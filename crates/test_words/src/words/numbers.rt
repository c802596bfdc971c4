//! Words that are numbers.

use elfkit_words::{script_number, word_number};
use test_kit_rows::{in_row, same};

/// Words, and the number of the command line that each is.
const OF_WORDS: [(&str, Option<u64>); 9] = [
    ("0", Some(0)),
    ("004", Some(4)),
    ("999999999", Some(999_999_999)),
    ("0000000001", None),
    ("", None),
    ("+1", None),
    ("-1", None),
    ("1 ", None),
    ("a", None),
];

/// Words, and the number of a script that each is.
const OF_SCRIPTS: [(&str, Option<u64>); 13] = [
    ("00000000000000000010", Some(10)),
    ("18446744073709551615", Some(0xffff_ffff_ffff_ffff)),
    ("18446744073709551616", None),
    ("000000000000000000010", None),
    ("0xfF", Some(255)),
    ("0xffffffffffffffff", Some(0xffff_ffff_ffff_ffff)),
    ("0x00000000000000001", None),
    ("0x", None),
    ("0X1", None),
    ("+1", None),
    ("-0x1", None),
    ("0x+1", None),
    ("", None),
];

/// Whether words are these numbers of the command line.
fn are_word_numbers(rt: &HostRuntime, rows: &[(&str, Option<u64>)]) -> bool {
    for (n, (word, wanted)) in rows.iter().enumerate() {
        if !in_row(rt, n, same(rt, &word_number(word), wanted)) {
            return false;
        }
    }
    true
}

/// Whether words are these numbers of a script.
fn are_script_numbers(rt: &HostRuntime, rows: &[(&str, Option<u64>)]) -> bool {
    for (n, (word, wanted)) in rows.iter().enumerate() {
        if !in_row(rt, n, same(rt, &script_number(word), wanted)) {
            return false;
        }
    }
    true
}

#[test]
fn numbers_of_arguments_have_at_most_nine_digits(rt: HostRuntime) {
    assert!(rt; are_word_numbers(&rt, &OF_WORDS));
}

#[test]
fn numbers_of_scripts_are_decimal_or_hexadecimal(rt: HostRuntime) {
    assert!(rt; are_script_numbers(&rt, &OF_SCRIPTS));
}
