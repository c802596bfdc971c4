//! Why lines of a script are rejected, and which of several causes counts.

use crate::scripts::rows::{
    are_refused_at, calls_in_comment, fault_of, fault_of_comment, lines_are_refused,
};
use elf_calls_script::{MAX_SCRIPT, Why};
use std::test::*;

/// Lines whose first word is no call.
const NO_CALLS: [&str; 13] = [
    " ", " ehdr", "\tehdr", "Ehdr", "ehdrs", "eh", "-", "1", "ehdr\tx", "\u{e9}", "ehdr\r", " # x",
    "kind 1 2",
];

#[test]
fn first_words_that_are_no_call_are_refused(rt: HostRuntime) {
    assert!(rt; lines_are_refused(&rt, Why::BadCall, &NO_CALLS));
    let found = fault_of(rt.alloc(), b"\xff\xfe 1");
    assert_eq!(rt; found, Some((1, Why::BadCall)));
}

/// Lines of each call with another number of words.
const OTHER_COUNTS: [&str; 38] = [
    "ehdr 1",
    "ehdr ",
    "phdr",
    "phdr 1 2",
    "phdr 1 ",
    "phdr  1",
    "shdr",
    "shdr 1 2",
    "pieces",
    "pieces 1 2",
    "data 1",
    "data 1 2 3",
    "raw",
    "raw 1 2",
    "item 1 2",
    "item 1 2 3 4",
    "str 1",
    "str 1 2 3",
    "note 1 2",
    "note 1 2 3 4",
    "find",
    "find 1",
    "find 1 ",
    "find  1 a",
    "addall 1 2",
    "addall 1 2 3 4",
    "newscn 1",
    "newphdr",
    "newphdr 1 2",
    "newdata 1",
    "newdata 1 - 2 3",
    "newdata 1 - ",
    "fill",
    "fill 1 2",
    "replace 1 2",
    "replace 1 2 - 3",
    "null 1",
    "null ",
];

#[test]
fn other_numbers_of_words_are_refused(rt: HostRuntime) {
    assert!(rt; lines_are_refused(&rt, Why::BadWords, &OTHER_COUNTS));
}

/// Lines of `set` and `flag` with other words.
const OTHER_WORDS: [&str; 26] = [
    "set",
    "set ",
    "set ehdr",
    "set ehdr osabi",
    "set ehdr osabi 1 2",
    "set ehdr class 1",
    "set phdr type 1",
    "set phdr 1 entry 1",
    "set shdr 1 value 1",
    "set bytes 1 2 3 value 1",
    "set empty 1 2 3 value 1",
    "set half 1 2 3 half 1",
    "set sym 1 2 3 section 1",
    "set sym 1 2 name 1",
    "set rel 1 2 3 addend 1",
    "set rela 1 2 3 val 1",
    "set dyn 1 2 3 value 1",
    "flag",
    "flag object",
    "flag object set",
    "flag object 1",
    "flag table set 1",
    "flag section set 1",
    "flag piece 1 set 1",
    "flag object toggle 1",
    "flag object set 1 2",
];

#[test]
fn other_words_of_set_and_flag_are_refused(rt: HostRuntime) {
    assert!(rt; lines_are_refused(&rt, Why::BadWords, &OTHER_WORDS));
}

/// Lines with words that have not the form of a number or of bytes.
const OTHER_FORMS: [&str; 24] = [
    "phdr x",
    "phdr 1x",
    "phdr -1",
    "phdr +1",
    "phdr 0x",
    "phdr 0X1",
    "phdr 0xg",
    "phdr 0x-1",
    "phdr 111112222233333444445",
    "phdr 0x11112222333344445",
    "fill -0",
    "addall 1 2 -3",
    "set dyn 1 2 3 val -1",
    "set rela 1 2 3 addend -",
    "set rela 1 2 3 addend --1",
    "set rela 1 2 3 addend -0x1",
    "set rela 1 2 3 addend -111112222233333444445",
    "newdata 1 a",
    "newdata 1 abc",
    "newdata 1 0x00",
    "newdata 1 0g",
    "newdata 1 --",
    "newdata 1  2",
    "replace 1 2 f",
];

#[test]
fn other_forms_of_numbers_are_refused(rt: HostRuntime) {
    assert!(rt; lines_are_refused(&rt, Why::BadWords, &OTHER_FORMS));
}

/// Lines of each call with a number past its range.
const PAST_RANGE: [&str; 20] = [
    "phdr 4294967296",
    "phdr 99999999999999999999",
    "shdr 0x100000000",
    "pieces 4294967296",
    "data 0 4294967296",
    "raw 4294967296",
    "item 0 0 18446744073709551616",
    "item 4294967296 0 0",
    "str 0 18446744073709551616",
    "note 0 0 18446744073709551616",
    "find 4294967296 a",
    "addall 0 0 18446744073709551616",
    "newphdr 4294967296",
    "newdata 4294967296 -",
    "newdata 0 - 18446744073709551616",
    "fill 256",
    "replace 0 4294967296 -",
    "flag object set 4294967296",
    "flag section 4294967296 set 1",
    "flag piece 0 4294967296 set 1",
];

#[test]
fn numbers_past_their_range_are_refused(rt: HostRuntime) {
    assert!(rt; lines_are_refused(&rt, Why::BadNumber, &PAST_RANGE));
}

/// Lines of `set` with a number that is too great for its field.
const PAST_FIELD: [&str; 20] = [
    "set ehdr osabi 256",
    "set ehdr abiversion 256",
    "set ehdr type 65536",
    "set ehdr machine 65536",
    "set ehdr entry 18446744073709551616",
    "set ehdr flags 4294967296",
    "set ehdr shstrndx 4294967296",
    "set phdr 0 type 4294967296",
    "set phdr 4294967296 type 0",
    "set shdr 0 link 4294967296",
    "set half 0 0 0 value 65536",
    "set word 0 0 0 value 4294967296",
    "set sym 0 0 0 info 256",
    "set sym 0 0 0 shndx 65536",
    "set rel 0 0 0 type 4294967296",
    "set rela 0 0 0 addend 9223372036854775808",
    "set rela 0 0 0 addend -9223372036854775809",
    "set rela 0 0 0 addend 0xffffffffffffffff",
    "set dyn 0 0 0 tag 99999999999999999999",
    "set dyn 0 0 0 tag -99999999999999999999",
];

#[test]
fn numbers_too_great_for_their_field_are_refused(rt: HostRuntime) {
    assert!(rt; lines_are_refused(&rt, Why::BadNumber, &PAST_FIELD));
}

/// Scripts with several faults, and the one that counts.
const FIRST_CAUSES: [(&str, u32, Why); 15] = [
    ("phdrs 4294967296 x", 1, Why::BadCall),
    ("phdr 4294967296 x", 1, Why::BadWords),
    ("data 4294967296", 1, Why::BadWords),
    ("set sym 4294967296 0 0 info x", 1, Why::BadWords),
    ("set sym 4294967296 0 0 colour 1", 1, Why::BadWords),
    ("newdata 4294967296 a", 1, Why::BadWords),
    ("flag piece 4294967296 0 toggle 1", 1, Why::BadWords),
    ("ehdr\n\n# x\nnope", 4, Why::BadCall),
    ("fill 256\nnope\nphdr", 1, Why::BadNumber),
    ("ehdr\nphdr\nnope", 2, Why::BadWords),
    ("\n\n\nfill 256\n", 4, Why::BadNumber),
    ("nulls 1", 1, Why::BadCall),
    ("null 4294967296 x", 1, Why::BadWords),
    ("phdr\nnull", 1, Why::BadWords),
    ("null\nphdr", 2, Why::BadWords),
];

#[test]
fn the_first_cause_of_the_first_bad_line_counts(rt: HostRuntime) {
    assert!(rt; are_refused_at(&rt, &FIRST_CAUSES));
}

#[test]
fn a_script_has_a_greatest_size(rt: HostRuntime) -> Result<(), Fail> {
    let longest = calls_in_comment(rt.alloc(), MAX_SCRIPT)?;
    assert_eq!(rt; longest, Some(0));
    let longer = fault_of_comment(rt.alloc(), MAX_SCRIPT + 1)?;
    assert_eq!(rt; longer, Some((0, Why::TooLong)));
    Ok(())
}
