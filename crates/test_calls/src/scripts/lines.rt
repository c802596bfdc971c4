//! What each line of a script says.

use crate::scripts::rows::{are_changed, are_shown};
use std::test::*;

/// A line of each call but `set` and `flag`.
const CALLS: [&str; 18] = [
    "ehdr\n",
    "phdr 4294967295\n",
    "shdr 4294967295\n",
    "pieces 1\n",
    "data 1 4294967295\n",
    "raw 1\n",
    "item 1 2 18446744073709551615\n",
    "str 1 18446744073709551615\n",
    "note 1 2 3\n",
    "find 1 main\n",
    "addall 1 2 3\n",
    "newscn\n",
    "newphdr 65535\n",
    "newdata 1 00ff\n",
    "newdata 1 - 0\n",
    "fill 255\n",
    "replace 1 2 -\n",
    "null\n",
];

#[test]
fn each_kind_of_line_is_read(rt: HostRuntime) {
    assert!(rt; are_shown(&rt, &CALLS));
}

/// A line of `flag` for each part.
const FLAGS: [&str; 5] = [
    "flag object set 4\n",
    "flag header clear 1\n",
    "flag segments set 4294967295\n",
    "flag section 3 clear 0\n",
    "flag piece 3 4 set 1\n",
];

#[test]
fn each_part_has_flags(rt: HostRuntime) {
    assert!(rt; are_shown(&rt, &FLAGS));
}

/// Each field of the ELF header and of a program header.
const HEADER_FIELDS: [&str; 17] = [
    "set ehdr osabi 255\n",
    "set ehdr abiversion 255\n",
    "set ehdr type 65535\n",
    "set ehdr machine 65535\n",
    "set ehdr entry 18446744073709551615\n",
    "set ehdr phoff 1\n",
    "set ehdr shoff 2\n",
    "set ehdr flags 4294967295\n",
    "set ehdr shstrndx 4294967295\n",
    "set phdr 7 type 4294967295\n",
    "set phdr 7 flags 1\n",
    "set phdr 7 offset 2\n",
    "set phdr 7 vaddr 3\n",
    "set phdr 7 paddr 4\n",
    "set phdr 7 filesz 5\n",
    "set phdr 7 memsz 6\n",
    "set phdr 7 align 18446744073709551615\n",
];

#[test]
fn each_field_of_a_header_is_set(rt: HostRuntime) {
    assert!(rt; are_shown(&rt, &HEADER_FIELDS));
}

/// Each field of a section header.
const SECTION_FIELDS: [&str; 10] = [
    "set shdr 5 name 4294967295\n",
    "set shdr 5 type 1\n",
    "set shdr 5 flags 18446744073709551615\n",
    "set shdr 5 addr 2\n",
    "set shdr 5 offset 3\n",
    "set shdr 5 size 4\n",
    "set shdr 5 link 5\n",
    "set shdr 5 info 6\n",
    "set shdr 5 addralign 7\n",
    "set shdr 5 entsize 8\n",
];

#[test]
fn each_field_of_a_section_header_is_set(rt: HostRuntime) {
    assert!(rt; are_shown(&rt, &SECTION_FIELDS));
}

/// Each field of an item of each kind.
const ITEM_FIELDS: [&str; 18] = [
    "set half 1 2 3 value 65535\n",
    "set word 1 2 3 value 4294967295\n",
    "set addr 1 2 3 value 18446744073709551615\n",
    "set sym 1 2 3 name 4294967295\n",
    "set sym 1 2 3 value 4\n",
    "set sym 1 2 3 size 5\n",
    "set sym 1 2 3 info 255\n",
    "set sym 1 2 3 other 255\n",
    "set sym 1 2 3 shndx 65535\n",
    "set rel 1 2 3 offset 6\n",
    "set rel 1 2 3 sym 7\n",
    "set rel 1 2 3 type 4294967295\n",
    "set rela 1 2 3 offset 8\n",
    "set rela 1 2 3 sym 9\n",
    "set rela 1 2 3 type 10\n",
    "set rela 1 2 3 addend -9223372036854775808\n",
    "set dyn 1 2 3 tag 9223372036854775807\n",
    "set dyn 1 2 3 val 11\n",
];

#[test]
fn each_field_of_an_item_is_set(rt: HostRuntime) {
    assert!(rt; are_shown(&rt, &ITEM_FIELDS));
}

/// Numbers and bytes in several forms, and their calls.
const NUMBERS: [(&str, &str); 6] = [
    (
        "item 0x1 00000000000000000002 0xfFfFfFfFfFfFfFfF",
        "item 1 2 18446744073709551615\n",
    ),
    ("shdr 0x00000000ffffffff", "shdr 4294967295\n"),
    ("set rela 0 0 0 addend -0", "set rela 0 0 0 addend 0\n"),
    (
        "set dyn 0 0 0 tag 0x7fffffffffffffff",
        "set dyn 0 0 0 tag 9223372036854775807\n",
    ),
    (
        "set dyn 0 0 0 tag -00000000000000000001",
        "set dyn 0 0 0 tag -1\n",
    ),
    ("newdata 1 00fFA0", "newdata 1 00ffa0\n"),
];

#[test]
fn numbers_have_several_forms(rt: HostRuntime) {
    assert!(rt; are_changed(&rt, &NUMBERS));
}

/// Scripts with lines that are passed over, and with names, and their calls.
const LINES: [(&str, &str); 6] = [
    ("", ""),
    ("\n\n#\n# ehdr\n", ""),
    ("ehdr\nnewscn", "ehdr\nnewscn\n"),
    ("ehdr\n\n#x\nnewscn\n", "ehdr\nnewscn\n"),
    ("find 1  a b #\nnewscn", "find 1  a b #\nnewscn\n"),
    ("find 1 \u{e9}", "find 1 \u{e9}\n"),
];

#[test]
fn lines_end_at_newlines_and_names_at_lines(rt: HostRuntime) {
    assert!(rt; are_changed(&rt, &LINES));
}
