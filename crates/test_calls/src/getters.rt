//! What the lines show that change nothing.

use crate::runs::{ScriptRow, answered, answered_of_five};
use elf_types::{Class, Order};

/// Getters on an object with two symbols, class 64 and the least byte first.
const GETTERS: [ScriptRow; 12] = [
    (
        "ehdr",
        "ehdr class 64 order least osabi 0 abiversion 0 type 1 machine 62 version 1 entry 0x0 \
         phoff 0 shoff 120 flags 0x0 ehsize 64 phentsize 0 phnum 0 shentsize 64 shnum 3 \
         shstrndx 1\n",
    ),
    ("phdr 0", "refused no entry 0 of 0\n"),
    (
        "shdr 2",
        "shdr name 0 type 0x2 flags 0x0 addr 0x0 offset 0x48 size 0x30 link 1 info 1 addralign 8 \
         entsize 24\n",
    ),
    (
        "pieces 1\npieces 3",
        "pieces 1\nrefused no section 3 of 3\n",
    ),
    (
        "data 2 0\ndata 1 0\ndata 0 0",
        "kind sym count 2\nkind bytes count 3\nkind empty count 0\n",
    ),
    ("raw 1\nraw 0", "raw 006100\nraw -\n"),
    (
        "item 2 0 1",
        "sym name 1 value 0x1000 size 4 info 0x12 other 0x0 shndx 0xfff1\n",
    ),
    (
        "item 1 0 1\nitem 1 0 3",
        "byte 0x61\nrefused no entry 3 of 3\n",
    ),
    ("item 0 0 0", "refused no entry 0 of 0\n"),
    (
        "str 1 1\nstr 1 3\nstr 2 0",
        "str [a]\nrefused no string at 3 of 3\nrefused section 2 not strings\n",
    ),
    (
        "note 1 0 0\nnote 1 0 3\nnote 2 0 0",
        "refused bad chain at 0\nnote end\nrefused held kind sym\n",
    ),
    ("data 9 0", "refused no section 9 of 3\n"),
];

#[test]
fn getters_show_the_object(rt: HostRuntime) {
    assert!(rt; answered(&rt, Class::C64, Order::Least, &GETTERS));
}

/// Getters that show the same in class 32 with the greatest byte first.
const NARROW: [ScriptRow; 2] = [
    (
        "item 2 0 1",
        "sym name 1 value 0x1000 size 4 info 0x12 other 0x0 shndx 0xfff1\n",
    ),
    (
        "raw 2",
        "raw 000000000000000000000000000000000000000100001000000000041200fff1\n",
    ),
];

#[test]
fn a_narrow_object_shows_the_same_symbol(rt: HostRuntime) {
    assert!(rt; answered(&rt, Class::C32, Order::Greatest, &NARROW));
}

/// Bytes of five sections.
const FIVE: [ScriptRow; 2] = [
    (
        "raw 3\nraw 5",
        "raw 0303030303030303\nraw 0505050505050505\n",
    ),
    (
        "data 3 0\ndata 3 0\ndata 3 1",
        "kind bytes count 8\nkind bytes count 8\nrefused no piece 1 of 1\n",
    ),
];

#[test]
fn sections_are_read_once_and_again(rt: HostRuntime) {
    assert!(rt; answered_of_five(&rt, &FIVE));
}
