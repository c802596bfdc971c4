//! What the lines leave that change something.

use crate::runs::{ScriptRow, answered};
use elf_types::{Class, Order};

/// Edits of an object with two symbols, class 64 and the least byte first.
const EDITS: [ScriptRow; 10] = [
    ("set shdr 2 type 1\ndata 2 0", "ok\nkind sym count 2\n"),
    (
        "addall 2 0 16\nitem 2 0 1",
        "changed 2\nsym name 1 value 0x1010 size 4 info 0x12 other 0x0 shndx 0xfff1\n",
    ),
    (
        "addall 1 0 1\nitem 1 0 1\nraw 1\nreplace 1 0 -\ndata 1 0\nreplace 0 0 -",
        "changed 3\nbyte 0x62\nraw 006100\nok\nkind bytes count 0\nrefused section 0 reserved\n",
    ),
    (
        "flag object set 4\nflag object set 4\nflag object clear 4\nflag object clear 1\n\
         flag header set 1",
        "flags 0x4\nflags 0x4\nflags 0x0\nrefused flag kept\nflags 0x1\n",
    ),
    (
        "newscn\nset shdr 3 type 1\nset shdr 3 addralign 4\nnewdata 3 0102\nnewphdr 1\nshdr 3",
        "section 3\nok\nok\npiece 3 0\nok\nshdr name 0 type 0x1 flags 0x0 addr 0x0 offset 0x0 \
         size 0x0 link 0 info 0 addralign 4 entsize 0\n",
    ),
    (
        "fill 0xaa\nnewdata 1 62 8\nstr 1 4\nstr 1 8\nnewdata 1 62 3",
        "ok\npiece 1 1\nrefused no string at 4 of 9\nrefused string at 8 has no end\n\
         refused bad alignment 3\n",
    ),
    (
        "set ehdr machine 3\nset ehdr shstrndx 3\nset phdr 0 type 1\nehdr",
        "ok\nrefused no section 3 of 3\nrefused no entry 0 of 0\n\
         ehdr class 64 order least osabi 0 abiversion 0 type 1 machine 3 version 1 entry 0x0 \
         phoff 0 shoff 120 flags 0x0 ehsize 64 phentsize 0 phnum 0 shentsize 64 shnum 3 \
         shstrndx 1\n",
    ),
    (
        "set sym 2 0 1 name 2\nset sym 2 0 2 name 2\nset rel 2 0 0 sym 1\nitem 2 0 1",
        "ok\nrefused no entry 2 of 2\nrefused held kind sym\n\
         sym name 2 value 0x1000 size 4 info 0x12 other 0x0 shndx 0xfff1\n",
    ),
    (
        "addall 0 0 5\naddall 1 1 5\nflag piece 1 0 clear 0",
        "changed 0\nrefused no piece 1 of 1\nflags 0x0\n",
    ),
    (
        "null\naddall 2 0 16\nnull\nflag object set 4\nset shdr 1 offset 0\nnull",
        "size 312\nchanged 2\nsize 312\nflags 0x4\nok\nrefused overlap header section 1\n",
    ),
];

#[test]
fn edits_leave_the_stepped_object(rt: HostRuntime) {
    assert!(rt; answered(&rt, Class::C64, Order::Least, &EDITS));
}

/// Edits of the same object in class 32.
const NARROW: [ScriptRow; 1] = [(
    "set sym 2 0 1 value 4294967296\nitem 2 0 1\naddall 2 0 4294967296\nitem 2 0 0",
    "refused unfit piece 2 0 index 1\n\
     sym name 1 value 0x1000 size 4 info 0x12 other 0x0 shndx 0xfff1\nchanged 2\n\
     sym name 0 value 0x100000000 size 0 info 0x0 other 0x0 shndx 0x0\n",
)];

#[test]
fn what_does_not_fit_a_narrow_object_is_refused(rt: HostRuntime) {
    assert!(rt; answered(&rt, Class::C32, Order::Greatest, &NARROW));
}
