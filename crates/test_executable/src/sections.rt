//! The sections of the executable from 1 on, in their order.

use crate::contents::{
    ABI_TAG, BUILD_ID, CALL_RELOCATIONS, DATA_RELOCATIONS, ENDS, ENTRIES, HASHES, LINKED_SYMBOLS,
    NEEDS, PROPERTIES, STARTS, SYMBOL_TABLE, SYMBOL_VERSIONS,
};
use elf_types::Shdr;
use elf_types::constants::{
    SHF_ALLOC, SHF_EXECINSTR, SHF_INFO_LINK, SHF_TLS, SHF_WRITE, SHT_DYNAMIC, SHT_DYNSYM,
    SHT_FINI_ARRAY, SHT_GNU_HASH, SHT_GNU_VERNEED, SHT_GNU_VERSYM, SHT_INIT_ARRAY, SHT_NOBITS,
    SHT_NOTE, SHT_PROGBITS, SHT_RELA, SHT_STRTAB, SHT_SYMTAB,
};
use test_kit_images::{Content, NULL_SECTION};

/// A section: its name, its header but for the place of the name, and what it holds.
pub struct Section {
    /// The name with its NUL.
    pub name: &'static [u8],
    /// The header, whose `sh_name` is 0.
    pub header: Shdr,
    /// The content.
    pub content: Content,
}

/// What is read where the program runs.
const READ: Shdr = Shdr {
    flags: SHF_ALLOC,
    ..NULL_SECTION
};

/// What is run.
const CODE: Shdr = Shdr {
    stype: SHT_PROGBITS,
    flags: SHF_ALLOC + SHF_EXECINSTR,
    ..NULL_SECTION
};

/// What is written where the program runs.
const WRITTEN: Shdr = Shdr {
    flags: SHF_ALLOC + SHF_WRITE,
    ..NULL_SECTION
};

/// `SHF_MERGE` and `SHF_STRINGS` (gABI, "Section Attribute Flags").
const MERGED_STRINGS: u64 = 0x10 + 0x20;

/// The sections. All but the last four are loaded, and these follow the section header table.
pub static EXECUTABLE_SECTIONS: [Section; 30] = [
    Section {
        name: b".interp\0",
        header: Shdr {
            stype: SHT_PROGBITS,
            addr: 0x350,
            offset: 0x350,
            size: 3,
            addralign: 1,
            ..READ
        },
        content: Content::Bytes(b"/l\0"),
    },
    Section {
        name: b".note.gnu.property\0",
        header: Shdr {
            stype: SHT_NOTE,
            addr: 0x358,
            offset: 0x358,
            size: 32,
            addralign: 8,
            ..READ
        },
        content: Content::Bytes(PROPERTIES),
    },
    Section {
        name: b".note.gnu.build-id\0",
        header: Shdr {
            stype: SHT_NOTE,
            addr: 0x378,
            offset: 0x378,
            size: 20,
            addralign: 4,
            ..READ
        },
        content: Content::Bytes(BUILD_ID),
    },
    Section {
        name: b".note.ABI-tag\0",
        header: Shdr {
            stype: SHT_NOTE,
            addr: 0x38c,
            offset: 0x38c,
            size: 32,
            addralign: 4,
            ..READ
        },
        content: Content::Bytes(ABI_TAG),
    },
    Section {
        name: b".gnu.hash\0",
        header: Shdr {
            stype: SHT_GNU_HASH,
            addr: 0x3b0,
            offset: 0x3b0,
            size: 32,
            link: 6,
            addralign: 8,
            ..READ
        },
        content: Content::Bytes(HASHES),
    },
    Section {
        name: b".dynsym\0",
        header: Shdr {
            stype: SHT_DYNSYM,
            addr: 0x3d0,
            offset: 0x3d0,
            size: 72,
            link: 7,
            info: 1,
            addralign: 8,
            entsize: 24,
            ..READ
        },
        content: Content::Syms(&LINKED_SYMBOLS),
    },
    Section {
        name: b".dynstr\0",
        header: Shdr {
            stype: SHT_STRTAB,
            addr: 0x418,
            offset: 0x418,
            size: 13,
            addralign: 1,
            ..READ
        },
        content: Content::Bytes(b"\0x\0f\0l.so\0V1\0"),
    },
    Section {
        name: b".gnu.version\0",
        header: Shdr {
            stype: SHT_GNU_VERSYM,
            addr: 0x426,
            offset: 0x426,
            size: 6,
            link: 6,
            addralign: 2,
            entsize: 2,
            ..READ
        },
        content: Content::Halves(&SYMBOL_VERSIONS),
    },
    Section {
        name: b".gnu.version_r\0",
        header: Shdr {
            stype: SHT_GNU_VERNEED,
            addr: 0x430,
            offset: 0x430,
            size: 32,
            link: 7,
            info: 1,
            addralign: 8,
            ..READ
        },
        content: Content::Bytes(NEEDS),
    },
    Section {
        name: b".rela.dyn\0",
        header: Shdr {
            stype: SHT_RELA,
            addr: 0x450,
            offset: 0x450,
            size: 24,
            link: 6,
            addralign: 8,
            entsize: 24,
            ..READ
        },
        content: Content::Relas(&DATA_RELOCATIONS),
    },
    Section {
        name: b".rela.plt\0",
        header: Shdr {
            stype: SHT_RELA,
            flags: SHF_ALLOC + SHF_INFO_LINK,
            addr: 0x468,
            offset: 0x468,
            size: 24,
            link: 6,
            info: 24,
            addralign: 8,
            entsize: 24,
            ..NULL_SECTION
        },
        content: Content::Relas(&CALL_RELOCATIONS),
    },
    Section {
        name: b".init\0",
        header: Shdr {
            addr: 0x1480,
            offset: 0x480,
            size: 1,
            addralign: 4,
            ..CODE
        },
        content: Content::Bytes(b"\xc3"),
    },
    Section {
        name: b".plt\0",
        header: Shdr {
            addr: 0x1490,
            offset: 0x490,
            size: 16,
            addralign: 16,
            entsize: 16,
            ..CODE
        },
        content: Content::Bytes(&[0x90; 16]),
    },
    Section {
        name: b".text\0",
        header: Shdr {
            addr: 0x14a0,
            offset: 0x4a0,
            size: 4,
            addralign: 16,
            ..CODE
        },
        content: Content::Bytes(b"1\xc0\xc3\x90"),
    },
    Section {
        name: b".fini\0",
        header: Shdr {
            addr: 0x14a4,
            offset: 0x4a4,
            size: 1,
            addralign: 4,
            ..CODE
        },
        content: Content::Bytes(b"\xc3"),
    },
    Section {
        name: b".rodata\0",
        header: Shdr {
            stype: SHT_PROGBITS,
            addr: 0x24a8,
            offset: 0x4a8,
            size: 4,
            addralign: 4,
            ..READ
        },
        content: Content::Bytes(b"\x01\0\x02\0"),
    },
    Section {
        name: b".eh_frame_hdr\0",
        header: Shdr {
            stype: SHT_PROGBITS,
            addr: 0x24ac,
            offset: 0x4ac,
            size: 4,
            addralign: 4,
            ..READ
        },
        content: Content::Bytes(b"\x01\x1b\x03;"),
    },
    Section {
        name: b".eh_frame\0",
        header: Shdr {
            stype: SHT_PROGBITS,
            addr: 0x24b0,
            offset: 0x4b0,
            size: 4,
            addralign: 8,
            ..READ
        },
        content: Content::Bytes(b"\0\0\0\0"),
    },
    Section {
        name: b".tbss\0",
        header: Shdr {
            stype: SHT_NOBITS,
            flags: SHF_ALLOC + SHF_WRITE + SHF_TLS,
            addr: 0x34b4,
            offset: 0x4b4,
            size: 4,
            addralign: 4,
            ..NULL_SECTION
        },
        content: Content::Empty,
    },
    Section {
        name: b".init_array\0",
        header: Shdr {
            stype: SHT_INIT_ARRAY,
            addr: 0x34b8,
            offset: 0x4b8,
            size: 8,
            addralign: 8,
            entsize: 8,
            ..WRITTEN
        },
        content: Content::Addrs(&STARTS),
    },
    Section {
        name: b".fini_array\0",
        header: Shdr {
            stype: SHT_FINI_ARRAY,
            addr: 0x34c0,
            offset: 0x4c0,
            size: 8,
            addralign: 8,
            entsize: 8,
            ..WRITTEN
        },
        content: Content::Addrs(&ENDS),
    },
    Section {
        name: b".dynamic\0",
        header: Shdr {
            stype: SHT_DYNAMIC,
            addr: 0x34c8,
            offset: 0x4c8,
            size: 64,
            link: 7,
            addralign: 8,
            entsize: 16,
            ..WRITTEN
        },
        content: Content::Dyns(&ENTRIES),
    },
    Section {
        name: b".got\0",
        header: Shdr {
            stype: SHT_PROGBITS,
            addr: 0x3508,
            offset: 0x508,
            size: 8,
            addralign: 8,
            entsize: 8,
            ..WRITTEN
        },
        content: Content::Addrs(&[0]),
    },
    Section {
        name: b".got.plt\0",
        header: Shdr {
            stype: SHT_PROGBITS,
            addr: 0x3510,
            offset: 0x510,
            size: 32,
            addralign: 8,
            entsize: 8,
            ..WRITTEN
        },
        content: Content::Addrs(&[0; 4]),
    },
    Section {
        name: b".data\0",
        header: Shdr {
            stype: SHT_PROGBITS,
            addr: 0x3530,
            offset: 0x530,
            size: 8,
            addralign: 8,
            ..WRITTEN
        },
        content: Content::Bytes(b"\x07\0\0\0\0\0\0\0"),
    },
    Section {
        name: b".bss\0",
        header: Shdr {
            stype: SHT_NOBITS,
            addr: 0x3538,
            offset: 0x538,
            size: 16,
            addralign: 8,
            ..WRITTEN
        },
        content: Content::Empty,
    },
    Section {
        name: b".comment\0",
        header: Shdr {
            stype: SHT_PROGBITS,
            flags: MERGED_STRINGS,
            offset: 0xcf8,
            size: 4,
            addralign: 1,
            entsize: 1,
            ..NULL_SECTION
        },
        content: Content::Bytes(b"kit\0"),
    },
    Section {
        name: b".symtab\0",
        header: Shdr {
            stype: SHT_SYMTAB,
            offset: 0xd00,
            size: 72,
            link: 29,
            info: 2,
            addralign: 8,
            entsize: 24,
            ..NULL_SECTION
        },
        content: Content::Syms(&SYMBOL_TABLE),
    },
    Section {
        name: b".strtab\0",
        header: Shdr {
            stype: SHT_STRTAB,
            offset: 0xd48,
            size: 7,
            addralign: 1,
            ..NULL_SECTION
        },
        content: Content::Bytes(b"\0u.c\0f\0"),
    },
    Section {
        name: b".shstrtab\0",
        header: Shdr {
            stype: SHT_STRTAB,
            offset: 0xd4f,
            size: 289,
            addralign: 1,
            ..NULL_SECTION
        },
        content: Content::Empty,
    },
];
