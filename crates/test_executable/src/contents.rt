//! What the sections of the executable hold.

use elf_types::constants::{SHN_ABS, STB_GLOBAL, STB_LOCAL, STT_FILE};
use elf_types::{Dyn, Rela, Sym};

/// The note `NT_GNU_PROPERTY_TYPE_0` with one property of four bytes, padded to a multiple of 8.
pub const PROPERTIES: &[u8] =
    b"\x04\0\0\0\x10\0\0\0\x05\0\0\0GNU\0\x02\0\0\xc0\x04\0\0\0\x03\0\0\0\0\0\0\0";

/// The note `NT_GNU_BUILD_ID` with four bytes.
pub const BUILD_ID: &[u8] = b"\x04\0\0\0\x04\0\0\0\x03\0\0\0GNU\0\x01\x02\x03\x04";

/// The note `NT_GNU_ABI_TAG`.
pub const ABI_TAG: &[u8] =
    b"\x04\0\0\0\x10\0\0\0\x01\0\0\0GNU\0\0\0\0\0\x03\0\0\0\x02\0\0\0\0\0\0\0";

/// One bucket, the first symbol 2, one bloom word and the shift 6; the word has the bits 11 and 24
/// of the name `f`, whose hash is 0x2b60b; then the bucket, and the hash, whose low bit ends the
/// chain.
pub const HASHES: &[u8] =
    b"\x01\0\0\0\x02\0\0\0\x01\0\0\0\x06\0\0\0\0\x08\0\x01\0\0\0\0\x02\0\0\0\x0b\xb6\x02\0";

/// The need of version V1, index 2, of the file `l.so`.
pub const NEEDS: &[u8] =
    b"\x01\0\x01\0\x05\0\0\0\x10\0\0\0\0\0\0\0\x91\x05\0\0\0\0\x02\0\x0a\0\0\0\0\0\0\0";

/// The versions of the dynamic symbols.
pub const SYMBOL_VERSIONS: [u16; 3] = [0, 2, 1];

/// The symbol of index 0.
const NULL_SYMBOL: Sym = Sym {
    name: 0,
    info: 0,
    other: 0,
    shndx: 0,
    value: 0,
    size: 0,
};

/// A function of the text section, but for its name.
const FUNCTION: Sym = Sym {
    name: 0,
    info: STB_GLOBAL * 16 + 2,
    other: 0,
    shndx: 14,
    value: 0x14a0,
    size: 4,
};

/// The dynamic symbols: `x` of another file, and the function `f`.
pub const LINKED_SYMBOLS: [Sym; 3] = [
    NULL_SYMBOL,
    Sym {
        name: 1,
        info: STB_GLOBAL * 16,
        ..NULL_SYMBOL
    },
    Sym {
        name: 3,
        ..FUNCTION
    },
];

/// The symbols: the source file `u.c`, and the function `f`.
pub const SYMBOL_TABLE: [Sym; 3] = [
    NULL_SYMBOL,
    Sym {
        name: 1,
        info: STB_LOCAL * 16 + STT_FILE,
        shndx: SHN_ABS as u16,
        ..NULL_SYMBOL
    },
    Sym {
        name: 5,
        ..FUNCTION
    },
];

/// `R_X86_64_GLOB_DAT` of `x`, for the section `.got`.
pub const DATA_RELOCATIONS: [Rela; 1] = [Rela {
    offset: 0x3508,
    sym: 1,
    rtype: 6,
    addend: 0,
}];

/// `R_X86_64_JUMP_SLOT` of `x`, for the last word of the section `.got.plt`.
pub const CALL_RELOCATIONS: [Rela; 1] = [Rela {
    offset: 0x3528,
    sym: 1,
    rtype: 7,
    addend: 0,
}];

/// `DT_NEEDED`, `DT_STRTAB`, `DT_SYMTAB` and `DT_NULL`.
pub const ENTRIES: [Dyn; 4] = [
    Dyn { tag: 1, val: 5 },
    Dyn { tag: 5, val: 0x418 },
    Dyn { tag: 6, val: 0x3d0 },
    Dyn { tag: 0, val: 0 },
];

/// The function that runs first.
pub const STARTS: [u64; 1] = [0x14a0];

/// The one that runs last.
pub const ENDS: [u64; 1] = [0x14a4];
