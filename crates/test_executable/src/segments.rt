//! The program headers of the executable, in their order.

use elf_types::Phdr;
use elf_types::constants::{PF_R, PF_W, PF_X, PT_LOAD};

/// `PT_DYNAMIC`.
const PT_DYNAMIC: u32 = 2;

/// `PT_INTERP`.
const PT_INTERP: u32 = 3;

/// `PT_NOTE`.
const PT_NOTE: u32 = 4;

/// `PT_PHDR`.
const PT_PHDR: u32 = 6;

/// `PT_TLS`.
const PT_TLS: u32 = 7;

/// `PT_GNU_EH_FRAME`.
const PT_GNU_EH_FRAME: u32 = 0x6474_e550;

/// `PT_GNU_STACK`.
const PT_GNU_STACK: u32 = 0x6474_e551;

/// `PT_GNU_RELRO`.
const PT_GNU_RELRO: u32 = 0x6474_e552;

/// `PT_GNU_PROPERTY`.
const PT_GNU_PROPERTY: u32 = 0x6474_e553;

/// The program headers.
pub static SEGMENTS: [Phdr; 14] = [
    Phdr {
        ptype: PT_PHDR,
        flags: PF_R,
        offset: 0x40,
        vaddr: 0x40,
        paddr: 0x40,
        filesz: 784,
        memsz: 784,
        align: 8,
    },
    Phdr {
        ptype: PT_INTERP,
        flags: PF_R,
        offset: 0x350,
        vaddr: 0x350,
        paddr: 0x350,
        filesz: 3,
        memsz: 3,
        align: 1,
    },
    Phdr {
        ptype: PT_LOAD,
        flags: PF_R,
        offset: 0,
        vaddr: 0,
        paddr: 0,
        filesz: 1152,
        memsz: 1152,
        align: 0x1000,
    },
    Phdr {
        ptype: PT_LOAD,
        flags: PF_R + PF_X,
        offset: 0x480,
        vaddr: 0x1480,
        paddr: 0x1480,
        filesz: 37,
        memsz: 37,
        align: 0x1000,
    },
    Phdr {
        ptype: PT_LOAD,
        flags: PF_R,
        offset: 0x4a8,
        vaddr: 0x24a8,
        paddr: 0x24a8,
        filesz: 12,
        memsz: 12,
        align: 0x1000,
    },
    Phdr {
        ptype: PT_LOAD,
        flags: PF_R + PF_W,
        offset: 0x4b8,
        vaddr: 0x34b8,
        paddr: 0x34b8,
        filesz: 128,
        memsz: 144,
        align: 0x1000,
    },
    Phdr {
        ptype: PT_DYNAMIC,
        flags: PF_R + PF_W,
        offset: 0x4c8,
        vaddr: 0x34c8,
        paddr: 0x34c8,
        filesz: 64,
        memsz: 64,
        align: 8,
    },
    Phdr {
        ptype: PT_NOTE,
        flags: PF_R,
        offset: 0x358,
        vaddr: 0x358,
        paddr: 0x358,
        filesz: 32,
        memsz: 32,
        align: 8,
    },
    Phdr {
        ptype: PT_NOTE,
        flags: PF_R,
        offset: 0x378,
        vaddr: 0x378,
        paddr: 0x378,
        filesz: 52,
        memsz: 52,
        align: 4,
    },
    Phdr {
        ptype: PT_TLS,
        flags: PF_R,
        offset: 0x4b4,
        vaddr: 0x34b4,
        paddr: 0x34b4,
        filesz: 0,
        memsz: 4,
        align: 4,
    },
    Phdr {
        ptype: PT_GNU_PROPERTY,
        flags: PF_R,
        offset: 0x358,
        vaddr: 0x358,
        paddr: 0x358,
        filesz: 32,
        memsz: 32,
        align: 8,
    },
    Phdr {
        ptype: PT_GNU_EH_FRAME,
        flags: PF_R,
        offset: 0x4ac,
        vaddr: 0x24ac,
        paddr: 0x24ac,
        filesz: 4,
        memsz: 4,
        align: 4,
    },
    Phdr {
        ptype: PT_GNU_STACK,
        flags: PF_R + PF_W,
        offset: 0,
        vaddr: 0,
        paddr: 0,
        filesz: 0,
        memsz: 0,
        align: 16,
    },
    Phdr {
        ptype: PT_GNU_RELRO,
        flags: PF_R,
        offset: 0x4b8,
        vaddr: 0x34b8,
        paddr: 0x34b8,
        filesz: 88,
        memsz: 88,
        align: 1,
    },
];
