//! What readelf, nm, size and strings show of the executable.

use crate::image::executable;
use elf_types::{ElfError, Octets};
use test_kit_rows::{failed, in_row, same, same_bytes};
use test_kit_runs::{NOTHING, run_line, shows};
use tool_output::Status;

/// The ELF header.
const HEADER: &[u8] = b"ELF header\n  \
    class: 64\n  \
    order: least\n  \
    osabi: 0\n  \
    abiversion: 0\n  \
    type: DYN\n  \
    machine: X86_64\n  \
    version: 1\n  \
    entry: 0x14a0\n  \
    phoff: 64\n  \
    shoff: 1336\n  \
    flags: 0x0\n  \
    ehsize: 64\n  \
    phentsize: 56\n  \
    phnum: 14\n  \
    shentsize: 64\n  \
    shnum: 31\n  \
    shstrndx: 30\n";

/// The program headers.
const SEGMENT_LINES: &[u8] = b"Program headers: 14\n  \
    0 PHDR offset 0x40 vaddr 0x40 paddr 0x40 filesz 0x310 memsz 0x310 flags R-- align 0x8\n  \
    1 INTERP offset 0x350 vaddr 0x350 paddr 0x350 filesz 0x3 memsz 0x3 flags R-- align 0x1\n  \
    2 LOAD offset 0x0 vaddr 0x0 paddr 0x0 filesz 0x480 memsz 0x480 flags R-- align 0x1000\n  \
    3 LOAD offset 0x480 vaddr 0x1480 paddr 0x1480 filesz 0x25 memsz 0x25 flags R-X align \
      0x1000\n  \
    4 LOAD offset 0x4a8 vaddr 0x24a8 paddr 0x24a8 filesz 0xc memsz 0xc flags R-- align \
      0x1000\n  \
    5 LOAD offset 0x4b8 vaddr 0x34b8 paddr 0x34b8 filesz 0x80 memsz 0x90 flags RW- align \
      0x1000\n  \
    6 DYNAMIC offset 0x4c8 vaddr 0x34c8 paddr 0x34c8 filesz 0x40 memsz 0x40 flags RW- \
      align 0x8\n  \
    7 NOTE offset 0x358 vaddr 0x358 paddr 0x358 filesz 0x20 memsz 0x20 flags R-- align 0x8\n  \
    8 NOTE offset 0x378 vaddr 0x378 paddr 0x378 filesz 0x34 memsz 0x34 flags R-- align 0x4\n  \
    9 TLS offset 0x4b4 vaddr 0x34b4 paddr 0x34b4 filesz 0x0 memsz 0x4 flags R-- align 0x4\n  \
    10 GNU_PROPERTY offset 0x358 vaddr 0x358 paddr 0x358 filesz 0x20 memsz 0x20 flags R-- \
      align 0x8\n  \
    11 GNU_EH_FRAME offset 0x4ac vaddr 0x24ac paddr 0x24ac filesz 0x4 memsz 0x4 flags R-- \
      align 0x4\n  \
    12 GNU_STACK offset 0x0 vaddr 0x0 paddr 0x0 filesz 0x0 memsz 0x0 flags RW- align 0x10\n  \
    13 GNU_RELRO offset 0x4b8 vaddr 0x34b8 paddr 0x34b8 filesz 0x58 memsz 0x58 flags R-- \
      align 0x1\n";

/// The section headers.
const SECTION_LINES: &[u8] = b"Section headers: 31\n  \
    0 [] NULL flags 0x0 addr 0x0 offset 0x0 size 0x0 link 0 info 0 align 0 entsize 0\n  \
    1 [.interp] PROGBITS flags 0x2 addr 0x350 offset 0x350 size 0x3 link 0 info 0 align 1 \
      entsize 0\n  \
    2 [.note.gnu.property] NOTE flags 0x2 addr 0x358 offset 0x358 size 0x20 link 0 info 0 \
      align 8 entsize 0\n  \
    3 [.note.gnu.build-id] NOTE flags 0x2 addr 0x378 offset 0x378 size 0x14 link 0 info 0 \
      align 4 entsize 0\n  \
    4 [.note.ABI-tag] NOTE flags 0x2 addr 0x38c offset 0x38c size 0x20 link 0 info 0 \
      align 4 entsize 0\n  \
    5 [.gnu.hash] GNU_HASH flags 0x2 addr 0x3b0 offset 0x3b0 size 0x20 link 6 info 0 \
      align 8 entsize 0\n  \
    6 [.dynsym] DYNSYM flags 0x2 addr 0x3d0 offset 0x3d0 size 0x48 link 7 info 1 align 8 \
      entsize 24\n  \
    7 [.dynstr] STRTAB flags 0x2 addr 0x418 offset 0x418 size 0xd link 0 info 0 align 1 \
      entsize 0\n  \
    8 [.gnu.version] GNU_versym flags 0x2 addr 0x426 offset 0x426 size 0x6 link 6 info 0 \
      align 2 entsize 2\n  \
    9 [.gnu.version_r] GNU_verneed flags 0x2 addr 0x430 offset 0x430 size 0x20 link 7 \
      info 1 align 8 entsize 0\n  \
    10 [.rela.dyn] RELA flags 0x2 addr 0x450 offset 0x450 size 0x18 link 6 info 0 align 8 \
      entsize 24\n  \
    11 [.rela.plt] RELA flags 0x42 addr 0x468 offset 0x468 size 0x18 link 6 info 24 align \
      8 entsize 24\n  \
    12 [.init] PROGBITS flags 0x6 addr 0x1480 offset 0x480 size 0x1 link 0 info 0 align 4 \
      entsize 0\n  \
    13 [.plt] PROGBITS flags 0x6 addr 0x1490 offset 0x490 size 0x10 link 0 info 0 align \
      16 entsize 16\n  \
    14 [.text] PROGBITS flags 0x6 addr 0x14a0 offset 0x4a0 size 0x4 link 0 info 0 align \
      16 entsize 0\n  \
    15 [.fini] PROGBITS flags 0x6 addr 0x14a4 offset 0x4a4 size 0x1 link 0 info 0 align 4 \
      entsize 0\n  \
    16 [.rodata] PROGBITS flags 0x2 addr 0x24a8 offset 0x4a8 size 0x4 link 0 info 0 align \
      4 entsize 0\n  \
    17 [.eh_frame_hdr] PROGBITS flags 0x2 addr 0x24ac offset 0x4ac size 0x4 link 0 info 0 \
      align 4 entsize 0\n  \
    18 [.eh_frame] PROGBITS flags 0x2 addr 0x24b0 offset 0x4b0 size 0x4 link 0 info 0 \
      align 8 entsize 0\n  \
    19 [.tbss] NOBITS flags 0x403 addr 0x34b4 offset 0x4b4 size 0x4 link 0 info 0 align 4 \
      entsize 0\n  \
    20 [.init_array] INIT_ARRAY flags 0x3 addr 0x34b8 offset 0x4b8 size 0x8 link 0 info 0 \
      align 8 entsize 8\n  \
    21 [.fini_array] FINI_ARRAY flags 0x3 addr 0x34c0 offset 0x4c0 size 0x8 link 0 info 0 \
      align 8 entsize 8\n  \
    22 [.dynamic] DYNAMIC flags 0x3 addr 0x34c8 offset 0x4c8 size 0x40 link 7 info 0 \
      align 8 entsize 16\n  \
    23 [.got] PROGBITS flags 0x3 addr 0x3508 offset 0x508 size 0x8 link 0 info 0 align 8 \
      entsize 8\n  \
    24 [.got.plt] PROGBITS flags 0x3 addr 0x3510 offset 0x510 size 0x20 link 0 info 0 \
      align 8 entsize 8\n  \
    25 [.data] PROGBITS flags 0x3 addr 0x3530 offset 0x530 size 0x8 link 0 info 0 align 8 \
      entsize 0\n  \
    26 [.bss] NOBITS flags 0x3 addr 0x3538 offset 0x538 size 0x10 link 0 info 0 align 8 \
      entsize 0\n  \
    27 [.comment] PROGBITS flags 0x30 addr 0x0 offset 0xcf8 size 0x4 link 0 info 0 align \
      1 entsize 1\n  \
    28 [.symtab] SYMTAB flags 0x0 addr 0x0 offset 0xd00 size 0x48 link 29 info 2 align 8 \
      entsize 24\n  \
    29 [.strtab] STRTAB flags 0x0 addr 0x0 offset 0xd48 size 0x7 link 0 info 0 align 1 \
      entsize 0\n  \
    30 [.shstrtab] STRTAB flags 0x0 addr 0x0 offset 0xd4f size 0x121 link 0 info 0 align \
      1 entsize 0\n";

/// The two symbol tables.
const SYMBOL_LINES: &[u8] = b"Symbols of section 6 [.dynsym]: 3\n  \
    0 value 0x0 size 0 type NOTYPE bind LOCAL vis DEFAULT shndx UND []\n  \
    1 value 0x0 size 0 type NOTYPE bind GLOBAL vis DEFAULT shndx UND [x]\n  \
    2 value 0x14a0 size 4 type FUNC bind GLOBAL vis DEFAULT shndx 14 [f]\n\
    Symbols of section 28 [.symtab]: 3\n  \
    0 value 0x0 size 0 type NOTYPE bind LOCAL vis DEFAULT shndx UND []\n  \
    1 value 0x0 size 0 type FILE bind LOCAL vis DEFAULT shndx ABS [u.c]\n  \
    2 value 0x14a0 size 4 type FUNC bind GLOBAL vis DEFAULT shndx 14 [f]\n";

/// The relocations.
const RELOCATIONS: &[u8] = b"Relocations of section 10 [.rela.dyn]: 1\n  \
    0 offset 0x3508 type 6 sym 1 [x] addend 0\n\
    Relocations of section 11 [.rela.plt]: 1\n  \
    0 offset 0x3528 type 7 sym 1 [x] addend 0\n";

/// The dynamic section.
const DYNAMIC: &[u8] = b"Dynamic section 22 [.dynamic]: 4\n  \
    0 NEEDED [l.so]\n  \
    1 STRTAB 0x418\n  \
    2 SYMTAB 0x3d0\n  \
    3 NULL 0x0\n";

/// The notes.
const NOTES: &[u8] = b"Notes of section 2 [.note.gnu.property]\n  \
    owner [GNU] type 5 size 16 desc 020000c0040000000300000000000000\n\
    Notes of section 3 [.note.gnu.build-id]\n  \
    owner [GNU] type 3 size 4 desc 01020304\n\
    Notes of section 4 [.note.ABI-tag]\n  \
    owner [GNU] type 1 size 16 desc 00000000030000000200000000000000\n";

/// The indexes of versions, and their needs.
const VERSIONS: &[u8] = b"Version indexes of section 8 [.gnu.version]: 3\n  \
    0 ndx 0\n  \
    1 ndx 2\n  \
    2 ndx 1\n\
    Version needs of section 9 [.gnu.version_r]\n  \
    need [l.so]\n    \
    version [V1] ndx 2 flags 0x0 hash 0x591\n";

/// Each part of readelf, in the order in which all are shown.
static PARTS: [(&str, &[u8]); 8] = [
    ("readelf -h F", HEADER),
    ("readelf -l F", SEGMENT_LINES),
    ("readelf -S F", SECTION_LINES),
    ("readelf -s F", SYMBOL_LINES),
    ("readelf -r F", RELOCATIONS),
    ("readelf -d F", DYNAMIC),
    ("readelf -n F", NOTES),
    ("readelf -V F", VERSIONS),
];

/// Whether a run over the executable shows this, and rejects nothing.
fn is_shown(rt: &HostRuntime, line: &str, out: &'static [u8]) -> bool {
    match executable(rt.alloc()) {
        Ok(image) => shows(rt, line, image, out),
        Err(e) => failed(rt, e),
    }
}

/// Whether each line shows this.
fn are_shown(rt: &HostRuntime, rows: &[(&str, &'static [u8])]) -> bool {
    for (n, (line, out)) in rows.iter().enumerate() {
        if !in_row(rt, n, is_shown(rt, line, out)) {
            return false;
        }
    }
    true
}

#[test]
fn readelf_shows_each_part_of_an_executable(rt: HostRuntime) {
    assert!(rt; are_shown(&rt, &PARTS));
}

/// Appends all parts.
fn put_parts(all: &mut Octets, parts: &[(&str, &[u8])]) -> Result<(), ElfError> {
    for (_, out) in parts {
        all.extend(out)?;
    }
    Ok(())
}

/// Whether readelf with all options shows this of the executable, and rejects nothing.
fn shows_all(rt: &HostRuntime, all: &[u8]) -> bool {
    let image = match executable(rt.alloc()) {
        Ok(image) => image,
        Err(e) => return failed(rt, e),
    };
    match run_line(rt.alloc(), "readelf -hlSsrdnV F", &image, NOTHING) {
        Ok(ran) => {
            same(rt, &ran.status, &Status::Done)
                && same_bytes(rt, ran.out.as_slice(), all)
                && same_bytes(rt, ran.err.as_slice(), b"")
        }
        Err(e) => failed(rt, e),
    }
}

/// Whether readelf shows the parts one after the other.
fn shows_in_order(rt: &HostRuntime, parts: &[(&str, &[u8])]) -> bool {
    let mut all = Octets::new(rt.alloc());
    match put_parts(&mut all, parts) {
        Ok(()) => shows_all(rt, all.as_slice()),
        Err(e) => failed(rt, e),
    }
}

#[test]
fn readelf_shows_all_parts_in_one_order(rt: HostRuntime) {
    assert!(rt; shows_in_order(&rt, &PARTS));
}

/// The line of each other command, and what it shows: the function; the bytes of loaded sections,
/// of which 20 are in no file; the one run of four printable bytes in a loaded section; and that no
/// rule finds anything.
static TOOLS: [(&str, &[u8]); 4] = [
    ("nm F", b"00000000000014a0 T f\n"),
    (
        "size F",
        b"   text\t   data\t    bss\t    dec\t    hex\tfilename\n    \
    324\t    128\t     20\t    472\t    1d8\tF\n",
    ),
    ("strings F", b"l.so\n"),
    ("elflint F", b"F: no findings\n"),
];

#[test]
fn each_other_command_reads_an_executable(rt: HostRuntime) {
    assert!(rt; are_shown(&rt, &TOOLS));
}
