//! The headers against bytes written by hand from the tables of the gABI.

use crate::items::zeroed_bytes;
use elf_types::{Class, Ehdr, Order, Phdr, Shdr};
use elf_xlate::{
    ehdr_fits, ehdr_size, get_ehdr, get_phdr, get_phdrs, get_shdr, get_shdrs, phdr_fits, phdr_size,
    put_ehdr, put_phdr, put_shdr, shdr_fits, shdr_size,
};
use test_kit_images::ClassAndOrder;
use test_kit_rows::{failed, other, same, same_bytes};

const NARROW: ClassAndOrder = (Class::C32, Order::Greatest);

const BROAD: ClassAndOrder = (Class::C64, Order::Least);

/// Whether bytes hold the program header, and are written for it again into as many.
fn holds_phdr(
    rt: &HostRuntime,
    form: ClassAndOrder,
    bytes: &[u8],
    want: &Phdr,
    out: &mut [u8],
) -> bool {
    if bytes.len() != phdr_size(form.0) || out.len() != phdr_size(form.0) {
        return other(rt, &bytes.len(), "the size of a header");
    }
    let header = get_phdr(form.0, form.1, bytes);
    put_phdr(form.0, form.1, &header, out);
    same(rt, &header, want) && same_bytes(rt, out, bytes)
}

/// Whether bytes are a table of that program header alone.
fn lists_phdr(rt: &HostRuntime, form: ClassAndOrder, bytes: &[u8], want: &Phdr) -> bool {
    if bytes.len() != phdr_size(form.0) {
        return other(rt, &bytes.len(), "the size of a header");
    }
    match get_phdrs(rt.alloc(), form.0, form.1, bytes) {
        Ok(table) => same(rt, &table.len(), &1) && same(rt, &table.get(0), &Some(*want)),
        Err(e) => failed(rt, e),
    }
}

/// Whether these bytes hold the program header, alone and as a table, and are written for it again.
fn is_phdr(rt: &HostRuntime, form: ClassAndOrder, bytes: &[u8], want: &Phdr) -> bool {
    match zeroed_bytes(rt.alloc(), bytes.len()) {
        Ok(mut out) => {
            holds_phdr(rt, form, bytes, want, out.as_mut_slice())
                && lists_phdr(rt, form, bytes, want)
        }
        Err(e) => failed(rt, e),
    }
}

/// Whether bytes hold the section header, and are written for it again into as many.
fn holds_shdr(
    rt: &HostRuntime,
    form: ClassAndOrder,
    bytes: &[u8],
    want: &Shdr,
    out: &mut [u8],
) -> bool {
    if bytes.len() != shdr_size(form.0) || out.len() != shdr_size(form.0) {
        return other(rt, &bytes.len(), "the size of a header");
    }
    let header = get_shdr(form.0, form.1, bytes);
    put_shdr(form.0, form.1, &header, out);
    same(rt, &header, want) && same_bytes(rt, out, bytes)
}

/// Whether bytes are a table of that section header alone.
fn lists_shdr(rt: &HostRuntime, form: ClassAndOrder, bytes: &[u8], want: &Shdr) -> bool {
    if bytes.len() != shdr_size(form.0) {
        return other(rt, &bytes.len(), "the size of a header");
    }
    match get_shdrs(rt.alloc(), form.0, form.1, bytes) {
        Ok(table) => same(rt, &table.len(), &1) && same(rt, &table.get(0), &Some(*want)),
        Err(e) => failed(rt, e),
    }
}

/// Whether these bytes hold the section header, alone and as a table, and are written for it again.
fn is_shdr(rt: &HostRuntime, form: ClassAndOrder, bytes: &[u8], want: &Shdr) -> bool {
    match zeroed_bytes(rt.alloc(), bytes.len()) {
        Ok(mut out) => {
            holds_shdr(rt, form, bytes, want, out.as_mut_slice())
                && lists_shdr(rt, form, bytes, want)
        }
        Err(e) => failed(rt, e),
    }
}

/// The last bytes of an identification.
const PAD: [u8; 7] = [0, 0, 0, 0, 0, 0, 5];

/// Whether bytes hold the ELF header, and are written for it again into as many.
fn holds_ehdr(rt: &HostRuntime, bytes: &[u8], want: &Ehdr, out: &mut [u8]) -> bool {
    if bytes.len() != ehdr_size(want.class) {
        return other(rt, &bytes.len(), "the size of a header");
    }
    let header = get_ehdr(want.class, want.order, bytes);
    if out.len() != ehdr_size(header.class) {
        return other(rt, &bytes.len(), "the size of a header");
    }
    put_ehdr(&header, PAD, out);
    same(rt, &header, want) && same_bytes(rt, out, bytes)
}

/// Whether these bytes hold the ELF header, and are written for it again.
fn is_ehdr(rt: &HostRuntime, bytes: &[u8], want: &Ehdr) -> bool {
    match zeroed_bytes(rt.alloc(), bytes.len()) {
        Ok(mut out) => holds_ehdr(rt, bytes, want, out.as_mut_slice()),
        Err(e) => failed(rt, e),
    }
}

const NARROW_PHDR: Phdr = Phdr {
    ptype: 1,
    flags: 2,
    offset: 3,
    vaddr: 4,
    paddr: 5,
    filesz: 6,
    memsz: 7,
    align: 0xffff_ffff,
};

const NARROW_PHDR_BYTES: &[u8] = b"\0\0\0\x01\0\0\0\x03\0\0\0\x04\0\0\0\x05\
\0\0\0\x06\0\0\0\x07\0\0\0\x02\xff\xff\xff\xff";

const BROAD_PHDR: Phdr = Phdr {
    align: 1 << 63,
    ..NARROW_PHDR
};

const BROAD_PHDR_BYTES: &[u8] = b"\x01\0\0\0\x02\0\0\0\x03\0\0\0\0\0\0\0\x04\0\0\0\0\0\0\0\
\x05\0\0\0\0\0\0\0\x06\0\0\0\0\0\0\0\x07\0\0\0\0\0\0\0\0\0\0\0\0\0\0\x80";

/// Whether both are translated, and the broad one does not fit class 32.
fn phdrs_are_translated(rt: &HostRuntime) -> bool {
    is_phdr(rt, NARROW, NARROW_PHDR_BYTES, &NARROW_PHDR)
        && is_phdr(rt, BROAD, BROAD_PHDR_BYTES, &BROAD_PHDR)
        && !phdr_fits(&BROAD_PHDR, Class::C32)
}

#[test]
fn program_headers_have_these_bytes(rt: HostRuntime) {
    assert!(rt; phdrs_are_translated(&rt));
}

const NARROW_SHDR: Shdr = Shdr {
    name: 1,
    stype: 2,
    flags: 3,
    addr: 4,
    offset: 5,
    size: 6,
    link: 7,
    info: 8,
    addralign: 9,
    entsize: 0xffff_ffff,
};

const NARROW_SHDR_BYTES: &[u8] = b"\0\0\0\x01\0\0\0\x02\0\0\0\x03\0\0\0\x04\0\0\0\x05\
\0\0\0\x06\0\0\0\x07\0\0\0\x08\0\0\0\x09\xff\xff\xff\xff";

const BROAD_SHDR: Shdr = Shdr {
    entsize: u64::MAX,
    ..NARROW_SHDR
};

const BROAD_SHDR_BYTES: &[u8] = b"\x01\0\0\0\x02\0\0\0\x03\0\0\0\0\0\0\0\x04\0\0\0\0\0\0\0\
\x05\0\0\0\0\0\0\0\x06\0\0\0\0\0\0\0\x07\0\0\0\x08\0\0\0\
\x09\0\0\0\0\0\0\0\xff\xff\xff\xff\xff\xff\xff\xff";

/// Whether both are translated, and the broad one does not fit class 32.
fn shdrs_are_translated(rt: &HostRuntime) -> bool {
    is_shdr(rt, NARROW, NARROW_SHDR_BYTES, &NARROW_SHDR)
        && is_shdr(rt, BROAD, BROAD_SHDR_BYTES, &BROAD_SHDR)
        && !shdr_fits(&BROAD_SHDR, Class::C32)
}

#[test]
fn section_headers_have_these_bytes(rt: HostRuntime) {
    assert!(rt; shdrs_are_translated(&rt));
}

const NARROW_EHDR: Ehdr = Ehdr {
    class: Class::C32,
    order: Order::Greatest,
    osabi: 3,
    abiversion: 1,
    etype: 2,
    machine: 8,
    version: 1,
    entry: 0x0040_0100,
    phoff: 0x34,
    shoff: 0x1234,
    flags: 0x5000_0000,
    ehsize: 52,
    phentsize: 32,
    phnum: 2,
    shentsize: 40,
    shnum: 9,
    shstrndx: 0xffff,
};

const NARROW_EHDR_BYTES: &[u8] =
    b"\x7fELF\x01\x02\x01\x03\x01\0\0\0\0\0\0\x05\0\x02\0\x08\0\0\0\x01\
\0\x40\x01\0\0\0\0\x34\0\0\x12\x34\x50\0\0\0\0\x34\0\x20\0\x02\0\x28\0\x09\xff\xff";

const BROAD_EHDR: Ehdr = Ehdr {
    class: Class::C64,
    order: Order::Least,
    shoff: 0x12_3456_7890,
    ..NARROW_EHDR
};

const BROAD_EHDR_BYTES: &[u8] = b"\x7fELF\x02\x01\x01\x03\x01\0\0\0\0\0\0\x05\x02\0\x08\0\x01\0\0\0\
\0\x01\x40\0\0\0\0\0\x34\0\0\0\0\0\0\0\x90\x78\x56\x34\x12\0\0\0\
\0\0\0\x50\x34\0\x20\0\x02\0\x28\0\x09\0\xff\xff";

/// The broad header in class 32.
const UNFIT_EHDR: Ehdr = Ehdr {
    class: Class::C32,
    ..BROAD_EHDR
};

/// Whether both are translated, and the broad one does not fit class 32.
fn ehdrs_are_translated(rt: &HostRuntime) -> bool {
    is_ehdr(rt, NARROW_EHDR_BYTES, &NARROW_EHDR)
        && is_ehdr(rt, BROAD_EHDR_BYTES, &BROAD_EHDR)
        && !ehdr_fits(&UNFIT_EHDR)
}

#[test]
fn elf_headers_have_these_bytes(rt: HostRuntime) {
    assert!(rt; ehdrs_are_translated(&rt));
}
