//! Calls as lines again.

use elf_calls_script::{Call, EhdrSet, ItemSet, PhdrSet, ShdrSet};
use elf_types::{DataId, ElfError, Octets, put_decimal, put_part, put_signed, put_text};

/// Appends a word and numbers, with a space before each, and a newline.
fn put_numbers(out: &mut Octets, word: &str, numbers: &[u64]) -> Result<(), ElfError> {
    put_text(out, word)?;
    for n in numbers {
        put_text(out, " ")?;
        put_decimal(out, *n)?;
    }
    put_text(out, "\n")
}

/// The numbers of a piece's item.
fn item(d: DataId, i: u64) -> [u64; 3] {
    [u64::from(d.section), u64::from(d.piece), i]
}

/// Appends a byte's two digits.
fn put_byte(out: &mut Octets, byte: u8) -> Result<(), ElfError> {
    let digits = b"0123456789abcdef";
    out.push(digits[usize::from(byte / 16)])?;
    out.push(digits[usize::from(byte % 16)])
}

/// Appends a word, numbers and bytes.
fn put_bytes_after(
    out: &mut Octets,
    word: &str,
    numbers: &[u64],
    bytes: &[u8],
) -> Result<(), ElfError> {
    put_text(out, word)?;
    for n in numbers {
        put_text(out, " ")?;
        put_decimal(out, *n)?;
    }
    put_text(out, if bytes.is_empty() { " -" } else { " " })?;
    for byte in bytes {
        put_byte(out, *byte)?;
    }
    Ok(())
}

/// Appends a call as a line.
pub fn put_call(out: &mut Octets, call: &Call) -> Result<(), ElfError> {
    match call {
        Call::Ehdr => put_text(out, "ehdr\n"),
        Call::Phdr { i } => put_numbers(out, "phdr", &[u64::from(*i)]),
        Call::Shdr { s } => put_numbers(out, "shdr", &[u64::from(s.0)]),
        Call::Pieces { s } => put_numbers(out, "pieces", &[u64::from(s.0)]),
        Call::Data { d } => put_numbers(out, "data", &[u64::from(d.section), u64::from(d.piece)]),
        Call::Raw { s } => put_numbers(out, "raw", &[u64::from(s.0)]),
        Call::Item { d, i } => put_numbers(out, "item", &item(*d, *i)),
        Call::Str { s, off } => put_numbers(out, "str", &[u64::from(s.0), *off]),
        Call::Note { d, at } => put_numbers(out, "note", &item(*d, *at)),
        Call::AddAll { d, n } => put_numbers(out, "addall", &item(*d, *n)),
        Call::NewScn => put_text(out, "newscn\n"),
        Call::NewPhdr { n } => put_numbers(out, "newphdr", &[u64::from(*n)]),
        Call::Fill { byte } => put_numbers(out, "fill", &[u64::from(*byte)]),
        Call::Null => put_text(out, "null\n"),
        _ => put_long_call(out, call),
    }
}

/// Appends a call with more than numbers.
fn put_long_call(out: &mut Octets, call: &Call) -> Result<(), ElfError> {
    match call {
        Call::Find { s, name } => {
            put_text(out, "find ")?;
            put_decimal(out, u64::from(s.0))?;
            put_text(out, " ")?;
            out.extend(name.as_slice())?;
            put_text(out, "\n")
        }
        Call::NewData { s, bytes } => {
            put_bytes_after(out, "newdata", &[u64::from(s.0)], bytes.as_slice())?;
            put_text(out, "\n")
        }
        Call::NewDataAligned { s, bytes, align } => {
            put_bytes_after(out, "newdata", &[u64::from(s.0)], bytes.as_slice())?;
            put_numbers(out, "", &[*align])
        }
        Call::Replace { d, bytes } => {
            let numbers = [u64::from(d.section), u64::from(d.piece)];
            put_bytes_after(out, "replace", &numbers, bytes.as_slice())?;
            put_text(out, "\n")
        }
        Call::Flag { part, set, bits } => {
            put_text(out, "flag ")?;
            put_part(out, *part)?;
            put_numbers(
                out,
                if *set { " set" } else { " clear" },
                &[u64::from(*bits)],
            )
        }
        Call::SetEhdr { set } => put_ehdr_set(out, *set),
        Call::SetPhdr { i, set } => {
            put_text(out, "set phdr ")?;
            put_decimal(out, u64::from(*i))?;
            put_phdr_set(out, *set)
        }
        Call::SetShdr { s, set } => {
            put_text(out, "set shdr ")?;
            put_decimal(out, u64::from(s.0))?;
            put_shdr_set(out, *set)
        }
        Call::SetItem { d, i, set } => put_item_set(out, *d, *i, *set),
        _ => Ok(()),
    }
}

/// Appends a line of `set ehdr`.
fn put_ehdr_set(out: &mut Octets, set: EhdrSet) -> Result<(), ElfError> {
    match set {
        EhdrSet::Osabi(n) => put_numbers(out, "set ehdr osabi", &[u64::from(n)]),
        EhdrSet::Abiversion(n) => put_numbers(out, "set ehdr abiversion", &[u64::from(n)]),
        EhdrSet::Etype(n) => put_numbers(out, "set ehdr type", &[u64::from(n)]),
        EhdrSet::Machine(n) => put_numbers(out, "set ehdr machine", &[u64::from(n)]),
        EhdrSet::Entry(n) => put_numbers(out, "set ehdr entry", &[n]),
        EhdrSet::Phoff(n) => put_numbers(out, "set ehdr phoff", &[n]),
        EhdrSet::Shoff(n) => put_numbers(out, "set ehdr shoff", &[n]),
        EhdrSet::Flags(n) => put_numbers(out, "set ehdr flags", &[u64::from(n)]),
        EhdrSet::Shstrndx(n) => put_numbers(out, "set ehdr shstrndx", &[u64::from(n)]),
    }
}

/// Appends the field and the value of a line of `set phdr`.
fn put_phdr_set(out: &mut Octets, set: PhdrSet) -> Result<(), ElfError> {
    match set {
        PhdrSet::Ptype(n) => put_numbers(out, " type", &[u64::from(n)]),
        PhdrSet::Flags(n) => put_numbers(out, " flags", &[u64::from(n)]),
        PhdrSet::Offset(n) => put_numbers(out, " offset", &[n]),
        PhdrSet::Vaddr(n) => put_numbers(out, " vaddr", &[n]),
        PhdrSet::Paddr(n) => put_numbers(out, " paddr", &[n]),
        PhdrSet::Filesz(n) => put_numbers(out, " filesz", &[n]),
        PhdrSet::Memsz(n) => put_numbers(out, " memsz", &[n]),
        PhdrSet::Align(n) => put_numbers(out, " align", &[n]),
    }
}

/// Appends the field and the value of a line of `set shdr`.
fn put_shdr_set(out: &mut Octets, set: ShdrSet) -> Result<(), ElfError> {
    match set {
        ShdrSet::Name(n) => put_numbers(out, " name", &[u64::from(n)]),
        ShdrSet::Stype(n) => put_numbers(out, " type", &[u64::from(n)]),
        ShdrSet::Flags(n) => put_numbers(out, " flags", &[n]),
        ShdrSet::Addr(n) => put_numbers(out, " addr", &[n]),
        ShdrSet::Offset(n) => put_numbers(out, " offset", &[n]),
        ShdrSet::Size(n) => put_numbers(out, " size", &[n]),
        ShdrSet::Link(n) => put_numbers(out, " link", &[u64::from(n)]),
        ShdrSet::Info(n) => put_numbers(out, " info", &[u64::from(n)]),
        ShdrSet::Addralign(n) => put_numbers(out, " addralign", &[n]),
        ShdrSet::Entsize(n) => put_numbers(out, " entsize", &[n]),
    }
}

/// The kind and the field of an item's line.
fn words_of(set: ItemSet) -> (&'static str, &'static str) {
    match set {
        ItemSet::Half(_) => ("set half", " value "),
        ItemSet::Word(_) => ("set word", " value "),
        ItemSet::Addr(_) => ("set addr", " value "),
        ItemSet::SymName(_) => ("set sym", " name "),
        ItemSet::SymValue(_) => ("set sym", " value "),
        ItemSet::SymSize(_) => ("set sym", " size "),
        ItemSet::SymInfo(_) => ("set sym", " info "),
        ItemSet::SymOther(_) => ("set sym", " other "),
        ItemSet::SymShndx(_) => ("set sym", " shndx "),
        ItemSet::RelOffset(_) => ("set rel", " offset "),
        ItemSet::RelSym(_) => ("set rel", " sym "),
        ItemSet::RelType(_) => ("set rel", " type "),
        ItemSet::RelaOffset(_) => ("set rela", " offset "),
        ItemSet::RelaSym(_) => ("set rela", " sym "),
        ItemSet::RelaType(_) => ("set rela", " type "),
        ItemSet::RelaAddend(_) => ("set rela", " addend "),
        ItemSet::DynTag(_) => ("set dyn", " tag "),
        ItemSet::DynVal(_) => ("set dyn", " val "),
    }
}

/// Appends a number that may be below 0, where the field has one.
fn put_signed_value(out: &mut Octets, set: ItemSet) -> Result<(), ElfError> {
    match set {
        ItemSet::RelaAddend(n) => put_signed(out, n),
        ItemSet::DynTag(n) => put_signed(out, n),
        _ => Ok(()),
    }
}

/// The value of a field, 0 where that may be below 0.
fn value_of(set: ItemSet) -> u64 {
    match set {
        ItemSet::Half(n) => u64::from(n),
        ItemSet::Word(n) => u64::from(n),
        ItemSet::Addr(n) => n,
        ItemSet::SymName(n) => u64::from(n),
        ItemSet::SymValue(n) => n,
        ItemSet::SymSize(n) => n,
        ItemSet::SymInfo(n) => u64::from(n),
        ItemSet::SymOther(n) => u64::from(n),
        ItemSet::SymShndx(n) => u64::from(n),
        ItemSet::RelOffset(n) => n,
        ItemSet::RelSym(n) => u64::from(n),
        ItemSet::RelType(n) => u64::from(n),
        ItemSet::RelaOffset(n) => n,
        ItemSet::RelaSym(n) => u64::from(n),
        ItemSet::RelaType(n) => u64::from(n),
        ItemSet::RelaAddend(_) => 0,
        ItemSet::DynTag(_) => 0,
        ItemSet::DynVal(n) => n,
    }
}

/// Appends the value of an item's field.
fn put_value(out: &mut Octets, set: ItemSet) -> Result<(), ElfError> {
    match set {
        ItemSet::RelaAddend(_) => put_signed_value(out, set),
        ItemSet::DynTag(_) => put_signed_value(out, set),
        _ => put_decimal(out, value_of(set)),
    }
}

/// Appends a line of `set` for an item.
fn put_item_set(out: &mut Octets, d: DataId, i: u64, set: ItemSet) -> Result<(), ElfError> {
    let (line, field) = words_of(set);
    put_text(out, line)?;
    for n in item(d, i) {
        put_text(out, " ")?;
        put_decimal(out, n)?;
    }
    put_text(out, field)?;
    put_value(out, set)?;
    put_text(out, "\n")
}
