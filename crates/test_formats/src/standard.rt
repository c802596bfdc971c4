//! Values of the standard's tables, texts, and the list of records.

use elf_types::constants::{
    SHF_COMPRESSED, SHT_DYNSYM, SHT_FINI_ARRAY, SHT_GNU_VERSYM, SHT_HASH, SHT_NOBITS, SHT_SYMTAB,
};
use elf_types::{
    Class, ElfError, Kind, NULL_SECTION, Octets, Part, Shdr, bind, binding_name, etype_name,
    kind_of, machine_name, put_hex, put_signed, section_type_name, segment_type_name, stt,
    symbol_type_name, tag_name, text, vis, visibility_name,
};
use test_kit_rows::{failed, in_row, same, same_bytes};

/// A number of the standard.
#[derive(Clone, Copy)]
enum Number {
    /// `e_type`.
    Etype(u16),
    /// `e_machine`.
    Machine(u16),
    /// `sh_type`.
    Section(u32),
    /// `p_type`.
    Segment(u32),
    /// The type in `st_info`.
    Symbol(u8),
    /// The binding in `st_info`.
    Binding(u8),
    /// The visibility in `st_other`.
    Visibility(u8),
    /// `d_tag`.
    Tag(i64),
}

/// The name of a number.
fn name_of(number: Number) -> Option<&'static str> {
    match number {
        Number::Etype(n) => etype_name(n),
        Number::Machine(n) => machine_name(n),
        Number::Section(n) => section_type_name(n),
        Number::Segment(n) => segment_type_name(n),
        Number::Symbol(info) => symbol_type_name(stt(info)),
        Number::Binding(info) => binding_name(bind(info)),
        Number::Visibility(other) => visibility_name(vis(other)),
        Number::Tag(n) => tag_name(n),
    }
}

/// Numbers and their names.
static NAMES: [(Number, Option<&str>); 10] = [
    (Number::Etype(3), Some("DYN")),
    (Number::Etype(5), None),
    (Number::Machine(62), Some("X86_64")),
    (Number::Section(0x6fff_ffff), Some("GNU_versym")),
    (Number::Segment(0x6474_e551), Some("GNU_STACK")),
    (Number::Symbol(0x12), Some("FUNC")),
    (Number::Binding(0x12), Some("GLOBAL")),
    (Number::Visibility(6), Some("HIDDEN")),
    (Number::Tag(30), Some("FLAGS")),
    (Number::Tag(-1), None),
];

/// Whether the numbers have those names.
fn numbers_are_named(rt: &HostRuntime, names: &[(Number, Option<&str>)]) -> bool {
    for (n, (number, name)) in names.iter().enumerate() {
        if !in_row(rt, n, same(rt, &name_of(*number), name)) {
            return false;
        }
    }
    true
}

#[test]
fn numbers_have_the_names_of_the_standard(rt: HostRuntime) {
    assert!(rt; numbers_are_named(&rt, &NAMES));
}

/// Errors and their texts.
static TEXTS: [(ElfError, &str); 5] = [
    (ElfError::Short, "too short"),
    (
        ElfError::NoSection { index: 9, count: 3 },
        "no section 9 of 3",
    ),
    (
        ElfError::Unfit {
            part: Part::Piece(2, 0),
            index: 1,
        },
        "unfit piece 2 0 index 1",
    ),
    (ElfError::WrongKind { held: Kind::Rela }, "held kind rela"),
    (ElfError::Unended { offset: 8 }, "string at 8 has no end"),
];

/// Whether an error has a text.
fn has_text(rt: &HostRuntime, e: &ElfError, wanted: &str) -> bool {
    match text(rt.alloc(), e) {
        Ok(shown) => same_bytes(rt, shown.as_slice(), wanted.as_bytes()),
        Err(e) => failed(rt, e),
    }
}

/// Whether the errors have those texts.
fn texts_are_shown(rt: &HostRuntime, texts: &[(ElfError, &str)]) -> bool {
    for (n, (e, wanted)) in texts.iter().enumerate() {
        if !in_row(rt, n, has_text(rt, e, wanted)) {
            return false;
        }
    }
    true
}

#[test]
fn errors_have_texts(rt: HostRuntime) {
    assert!(rt; texts_are_shown(&rt, &TEXTS));
}

/// Numbers that are shown with the digits of 16.
const SHOWN: [u64; 4] = [0, 10, 0x100, u64::MAX];

/// The numbers with the digits of 16, each with a space after it, and -1.
const DIGITS: &[u8] = b"0 a 100 ffffffffffffffff -1";

/// Appends the numbers.
fn put_numbers(out: &mut Octets) -> Result<(), ElfError> {
    for n in SHOWN {
        put_hex(out, n)?;
        out.push(b' ')?;
    }
    put_signed(out, -1)
}

/// Whether the numbers have those digits.
fn digits_are_put(rt: &HostRuntime) -> bool {
    let mut out = Octets::new(rt.alloc());
    same(rt, &put_numbers(&mut out), &Ok(())) && same_bytes(rt, out.as_slice(), DIGITS)
}

#[test]
fn numbers_have_digits(rt: HostRuntime) {
    assert!(rt; digits_are_put(&rt));
}

/// The type, the flags and the size of an entry of a section, and the kind of its items.
static KINDS: [(u32, u64, u64, Kind); 7] = [
    (SHT_NOBITS, 0, 0, Kind::Empty),
    (SHT_SYMTAB, SHF_COMPRESSED, 24, Kind::Bytes),
    (SHT_DYNSYM, 0, 24, Kind::Sym),
    (SHT_HASH, 0, 4, Kind::Word),
    (SHT_HASH, 0, 8, Kind::Bytes),
    (SHT_GNU_VERSYM, 0, 2, Kind::Half),
    (SHT_FINI_ARRAY, 0, 8, Kind::Addr),
];

/// The kind of the items of a section.
fn kind_in(stype: u32, flags: u64, entsize: u64) -> Kind {
    let h = Shdr {
        stype,
        flags,
        entsize,
        ..NULL_SECTION
    };
    kind_of(Class::C64, &h)
}

/// Whether the sections have those kinds.
fn kinds_are_told(rt: &HostRuntime, kinds: &[(u32, u64, u64, Kind)]) -> bool {
    for (n, (stype, flags, entsize, kind)) in kinds.iter().enumerate() {
        if !in_row(rt, n, same(rt, &kind_in(*stype, *flags, *entsize), kind)) {
            return false;
        }
    }
    true
}

#[test]
fn sections_have_kinds(rt: HostRuntime) {
    assert!(rt; kinds_are_told(&rt, &KINDS));
}

/// Appends four bytes and takes one away.
fn grow_and_shrink(list: &mut Octets) -> Result<(), ElfError> {
    list.extend(b"abc")?;
    list.push(b'd')?;
    list.truncate(3);
    Ok(())
}

/// Whether a list holds three bytes, and is that made of them.
fn holds_three(rt: &HostRuntime, list: &Octets) -> bool {
    let kept = same(rt, &list.len(), &3)
        && same(rt, &list.get(2), &Some(b'c'))
        && same(rt, &list.get(3), &None);
    if !kept {
        return false;
    }
    match Octets::from_slice(rt.alloc(), b"abc") {
        Ok(copy) => same_bytes(rt, copy.as_slice(), list.as_slice()),
        Err(e) => failed(rt, e),
    }
}

/// Whether a list with room for one holds three in the end.
fn three_are_kept(rt: &HostRuntime) -> bool {
    match Octets::with_capacity(rt.alloc(), 1) {
        Ok(mut list) => same(rt, &grow_and_shrink(&mut list), &Ok(())) && holds_three(rt, &list),
        Err(e) => failed(rt, e),
    }
}

#[test]
fn a_list_keeps_its_items(rt: HostRuntime) {
    assert!(rt; three_are_kept(&rt));
}
