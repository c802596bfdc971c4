//! Descriptors that behave alike.

use crate::beginning::opened_on;
use elf_descriptor::{Elf, Held};
use elf_outside::Source;
use elf_types::{DataId, ElfError, Kind, LAYOUT, Part, ScnId};
use test_kit_rows::{failed, holds, other, same, same_bytes, within};

/// Whether two descriptors have the same headers.
fn headers_agree<S: Source, F: Source>(rt: &HostRuntime, a: &Elf<S>, b: &Elf<F>) -> bool {
    for i in 0..a.phnum() {
        if !within(rt, &Part::Segments, same(rt, &a.phdr(i), &b.phdr(i))) {
            return false;
        }
    }
    same(rt, &a.ehdr(), &b.ehdr()) && same(rt, &a.phnum(), &b.phnum())
}

/// Whether two descriptors have the same section of a number.
fn section_agrees<S: Source, F: Source>(
    rt: &HostRuntime,
    a: &Elf<S>,
    b: &Elf<F>,
    s: ScnId,
) -> bool {
    let d = DataId {
        section: s.0,
        piece: 0,
    };
    let mut agree = same(rt, &a.shdr(s), &b.shdr(s));
    agree &= same(rt, &a.home(s), &b.home(s));
    agree &= same(rt, &a.pieces(s), &b.pieces(s));
    agree &= same(rt, &a.piece_kind(d), &b.piece_kind(d));
    agree &= same(rt, &a.piece_align(d), &b.piece_align(d));
    agree
}

/// Whether two descriptors have the same sections.
fn sections_agree<S: Source, F: Source>(rt: &HostRuntime, a: &Elf<S>, b: &Elf<F>) -> bool {
    for s in 0..a.shnum() {
        if !within(rt, &ScnId(s), section_agrees(rt, a, b, ScnId(s))) {
            return false;
        }
    }
    same(rt, &a.shnum(), &b.shnum())
}

/// Whether two descriptors have the same marks of a part.
fn marks_agree<S: Source, F: Source>(rt: &HostRuntime, a: &Elf<S>, b: &Elf<F>, part: Part) -> bool {
    same(rt, &a.flags(part), &b.flags(part))
}

/// Whether two descriptors have the same marks.
pub fn all_marks_agree<S: Source, F: Source>(rt: &HostRuntime, a: &Elf<S>, b: &Elf<F>) -> bool {
    let mut agree = same(rt, &a.dirty(), &b.dirty());
    agree &= marks_agree(rt, a, b, Part::Object);
    agree &= marks_agree(rt, a, b, Part::Header);
    agree &= marks_agree(rt, a, b, Part::Segments);
    for s in 0..a.shnum() {
        agree &= marks_agree(rt, a, b, Part::Section(s));
        agree &= marks_agree(rt, a, b, Part::Piece(s, 0));
    }
    agree
}

/// Whether two descriptors return the same in all that is told without reading, but for their base
/// bytes and their marks.
pub fn all_but_marks_agree<S: Source, F: Source>(rt: &HostRuntime, a: &Elf<S>, b: &Elf<F>) -> bool {
    let mut agree = headers_agree(rt, a, b);
    agree &= sections_agree(rt, a, b);
    agree &= same(rt, &a.fill(), &b.fill());
    agree &= same(rt, &a.pad(), &b.pad());
    agree
}

/// Whether two descriptors return the same in all that is told without reading, but for their base
/// bytes.
pub fn all_but_bases_agree<S: Source, F: Source>(rt: &HostRuntime, a: &Elf<S>, b: &Elf<F>) -> bool {
    all_but_marks_agree(rt, a, b) && all_marks_agree(rt, a, b)
}

/// Whether two descriptors return the same in all that is told without reading.
pub fn all_agree<S: Source, F: Source>(rt: &HostRuntime, a: &Elf<S>, b: &Elf<F>) -> bool {
    all_but_bases_agree(rt, a, b) && same(rt, &a.base_len(), &b.base_len())
}

/// Whether nothing is held of any section.
fn is_unread<S: Source>(rt: &HostRuntime, elf: &Elf<S>) -> bool {
    for section in 0..elf.shnum() {
        match elf.held(DataId { section, piece: 0 }) {
            Ok(Held::Unread) => {}
            _ => return other(rt, &section, "a section of which nothing is held"),
        }
    }
    true
}

/// The kind and the number of the items of a piece.
fn told<S: Source>(elf: &mut Elf<S>, d: DataId) -> Result<(Kind, u64), ElfError> {
    let items = elf.data(d)?;
    Ok((items.kind(), items.count()))
}

/// Whether two descriptors have the same bytes and the same items of a section.
fn data_agree<S: Source, F: Source>(
    rt: &HostRuntime,
    a: &mut Elf<S>,
    b: &mut Elf<F>,
    section: u32,
) -> bool {
    let d = DataId { section, piece: 0 };
    if !same(rt, &told(a, d), &told(b, d)) {
        return false;
    }
    match a.raw(ScnId(section)) {
        Ok(first) => match b.raw(ScnId(section)) {
            Ok(second) => same_bytes(rt, first, second),
            Err(e) => failed(rt, e),
        },
        Err(_) => holds(rt, "both refuse it", b.raw(ScnId(section)).is_err()),
    }
}

/// Whether two descriptors have the same bytes and the same items of each section.
fn all_data_agree<S: Source, F: Source>(rt: &HostRuntime, a: &mut Elf<S>, b: &mut Elf<F>) -> bool {
    for section in 0..a.shnum() {
        if !within(rt, &ScnId(section), data_agree(rt, a, b, section)) {
            return false;
        }
    }
    true
}

/// Gives a descriptor the fill byte of another one, and its layout where that is the caller's.
/// Whether the other one is not marked.
fn set_alike<S: Source, F: Source>(rt: &HostRuntime, elf: &mut Elf<F>, other: &Elf<S>) -> bool {
    elf.set_fill(other.fill());
    let bits = match other.flags(Part::Object) {
        Ok(bits) => bits,
        Err(e) => return failed(rt, e),
    };
    if bits == LAYOUT {
        return same(rt, &elf.flag(Part::Object, true, LAYOUT), &Ok(LAYOUT));
    }
    same(rt, &bits, &0)
}

/// Whether a descriptor behaves as another one that was opened on the bytes that it has.
fn behaves_as<S: Source, F: Source>(
    rt: &HostRuntime,
    elf: &mut Elf<S>,
    opened: &mut Elf<F>,
) -> bool {
    set_alike(rt, opened, elf)
        && is_unread(rt, elf)
        && all_agree(rt, elf, opened)
        && all_data_agree(rt, elf, opened)
}

/// Whether a descriptor behaves as one that was opened on these bytes, but for the fill byte and
/// the layout: nothing is marked, nothing is held, and then each section has its bytes and items.
pub fn is_as_opened<S: Source>(rt: &HostRuntime, elf: &mut Elf<S>, bytes: &[u8]) -> bool {
    match opened_on(elf.alloc(), bytes) {
        Ok(mut opened) => behaves_as(rt, elf, &mut opened),
        Err(e) => failed(rt, e),
    }
}
