//! A change of each kind.

ghost use Rattle.rebuild_changes.specs.Stated.{HasPlainNames};

use crate::copy::asked::{CopyQuestion, copy_answers};
use crate::copy::changes::of_each_kind;
use crate::copy::faults::kind_and_name;
use crate::copy::images::RELOCATABLE_OBJECT;
use elf_copy::{ChangeLists, copy_of};
use elf_descriptor::Elf;
use elf_outside::{NoSource, Source};
use elf_types::constants::SHF_ALLOC;
use elf_types::{DataId, ScnId};
use elf_xlate::Items;
use gelf_view::section_name;
use test_kit_images::{NARROW, WIDE};
use test_kit_rows::{failed, in_row, other, same, same_bytes};

/// The number, the name, the flags and the bytes of a section that is made.
type Row = (u32, &'static [u8], u64, &'static [u8]);

/// All sections from 1 on; the table of the names is written again.
static ROWS: [Row; 4] = [
    (1, b".code", SHF_ALLOC, b"code"),
    (2, b".data", 3, b"other"),
    (3, b".shstrtab", 0, b"\0.code\0.data\0.shstrtab\0.note\0"),
    (4, b".note", 0, b"added"),
];

/// Whether a section has a name.
fn is_named(rt: &HostRuntime, elf: &mut Elf<NoSource>, s: ScnId, wanted: &[u8]) -> bool {
    if s.0 >= elf.shnum() {
        return other(rt, &elf.shnum(), "more sections");
    }
    match section_name(elf, s) {
        Ok(Some(name)) => same_bytes(rt, name, wanted),
        Ok(None) => other(rt, &"no name", "a name"),
        Err(e) => failed(rt, e),
    }
}

/// Whether a section has flags.
fn is_flagged(rt: &HostRuntime, elf: &Elf<NoSource>, s: ScnId, bits: u64) -> bool {
    match elf.shdr(s) {
        Ok(header) => same(rt, &header.flags, &bits),
        Err(e) => failed(rt, e),
    }
}

/// Whether a section's items are these bytes.
fn are_bytes(rt: &HostRuntime, elf: &mut Elf<NoSource>, s: ScnId, wanted: &[u8]) -> bool {
    match elf.data(DataId::home(s)) {
        Ok(items) => match items {
            Items::Bytes(l) => same_bytes(rt, l.as_slice(), wanted),
            held => other(rt, &held.kind(), "bytes"),
        },
        Err(e) => failed(rt, e),
    }
}

/// Whether all sections are as they should.
fn are_made(rt: &HostRuntime, elf: &mut Elf<NoSource>) -> bool {
    for (n, row) in ROWS.iter().enumerate() {
        let s = ScnId(row.0);
        let so = is_flagged(rt, elf, s, row.2)
            && is_named(rt, elf, s, row.1)
            && are_bytes(rt, elf, s, row.3);
        if !in_row(rt, n, so) {
            return false;
        }
    }
    same(rt, &elf.shnum(), &5)
}

/// Whether these changes make the sections of all rows.
fn is_changed<S: Source>(rt: &HostRuntime, elf: &mut Elf<S>, changes: &ChangeLists) -> bool
    requires { HasPlainNames changes.now }
{
    if elf.dirty() {
        return other(rt, &"a dirty object", "one that is as it was opened");
    }
    match copy_of(rt.alloc(), elf, changes) {
        Ok(mut made) => are_made(rt, &mut made.elf),
        Err(fault) => other(rt, &kind_and_name(&fault).0, "a copy"),
    }
}

/// Whether a change of each kind does.
pub fn are_all_made<S: Source>(rt: &HostRuntime, elf: &mut Elf<S>) -> bool {
    match of_each_kind(rt.alloc()) {
        Ok(changes) => is_changed(rt, elf, &changes),
        Err(e) => failed(rt, e),
    }
}

/// Whether a change of each kind is made to the object in two forms.
fn is_changed_in_both(rt: &HostRuntime) -> bool {
    copy_answers(rt, WIDE, &RELOCATABLE_OBJECT, &CopyQuestion::Made)
        && copy_answers(rt, NARROW, &RELOCATABLE_OBJECT, &CopyQuestion::Made)
}

#[test]
fn each_kind_of_change_is_made(rt: HostRuntime) {
    assert!(rt; is_changed_in_both(&rt));
}
