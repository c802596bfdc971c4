//! Why nothing is made, in the order of the changes.

ghost use Rattle.rebuild_changes.specs.Stated.{HasPlainNames};

use crate::copy::asked::{CopyQuestion, copy_answers};
use crate::copy::changes::{bytes_and_flags, of_each_kind};
use crate::copy::images::{EXECUTABLE, LINKED};
use elf_copy::{ChangeLists, CopyFault, Rebuilt, copy_of};
use elf_descriptor::Elf;
use elf_outside::Source;
use elf_types::ElfError;
use test_kit_images::WIDE;
use test_kit_rows::{failed, in_row, other, same, same_bytes};

/// A fault.
#[derive(Clone, Copy, Debug, PartialEq)]
pub enum Fault {
    /// No section has a name.
    NoSection,
    /// A section gets no bytes.
    NoBytes,
    /// One keeps its length.
    Allocated,
    /// One stays allocated or not.
    Fixed,
    /// There is no table for names.
    NoTable,
    /// An error.
    Strip(ElfError),
}

/// What a fault is, and the name that it carries.
pub fn kind_and_name(fault: &CopyFault) -> (Fault, &[u8]) {
    match fault {
        CopyFault::NoSection { name } => (Fault::NoSection, name.as_slice()),
        CopyFault::NoBytes { name } => (Fault::NoBytes, name.as_slice()),
        CopyFault::Allocated { name } => (Fault::Allocated, name.as_slice()),
        CopyFault::Fixed { name } => (Fault::Fixed, name.as_slice()),
        CopyFault::NoTable => (Fault::NoTable, &[]),
        CopyFault::Strip(e) => (Fault::Strip(*e), &[]),
    }
}

/// Whether a fault is that one and has a name.
fn is_fault(rt: &HostRuntime, fault: &CopyFault, wanted: Fault, name: &[u8]) -> bool {
    let (kind, named) = kind_and_name(fault);
    same(rt, &kind, &wanted) && same_bytes(rt, named, name)
}

/// A name and bytes, a name and flags, and the fault with its name that comes of them.
type Row = (
    &'static [u8],
    &'static [u8],
    &'static [u8],
    u64,
    Fault,
    &'static [u8],
);

/// The bytes come before the flags.
static ROWS: [Row; 5] = [
    (b".none", b"x", b".text", 0, Fault::NoSection, b".none"),
    (b".bss", b"x", b".text", 0, Fault::NoBytes, b".bss"),
    (b".text", b"x", b".text", 0, Fault::Allocated, b".text"),
    (b".text", b"edoc", b".none", 0, Fault::NoSection, b".none"),
    (b".data", b"x", b".text", 0, Fault::Fixed, b".text"),
];

/// Whether there is no copy, for that fault.
fn is_no_copy(
    rt: &HostRuntime,
    copy: &Result<Rebuilt, CopyFault>,
    wanted: Fault,
    name: &[u8],
) -> bool {
    match copy {
        Ok(_) => other(rt, &"a copy", "a fault"),
        Err(fault) => is_fault(rt, fault, wanted, name),
    }
}

/// Whether changes end in a fault.
fn is_refused<S: Source>(
    rt: &HostRuntime,
    elf: &mut Elf<S>,
    changes: &ChangeLists,
    wanted: Fault,
    name: &[u8],
) -> bool
    requires { HasPlainNames changes.now }
{
    if elf.dirty() {
        return other(rt, &"a dirty object", "one that is as it was opened");
    }
    let copy = copy_of(rt.alloc(), elf, changes);
    let refused = is_no_copy(rt, &copy, wanted, name);
    // one call, which is cheaper to prove than what it takes to release a copy or a fault
    drop(copy);
    refused
}

/// Whether the changes of a row are rejected by its fault.
fn is_refused_by<S: Source>(rt: &HostRuntime, elf: &mut Elf<S>, row: &Row) -> bool {
    match bytes_and_flags(rt.alloc(), (row.0, row.1), (row.2, row.3)) {
        Ok(changes) => is_refused(rt, elf, &changes, row.4, row.5),
        Err(e) => failed(rt, e),
    }
}

/// Whether the changes of all rows are rejected by their faults.
pub fn faults_come_in_order<S: Source>(rt: &HostRuntime, elf: &mut Elf<S>) -> bool {
    for (n, row) in ROWS.iter().enumerate() {
        if !in_row(rt, n, is_refused_by(rt, elf, row)) {
            return false;
        }
    }
    true
}

/// Whether names have no table of their own.
pub fn has_no_table<S: Source>(rt: &HostRuntime, elf: &mut Elf<S>) -> bool {
    match of_each_kind(rt.alloc()) {
        Ok(changes) => is_refused(rt, elf, &changes, Fault::NoTable, b""),
        Err(e) => failed(rt, e),
    }
}

#[test]
fn faults_come_in_the_order_of_the_changes(rt: HostRuntime) {
    assert!(rt; copy_answers(&rt, WIDE, &EXECUTABLE, &CopyQuestion::Refused));
}

#[test]
fn names_need_a_table_of_their_own(rt: HostRuntime) {
    assert!(rt; copy_answers(&rt, WIDE, &LINKED, &CopyQuestion::NoTable));
}
