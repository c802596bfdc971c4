//! Sections get other bytes.

ghost use Rattle.std.specs.Prelude.{◌≡◌, ◌==◌, ◌&&◌, not, ℕ, List, Option, All, length, map, true, Ok, OnOk, IfErr};
ghost use Rattle.elf_types.specs.declared.errors.ElfError.TheVariants.{Memory};
ghost use Rattle.elf_xlate.specs.declared.content.Items.TheVariants as items;
ghost use Rattle.elf_object.specs.Object.{Object, occupies_file};
ghost use Rattle.elf_object.specs.Calls as calls;
ghost use Rattle.elf_object.specs.Sections.{is_allocated, header_at, edited, in_turn};
ghost use Rattle.rebuild_model.specs.Copied.{names_in, section_named, or_strip, update_fault, with_bytes};
ghost use Rattle.rebuild_select.specs.Sought.Names.{is_sought, AreUpTo};
ghost use Rattle.rebuild_changes.specs.declared.faults.CopyFault.TheVariants as faults;
ghost use Rattle.rebuild_changes.specs.Stated.{bytes_pair, IsWithoutDeviceFault};
ghost use Rattle.rebuild_edits.specs.Edits.Edits.{updated_at};
ghost use Rattle.rebuild_edits.specs.Edits.Steps.{IsPresentSection, IsFaultIf};
ghost use Rattle.rebuild_copy.specs.Rows.{Origin, IsContents, gathered_header, size_in};
ghost use Rattle.rebuild_copy.specs.Steps.{always_holds, ReadsNoMore, AltersContents, AltersAt, IsFaultUnread};
ghost use Rattle.rebuild_copy.specs.Indexes.{IsIndexOf, UpdatesNameIndex};

use crate::edits::put_bytes;
use crate::finding::find_named;
use crate::indexing::{fill_index, index_names, seek_updated};
use crate::rows::{header_of, size_of};
use elf_object::occupies_file;
use elf_types::Octets;
use rebuild_changes::{CopyFault, NameBytes, fault_allocated, fault_no_bytes};
use rebuild_edits::prelude::is_header_allocated;
use rebuild_plan::Arranged;
use rebuild_select::sought::{NameIndex, NameSet};
use std::alloc::Global;

/// Whether other bytes would give a section that is loaded another length.
fn changes_length(x: &Arranged, s: u32, bytes: &Octets) -> bool
    ensures { result ≡ (not (x.now.listed.header.phnum == 0) && is_allocated
        (gathered_header x.now s)
        && not (length bytes.now == size_in x.now s)) }
{
    x.listed.header.phnum != 0
        && is_header_allocated(&header_of(x, s))
        && bytes.len() != size_of(x, s)
}

/// Why a section that is there does not get other bytes, if it does not.
fn update_fault(alloc: Global, x: &Arranged, s: u32, change: &NameBytes) -> Option<CopyFault>
    ensures fault { (o : Origin) (p : Object) → IsContents o p x.now → IsPresentSection p s
        → IsFaultIf (update_fault p s change.now.name change.now.bytes) result }
    ensures unread { IsFaultUnread result }
{
    if !occupies_file(&header_of(x, s)) {
        return Some(fault_no_bytes(alloc, &change.name));
    }
    if changes_length(x, s, &change.bytes) {
        return Some(fault_allocated(alloc, &change.name));
    }
    None
}

/// Gives a section that is there, and has bytes in the file, other bytes.
fn put_update(x: &mut Arranged, s: u32, bytes: &Octets) -> Result<(), CopyFault>
    ensures { AltersAt s (λ p. occupies_file (header_at p s) ≡ true)
        (λ p. or_strip (edited (calls.replace s 0 (items.Bytes bytes.now)) p))
        result x.old x.new }
{
    match put_bytes(x, s, bytes.as_slice()) {
        Ok(()) => Ok(()),
        Err(e) => Err(CopyFault::Strip(e)),
    }
}

/// Gives a section that is there other bytes.
fn update_at(alloc: Global, x: &mut Arranged, s: u32, change: &NameBytes) -> Result<(), CopyFault>
    ensures { AltersAt s always_holds (λ p. updated_at p s change.now.name change.now.bytes)
        result x.old x.new }
{
    match update_fault(alloc, x, s, change) {
        None => put_update(x, s, &change.bytes),
        Some(fault) => Err(fault),
    }
}

/// Puts the sections under their names again, where a section got other bytes that holds the names.
fn index_again(
    alloc: Global,
    x: &Arranged,
    s: u32,
    longest: usize,
    index: &mut NameIndex<'_>,
) -> Result<(), CopyFault>
    requires { AreUpTo longest index.old.sought }
    ensures sought { index.new.sought ≡ index.old.sought }
    ensures indexed { (o : Origin) (p : Object) (names : List (Option (List ℕ)))
        → IsContents o p x.now → IsIndexOf index.old names
        → ((s ≡ p.header.shstrndx → ⊥) → names ≡ names_in p)
        → OnOk result (IsIndexOf index.new (names_in p)) }
    ensures err { IfErr result (λ fault. fault ≡ faults.Strip Memory) }
{
    if s != x.listed.header.shstrndx {
        return Ok(());
    }
    index.clear();
    match fill_index(alloc, x, longest, index) {
        Ok(()) => Ok(()),
        Err(e) => Err(CopyFault::Strip(e)),
    }
}

/// Gives the first section of a name, which was found, other bytes; the index is that of the names
/// then.
fn update_found(
    alloc: Global,
    x: &mut Arranged,
    s: u32,
    change: &NameBytes,
    longest: usize,
    index: &mut NameIndex<'_>,
) -> Result<(), CopyFault>
    requires { AreUpTo longest index.old.sought }
    ensures sought { index.new.sought ≡ index.old.sought }
    ensures updates { (o : Origin) (p : Object) → IsContents o p x.old → IsPresentSection p s
        → IsIndexOf index.old (names_in p)
        → section_named (names_in p) change.now.name ≡ Ok s
        → UpdatesNameIndex o p (updated_at p s change.now.name change.now.bytes)
        result x.new index.new }
    ensures less { OnOk result (ReadsNoMore x.old x.new) }
    ensures unread { IsWithoutDeviceFault result }
{
    match update_at(alloc, x, s, change) {
        Ok(()) => index_again(alloc, x, s, longest, index),
        Err(fault) => Err(fault),
    }
}

/// Gives the first section of a name other bytes.
fn update_section<'a>(
    alloc: Global,
    x: &mut Arranged,
    change: &'a NameBytes,
    longest: usize,
    index: &mut NameIndex<'a>,
) -> Result<(), CopyFault>
    requires sought { is_sought index.old.sought change.now.name ≡ true }
    requires up_to { AreUpTo longest index.old.sought }
    ensures sought { index.new.sought ≡ index.old.sought }
    ensures updates { (o : Origin) (p : Object) → IsContents o p x.old
        → IsIndexOf index.old (names_in p)
        → UpdatesNameIndex o p (with_bytes p (bytes_pair change.now)) result x.new index.new }
    ensures less { OnOk result (ReadsNoMore x.old x.new) }
    ensures unread { IsWithoutDeviceFault result }
{
    match find_named(alloc, index, &change.name) {
        Ok(s) => update_found(alloc, x, s, change, longest, index),
        Err(fault) => Err(fault),
    }
}

/// Gives the first section of each name, in turn, the bytes that are beside it.
fn update_all<'a>(
    alloc: Global,
    x: &mut Arranged,
    changes: &'a [NameBytes],
    longest: usize,
    index: &mut NameIndex<'a>,
) -> Result<(), CopyFault>
    requires sought { All (λ n. is_sought index.old.sought n.name ≡ true) changes.now }
    requires up_to { AreUpTo longest index.old.sought }
    ensures { AltersContents (λ p. IsIndexOf index.old (names_in p))
        (λ p. in_turn with_bytes p (map bytes_pair changes.now)) result x.old x.new }
{
    for change in changes {
        match update_section(alloc, x, change, longest, index) {
            Ok(()) => {}
            Err(fault) => return Err(fault),
        }
    }
    Ok(())
}

/// Gives the first section of each name its bytes, by an index that is made of the names that are
/// looked for.
fn index_and_update<'a>(
    alloc: Global,
    x: &mut Arranged,
    changes: &'a [NameBytes],
    sought: NameSet<'a>,
) -> Result<(), CopyFault>
    requires { All (λ n. is_sought sought n.name ≡ true) changes.now }
    ensures { AltersContents always_holds (λ p. in_turn with_bytes p (map bytes_pair changes.now))
        result x.old x.new }
{
    let longest = sought.longest();
    match index_names(alloc, x, sought) {
        Ok(mut index) => update_all(alloc, x, changes, longest, &mut index),
        Err(e) => Err(CopyFault::Strip(e)),
    }
}

/// Gives the first section of each name, in turn, the bytes that are beside it; names are those by
/// the table as it is then. It fails with, for each, in this order: `NoSection`, `NoBytes`,
/// `Allocated`; and where memory runs out. What a refusal leaves is not stated. It holds a copy of
/// the bytes.
///
/// Source: objcopy(1) of the development tools, `--update-section`.
pub(crate) fn update_sections(
    alloc: Global,
    x: &mut Arranged,
    changes: &[NameBytes],
) -> Result<(), CopyFault>
    ensures { AltersContents always_holds (λ p. in_turn with_bytes p (map bytes_pair changes.now))
        result x.old x.new }
{
    match seek_updated(alloc, changes) {
        Ok(sought) => index_and_update(alloc, x, changes, sought),
        Err(e) => Err(CopyFault::Strip(e)),
    }
}
