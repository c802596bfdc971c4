//! Sections by those of their names that changes look for.

ghost use Rattle.std.specs.Prelude.{◌≡◌, ◌&&◌, ◌||◌, ◌==◌, ℕ, List, All, drop, true, false, OnOk, IfOk, IfErr};
ghost use Rattle.elf_types.specs.declared.errors.ElfError.TheVariants.{Memory};
ghost use Rattle.elf_object.specs.Object.{Object};
ghost use Rattle.elf_object.specs.Strings.{is_name};
ghost use Rattle.rebuild_model.specs.Copied.{names_in};
ghost use Rattle.rebuild_edits.specs.gelf_view.Records.{string_front};
ghost use Rattle.rebuild_select.specs.Sought.Names.{is_sought, AreUpTo};
ghost use Rattle.rebuild_select.specs.Sought.Rows.{stands_under};
ghost use Rattle.rebuild_copy.specs.Rows.{Origin, IsContents, gathered_header, held_in};
ghost use Rattle.rebuild_copy.specs.Indexes.{IsIndexOf};

use crate::rows::header_of;
use crate::tables::{copy_front, table_of};
use elf_types::ElfError;
use rebuild_changes::{ChangeLists, NameBits, NameBytes};
use rebuild_edits::prelude::string_in;
use rebuild_plan::Arranged;
use rebuild_plan::prelude::ByteRange;
use rebuild_select::sought::{NameIndex, NameSet};
use std::alloc::Global;

// ---- Names that are looked for

/// Adds the names of the sections that get other names or bytes. It fails with `Memory` alone.
fn seek_changed<'a>(sought: &mut NameSet<'a>, changes: &'a [NameBytes]) -> Result<(), ElfError>
    ensures sought { OnOk result (All (λ n. is_sought sought.new n.name ≡ true) changes.now) }
    ensures err { IfErr result (λ e. e ≡ Memory) }
{
    for change in changes {
        match sought.add(change.name.as_slice()) {
            Ok(()) => {}
            Err(e) => return Err(e),
        }
    }
    Ok(())
}

/// Adds the names of the sections that get other flags. It fails with `Memory` alone.
fn seek_flagged<'a>(sought: &mut NameSet<'a>, changes: &'a [NameBits]) -> Result<(), ElfError>
    ensures sought { OnOk result (All (λ n. is_sought sought.new n.name ≡ true) changes.now) }
    ensures kept { OnOk result ((q : List ℕ) → is_sought sought.old q ≡ true
        → is_sought sought.new q ≡ true) }
    ensures err { IfErr result (λ e. e ≡ Memory) }
{
    for change in changes {
        match sought.add(change.name.as_slice()) {
            Ok(()) => {}
            Err(e) => return Err(e),
        }
    }
    Ok(())
}

/// Adds the names of both. It fails with `Memory` alone.
fn seek_all<'a>(sought: &mut NameSet<'a>, changes: &'a ChangeLists) -> Result<(), ElfError>
    ensures renamed { OnOk result
        (All (λ n. is_sought sought.new n.name ≡ true) changes.now.rename) }
    ensures flagged { OnOk result
        (All (λ n. is_sought sought.new n.name ≡ true) changes.now.flags) }
    ensures err { IfErr result (λ e. e ≡ Memory) }
{
    match seek_changed(sought, changes.rename.as_slice()) {
        Ok(()) => seek_flagged(sought, changes.flags.as_slice()),
        Err(e) => Err(e),
    }
}

/// The names of the sections that get other names or flags. It fails with `Memory` alone.
pub(crate) fn seek_names(alloc: Global, changes: &ChangeLists) -> Result<NameSet<'_>, ElfError>
    ensures renamed { IfOk result
        (λ sought. All (λ n. is_sought sought n.name ≡ true) changes.now.rename) }
    ensures flagged { IfOk result
        (λ sought. All (λ n. is_sought sought n.name ≡ true) changes.now.flags) }
    ensures err { IfErr result (λ e. e ≡ Memory) }
{
    let mut sought = NameSet::new(alloc);
    match seek_all(&mut sought, changes) {
        Ok(()) => Ok(sought),
        Err(e) => Err(e),
    }
}

/// The names of the sections that get other bytes. It fails with `Memory` alone.
pub(crate) fn seek_updated(alloc: Global, changes: &[NameBytes]) -> Result<NameSet<'_>, ElfError>
    ensures sought { IfOk result
        (λ sought. All (λ n. is_sought sought n.name ≡ true) changes.now) }
    ensures err { IfErr result (λ e. e ≡ Memory) }
{
    let mut sought = NameSet::new(alloc);
    match seek_changed(&mut sought, changes) {
        Ok(()) => Ok(sought),
        Err(e) => Err(e),
    }
}

// ---- Sections that have them

/// Puts a section under the string with which bytes begin, where that is looked for. It fails with
/// `Memory` alone.
fn put_string(bytes: &[u8], s: u32, index: &mut NameIndex<'_>) -> Result<(), ElfError>
    ensures sought { index.new.sought ≡ index.old.sought }
    ensures put { OnOk result ((q : List ℕ) (t : ℕ) → is_sought index.old.sought q ≡ true
        → stands_under index.new q t
        ≡ ((is_name q (string_front bytes.now) && s == t) || stands_under index.old q t)) }
    ensures err { IfErr result (λ e. e ≡ Memory) }
{
    match string_in(bytes) {
        Some(name) => index.put(name, s),
        None => Ok(()),
    }
}

/// Puts a section under its name in a table, where that is looked for. It fails with `Memory`
/// alone.
fn index_section(
    alloc: Global,
    x: &Arranged,
    table: ByteRange,
    s: u32,
    longest: usize,
    index: &mut NameIndex<'_>,
) -> Result<(), ElfError>
    requires { AreUpTo longest index.old.sought }
    ensures sought { index.new.sought ≡ index.old.sought }
    ensures put { OnOk result ((q : List ℕ) (t : ℕ) → is_sought index.old.sought q ≡ true
        → stands_under index.new q t
        ≡ ((is_name q (string_front (drop (gathered_header x.now s).name (held_in x.now table)))
        && s == t) || stands_under index.old q t)) }
    ensures err { IfErr result (λ e. e ≡ Memory) }
{
    match copy_front(alloc, x, table, header_of(x, s).name, longest as u64) {
        Ok(bytes) => put_string(bytes.as_slice(), s, index),
        Err(e) => Err(e),
    }
}

/// Puts the sections from 1 on under their names. It fails with `Memory` alone.
pub(crate) fn fill_index(
    alloc: Global,
    x: &Arranged,
    longest: usize,
    index: &mut NameIndex<'_>,
) -> Result<(), ElfError>
    requires up_to { AreUpTo longest index.old.sought }
    requires none { (q : List ℕ) (t : ℕ) → stands_under index.old q t ≡ false }
    ensures sought { index.new.sought ≡ index.old.sought }
    ensures index { (o : Origin) (p : Object) → IsContents o p x.now
        → OnOk result (IsIndexOf index.new (names_in p)) }
    ensures err { IfErr result (λ e. e ≡ Memory) }
{
    let table = table_of(x);
    for s in 1..x.listed.header.shnum {
        match index_section(alloc, x, table, s, longest, index) {
            Ok(()) => {}
            Err(e) => return Err(e),
        }
    }
    Ok(())
}

/// The sections by those of their names that are looked for. It fails with `Memory` alone. It looks
/// at each section once, and at no more bytes of its name than the longest of those has, and one
/// more.
///
/// Source: gABI chapter 4, "Section Header", sh_name.
pub(crate) fn index_names<'a>(
    alloc: Global,
    x: &Arranged,
    sought: NameSet<'a>,
) -> Result<NameIndex<'a>, ElfError>
    ensures sought { IfOk result (λ index. index.sought ≡ sought.entry) }
    ensures index { (o : Origin) (p : Object) → IsContents o p x.now
        → IfOk result (λ index. IsIndexOf index (names_in p)) }
    ensures err { IfErr result (λ e. e ≡ Memory) }
{
    let longest = sought.longest();
    let mut index = NameIndex::new(alloc, sought);
    match fill_index(alloc, x, longest, &mut index) {
        Ok(()) => Ok(index),
        Err(e) => Err(e),
    }
}
