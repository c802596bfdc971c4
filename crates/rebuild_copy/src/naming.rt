//! What becomes of the names.

ghost use Rattle.std.specs.Prelude.{◌≡◌, ◌<◌, ◌-◌, ◌∷◌, ℕ, [], true, None, length, IfOk, IfErr};
ghost use Rattle.elf_types.specs.declared.errors.ElfError.TheVariants.{Memory};
ghost use Rattle.elf_object.specs.Object.{Object};
ghost use Rattle.elf_object.specs.Strings.{or_empty_name};
ghost use Rattle.rebuild_model.specs.Copied.{changes_names};
ghost use Rattle.rebuild_edits.specs.rebuild_names.Known.{known_at, NotesName, AreHeld};
ghost use Rattle.rebuild_edits.specs.rebuild_names.Names.{IsAddedAt};
ghost use Rattle.rebuild_changes.specs.Stated.{HasPlainNames, stated_changes};
ghost use Rattle.rebuild_edits.specs.Edits.Names.{name_now};
ghost use Rattle.rebuild_edits.specs.Texts.{all_texts, AddsTo};
ghost use Rattle.rebuild_edits.specs.Stores.{IsBuilt, IsNaming};
ghost use Rattle.rebuild_copy.specs.Rows.{Origin, IsContents, HasNamesIn, held_in, held_name};

use crate::rows::header_of;
use crate::tables::{OldTable, copy_string, name_near, old_table};
use elf_types::{ElfError, List};
use rebuild_changes::ChangeLists;
use rebuild_edits::prelude::{push_place, string_in};
use rebuild_edits::{
    Making, Naming, begin_table, changes_names, finish_names, hold_names, mark_of, new_name,
    place_added, place_found, place_text,
};
use rebuild_plan::Arranged;
use std::alloc::Global;
use strtab_shared::NOWHERE;

/// Adds the name at a place of a table that is held to a table in the making, appends its place to
/// the others, notes it under that place, and returns whether the table is not too large. The text
/// of the old table is held once the new one is as long. It fails with `Memory` alone.
fn place_held(
    alloc: Global,
    x: &Arranged,
    table: &OldTable<'_>,
    place: u32,
    making: &mut Making,
) -> Result<bool, ElfError>
    ensures placed { IfOk result (λ fits. IsAddedAt making.old.strings making.new.strings
        making.old.places making.new.places
        (held_name (held_in x.now table.now.range) place) fits) }
    ensures noted { IfOk result (NotesName place
        (held_name (held_in x.now table.now.range) place) making.new.strings
        making.old.known making.new.known) }
    ensures err { IfErr result (λ e. e ≡ Memory) }
{
    if let Err(e) = hold_names(making, table.text) {
        return Err(e);
    }
    match copy_string(alloc, x, table.range, place) {
        Ok(bytes) => {
            let near = name_near(x, table, place);
            place_found(making, place, string_in(bytes.as_slice()), near)
        }
        Err(e) => Err(e),
    }
}

/// Adds the name at a place of the old table as `place_held` does, unless a name was added before
/// from the same place: it is not looked at again.
fn place_old(
    alloc: Global,
    x: &Arranged,
    table: &OldTable<'_>,
    place: u32,
    making: &mut Making,
) -> Result<bool, ElfError>
    requires { AreHeld (held_name (held_in x.now table.now.range)) making.old.known
        making.old.strings }
    ensures placed { IfOk result (λ fits. IsAddedAt making.old.strings making.new.strings
        making.old.places making.new.places
        (held_name (held_in x.now table.now.range) place) fits) }
    ensures known { IfOk result (λ fits. fits ≡ true
        → AreHeld (held_name (held_in x.now table.now.range)) making.new.known
        making.new.strings) }
    ensures err { IfErr result (λ e. e ≡ Memory) }
{
    match making.known.find(place) {
        Some(noted) => push_place(&mut making.places, noted),
        None => place_held(alloc, x, table, place, making),
    }
}

/// Adds the name that a section has by now to a table in the making, appends its place to the
/// others, and returns whether the table is not too large. It fails with `Memory` alone.
fn place_section(
    alloc: Global,
    x: &Arranged,
    table: &OldTable<'_>,
    s: u32,
    marks: &List<u64>,
    changes: &ChangeLists,
    making: &mut Making,
) -> Result<bool, ElfError>
    requires plain { HasPlainNames changes.now }
    requires known { AreHeld (held_name (held_in x.now table.now.range)) making.old.known
        making.old.strings }
    ensures placed { (o : Origin) (p : Object) → IsContents o p x.now
        → HasNamesIn x.now (held_in x.now table.now.range) → s < length p.sections
        → IfOk result (λ fits. IsAddedAt making.old.strings making.new.strings
        making.old.places making.new.places
        (or_empty_name (name_now p marks.now changes.now.rename s)) fits) }
    ensures known { IfOk result (λ fits. fits ≡ true
        → AreHeld (held_name (held_in x.now table.now.range)) making.new.known
        making.new.strings) }
    ensures err { IfErr result (λ e. e ≡ Memory) }
{
    match new_name(&changes.rename, mark_of(marks, s)) {
        Some(name) => place_text(making, name.as_slice(), NOWHERE),
        None => place_old(alloc, x, table, header_of(x, s).name, making),
    }
}

/// Adds the names of the sections from 1 on.
fn place_sections(
    alloc: Global,
    x: &Arranged,
    marks: &List<u64>,
    changes: &ChangeLists,
    making: &mut Making,
) -> Result<bool, ElfError>
    requires plain { HasPlainNames changes.now }
    requires strings { making.old.strings ≡ [] }
    requires places { making.old.places ≡ 0 ∷ [] }
    requires known { (at : ℕ) → known_at making.old.known at ≡ None }
    ensures added { (o : Origin) (p : Object) → IsContents o p x.now
        → IfOk result (AddsTo (all_texts p marks.now changes.now)
        making.new.strings making.new.places (length p.sections - 1)) }
    ensures err { IfErr result (λ e. e ≡ Memory) }
{
    let table = old_table(x);
    for s in 1..x.listed.header.shnum {
        match place_section(alloc, x, &table, s, marks, changes, making) {
            Ok(fits) => {
                if !fits {
                    return Ok(false);
                }
            }
            Err(e) => return Err(e),
        }
    }
    Ok(true)
}

/// Adds all names.
fn place_all(
    alloc: Global,
    x: &Arranged,
    marks: &List<u64>,
    changes: &ChangeLists,
    making: &mut Making,
) -> Result<bool, ElfError>
    requires plain { HasPlainNames changes.now }
    requires strings { making.old.strings ≡ [] }
    requires places { making.old.places ≡ 0 ∷ [] }
    requires known { (at : ℕ) → known_at making.old.known at ≡ None }
    ensures added { (o : Origin) (p : Object) → IsContents o p x.now
        → IfOk result (AddsTo (all_texts p marks.now changes.now)
        making.new.strings making.new.places
        (length (all_texts p marks.now changes.now))) }
    ensures err { IfErr result (λ e. e ≡ Memory) }
{
    match place_sections(alloc, x, marks, changes, making) {
        Ok(fits) => {
            if !fits {
                return Ok(false);
            }
            place_added(changes.add.as_slice(), making)
        }
        Err(e) => Err(e),
    }
}

/// The table of all names, as they are by the marks, and of those that are added. It fails with
/// `Memory` alone.
fn build_table(
    alloc: Global,
    x: &Arranged,
    marks: &List<u64>,
    changes: &ChangeLists,
) -> Result<Naming, ElfError>
    requires plain { HasPlainNames changes.now }
    ensures built { (o : Origin) (p : Object) → IsContents o p x.now
        → IfOk result (IsBuilt (all_texts p marks.now changes.now)) }
    ensures err { IfErr result (λ e. e ≡ Memory) }
{
    let mut making = match begin_table(alloc) {
        Ok(making) => making,
        Err(e) => return Err(e),
    };
    match place_all(alloc, x, marks, changes, &mut making) {
        Ok(fits) => finish_names(making, fits),
        Err(e) => Err(e),
    }
}

/// What becomes of the names, where `renewed` says whether there is a table for them alone, and the
/// marks are those of `rename_sections`: the table of the names of all sections by these marks, and
/// after them of those that are added. A name that cannot be read counts as the empty one. It
/// stores nothing and fails with `Memory` alone.
///
/// Source: gABI chapter 4, "String Table", and "Section Header", sh_name.
pub(crate) fn plan_names(
    alloc: Global,
    x: &Arranged,
    marks: &List<u64>,
    changes: &ChangeLists,
    renewed: bool,
) -> Result<Naming, ElfError>
    requires plain { HasPlainNames changes.now }
    ensures naming { (o : Origin) (p : Object) → IsContents o p x.now
        → IfOk result (IsNaming (changes_names (stated_changes changes.now)) renewed
        (all_texts p marks.now changes.now)) }
    ensures err { IfErr result (λ e. e ≡ Memory) }
{
    if !changes_names(changes) {
        return Ok(Naming::Stay);
    }
    if !renewed {
        return Ok(Naming::NoTable);
    }
    build_table(alloc, x, marks, changes)
}
