//! The changes of an image that was gathered, from the last one back.

ghost use Rattle.std.specs.Prelude.{◌≡◌, All, true, Err};
ghost use Rattle.elf_object.specs.Object.{Object};
ghost use Rattle.rebuild_model.specs.Copied.{names_in, with_changes};
ghost use Rattle.rebuild_select.specs.Sought.Names.{is_sought};
ghost use Rattle.rebuild_changes.specs.Stated.{HasPlainNames, stated_changes};
ghost use Rattle.rebuild_edits.specs.Edits.Names.{names_now};
ghost use Rattle.rebuild_edits.specs.Stores.{HasNameTable};
ghost use Rattle.rebuild_copy.specs.Changing.{added_named, flagged_named, after_names, after_updates};
ghost use Rattle.rebuild_copy.specs.Rows.{Origin, IsContents};
ghost use Rattle.rebuild_copy.specs.Steps.{AltersContents, IsUsableIf};
ghost use Rattle.rebuild_copy.specs.Indexes.{IsIndexOf};

use crate::adding::add_sections;
use crate::flags::flag_sections;
use crate::indexing::{index_names, seek_names};
use crate::naming::plan_names;
use crate::renaming::rename_sections;
use crate::storing::store_names;
use crate::updating::update_sections;
use elf_types::List;
use rebuild_changes::{ChangeLists, CopyFault};
use rebuild_edits::Naming;
use rebuild_plan::Arranged;
use rebuild_select::sought::{NameIndex, NameSet};
use std::alloc::Global;

/// A fault in place of names, which are dropped.
fn refuse_names(_naming: Naming, fault: CopyFault) -> Result<(), CopyFault>
    ensures { result ≡ Err fault }
{
    Err(fault)
}

/// Adds sections, and then stores what becomes of the names.
fn add_and_name(x: &mut Arranged, changes: &ChangeLists, naming: Naming) -> Result<(), CopyFault>
    ensures { AltersContents (HasNameTable naming) (added_named (stated_changes changes.now) naming)
        result x.old x.new }
{
    match add_sections(x, changes.add.as_slice()) {
        Ok(()) => store_names(x, naming),
        Err(fault) => refuse_names(naming, fault),
    }
}

/// Gives sections other flags before that.
fn flag_and_add<'a>(
    alloc: Global,
    x: &mut Arranged,
    marks: &List<u64>,
    index: &NameIndex<'a>,
    changes: &'a ChangeLists,
    naming: Naming,
) -> Result<(), CopyFault>
    requires sought { All (λ n. is_sought index.now.sought n.name ≡ true) changes.now.flags }
    requires index { (o : Origin) (p : Object) → IsContents o p x.old
        → IsIndexOf index.now (names_now p marks.now changes.now.rename) }
    ensures { AltersContents (HasNameTable naming) (λ p. flagged_named (stated_changes changes.now)
        (names_now p marks.now changes.now.rename) naming p) result x.old x.new }
{
    match flag_sections(alloc, x, index, changes.flags.as_slice()) {
        Ok(()) => add_and_name(x, changes, naming),
        Err(fault) => refuse_names(naming, fault),
    }
}

/// Works out before that what becomes of the names, which are those by the marks.
fn plan_and_flag<'a>(
    alloc: Global,
    x: &mut Arranged,
    marks: &List<u64>,
    index: &NameIndex<'a>,
    changes: &'a ChangeLists,
    renewed: bool,
) -> Result<(), CopyFault>
    requires plain { HasPlainNames changes.now }
    requires sought { All (λ n. is_sought index.now.sought n.name ≡ true) changes.now.flags }
    requires index { (o : Origin) (p : Object) → IsContents o p x.old
        → IsIndexOf index.now (names_now p marks.now changes.now.rename) }
    ensures { AltersContents (IsUsableIf renewed) (λ p. after_names (stated_changes changes.now)
        renewed p (names_now p marks.now changes.now.rename)) result x.old x.new }
{
    match plan_names(alloc, x, marks, changes, renewed) {
        Ok(naming) => flag_and_add(alloc, x, marks, index, changes, naming),
        Err(e) => Err(CopyFault::Strip(e)),
    }
}

/// Gives sections other names before that, by an index of those that have the names.
fn rename_by<'a>(
    alloc: Global,
    x: &mut Arranged,
    index: &mut NameIndex<'a>,
    changes: &'a ChangeLists,
    renewed: bool,
) -> Result<(), CopyFault>
    requires plain { HasPlainNames changes.now }
    requires renamed { All (λ n. is_sought index.old.sought n.name ≡ true) changes.now.rename }
    requires flagged { All (λ n. is_sought index.old.sought n.name ≡ true) changes.now.flags }
    requires index { (o : Origin) (p : Object) → IsContents o p x.old
        → IsIndexOf index.old (names_in p) }
    ensures { AltersContents (IsUsableIf renewed)
        (after_updates (stated_changes changes.now) renewed) result x.old x.new }
{
    match rename_sections(alloc, x, &changes.rename, index) {
        Ok(marks) => plan_and_flag(alloc, x, &marks, index, changes, renewed),
        Err(fault) => Err(fault),
    }
}

/// Gives sections other names, by an index that is made of the names that are looked for.
fn index_and_rename<'a>(
    alloc: Global,
    x: &mut Arranged,
    sought: NameSet<'a>,
    changes: &'a ChangeLists,
    renewed: bool,
) -> Result<(), CopyFault>
    requires plain { HasPlainNames changes.now }
    requires renamed { All (λ n. is_sought sought n.name ≡ true) changes.now.rename }
    requires flagged { All (λ n. is_sought sought n.name ≡ true) changes.now.flags }
    ensures { AltersContents (IsUsableIf renewed)
        (after_updates (stated_changes changes.now) renewed) result x.old x.new }
{
    match index_names(alloc, x, sought) {
        Ok(mut index) => rename_by(alloc, x, &mut index, changes, renewed),
        Err(e) => Err(CopyFault::Strip(e)),
    }
}

/// Gives sections other names, by the names that are looked for.
fn rename_and_plan(
    alloc: Global,
    x: &mut Arranged,
    changes: &ChangeLists,
    renewed: bool,
) -> Result<(), CopyFault>
    requires plain { HasPlainNames changes.now }
    ensures { AltersContents (IsUsableIf renewed)
        (after_updates (stated_changes changes.now) renewed) result x.old x.new }
{
    match seek_names(alloc, changes) {
        Ok(sought) => index_and_rename(alloc, x, sought, changes, renewed),
        Err(e) => Err(CopyFault::Strip(e)),
    }
}

/// Makes all changes of an image that was gathered, whose string index is usable. `renewed` says
/// whether it has a table of its own for the names of its sections. It fails as `update_sections`,
/// `rename_sections`, `flag_sections`, `add_sections` and `store_names`, in this order; and where
/// memory runs out. What a refusal leaves is not stated.
pub(crate) fn make_changes(
    alloc: Global,
    x: &mut Arranged,
    changes: &ChangeLists,
    renewed: bool,
) -> Result<(), CopyFault>
    requires plain { HasPlainNames changes.now }
    ensures { AltersContents (IsUsableIf renewed)
        (with_changes (stated_changes changes.now) renewed) result x.old x.new }
{
    match update_sections(alloc, x, changes.update.as_slice()) {
        Ok(()) => rename_and_plan(alloc, x, changes, renewed),
        Err(fault) => Err(fault),
    }
}
