//! The image with changes, arranged and planned.

ghost use Rattle.std.specs.Prelude.{◌≡◌, false};
ghost use Rattle.elf_object.specs.Object.{is_dirty};
ghost use Rattle.elf_object.specs.Valid.{IsObject};
ghost use Rattle.rebuild_edits.specs.rebuild_select.Steps.{IsRemovable};
ghost use Rattle.rebuild_object.specs.Fitting.{IsArrangementReady};
ghost use Rattle.rebuild_changes.specs.Stated.{HasPlainNames, stated_changes};
ghost use Rattle.rebuild_copy.specs.Changing.{usable_at};
ghost use Rattle.rebuild_copy.specs.Plans.{ChecksIndex, ArrangesChanged, ArrangesUsable, ArrangesHeld, ArrangesReady, ArrangesWithout, ArrangesCopied, StreamsCopied};

use crate::arranging::arrange_again;
use crate::changing::make_changes;
use crate::holding::hold_table;
use elf_outside::Source;
use elf_types::ElfError;
use rebuild_changes::{ChangeLists, CopyFault};
use rebuild_edits::prelude::{Elf, SectionSet, removed_by_name, renews_names};
use rebuild_object::is_ready;
use rebuild_plan::{Arranged, RangedPlan, arrange_rebuilt, plan_arranged};
use std::alloc::Global;

/// Makes the changes of what was gathered, in which the table of the names is held and whose string
/// index is usable, and gives what is not loaded its places.
fn arrange_changed(
    alloc: Global,
    changes: &ChangeLists,
    renewed: bool,
    x: Arranged,
) -> Result<Arranged, CopyFault>
    requires plain { HasPlainNames changes.now }
    ensures { ArrangesChanged (stated_changes changes.now) renewed x result }
{
    let mut x = x;
    match make_changes(alloc, &mut x, changes, renewed) {
        Ok(()) => match arrange_again(alloc, x) {
            Ok(y) => Ok(y),
            Err(e) => Err(CopyFault::Strip(e)),
        },
        Err(fault) => Err(fault),
    }
}

/// Whether a string index among so many sections is usable.
fn is_usable(index: u32, count: u32, renewed: bool) -> bool
    ensures { result ≡ usable_at index count renewed }
{
    if index == 0 { !renewed } else { index < count }
}

/// Rejects a string index that is the number of no section, or 0 where there must be a table of
/// names.
fn check_index(x: &Arranged, renewed: bool) -> Result<(), ElfError>
    ensures { ChecksIndex x.now renewed result }
{
    let index = x.listed.header.shstrndx;
    let count = x.listed.header.shnum;
    if is_usable(index, count, renewed) {
        return Ok(());
    }
    Err(ElfError::NoSection { index, count })
}

/// Makes the changes where the string index is usable.
fn arrange_usable(
    alloc: Global,
    changes: &ChangeLists,
    renewed: bool,
    x: Arranged,
) -> Result<Arranged, CopyFault>
    requires plain { HasPlainNames changes.now }
    ensures { ArrangesUsable (stated_changes changes.now) renewed x result }
{
    match check_index(&x, renewed) {
        Ok(()) => arrange_changed(alloc, changes, renewed, x),
        Err(e) => Err(CopyFault::Strip(e)),
    }
}

/// Holds the table of the names before that.
fn arrange_held<S: Source>(
    alloc: Global,
    elf: &mut Elf<S>,
    changes: &ChangeLists,
    renewed: bool,
    x: Arranged,
) -> Result<Arranged, CopyFault>
    requires plain { HasPlainNames changes.now }
    requires object { IsObject elf.old.o }
    requires ready { IsArrangementReady elf.old.o x }
    ensures { ArrangesHeld S.Source (stated_changes changes.now) renewed x result elf.old elf.new }
{
    let mut x = x;
    match hold_table(alloc, elf, &mut x) {
        Ok(()) => arrange_usable(alloc, changes, renewed, x),
        Err(e) => Err(CopyFault::Strip(e)),
    }
}

/// Looks before that whether an object can be made of it. What can be made of none counts as out of
/// memory.
fn arrange_ready<S: Source>(
    alloc: Global,
    elf: &mut Elf<S>,
    changes: &ChangeLists,
    renewed: bool,
    x: Arranged,
) -> Result<Arranged, CopyFault>
    requires plain { HasPlainNames changes.now }
    requires object { IsObject elf.old.o }
    ensures { ArrangesReady S.Source (stated_changes changes.now) renewed x result
        elf.old elf.new }
{
    if !is_ready(elf, &x) {
        return Err(CopyFault::Strip(ElfError::Memory));
    }
    arrange_held(alloc, elf, changes, renewed, x)
}

/// What is arranged of the image without some sections, and then with the other changes.
fn arrange_without<S: Source>(
    alloc: Global,
    elf: &mut Elf<S>,
    changes: &ChangeLists,
    removed: &SectionSet,
) -> Result<Arranged, CopyFault>
    requires clean { is_dirty elf.old.o ≡ false }
    requires removable { IsRemovable elf.old.o removed.now }
    requires plain { HasPlainNames changes.now }
    ensures { ArrangesWithout S.Source (stated_changes changes.now) removed.now result
        elf.old elf.new }
{
    let _sound = elf.dirty();
    let renewed = renews_names(elf, removed);
    match arrange_rebuilt(alloc, elf, removed) {
        Ok(x) => arrange_ready(alloc, elf, changes, renewed, x),
        Err(e) => Err(CopyFault::Strip(e)),
    }
}

/// What is arranged of an object with changes: without the sections of some names and what goes
/// with them; then with other bytes, other names, other flags and new sections, each kind in turn;
/// and where a name changed with a new table of all names. What is taken as it is is a range of the
/// base, and is not read; the tables, the items that follow, and the bytes of the changes are held.
/// Nothing of the object is dirty, and no name that a section gets holds a NUL byte.
///
/// It fails as `arrange_rebuilt` does, and then as bytes, names, flags and new sections, the table
/// of the names and the places are rejected, in this order; and besides `Memory` and `Read`. Over a
/// source that does not tell its bytes it may reject `NoSection` of the string index that was made.
/// It reads at most the names, what `arrange_rebuilt` reads, and once more the home of the names.
///
/// Source: objcopy(1) of the development tools.
pub fn arrange_copied<S: Source>(
    alloc: Global,
    elf: &mut Elf<S>,
    changes: &ChangeLists,
) -> Result<Arranged, CopyFault>
    requires clean { is_dirty elf.old.o ≡ false }
    requires plain { HasPlainNames changes.now }
    ensures { ArrangesCopied S.Source (stated_changes changes.now) result elf.old elf.new }
{
    match removed_by_name(alloc, elf, &changes.remove) {
        Ok(removed) => arrange_without(alloc, elf, changes, &removed),
        Err(e) => Err(CopyFault::Strip(e)),
    }
}

/// The plan of the file of an object with changes, which an update writes of the object that
/// `copy_of` of elf_copy makes: where each part is, and where its bytes are. What is taken as it is
/// is a range of the base, and is not read; the headers, the tables, the items that follow, and the
/// bytes of the changes are held. Nothing of the object is dirty, and no name that a section gets
/// holds a NUL byte. It fails as `copy_of` does, and then as the update of that object; and besides
/// `Memory` and `Read`. It reads at most the names, what `arrange_rebuilt` reads, and once more the
/// home of the names.
///
/// Source: objcopy(1) of the development tools.
pub fn plan_copied<S: Source>(
    alloc: Global,
    elf: &mut Elf<S>,
    changes: &ChangeLists,
) -> Result<RangedPlan, CopyFault>
    requires clean { is_dirty elf.old.o ≡ false }
    requires plain { HasPlainNames changes.now }
    ensures { StreamsCopied S.Source (stated_changes changes.now) result elf.old elf.new }
{
    let x = match arrange_copied(alloc, elf, changes) {
        Ok(x) => x,
        Err(fault) => return Err(fault),
    };
    match plan_arranged(alloc, elf, x) {
        Ok(plan) => Ok(plan),
        Err(e) => Err(CopyFault::Strip(e)),
    }
}
