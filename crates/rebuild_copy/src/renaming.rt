//! Sections get other names, of which marks are kept.

ghost use Rattle.std.specs.Prelude.{◌≡◌, ◌&&◌, ◌||◌, ◌==◌, not, ℕ, List, All, length, map, slice_set, true, Some, OnOk, IfOk, IfErr};
ghost use Rattle.std.specs.Str.{bytes_eq};
ghost use Rattle.std.proofs.Math.ListN.{replicate};
ghost use Rattle.elf_types.specs.declared.errors.ElfError.TheVariants.{Memory};
ghost use Rattle.elf_object.specs.Object.{Object};
ghost use Rattle.elf_object.specs.Sections.{in_turn};
ghost use Rattle.rebuild_model.specs.Copied.{names_in, with_name};
ghost use Rattle.rebuild_select.specs.Sought.Names.{is_sought};
ghost use Rattle.rebuild_select.specs.Sought.Rows.{stands_under};
ghost use Rattle.rebuild_changes.specs.declared.changes.NameBytes.{NameBytes as TheNameBytes};
ghost use Rattle.rebuild_changes.specs.declared.faults.CopyFault.TheVariants as faults;
ghost use Rattle.rebuild_changes.specs.Stated.{bytes_pair, IsWithoutDeviceFault};
ghost use Rattle.rebuild_edits.specs.Edits.Names.{new_name, names_now};
ghost use Rattle.rebuild_edits.specs.Edits.Steps.{Finds};
ghost use Rattle.rebuild_copy.specs.Rows.{Origin, IsContents};
ghost use Rattle.rebuild_copy.specs.Steps.{known};
ghost use Rattle.rebuild_copy.specs.Indexes.{IsIndexOf, RenamesTo};

use crate::finding::find_named;
use elf_types::List;
use rebuild_changes::{CopyFault, NameBytes};
use rebuild_edits::{no_marks, set_mark};
use rebuild_plan::Arranged;
use rebuild_select::sought::NameIndex;
use std::alloc::Global;

/// Gives a section that is under the old name of a change its mark, and puts it under the new one.
/// It fails for lack of memory alone.
fn move_section<'a>(
    change: &'a NameBytes,
    s: u32,
    mark: u64,
    marks: &mut List<u64>,
    index: &mut NameIndex<'a>,
) -> Result<(), CopyFault>
    ensures sought { index.new.sought ≡ index.old.sought }
    ensures long { length marks.new ≡ length marks.old }
    ensures marked { OnOk result (marks.new ≡ slice_set marks.old s mark) }
    ensures moved { OnOk result ((q : List ℕ) (t : ℕ) → is_sought index.old.sought q ≡ true
        → stands_under index.new q t ≡ ((bytes_eq change.now.bytes q && s == t)
        || (not (bytes_eq change.now.name q && s == t) && stands_under index.old q t))) }
    ensures err { IfErr result (λ fault. fault ≡ faults.Strip Memory) }
{
    index.remove(change.name.as_slice(), s);
    match index.put(change.bytes.as_slice(), s) {
        Ok(()) => {
            set_mark(marks, s, mark);
            Ok(())
        }
        Err(e) => Err(CopyFault::Strip(e)),
    }
}

/// Gives the first section of a name the new name that a mark stands for.
fn rename_section<'a>(
    alloc: Global,
    change: &'a NameBytes,
    mark: u64,
    marks: &mut List<u64>,
    index: &mut NameIndex<'a>,
) -> Result<(), CopyFault>
    requires { is_sought index.old.sought change.now.name ≡ true }
    ensures sought { index.new.sought ≡ index.old.sought }
    ensures long { length marks.new ≡ length marks.old }
    ensures renames { (p : Object) (renames : List TheNameBytes)
        → length marks.old ≡ length p.sections → new_name renames mark ≡ Some change.now.bytes
        → IsIndexOf index.old (names_now p marks.old renames)
        → RenamesTo p renames (with_name (names_now p marks.old renames) (bytes_pair change.now))
        result marks.new index.new }
    ensures unread { IsWithoutDeviceFault result }
{
    match find_named(alloc, index, &change.name) {
        Ok(s) => move_section(change, s, mark, marks, index),
        Err(fault) => Err(fault),
    }
}

/// Gives the first section of each name, in turn, its new name.
fn fill_marks<'a>(
    alloc: Global,
    renames: &'a List<NameBytes>,
    marks: &mut List<u64>,
    index: &mut NameIndex<'a>,
) -> Result<(), CopyFault>
    requires { All (λ n. is_sought index.old.sought n.name ≡ true) renames.now }
    ensures sought { index.new.sought ≡ index.old.sought }
    ensures renames { (p : Object) → marks.old ≡ replicate (length p.sections) 0
        → IsIndexOf index.old (names_in p)
        → RenamesTo p renames.now (in_turn with_name (names_in p) (map bytes_pair renames.now))
        result marks.new index.new }
    ensures unread { IsWithoutDeviceFault result }
{
    for i in 0..renames.len() {
        let change = &renames.as_slice()[i as usize];
        match rename_section(alloc, change, i + 1, marks, index) {
            Ok(()) => {}
            Err(fault) => return Err(fault),
        }
    }
    Ok(())
}

/// The marks of the sections after the first section of each name, in turn, got the new name that
/// is beside it; the index has them by their new names then. Nothing is stored of the names:
/// `names_now` are those that the sections have by these marks. It fails with `NoSection` of a name
/// that no section has by then, and where memory runs out.
///
/// Source: objcopy(1) of the development tools, `--rename-section`.
pub(crate) fn rename_sections<'a>(
    alloc: Global,
    x: &Arranged,
    renames: &'a List<NameBytes>,
    index: &mut NameIndex<'a>,
) -> Result<List<u64>, CopyFault>
    requires sought { All (λ n. is_sought index.old.sought n.name ≡ true) renames.now }
    requires index { (o : Origin) (p : Object) → IsContents o p x.now
        → IsIndexOf index.old (names_in p) }
    ensures sought { index.new.sought ≡ index.old.sought }
    ensures renames { (o : Origin) (p : Object) → IsContents o p x.now
        → Finds (λ marks. names_now p marks renames.now)
        (in_turn with_name (names_in p) (map bytes_pair renames.now))
        result (known p) (known p) }
    ensures index { (o : Origin) (p : Object) → IsContents o p x.now
        → IfOk result (λ marks. IsIndexOf index.new (names_now p marks renames.now)) }
    ensures unread { IsWithoutDeviceFault result }
{
    let mut marks = match no_marks(alloc, x.listed.header.shnum) {
        Ok(marks) => marks,
        Err(e) => return Err(CopyFault::Strip(e)),
    };
    match fill_marks(alloc, renames, &mut marks, index) {
        Ok(()) => Ok(marks),
        Err(fault) => Err(fault),
    }
}
