//! The image without the removed sections: what is kept of it, and its plan.

ghost use Rattle.std.specs.Prelude.{◌≡◌, false, None, IsTrue, length, map};
ghost use Rattle.elf_types.specs.Answers.{first_refusal};
ghost use Rattle.law_rebuild.specs.elf_object.Calls.{newphdr_refusal};
ghost use Rattle.law_rebuild.specs.elf_object.Object.{is_dirty};
ghost use Rattle.law_rebuild.specs.elf_object.Valid.{IsObject, IsTied};
ghost use Rattle.law_rebuild.specs.rebuild_model.Followed.{kept_from_1};
ghost use Rattle.law_rebuild.specs.Strip.Made.{FitsClass};
ghost use Rattle.rebuild_tables.specs.rebuild_select.Steps.{IsRemovable};
ghost use Rattle.rebuild_tables.specs.rebuild_keep.Keepers.{KeepsFor, refusal_by};
ghost use Rattle.rebuild_plan.specs.Contents.{HasContents, IsReadBy, sections_due};
ghost use Rattle.rebuild_plan.specs.Plans.{ArrangesKept, ArrangesRebuilt, StreamsRebuilt, stream_due};

use crate::arranged::Arranged;
use crate::checks::{check_last, check_segments};
use crate::contents::Contents;
use crate::keeping::keep_contents;
use crate::planning::{arrange_contents, plan_arranged};
use crate::plans::RangedPlan;
use elf_outside::Source;
use elf_types::ElfError;
use rebuild_tables::prelude::{Elf, Keeper, SectionSet, keep_sections, kept_numbers, tail_of};
use std::alloc::Global;

/// What was kept, arranged, where no section was rejected.
fn arrange_kept<S: Source>(
    alloc: Global,
    keeper: &Keeper<'_>,
    elf: &Elf<S>,
    contents: Contents,
) -> Result<Arranged, ElfError>
    requires object { IsObject elf.now.o }
    requires clean { is_dirty elf.now.o ≡ false }
    requires fits { IsTrue elf.now.told → FitsClass elf.now.o }
    requires removable { IsRemovable elf.now.o keeper.now.removed.now }
    requires keeps { KeepsFor elf.now.told elf.now.o keeper.now }
    requires contents { HasContents keeper.now elf.now contents }
    requires read { IsReadBy keeper.now elf.now.o contents }
    requires segments { newphdr_refusal (length elf.now.o.phdrs) ≡ None }
    requires sections { first_refusal (map (refusal_by keeper.now elf.now.o)
        (kept_from_1 elf.now.o keeper.now.removed.now)) ≡ None }
    ensures { ArrangesKept elf.now keeper.now.removed.now result }
{
    let index = keeper.numbering.followed(elf.shstrndx());
    let count = contents.headers.len() as u32;
    match check_last(&keeper.names, index, count) {
        Ok(()) => {
            let tail = tail_of(elf, keeper.removed);
            arrange_contents(alloc, elf, contents, index, tail)
        }
        Err(e) => Err(e),
    }
}

/// What a keeper keeps, arranged.
fn arrange_by<S: Source>(
    alloc: Global,
    keeper: &Keeper<'_>,
    elf: &mut Elf<S>,
    numbers: &[u32],
) -> Result<Arranged, ElfError>
    requires object { IsObject elf.old.o }
    requires clean { is_dirty elf.old.o ≡ false }
    requires tied { IsTrue elf.old.told → IsTied elf.old.o }
    requires fits { IsTrue elf.old.told → FitsClass elf.old.o }
    requires removable { IsRemovable elf.old.o keeper.now.removed.now }
    requires keeps { KeepsFor elf.old.told elf.old.o keeper.now }
    requires numbers { numbers.now ≡ kept_from_1 elf.old.o keeper.now.removed.now }
    ensures { ArrangesRebuilt S.Source keeper.now.removed.now result
        (sections_due keeper.now elf.old.o numbers.now) elf.old elf.new }
{
    if let Err(e) = check_segments(elf.phnum()) {
        return Err(e);
    }
    match keep_contents(alloc, keeper, elf, numbers) {
        Ok(contents) => arrange_kept(alloc, keeper, elf, contents),
        Err(e) => Err(e),
    }
}

/// What is kept of an object without the removed sections, with its places: a section that is taken
/// as it is is a range of the base, and is not read; the items that follow are held in their file
/// form. Nothing of the object is dirty, and only sections are removed that may be. It fails as
/// `rebuild` of rebuild_object, and `Memory` and `Read`. It reads at most the names, and the homes of
/// the sections whose items follow, that of a symbol table once more for its extended indexes.
///
/// Source: strip(1) of the development tools; gABI chapters 4 and 5.
pub fn arrange_rebuilt<S: Source>(
    alloc: Global,
    elf: &mut Elf<S>,
    removed: &SectionSet,
) -> Result<Arranged, ElfError>
    requires clean { is_dirty elf.old.o ≡ false }
    requires removable { IsRemovable elf.old.o removed.now }
    ensures { ArrangesRebuilt S.Source removed.now result (stream_due elf.old.o removed.now)
        elf.old elf.new }
{
    let _sound = elf.dirty();
    let keeper = match keep_sections(alloc, elf, removed) {
        Ok(keeper) => keeper,
        Err(e) => return Err(e),
    };
    match kept_numbers(alloc, elf, removed) {
        Ok(numbers) => arrange_by(alloc, &keeper, elf, numbers.as_slice()),
        Err(e) => Err(e),
    }
}

/// The plan of the file of an object without the removed sections, which an update writes of the
/// object that is rebuilt: where each part is, and where its bytes are. A section that is taken as
/// it is is a range of the base, and is not read; the headers, the tables, and the items that
/// follow are held in their file form. Nothing of the object is dirty, and only sections are
/// removed that may be. It fails as `arrange_rebuilt` does, and then as the update of that object;
/// and `Memory` and `Read`. It reads what `arrange_rebuilt` reads.
///
/// Source: strip(1) of the development tools; gABI chapters 4 and 5.
pub fn plan_rebuilt<S: Source>(
    alloc: Global,
    elf: &mut Elf<S>,
    removed: &SectionSet,
) -> Result<RangedPlan, ElfError>
    requires clean { is_dirty elf.old.o ≡ false }
    requires removable { IsRemovable elf.old.o removed.now }
    ensures { StreamsRebuilt S.Source removed.now result (stream_due elf.old.o removed.now)
        elf.old elf.new }
{
    match arrange_rebuilt(alloc, elf, removed) {
        Ok(x) => plan_arranged(alloc, elf, x),
        Err(e) => Err(e),
    }
}
