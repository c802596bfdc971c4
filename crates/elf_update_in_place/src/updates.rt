//! An update in place.

ghost use Rattle.std.specs.Prelude.{◌≡◌, ◌⊎◌, ◌<◌, true, false, length, IsOk, IfOk, IfErr, OnOk, OnErr};
ghost use Rattle.elf_types.specs.declared.errors.ElfError.TheVariants.{Memory, Read, Write};
ghost use Rattle.elf_object.specs.Object.{is_dirty};
ghost use Rattle.elf_object.specs.Words.{UpdateAnswers};
ghost use Rattle.elf_object.specs.Calls as calls;
ghost use Rattle.elf_update_to.specs.elf_descriptor.Fronts.{HoldsBaseAlone};
ghost use Rattle.elf_update_to.specs.Updates.{IsPlanned};
ghost use Rattle.elf_update_in_place.specs.Moves.Changes.{TellsChanges};
ghost use Rattle.elf_update_in_place.specs.Rooms.{IsTaken};
ghost use Rattle.elf_update_in_place.specs.Updates.{IsToWrite, WritesInPlace, UpdatesInPlace};

use crate::fronts::front_changes;
use crate::loads::load_homes;
use crate::marks::mark_moved;
use crate::moves::{Changes, find_changes};
use crate::rooms::take_memory;
use crate::writes::write_changes;
use elf_outside::{Device, Source};
use elf_types::ElfError;
use elf_update_to::prelude::Elf;
use elf_update_to::{PlannedParts, page_bytes, plan_update};

/// What changes and what moves. It fails with `Memory` alone.
fn changes_of<S: Source>(elf: &Elf<S>, planned: &PlannedParts) -> Result<Changes, ElfError>
    requires { IsPlanned elf.now.o planned.now }
    ensures ok { IfOk result (TellsChanges elf.now.o planned.now) }
    ensures err { IfErr result (λ e. e ≡ Memory) }
{
    find_changes(elf, planned, front_changes(elf, planned))
}

/// Stores the places, reads the homes of what moves, and marks it. It fails with `Read` alone and
/// takes no memory.
fn prepare_writes<D: Device>(
    elf: &mut Elf<D>,
    planned: &PlannedParts,
    changes: &Changes,
) -> Result<(), ElfError>
    requires planned { IsPlanned elf.old.o planned.now }
    requires changes { TellsChanges elf.old.o planned.now changes.now }
    requires taken { IsTaken D.Source changes.now.sections elf.old }
    ensures prepared { OnOk result (IsToWrite D.Source elf.old elf.new) }
    ensures unread { OnErr result
        (WritesInPlace D.Source D.Device.own result elf.old elf.new) }
    ensures err { IfErr result (λ e. e ≡ Read) }
{
    elf.store_places(&planned.places);
    if let Err(e) = load_homes(elf, changes.sections.as_slice()) {
        return Err(e);
    }
    mark_moved(elf, changes.sections.as_slice());
    Ok(())
}

/// Stores the places, reads the homes of what moves, marks it, and writes what changes. It fails
/// with `Read` and `Write` alone and takes no memory.
fn write_planned<D: Device>(
    elf: &mut Elf<D>,
    page: &mut [u8],
    planned: &PlannedParts,
    changes: &Changes,
) -> Result<(), ElfError>
    requires page { 0 < length page.old }
    requires planned { IsPlanned elf.old.o planned.now }
    requires changes { TellsChanges elf.old.o planned.now changes.now }
    requires taken { IsTaken D.Source changes.now.sections elf.old }
    ensures writes { WritesInPlace D.Source D.Device.own result elf.old elf.new }
    ensures err { IfErr result (λ e. (e ≡ Read) ⊎ (e ≡ Write)) }
{
    let _sound = elf.dirty();
    if let Err(e) = prepare_writes(elf, planned, changes) {
        return Err(e);
    }
    write_changes(elf, page, planned, changes.parts.as_slice())
}

/// Writes the image as `write_planned` does, once all memory is taken: nothing is read or written
/// before.
fn write_reserved<D: Device>(
    elf: &mut Elf<D>,
    planned: &PlannedParts,
    changes: &Changes,
) -> Result<(), ElfError>
    requires planned { IsPlanned elf.old.o planned.now }
    requires changes { TellsChanges elf.old.o planned.now changes.now }
    ensures writes { WritesInPlace D.Source D.Device.own result elf.old elf.new }
    ensures err { IfErr result (λ e. (e ≡ Memory) ⊎ ((e ≡ Read) ⊎ (e ≡ Write))) }
{
    let mut page = match page_bytes(elf.alloc()) {
        Ok(page) => page,
        Err(e) => return Err(e),
    };
    if let Err(e) = take_memory(elf, changes.sections.as_slice()) {
        return Err(e);
    }
    write_planned(elf, page.as_mut_slice(), planned, changes)
}

/// An update where something is dirty.
fn update_dirty<D: Device>(elf: &mut Elf<D>) -> Result<u64, ElfError>
    requires { is_dirty elf.old.o ≡ true }
    ensures answer { UpdateAnswers result (calls.update_null.answer elf.old.o) }
    ensures updates { UpdatesInPlace D.Source D.Device.own result elf.old elf.new }
{
    let planned = match plan_update(elf) {
        Ok(planned) => planned,
        Err(e) => return Err(e),
    };
    let changes = match changes_of(elf, &planned) {
        Ok(changes) => changes,
        Err(e) => return Err(e),
    };
    if let Err(e) = write_reserved(elf, &planned, &changes) {
        return Err(e);
    }
    elf.settle();
    Ok(planned.places.end)
}

/// Makes the device the image of the object, and returns the image's length: it writes the parts
/// that are marked, that are elsewhere than before or that have other bytes than before, and the
/// fill between parts. Zeros after the end that the device had are not written: they come by its
/// greater length. Then the object is settled: each section's pieces are joined to one, nothing is
/// marked, nothing is held of the homes, and they are the new ones. Where nothing is dirty it does
/// nothing and rejects nothing, and returns the number of base bytes; then the device holds the
/// base and no more.
///
/// It fails with, in this order, `TooMany`, `Unfit`, `OutOfFile`, `Overlap` and `TooLarge`, and
/// `Memory` in place of a value and of the last two; they leave device and object. All memory is
/// taken and all that is read is read before the first write. After `Read` the device is as before,
/// and the places are stored. After `Write` the device is torn between what it held and the image;
/// the object has the marks by which the call can be repeated.
///
/// Source: elf_update with ELF_C_WRITE of elf(3E).
pub fn update_in_place<D: Device>(elf: &mut Elf<D>) -> Result<u64, ElfError>
    ensures answer { UpdateAnswers result (calls.update_null.answer elf.old.o) }
    ensures clean { is_dirty elf.old.o ≡ false → elf.new ≡ elf.old }
    ensures whole { is_dirty elf.old.o ≡ false → HoldsBaseAlone D.Source elf.new }
    ensures ends { is_dirty elf.old.o ≡ false → IsOk result }
    ensures updates { is_dirty elf.old.o ≡ true
        → UpdatesInPlace D.Source D.Device.own result elf.old elf.new }
{
    if elf.dirty() {
        return update_dirty(elf);
    }
    Ok(elf.base_len())
}
