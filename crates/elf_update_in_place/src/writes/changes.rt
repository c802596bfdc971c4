//! What changes is written.

ghost use Rattle.std.specs.Prelude.{◌≡◌, ◌<◌, ◌≤◌, length};
ghost use Rattle.elf_update_to.specs.elf_object.Image.{image_length};
ghost use Rattle.elf_update_in_place.specs.Moves.Written.{written_line};
ghost use Rattle.elf_update_in_place.specs.Writes.Walks.{PutsAll};
ghost use Rattle.elf_update_in_place.specs.Writes.Writes.{IsMarkedAndLoaded, WritesChanges};

use crate::writes::walks::write_parts;
use elf_outside::Device;
use elf_types::ElfError;
use elf_update_to::prelude::Elf;
use elf_update_to::{PlannedParts, ground_of};

/// Puts what changes over a device that is at least as long as the image. What it held before it
/// was lengthened ended by the place `old_end`.
fn write_over<D: Device>(
    elf: &mut Elf<D>,
    page: &mut [u8],
    planned: &PlannedParts,
    changed: &[bool],
    end: u64,
    old_end: u64,
) -> Result<(), ElfError>
    requires room { 0 < length page.old }
    requires begun { IsMarkedAndLoaded D.Source planned.now changed.now elf.old }
    requires end { end ≡ planned.now.places.end }
    requires fits { end ≤ D.size elf.old.source }
    ensures { (b : IsMarkedAndLoaded D.Source planned.now changed.now elf.old)
        → PutsAll D.Source D.Device.own old_end result elf.old elf.new (written_line b.was) }
{
    let _object = elf.dirty();
    let ground = ground_of(elf);
    write_parts(
        elf,
        page,
        planned.parts.as_slice(),
        changed,
        ground,
        end,
        old_end,
    )
}

/// Lengthens the device, which ends at the place `old_end`, to the length of the image, and puts
/// what changes over it.
fn write_longer<D: Device>(
    elf: &mut Elf<D>,
    page: &mut [u8],
    planned: &PlannedParts,
    changed: &[bool],
    old_end: u64,
) -> Result<(), ElfError>
    requires room { 0 < length page.old }
    requires ends { old_end ≡ D.size elf.old.source }
    requires begun { IsMarkedAndLoaded D.Source planned.now changed.now elf.old }
    requires grows { length elf.old.o.base < planned.now.places.end }
    ensures { (b : IsMarkedAndLoaded D.Source planned.now changed.now elf.old)
        → WritesChanges D.Source D.Device.own b.was result elf.old elf.new }
{
    let end = planned.places.end;
    if let Err(e) = elf.size_base(end) {
        return Err(e);
    }
    write_over(elf, page, planned, changed, end, old_end)
}

/// Puts what changes over the device, which ends at the place `old_end`, and cuts it to the length
/// of the image.
fn write_shorter<D: Device>(
    elf: &mut Elf<D>,
    page: &mut [u8],
    planned: &PlannedParts,
    changed: &[bool],
    old_end: u64,
) -> Result<(), ElfError>
    requires room { 0 < length page.old }
    requires ends { old_end ≡ D.size elf.old.source }
    requires begun { IsMarkedAndLoaded D.Source planned.now changed.now elf.old }
    requires fits { planned.now.places.end ≤ length elf.old.o.base }
    ensures { (b : IsMarkedAndLoaded D.Source planned.now changed.now elf.old)
        → WritesChanges D.Source D.Device.own b.was result elf.old elf.new }
{
    let _object = elf.dirty();
    let end = planned.places.end;
    if let Err(e) = write_over(elf, page, planned, changed, end, old_end) {
        return Err(e);
    }
    elf.size_base(end)
}

/// Writes what changes over the device that the object is over: the parts that change and the fill
/// between parts, in the order of their places. A device that gets longer is lengthened first, so
/// zeros after its old end are not written; and one that gets shorter is cut last. It fails with
/// `Write` alone; then the device is torn between what it held and the image, and the object is
/// torn over what is there of its base. It reads nothing and takes no memory.
///
/// Source: elf_update with ELF_C_WRITE of elf(3E).
pub fn write_changes<D: Device>(
    elf: &mut Elf<D>,
    page: &mut [u8],
    planned: &PlannedParts,
    changed: &[bool],
) -> Result<(), ElfError>
    requires room { 0 < length page.old }
    requires begun { IsMarkedAndLoaded D.Source planned.now changed.now elf.old }
    ensures { (b : IsMarkedAndLoaded D.Source planned.now changed.now elf.old)
        → WritesChanges D.Source D.Device.own b.was result elf.old elf.new }
{
    let old_end = elf.source_len();
    if elf.base_len() < planned.places.end {
        return write_longer(elf, page, planned, changed, old_end);
    }
    write_shorter(elf, page, planned, changed, old_end)
}
