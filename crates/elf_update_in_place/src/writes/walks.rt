//! The walk over the plan of an image: the parts that change, and the fill between the parts.

ghost use Rattle.std.specs.Prelude.{◌≡◌, ℕ, ◌+◌, ◌-◌, ◌^◌, ◌≤◌, ◌<◌, max, true, [], ◌∷◌, length, All};
ghost use Rattle.elf_update_to.specs.elf_object.Changed.{when};
ghost use Rattle.elf_update_to.specs.law_object.Writing.Lines.{AreInLine};
ghost use Rattle.elf_update_to.specs.law_object.Writing.Plan.{fill_block};
ghost use Rattle.elf_update_to.specs.elf_descriptor.Fronts.{HoldsBase};
ghost use Rattle.elf_update_to.specs.Pieces.{block_at, blocks_at, HasLength};
ghost use Rattle.elf_update_to.specs.Descriptors.{HasStoredPlaces, stored_pieces};
ghost use Rattle.elf_update_in_place.specs.Writes.Overwrites.{NeedsNoRead, MayOverwrite};
ghost use Rattle.elf_update_in_place.specs.Writes.Walks.{put_end, put_blocks, NeedNoRead, MayPutAll, PutsAll};

use crate::writes::fills::write_fill;
use crate::writes::pieces::write_part;
use elf_layout::PartAt;
use elf_outside::Device;
use elf_types::ElfError;
use elf_update_to::Ground;
use elf_update_to::prelude::Elf;

/// Where the fill that is put ends, of a gap that ends at a place: zeros are put up to the old end
/// of the device alone, since after it there are zeros.
fn fill_end(fill: u8, old_end: u64, end: u64) -> u64
    ensures { result ≡ put_end fill old_end end }
{
    if fill == 0 {
        return end.min(old_end);
    }
    end
}

/// Puts the fill of the gap from one place to another: what lies after the bytes of the base that
/// count. Zeros after the old end of the device are there already.
fn write_gap<D: Device>(
    elf: &mut Elf<D>,
    page: &mut [u8],
    ground: Ground,
    from: u64,
    end: u64,
    old_end: u64,
) -> Result<(), ElfError>
    requires room { 0 < length page.old }
    requires may { MayOverwrite D.Source elf.old (max from ground.kept)
        (end - max from ground.kept) }
    ensures puts { PutsAll D.Source D.Device.own old_end result elf.old elf.new
        (fill_block ground.kept ground.fill from end ∷ []) }
    ensures page { length page.new ≡ length page.old }
{
    let start = from.max(ground.kept);
    let stop = fill_end(ground.fill, old_end, end);
    write_fill(elf, page, start, stop.saturating_sub(start), ground.fill)
}

/// Puts a part where it changes.
fn write_changed<D: Device>(
    elf: &mut Elf<D>,
    page: &mut [u8],
    part: PartAt,
    changes: bool,
    fill: u8,
) -> Result<(), ElfError>
    requires room { 0 < length page.old }
    requires base { HoldsBase D.Source elf.old }
    requires stored { HasStoredPlaces elf.old.o }
    requires held { changes ≡ true → NeedsNoRead elf.old part.part }
    requires long { HasLength (stored_pieces elf.old.o) part }
    requires small { part.at + part.len < 2 ^ 64 }
    requires may { changes ≡ true → MayOverwrite D.Source elf.old part.at part.len }
    ensures puts { (old_end : ℕ) → PutsAll D.Source D.Device.own old_end result elf.old elf.new
        (when changes (block_at fill (stored_pieces elf.old.o) part)) }
    ensures page { length page.new ≡ length page.old }
{
    if !changes {
        return Ok(());
    }
    write_part(elf, page, part, fill)
}

/// Puts the parts of a plan that change over the device, each where it is, and the fill between the
/// parts. What the device held before it was lengthened ended by the place `old_end`, and zeros are
/// put up to there alone. The parts that change are in memory. It fails with `Write` alone, reads
/// nothing and takes no memory.
pub fn write_parts<D: Device>(
    elf: &mut Elf<D>,
    page: &mut [u8],
    plan: &[PartAt],
    changed: &[bool],
    ground: Ground,
    end: u64,
    old_end: u64,
) -> Result<(), ElfError>
    requires room { 0 < length page.old }
    requires stored { HasStoredPlaces elf.old.o }
    requires held { NeedNoRead elf.old plan.now changed.now }
    requires count { length changed.now ≡ length plan.now }
    requires long { All (HasLength (stored_pieces elf.old.o)) plan.now }
    requires line { AreInLine end 0 (blocks_at ground.fill (stored_pieces elf.old.o) plan.now) }
    requires may { MayPutAll D.Source elf.old
        (put_blocks ground.kept ground.fill end (stored_pieces elf.old.o) plan.now changed.now) }
    ensures { PutsAll D.Source D.Device.own old_end result elf.old elf.new
        (put_blocks ground.kept ground.fill end (stored_pieces elf.old.o) plan.now changed.now) }
{
    let mut from = 0;
    for i in 0..plan.len() {
        let part = plan[i];
        if let Err(e) = write_gap(elf, page, ground, from, part.at, old_end) {
            return Err(e);
        }
        let _object = elf.dirty();
        if let Err(e) = write_changed(elf, page, part, changed[i], ground.fill) {
            return Err(e);
        }
        from = part.at + part.len;
    }
    write_gap(elf, page, ground, from, end, old_end)
}
