//! Where an update in place writes: the extents of what is written, by their places.

ghost use Rattle.std.specs.Prelude.{◌≡◌, ◌+◌, ◌++◌, ◌^◌, ◌<◌, map, OnOk, IfOk, IfErr};
ghost use Rattle.elf_types.specs.declared.errors.ElfError.TheVariants.{Memory};
ghost use Rattle.elf_update_to.specs.Updates.{IsPlanned};
ghost use Rattle.elf_update_in_place.specs.Moves.Written.{part_changed, written_line};
ghost use Rattle.elf_update_in_place.specs.Moves.Extents.{some_extent, row_extents, block_extents};

use elf_outside::Source;
use elf_types::{ElfError, List};
use elf_update_to::prelude::Elf;
use elf_update_to::{PlannedParts, ground_of};

/// The places from one on and before another.
#[derive(Clone, Copy, Debug, PartialEq, Eq)]
pub struct Extent {
    /// The first place.
    pub at: u64,
    /// The place after the last one.
    pub end: u64,
}

/// Appends an extent, unless it is empty. It fails with `Memory` alone.
fn push_extent(extents: &mut List<Extent>, at: u64, end: u64) -> Result<(), ElfError>
    ensures ok { OnOk result (extents.new ≡ extents.old ++ some_extent at end) }
    ensures err { IfErr result (λ e. e ≡ Memory) }
{
    if at >= end {
        return Ok(());
    }
    extents.push(Extent { at, end })
}

/// Appends the fill from a place on before a part, and the part where it changes. It fails with
/// `Memory` alone.
fn push_row(
    extents: &mut List<Extent>,
    start: u64,
    changed: bool,
    at: u64,
    end: u64,
) -> Result<(), ElfError>
    ensures ok { OnOk result (extents.new ≡ extents.old ++ row_extents start changed at end) }
    ensures err { IfErr result (λ e. e ≡ Memory) }
{
    if let Err(e) = push_extent(extents, start, at) {
        return Err(e);
    }
    if !changed {
        return Ok(());
    }
    push_extent(extents, at, end)
}

/// The extents of what an update in place writes that are not empty, by their places. It fails with
/// `Memory` alone and reads nothing.
pub(crate) fn written_extents<S: Source>(
    elf: &Elf<S>,
    planned: &PlannedParts,
    changed: &[bool],
) -> Result<List<Extent>, ElfError>
    requires planned { IsPlanned elf.now.o planned.now }
    requires changed { changed.now ≡ map (λ p. part_changed elf.now.o p.part) planned.now.parts }
    ensures ok { IfOk result (λ extents. extents ≡ block_extents (written_line elf.now.o)) }
    ensures err { IfErr result (λ e. e ≡ Memory) }
{
    let kept = ground_of(elf).kept;
    let parts = planned.parts.as_slice();
    let mut extents = List::new(elf.alloc());
    let mut from: u64 = 0;
    for i in 0..parts.len() {
        let part = parts[i];
        let end = part.at + part.len;
        if let Err(e) = push_row(&mut extents, from.max(kept), changed[i], part.at, end) {
            return Err(e);
        }
        from = end;
    }
    if let Err(e) = push_extent(&mut extents, from.max(kept), planned.places.end) {
        return Err(e);
    }
    Ok(extents)
}
