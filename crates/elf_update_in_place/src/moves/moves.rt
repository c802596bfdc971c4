//! Which sections move: those that change, and those whose homes an update in place writes over or
//! cuts.

ghost use Rattle.std.specs.Prelude.{◌≡◌, ◌<◌, length, map, IfOk, IfErr};
ghost use Rattle.std.specs.List.{range_with_len};
ghost use Rattle.elf_types.specs.declared.errors.ElfError.TheVariants.{Memory};
ghost use Rattle.elf_update_to.specs.elf_object.Object.{section_at};
ghost use Rattle.elf_update_to.specs.elf_object.Changed.{is_disturbed, is_moved};
ghost use Rattle.elf_update_to.specs.Updates.{IsPlanned};
ghost use Rattle.elf_update_in_place.specs.Moves.Written.{written_line};
ghost use Rattle.elf_update_in_place.specs.Moves.Extents.{block_extents};

use crate::moves::extents::Extent;
use crate::moves::meeting::{is_below_end, meets};
use crate::moves::sections::section_changes;
use elf_outside::Source;
use elf_types::{ElfError, List};
use elf_update_to::PlannedParts;
use elf_update_to::prelude::{Elf, home_extent};

/// Whether the home of a section that is there meets what is written, or passes the new end.
fn home_is_disturbed<S: Source>(
    elf: &Elf<S>,
    planned: &PlannedParts,
    extents: &[Extent],
    s: u32,
) -> bool
    requires planned { IsPlanned elf.now.o planned.now }
    requires written { extents.now ≡ block_extents (written_line elf.now.o) }
    requires there { s < length elf.now.o.sections }
    ensures { result ≡ is_disturbed elf.now.o (section_at elf.now.o s).home }
{
    let home = home_extent(elf, s);
    if meets(extents, home.0, home.1) {
        return true;
    }
    home.1 > 0 && is_below_end(planned.places.end, home.0, home.1)
}

/// Whether a section that is there moves.
#[tactic(auto, unfolding(elf_update_to::specs::Passed::is_moved))]
fn section_moves<S: Source>(
    elf: &Elf<S>,
    planned: &PlannedParts,
    extents: &[Extent],
    s: u32,
) -> bool
    requires planned { IsPlanned elf.now.o planned.now }
    requires written { extents.now ≡ block_extents (written_line elf.now.o) }
    requires there { s < length elf.now.o.sections }
    ensures { result ≡ is_moved elf.now.o s }
{
    section_changes(elf, planned, s) || home_is_disturbed(elf, planned, extents, s)
}

/// Of each section, whether it moves. It fails with `Memory` alone and reads nothing.
pub(crate) fn list_moves<S: Source>(
    elf: &Elf<S>,
    planned: &PlannedParts,
    extents: &[Extent],
) -> Result<List<bool>, ElfError>
    requires planned { IsPlanned elf.now.o planned.now }
    requires written { extents.now ≡ block_extents (written_line elf.now.o) }
    ensures ok { IfOk result (λ moves. moves
        ≡ map (is_moved elf.now.o) (range_with_len 0 (length elf.now.o.sections))) }
    ensures err { IfErr result (λ e. e ≡ Memory) }
{
    let count = elf.shnum();
    let mut moves = match List::with_capacity(elf.alloc(), count as u64) {
        Ok(moves) => moves,
        Err(e) => return Err(e),
    };
    for s in 0..count {
        if let Err(e) = moves.push(section_moves(elf, planned, extents, s)) {
            return Err(e);
        }
    }
    Ok(moves)
}
