//! The plan of an image: its parts that are not empty, by their places.

ghost use Rattle.std.specs.Prelude.{◌≡◌, ◌<◌, ℕ, All, length, map, slice_index_or, slice_set, IfOk, IfErr};
ghost use Rattle.elf_types.specs.declared.errors.ElfError.TheVariants.{Memory};
ghost use Rattle.elf_descriptor.specs.elf_layout.Layout.{positions, standing};
ghost use Rattle.elf_descriptor.specs.elf_layout.Meeting.{ranks_by_position};
ghost use Rattle.elf_descriptor.specs.elf_object.Object.{is_dirty};
ghost use Rattle.elf_descriptor.specs.elf_object.Layout.{placed_parts, places_of};
ghost use Rattle.elf_update_plan.specs.Plans.{no_part, part_of_rank, stand_at};

use elf_descriptor::prelude::{PartAt, Parts, Places, ranks_by_position};
use elf_types::{ElfError, List};
use std::alloc::Global;

/// Puts a part that is there at another place.
fn stand_one(parts: &mut Parts, i: usize, at: u64)
    requires { i < length parts.old }
    ensures { parts.new ≡ slice_set parts.old i
        (record (slice_index_or parts.old i no_part) { at = at }) }
{
    let part = parts.as_slice()[i];
    parts.as_mut_slice()[i] = PartAt { at, ..part };
}

/// Puts each part at another place.
fn stand(parts: &mut Parts, at: &[u64])
    requires { length at.now ≡ length parts.old }
    ensures { parts.new ≡ stand_at parts.old at.now }
{
    for i in 0..at.len() {
        stand_one(parts, i, at[i]);
    }
}

/// The parts with these ranks, one after the other. It fails with `Memory` alone.
fn pick(alloc: Global, parts: &Parts, ranks: &List<usize>) -> Result<Parts, ElfError>
    requires { All (λ rank. rank < length parts.now) ranks.now }
    ensures ok { IfOk result (λ picked. picked ≡ map (part_of_rank parts.now) ranks.now) }
    ensures err { IfErr result (λ e. e ≡ Memory) }
{
    let mut picked = Parts::with_capacity(alloc, ranks.len())?;
    for rank in ranks.as_slice() {
        picked.push(parts.as_slice()[*rank])?;
    }
    Ok(picked)
}

/// The parts that are not empty, at these places and by them. It fails with `Memory` alone.
pub fn plan(alloc: Global, parts: Parts, places: &Places) -> Result<Parts, ElfError>
    requires { length places.now.at ≡ length parts }
    ensures ok { IfOk result (λ planned. planned ≡ map
        (part_of_rank (stand_at parts places.now.at))
        (ranks_by_position (stand_at parts places.now.at))) }
    ensures err { IfErr result (λ e. e ≡ Memory) }
{
    let mut standing = parts;
    stand(&mut standing, places.at.as_slice());
    let ranks = ranks_by_position(alloc, standing.as_slice())?;
    pick(alloc, &standing, &ranks)
}
