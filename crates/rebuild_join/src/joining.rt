//! The plan of the file of two halves.

ghost use Rattle.std.specs.Prelude.{◌≡◌, ◌+◌, ◌<◌, ◌^◌, false, true, length, IsTrue};
ghost use Rattle.rebuild_model.specs.Split.{allocated, matches};
ghost use Rattle.elf_object.specs.Object.{is_dirty};
ghost use Rattle.elf_object.specs.Valid.{IsTied};
ghost use Rattle.rebuild_plan.specs.law_rebuild.Strip.Made.{FitsClass};
ghost use Rattle.rebuild_join.specs.Ranges.{IsUnchanged};
ghost use Rattle.rebuild_join.specs.Joining.{PlansJoined};

use crate::joined::{UnstripFault, allocated, are_halves};
use crate::keeping::keep_joined;
use crate::planning::plan_combined;
use elf_outside::Source;
use elf_types::ElfError;
use rebuild_keep::prelude::Elf;
use rebuild_plan::RangedPlan;
use std::alloc::Global;

/// The plan of two halves that match, of which the stripped one has these allocated sections.
fn plan_matched<S: Source, T: Source>(
    alloc: Global,
    stripped: &Elf<S>,
    debug: &Elf<T>,
    loaded: &[u32],
) -> Result<RangedPlan, UnstripFault>
    requires matches { matches stripped.now.o debug.now.o ≡ true }
    requires stripped { IsUnchanged stripped.now }
    requires debug { IsUnchanged debug.now }
    requires fits { FitsClass stripped.now.o }
    requires small { length stripped.now.o.base + length debug.now.o.base < 2 ^ 64 }
    requires loaded { loaded.now ≡ allocated stripped.now.o }
    ensures { PlansJoined stripped.now debug.now result }
{
    let contents = match keep_joined(alloc, stripped, debug, loaded) {
        Ok(contents) => contents,
        Err(fault) => return Err(fault),
    };
    match plan_combined(alloc, stripped, debug, contents) {
        Ok(plan) => Ok(plan),
        Err(e) => Err(UnstripFault::Elf(e)),
    }
}

/// The plan of two halves.
fn plan_halves<S: Source, T: Source>(
    alloc: Global,
    stripped: &Elf<S>,
    debug: &Elf<T>,
) -> Result<RangedPlan, UnstripFault>
    requires stripped { IsUnchanged stripped.now }
    requires debug { IsUnchanged debug.now }
    requires fits { FitsClass stripped.now.o }
    requires small { length stripped.now.o.base + length debug.now.o.base < 2 ^ 64 }
    ensures { PlansJoined stripped.now debug.now result }
{
    let loaded = match allocated(alloc, stripped) {
        Ok(loaded) => loaded,
        Err(e) => return Err(UnstripFault::Elf(e)),
    };
    let same = match are_halves(alloc, stripped, loaded.as_slice(), debug) {
        Ok(same) => same,
        Err(e) => return Err(UnstripFault::Debug(e)),
    };
    if !same {
        return Err(UnstripFault::Mismatch);
    }
    plan_matched(alloc, stripped, debug, loaded.as_slice())
}

/// The plan of the file that an update writes of the program of which two files are halves, neither
/// dirty: where each part is, and which range it is of a base that is the bytes of the stripped
/// half followed by those of the debug half. It is the object that `unstrip` makes. It fails with,
/// in this order: `Memory`, as `Elf`, where both together are 2^64 bytes or more; then as
/// `unstrip`, `Mismatch`; `TooMany` of `newphdr`, as `Elf`; for each section from 1 on of the debug
/// half `OutOfFile`, as `Elf` where it is allocated and else as `Debug`; `NoSection` of the debug
/// half's string index, as `Debug`; `TooLarge` where a place after the base passes the limit, as
/// `Elf`; then as the update of that object, `Overlap` and `TooLarge`, as `Elf`; and `Memory`, by
/// the half on which it came. It reads nothing.
///
/// Source: eu-unstrip(1); gABI chapters 4 and 5; elf_update of elf(3E).
pub fn plan_joined<S: Source, T: Source>(
    alloc: Global,
    stripped: &Elf<S>,
    debug: &Elf<T>,
) -> Result<RangedPlan, UnstripFault>
    requires stripped_clean { is_dirty stripped.now.o ≡ false }
    requires debug_clean { is_dirty debug.now.o ≡ false }
    requires stripped_tied { IsTrue stripped.now.told → IsTied stripped.now.o }
    requires debug_tied { IsTrue debug.now.told → IsTied debug.now.o }
    requires fits { FitsClass stripped.now.o }
    ensures { PlansJoined stripped.now debug.now result }
{
    let _sound = stripped.dirty();
    let _other = debug.dirty();
    match stripped.base_len().checked_add(debug.base_len()) {
        Some(_len) => plan_halves(alloc, stripped, debug),
        None => Err(UnstripFault::Elf(ElfError::Memory)),
    }
}
