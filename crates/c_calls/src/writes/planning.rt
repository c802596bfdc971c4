//! Which writes an update in place makes.

ghost use Rattle.std.specs.Prelude.{◌≡◌, IfOk, IfErr, OnErr};
ghost use Rattle.c_handles.specs.Objects.Objects.{IsLoanOf};
ghost use Rattle.c_calls.specs.Writes.Plans.{write_fault_as_memory, Boxes, Plans};

use c_handles::lent::{KeptWrite, Lent};
use c_handles::objects::OpenObject;
use c_handles::writes::PlannedWrites;
use elf_types::{ElfError, List};
use elf_update_in_place::update_in_place;
use std::alloc::{AllocFailed, Global};

/// What is left of an update whose writes are kept: one that fails needs memory.
fn kept(updated: Result<u64, ElfError>) -> Result<(), ElfError>
    ensures { result ≡ write_fault_as_memory updated }
{
    match updated {
        Ok(_) => Ok(()),
        Err(ElfError::Write) => Err(ElfError::Memory),
        Err(e) => Err(e),
    }
}

/// The box of the writes of an update, where it was not rejected. It fails with `Memory` besides.
fn box_writes(
    alloc: Global,
    list: List<KeptWrite>,
    done: Result<(), ElfError>,
) -> Result<Box<PlannedWrites>, ElfError>
    ensures { Boxes list done result }
{
    if let Err(e) = done {
        return Err(e);
    }
    match Box::new(alloc, PlannedWrites { list }) {
        Ok(writes) => Ok(writes),
        Err(AllocFailed { value: _value }) => Err(ElfError::Memory),
    }
}

/// Closes an object, and gives the bytes back that were lent, and the writes of its update in
/// place, which make them its image: those of `update_in_place`, in its order. Where nothing is
/// dirty there are none. It fails with, in this order: `TooMany`, `Unfit`, `OutOfFile`, `Overlap`,
/// `TooLarge`; and `Memory` in place of a value and of the last two.
///
/// Source: elf_update with ELF_C_WRITE of elf(3E).
pub fn plan_writes(
    alloc: Global,
    object: Box<OpenObject>,
) -> (Lent, Result<Box<PlannedWrites>, ElfError>)
    ensures back { IsLoanOf object.value.elf.source.loan result.0 }
    ensures plans { Plans object.value.elf result.1 }
{
    let OpenObject { mut elf } = Box::into_inner(object);
    let done = kept(update_in_place(&mut elf));
    let (loan, list) = elf.end().into_parts();
    (loan.back(), box_writes(alloc, list, done))
}
