//! The memory of an update in place, which is taken before it reads or writes.

ghost use Rattle.std.specs.Prelude.{◌≡◌, ◌<◌, length, OnOk, IfErr};
ghost use Rattle.elf_types.specs.declared.errors.ElfError.TheVariants.{Memory};
ghost use Rattle.elf_update_in_place.specs.Rooms.{KeepsAside, CanLoad, ReservesHomes, TakesMemory};

use crate::homes::home_is_out;
use elf_outside::Source;
use elf_types::{ElfError, ScnId};
use elf_update_to::prelude::Elf;

/// Reserves memory for the home of a section that is there, where it is in the file.
fn reserve_one<S: Source>(elf: &mut Elf<S>, s: u32) -> Result<(), ElfError>
    requires { s < length elf.old.o.sections }
    ensures aside { KeepsAside elf.old elf.new }
    ensures room { OnOk result (CanLoad elf.new s) }
    ensures err { IfErr result (λ e. e ≡ Memory) }
{
    if home_is_out(elf, s) {
        return Ok(());
    }
    elf.reserve_home(ScnId(s))
}

/// Reserves memory for the homes of the sections that move. It fails with `Memory` alone.
fn reserve_homes<S: Source>(elf: &mut Elf<S>, moves: &[bool]) -> Result<(), ElfError>
    requires { length moves.now ≡ length elf.old.o.sections }
    ensures { ReservesHomes moves.now (length elf.old.o.sections) result elf.old elf.new }
{
    for s in 0..elf.shnum() {
        if moves[s as usize] {
            if let Err(e) = reserve_one(elf, s) {
                return Err(e);
            }
        }
    }
    Ok(())
}

/// Takes all memory of an update in place: for the homes of the sections that move, and for what
/// settling the object needs. It fails with `Memory` alone, and reads nothing.
pub(crate) fn take_memory<S: Source>(elf: &mut Elf<S>, moves: &[bool]) -> Result<(), ElfError>
    requires { length moves.now ≡ length elf.old.o.sections }
    ensures { TakesMemory S.Source moves.now result elf.old elf.new }
{
    if let Err(e) = reserve_homes(elf, moves) {
        return Err(e);
    }
    elf.reserve()
}
