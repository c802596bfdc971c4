//! What is read before an update in place writes: the homes of the sections that move.

ghost use Rattle.std.specs.Prelude.{◌≡◌, ◌==◌, ◌<◌, ℕ, true, false, IsTrue, length, OnOk, IfErr};
ghost use Rattle.elf_types.specs.declared.errors.ElfError.TheVariants.{Read};
ghost use Rattle.elf_outside.specs.Asks.{Asks};
ghost use Rattle.elf_object.specs.Object.{section_at};
ghost use Rattle.elf_object.specs.Due.{is_loaded, home_due};
ghost use Rattle.elf_update_in_place.specs.Rooms.{tells, CanLoad};
ghost use Rattle.elf_update_in_place.specs.Loads.{LoadsSome, LoadsHomes};

use crate::homes::home_is_out;
use elf_outside::Source;
use elf_types::{ElfError, ScnId};
use elf_update_to::prelude::Elf;

/// Reads the home of a section that is there, where it is in the file and not loaded; memory was
/// reserved for it. It fails with `Read` alone.
fn load_one<S: Source>(elf: &mut Elf<S>, s: u32) -> Result<(), ElfError>
    requires there { s < length elf.old.o.sections }
    requires room { CanLoad elf.old s }
    ensures some { LoadsSome (λ i. i == s) elf.old elf.new }
    ensures loaded { OnOk result ((section_at elf.old.o s).home.out ≡ false
        → IsTrue (is_loaded elf.new.loaded s)) }
    ensures asks { Asks S.Source result elf.old.source elf.new.source
        (home_due elf.old.o elf.old.loaded s) }
    ensures err { IfErr result (λ e. e ≡ Read) }
{
    if home_is_out(elf, s) {
        return Ok(());
    }
    elf.load_home(ScnId(s))
}

/// Reads the homes of the sections that move, where they are in the file and not loaded; memory was
/// reserved for them. It fails with `Read` alone and takes no memory.
pub(crate) fn load_homes<S: Source>(elf: &mut Elf<S>, moves: &[bool]) -> Result<(), ElfError>
    requires count { length moves.now ≡ length elf.old.o.sections }
    requires room { (i : ℕ) → i < length elf.old.o.sections → tells moves.now i ≡ true
        → CanLoad elf.old i }
    ensures { LoadsHomes S.Source moves.now (length elf.old.o.sections) result elf.old elf.new }
{
    for s in 0..elf.shnum() {
        if moves[s as usize] {
            if let Err(e) = load_one(elf, s) {
                return Err(e);
            }
        }
    }
    Ok(())
}
