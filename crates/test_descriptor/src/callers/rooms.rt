//! What a caller learns of memory that is reserved for a home.

ghost use Rattle.std.specs.Prelude.{◌≡◌, length, IsTrue, OnOk, IfErr};
ghost use Rattle.elf_object.specs.Due.{is_loaded};
ghost use Rattle.elf_descriptor.specs.Rooms.{has_room_for};

use elf_descriptor::Elf;
use elf_outside::Source;
use elf_types::{DIRTY, ElfError, Part, ScnId};

/// Reserves memory for a home, so that it can be read. The list that tells of each section whether
/// that was done has as many as there are sections.
#[tactic(auto, using(crate::proofs::callers::KeptRooms::kept_room))]
pub fn keep_room<S: Source>(elf: &mut Elf<S>, s: ScnId) -> Result<(), ElfError>
    requires rooms { length elf.old.room ≡ length elf.old.o.sections }
    ensures room { OnOk result (IsTrue (has_room_for elf.new s.0)) }
{
    elf.reserve_home(s)
}

/// Reads a home into the memory that is reserved for it, and once more where the read fails: the
/// memory is kept still. It wants none.
#[tactic(auto, using(crate::proofs::callers::KeptRooms::room_stays, crate::proofs::callers::KeptRooms::loaded_room))]
pub fn load_patiently<S: Source>(elf: &mut Elf<S>, s: ScnId) -> Result<(), ElfError>
    requires room { IsTrue (has_room_for elf.old s.0) }
    ensures loaded { OnOk result (IsTrue (is_loaded elf.new.loaded s.0)) }
    ensures err { IfErr result (λ e. e ≡ ElfError.Read) }
{
    match elf.load_home(s) {
        Ok(()) => Ok(()),
        Err(_) => elf.load_home(s),
    }
}

/// Reads a home twice: the second time nothing is left to be read.
#[tactic(auto, using(crate::proofs::callers::KeptRooms::room_stays, crate::proofs::callers::KeptRooms::loaded_room))]
pub fn load_twice<S: Source>(elf: &mut Elf<S>, s: ScnId) -> Result<(), ElfError>
    requires room { IsTrue (has_room_for elf.old s.0) }
    ensures loaded { OnOk result (IsTrue (is_loaded elf.new.loaded s.0)) }
    ensures err { IfErr result (λ e. e ≡ ElfError.Read) }
{
    match elf.load_home(s) {
        Ok(()) => elf.load_home(s),
        Err(e) => Err(e),
    }
}

/// Reads a home after another one was read, memory was taken for the front and the object was
/// marked: the memory that is reserved for it stays.
#[tactic(auto, using(crate::proofs::callers::KeptRooms::room_stays, crate::proofs::callers::KeptRooms::loaded_room))]
pub fn load_later<S: Source>(elf: &mut Elf<S>, s: ScnId, other: ScnId) -> Result<(), ElfError>
    requires room { IsTrue (has_room_for elf.old s.0) }
    ensures loaded { OnOk result (IsTrue (is_loaded elf.new.loaded s.0)) }
{
    if let Err(e) = elf.raw(other) {
        return Err(e);
    }
    if let Err(e) = elf.reserve() {
        return Err(e);
    }
    if let Err(e) = elf.flag(Part::Object, true, DIRTY) {
        return Err(e);
    }
    elf.load_home(s)
}

/// Reads a home that is loaded, by the call that otherwise needs memory reserved.
#[tactic(auto, using(crate::proofs::callers::KeptRooms::room_stays, crate::proofs::callers::KeptRooms::loaded_room))]
pub fn load_loaded<S: Source>(elf: &mut Elf<S>, s: ScnId) -> Result<(), ElfError>
    ensures loaded { OnOk result (IsTrue (is_loaded elf.new.loaded s.0)) }
{
    if let Err(e) = elf.raw(s) {
        return Err(e);
    }
    elf.load_home(s)
}
