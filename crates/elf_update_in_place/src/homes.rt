//! Whether a section's home is in the file.

ghost use Rattle.std.specs.Prelude.{◌≡◌, ◌<◌, length};
ghost use Rattle.elf_object.specs.Object.{section_at};

use elf_outside::Source;
use elf_types::ScnId;
use elf_update_to::prelude::Elf;

/// Whether the home of a section that is there is out of the file.
#[tactic(auto, unfolding(elf_update_to::specs::Passed::out_answer))]
pub(crate) fn home_is_out<S: Source>(elf: &Elf<S>, s: u32) -> bool
    requires { s < length elf.now.o.sections }
    ensures { result ≡ (section_at elf.now.o s).home.out }
{
    match elf.is_out_of_file(ScnId(s)) {
        Ok(out) => out,
        Err(_) => unreachable!(),
    }
}
