//! The home of a section that is there.

ghost use Rattle.std.specs.Prelude.{◌≡◌, ◌<◌, length};
ghost use Rattle.rebuild_image.specs.elf_object.Object.{section_at};

use elf_outside::Source;
use elf_types::ScnId;
use rebuild_keep::prelude::Elf;

/// Whether the home of a section that is there is out of the file. It reads nothing and takes no
/// memory.
///
/// Source: gABI chapter 4, "Section Header", sh_offset and sh_size.
pub fn is_home_out<S: Source>(elf: &Elf<S>, s: ScnId) -> bool
    requires { s.0 < length elf.now.o.sections }
    ensures { result ≡ (section_at elf.now.o s.0).home.out }
{
    match elf.is_out_of_file(s) {
        Ok(out) => out,
        Err(_) => unreachable!(),
    }
}

/// The place and the length of the home of a section that is there, in bytes. It reads nothing and
/// takes no memory.
///
/// Source: gABI chapter 4, "Section Header", sh_offset and sh_size.
pub fn extent<S: Source>(elf: &Elf<S>, s: ScnId) -> (u64, u64)
    requires { s.0 < length elf.now.o.sections }
    ensures at { result.0 ≡ (section_at elf.now.o s.0).home.at }
    ensures len { result.1 ≡ (section_at elf.now.o s.0).home.len }
{
    match elf.home(s) {
        Ok((at, len)) => (at, len),
        Err(_) => unreachable!(),
    }
}
