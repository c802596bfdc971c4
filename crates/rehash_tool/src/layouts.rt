//! The layout under which what rehash leaves is updated.

ghost use Rattle.std.specs.Prelude.{◌≡◌, true};
ghost use Rattle.elf_object.specs.Steps.{with_layout};
ghost use Rattle.rebuild_model.specs.Rehashed.{laid_out};

use elf_outside::Source;
use elf_types::{LAYOUT, Part};
use tool_files::prelude::Elf;

/// The layout of an object becomes the caller's.
fn set_layout<S: Source>(elf: &mut Elf<S>)
    ensures { elf.new ≡ record elf.old { o = with_layout elf.old.o true } }
{
    match elf.flag(Part::Object, true, LAYOUT) {
        Ok(_) => {}
        Err(_) => unreachable!(),
    }
}

/// The layout of a program becomes the caller's, so that a section which grows into another part is
/// rejected.
pub fn lay_out<S: Source>(elf: &mut Elf<S>)
    ensures { elf.new ≡ record elf.old { o = laid_out elf.old.o } }
{
    if elf.phnum() != 0 {
        set_layout(elf);
    }
}
