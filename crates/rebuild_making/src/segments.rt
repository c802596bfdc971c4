//! Program headers that are copied.

ghost use Rattle.std.specs.Prelude.{◌≡◌, length, None, OnOk, IfErr};
ghost use Rattle.rebuild_model.specs.elf_object.Calls.{newphdr_refusal};
ghost use Rattle.rebuild_model.specs.elf_object.Calls as calls;
ghost use Rattle.elf_update_plan.specs.elf_descriptor.Edits.{stepped};
ghost use Rattle.rebuild_making.specs.Refused.{RefusedBy};

use elf_types::{ElfError, Phdr};
use elf_update_plan::prelude::Elf;
use rebuild_model::prelude::Source;

/// Copies the program headers of an object over as many.
fn fill_segments<S: Source>(from: &Elf<S>, to: &mut [Phdr])
    requires { length to.old ≡ length from.now.o.phdrs }
    ensures { to.new ≡ from.now.o.phdrs }
{
    for i in 0..from.phnum() {
        to[i as usize] = from.phdr_at(i);
    }
}

/// Gives an object the program headers of another in place of those that it has, and marks them
/// dirty, also where there are none: what is left is `with_phdrs` of them. It fails with, in this
/// order: `TooMany` above 65,534, `Memory`. What a refusal leaves is not stated. It reads nothing.
///
/// Source: gelf_newphdr and gelf_update_phdr of gelf(3E).
pub fn copy_segments<S: Source, T: Source>(from: &Elf<S>, to: &mut Elf<T>) -> Result<(), ElfError>
    ensures made { OnOk result (to.new ≡ stepped (calls.phdrs_mut from.now.o.phdrs) to.old) }
    ensures passed { OnOk result (newphdr_refusal (length from.now.o.phdrs) ≡ None) }
    ensures err { IfErr result (RefusedBy (newphdr_refusal (length from.now.o.phdrs))) }
{
    if let Err(e) = to.newphdr(from.phnum()) {
        return Err(e);
    }
    fill_segments(from, to.phdrs_mut());
    Ok(())
}
