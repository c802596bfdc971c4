//! The call that adds a section.

ghost use Rattle.c_calls.specs.Editing.Edited.{MakesSection};

use c_handles::objects::OpenObject;
use c_records::code_of;

/// Adds a section at the end, whose header is zeros, which has no piece and is marked dirty, and
/// gives its number. An object without sections gets section 0 before it. It fails with, in this
/// order: `TooMany` at 2^20 sections, `Memory`.
///
/// Source: elf_newscn of elf(3E).
pub fn append_new_section(object: &mut OpenObject, out: &mut u32) -> u32
    ensures { MakesSection result object.old.elf object.new.elf out.old out.new }
{
    match object.elf.newscn() {
        Ok(s) => {
            *out = s.0;
            0
        }
        Err(e) => code_of(e),
    }
}
