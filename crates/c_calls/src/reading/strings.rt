//! Strings.

ghost use Rattle.std.specs.Prelude.{ℕ, List, length};
ghost use Rattle.elf_object.specs.Strings as strings;
ghost use Rattle.elf_descriptor.specs.Reads.{wanted};
ghost use Rattle.c_records.specs.Gives.{GivesRead};
ghost use Rattle.c_handles.specs.Objects.Objects.{SameObject};

use c_handles::objects::OpenObject;
use c_records::code_of;
use elf_types::ScnId;
use gelf_view::strptr;

/// The number of bytes of the string at an offset of a section's pieces, without its NUL. It fails
/// with, in this order: `NoSection`; `NotStrings` where the section's type is not `SHT_STRTAB` or a
/// piece does not hold bytes; `OutOfFile`; `NoString` where no piece covers the offset; then
/// `Memory` where the home is not loaded, and `Unended` where no NUL follows in the piece. It marks
/// nothing dirty.
///
/// Source: gABI chapter 4, "String Table"; elf_strptr of elf(3E).
pub fn give_string(object: &mut OpenObject, s: ScnId, offset: u64, out: &mut u64) -> u32
    ensures gives { GivesRead (λ (text : List ℕ). length text)
        (wanted (strings.strptr s.0 offset) object.old.elf)
        ((strings.strptr s.0 offset).answer object.old.elf.o) result out.old out.new }
    ensures object { SameObject object.old.elf object.new.elf }
{
    match strptr(&mut object.elf, s, offset) {
        Ok(string) => {
            *out = string.len() as u64;
            0
        }
        Err(e) => code_of(e),
    }
}
