//! The calls on the flags of the object, and on the byte of gaps.

ghost use Rattle.std.specs.Prelude.{◌≡◌};
ghost use Rattle.elf_object.specs.Calls as calls;
ghost use Rattle.elf_descriptor.specs.Edits.{stepped};
ghost use Rattle.c_calls.specs.Editing.Edited.{SetsFlags};

use c_handles::objects::OpenObject;
use c_records::code_of;
use elf_types::Part;

/// Sets or clears the flags of the object that `bits` has, `DIRTY` and `LAYOUT`, and gives those
/// that it has then; other bits are not looked at. It fails with `FlagKept` where `DIRTY` would be
/// cleared, and takes no memory.
///
/// Source: elf_flagelf of elf(3E).
pub fn set_flags(object: &mut OpenObject, set: bool, bits: u32, out: &mut u32) -> u32
    ensures { SetsFlags set bits result object.old.elf object.new.elf out.old out.new }
{
    match object.elf.flag(Part::Object, set, bits) {
        Ok(flags) => {
            *out = flags;
            0
        }
        Err(e) => code_of(e),
    }
}

/// Stores the fill byte, the byte of gaps. It marks nothing, rejects nothing and takes no memory.
///
/// Source: elf_fill of elf(3E).
pub fn set_fill(object: &mut OpenObject, byte: u8)
    ensures { object.new.elf ≡ stepped (calls.set_fill byte) object.old.elf }
{
    object.elf.set_fill(byte);
}
