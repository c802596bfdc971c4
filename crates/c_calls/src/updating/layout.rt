//! The places of the parts.

ghost use Rattle.c_calls.specs.Updating.Updated.{LaysOut};

use c_handles::objects::OpenObject;
use c_records::code_of;
use elf_update_plan::update_null;

/// Stores the places of the parts, the sizes and the derived values in the headers, and gives the
/// length of the image; the marks stay. Where nothing is dirty it changes nothing. It fails with,
/// in this order: `TooMany`, `Unfit`, `OutOfFile`, `Overlap`, `TooLarge`; and `Memory` in place of
/// a value and of the last two.
///
/// Source: elf_update with ELF_C_NULL of elf(3E).
pub fn lay_out_object(object: &mut OpenObject, length: &mut u64) -> u32
    ensures { LaysOut result object.old.elf object.new.elf length.old length.new }
{
    match update_null(&mut object.elf) {
        Ok(n) => {
            *length = n;
            0
        }
        Err(e) => code_of(e),
    }
}
