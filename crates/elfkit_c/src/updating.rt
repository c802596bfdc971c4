//! The update of an object.

ghost use Rattle.std.specs.Prelude.{◌≡◌, true, length};
ghost use Rattle.elf_object.specs.Image.{image_length};
ghost use Rattle.c_handles.specs.Objects.Objects.{SameImage};
ghost use Rattle.c_calls.specs.Updating.Updated.{LaysOut, PutsImage};

use c_calls::updating::{lay_out_object, put_image_in_buffer};
use c_handles::objects::Handle;
use std::alloc::Global;

/// Stores the places of the parts, the sizes and the derived values in the headers, and gives the
/// length of the image; the marks stay. Where nothing is dirty it changes nothing. It fails with,
/// in this order: `TooMany`, `Unfit`, `OutOfFile`, `Overlap`, `TooLarge`; and `Memory` in place of
/// a value and of the last two.
///
/// Besides C's usual part: the handle holds an object.
///
/// Source: elf_update with ELF_C_NULL of elf(3E).
#[unsafe(no_mangle)]
pub extern "C" fn elfkit_size(alloc: Global, h: &mut Handle, out: &mut u64) -> u32
    requires { h.old.full ≡ true }
    ensures places { LaysOut result h.old.held.elf h.new.held.elf out.old out.new }
    ensures full { h.new.full ≡ true }
{
    let mut object = h.take(alloc);
    let number = lay_out_object(object.as_mut(), out);
    h.put(object);
    number
}

/// Puts the image into a buffer, which is as long, and stores the places of the parts, the sizes
/// and the derived values in the headers; the marks stay. It fails with, in this order: `Memory`
/// for the image, `TooMany`, `Unfit`, `OutOfFile`, `Overlap`, `TooLarge`; and `Memory`. The buffer
/// and the object stay then.
///
/// Besides C's usual part: the handle holds an object, and the buffer has as many bytes as
/// `elfkit_size` gives.
///
/// Source: elf_update with ELF_C_WRITE of elf(3E).
#[unsafe(no_mangle)]
pub extern "C" fn elfkit_update(alloc: Global, h: &mut Handle, out: &mut [u8]) -> u32
    requires full { h.old.full ≡ true }
    requires room { length out.old ≡ image_length h.old.held.elf.o }
    ensures puts { PutsImage result h.old.held.elf h.new.held.elf out.old out.new }
    ensures image { SameImage h.old.held.elf.source h.new.held.elf.source }
    ensures full { h.new.full ≡ true }
{
    let mut object = h.take(alloc);
    let number = put_image_in_buffer(alloc, object.as_mut(), out);
    h.put(object);
    number
}
