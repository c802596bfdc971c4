//! The image.

ghost use Rattle.std.specs.Prelude.{◌≡◌, length};
ghost use Rattle.elf_object.specs.Image.{image_length};
ghost use Rattle.c_handles.specs.Objects.Objects.{SameImage};
ghost use Rattle.c_calls.specs.Updating.Updated.{write_fault_as_done, IsEmptyRoom, PutsInto, PutsImage};

use crate::updating::room::Room;
use c_handles::objects::OpenObject;
use c_records::code_of;
use elf_types::ElfError;
use elf_update_to::update_to;
use std::alloc::Global;

/// An update whose image fills the memory that it is put into has done all where a put failed.
fn filled(updated: Result<u64, ElfError>) -> Result<(), ElfError>
    ensures { result ≡ write_fault_as_done updated }
{
    match updated {
        Ok(_) => Ok(()),
        Err(ElfError::Write) => Ok(()),
        Err(e) => Err(e),
    }
}

/// Puts the image into memory for so many bytes.
fn put_into(object: &mut OpenObject, room: &mut Room) -> Result<(), ElfError>
    requires { IsEmptyRoom (image_length object.old.elf.o) room.old }
    ensures puts { PutsInto result object.old.elf object.new.elf room.new }
    ensures image { SameImage object.old.elf.source object.new.elf.source }
{
    filled(update_to(&mut object.elf, room))
}

/// Puts the image into memory for so many bytes, and from there into C's buffer.
fn give_image(object: &mut OpenObject, room: &mut Room, out: &mut [u8]) -> u32
    requires empty { IsEmptyRoom (image_length object.old.elf.o) room.old }
    requires room { length out.old ≡ image_length object.old.elf.o }
    ensures puts { PutsImage result object.old.elf object.new.elf out.old out.new }
    ensures image { SameImage object.old.elf.source object.new.elf.source }
{
    match put_into(object, room) {
        Ok(()) => {
            out.copy_from_slice(room.as_slice());
            0
        }
        Err(e) => code_of(e),
    }
}

/// Puts the image into C's buffer, which is as long, and stores the places of the parts, the sizes
/// and the derived values in the headers; the marks stay. Where nothing is dirty the image is the
/// one that was opened. It fails with, in this order: `Memory` for the image, `TooMany`, `Unfit`,
/// `OutOfFile`, `Overlap`, `TooLarge`; and `Memory`. The buffer and the object stay then.
///
/// Source: elf_update with ELF_C_WRITE of elf(3E).
pub fn put_image_in_buffer(alloc: Global, object: &mut OpenObject, out: &mut [u8]) -> u32
    requires { length out.old ≡ image_length object.old.elf.o }
    ensures puts { PutsImage result object.old.elf object.new.elf out.old out.new }
    ensures image { SameImage object.old.elf.source object.new.elf.source }
{
    match Room::new(alloc, out.len() as u64) {
        Ok(mut room) => give_image(object, &mut room, out),
        Err(e) => code_of(e),
    }
}
