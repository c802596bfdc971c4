//! Edits of an object. Each is exactly that of the plain object, and marks what it changes; where
//! it is rejected the object is as it was.

ghost use Rattle.std.specs.Prelude.{◌≡◌, true};
ghost use Rattle.elf_object.specs.Calls as calls;
ghost use Rattle.elf_descriptor.specs.Edits.{stepped};
ghost use Rattle.c_calls.specs.Editing.From.{phdr_from_record, shdr_from_record};
ghost use Rattle.c_calls.specs.Editing.Edited.{Edited, Grown, Copied, StoresEhdr, MakesSection, MakesPiece, SetsFlags};

use c_calls::editing::{
    add_bytes, append_new_section, new_phdrs, put_piece_bytes, set_fill, set_flags, store_ehdr,
    store_phdr, store_shdr,
};
use c_handles::objects::Handle;
use c_records::{EhdrRecord, PhdrRecord, ShdrRecord};
use elf_types::{DataId, ScnId};
use elf_xlate::Items;
use std::alloc::Global;

/// Stores a header's `osabi`, `abiversion`, `etype`, `machine`, `entry`, `phoff`, `shoff`, `flags`
/// and `shstrndx`; it looks at no other field. It fails with, in this order: `NoSection` where
/// `shstrndx` is neither 0 nor below the section count, `Unfit`.
///
/// Besides C's usual part: the handle holds an object.
///
/// Source: gelf_update_ehdr of gelf(3E).
#[unsafe(no_mangle)]
pub extern "C" fn elfkit_update_ehdr(alloc: Global, h: &mut Handle, x: &EhdrRecord) -> u32
    requires { h.old.full ≡ true }
    ensures edits { StoresEhdr x.now result h.old.held.elf h.new.held.elf }
    ensures full { h.new.full ≡ true }
{
    let mut object = h.take(alloc);
    let number = store_ehdr(object.as_mut(), x);
    h.put(object);
    number
}

/// Gives the object so many program headers of zeros in place of those that it has. It fails with,
/// in this order: `TooMany` above 65,534, `Memory`.
///
/// Besides C's usual part: the handle holds an object.
///
/// Source: gelf_newphdr of gelf(3E).
#[unsafe(no_mangle)]
pub extern "C" fn elfkit_newphdr(alloc: Global, h: &mut Handle, count: u32) -> u32
    requires { h.old.full ≡ true }
    ensures edits { Grown (calls.newphdr count) result h.old.held.elf h.new.held.elf }
    ensures full { h.new.full ≡ true }
{
    let mut object = h.take(alloc);
    let number = new_phdrs(object.as_mut(), count);
    h.put(object);
    number
}

/// Stores a program header. It fails with, in this order: `NoEntry`, `Unfit`.
///
/// Besides C's usual part: the handle holds an object.
///
/// Source: gelf_update_phdr of gelf(3E).
#[unsafe(no_mangle)]
pub extern "C" fn elfkit_update_phdr(alloc: Global, h: &mut Handle, i: u32, x: &PhdrRecord) -> u32
    requires { h.old.full ≡ true }
    ensures edits { Edited (calls.update_phdr i (phdr_from_record x.now)) result
        h.old.held.elf h.new.held.elf }
    ensures full { h.new.full ≡ true }
{
    let mut object = h.take(alloc);
    let number = store_phdr(object.as_mut(), i, x);
    h.put(object);
    number
}

/// Adds a section at the end, whose header is zeros and which has no piece, and gives its number;
/// an object without sections gets section 0 before it. It fails with, in this order: `TooMany` at
/// 2^20 sections, `Memory`.
///
/// Besides C's usual part: the handle holds an object.
///
/// Source: elf_newscn of elf(3E).
#[unsafe(no_mangle)]
pub extern "C" fn elfkit_newscn(alloc: Global, h: &mut Handle, out: &mut u32) -> u32
    requires { h.old.full ≡ true }
    ensures edits { MakesSection result h.old.held.elf h.new.held.elf out.old out.new }
    ensures full { h.new.full ≡ true }
{
    let mut object = h.take(alloc);
    let number = append_new_section(object.as_mut(), out);
    h.put(object);
    number
}

/// Stores a section's header. It fails with, in this order: `NoSection`, `Reserved` for section 0,
/// `Unfit`.
///
/// Besides C's usual part: the handle holds an object.
///
/// Source: gelf_update_shdr of gelf(3E).
#[unsafe(no_mangle)]
pub extern "C" fn elfkit_update_shdr(
    alloc: Global,
    h: &mut Handle,
    section: u32,
    x: &ShdrRecord,
) -> u32
    requires { h.old.full ≡ true }
    ensures edits { Edited (calls.update_shdr section (shdr_from_record x.now)) result
        h.old.held.elf h.new.held.elf }
    ensures full { h.new.full ≡ true }
{
    let mut object = h.take(alloc);
    let number = store_shdr(object.as_mut(), ScnId(section), x);
    h.put(object);
    number
}

/// Gives a piece a copy of these bytes, as they are in the file, in place of what it holds. It
/// fails with, in this order: `Memory`, `NoSection`, `Reserved` for section 0, `NoData`.
///
/// Besides C's usual part: the handle holds an object.
///
/// Source: elf_flagdata of elf(3E), of data that a program wrote.
#[unsafe(no_mangle)]
pub extern "C" fn elfkit_replace(
    alloc: Global,
    h: &mut Handle,
    section: u32,
    piece: u32,
    bytes: &[u8],
) -> u32
    requires { h.old.full ≡ true }
    ensures edits { Copied (calls.replace section piece (Items.Bytes bytes.now)) result
        h.old.held.elf h.new.held.elf }
    ensures full { h.new.full ≡ true }
{
    let mut object = h.take(alloc);
    let number = put_piece_bytes(object.as_mut(), DataId { section, piece }, bytes);
    h.put(object);
    number
}

/// Adds a piece with a copy of these bytes, as they are in the file, to a section, with that
/// alignment in it, and gives its number in the section. It fails with, in this order: `Memory`,
/// `NoSection`, `Reserved` for section 0, `TooMany` at 2^20 pieces, `BadAlign` where the alignment
/// is no power of two or is greater than 2^20; and `Memory`.
///
/// Besides C's usual part: the handle holds an object.
///
/// Source: elf_newdata of elf(3E).
#[unsafe(no_mangle)]
pub extern "C" fn elfkit_newdata(
    alloc: Global,
    h: &mut Handle,
    section: u32,
    bytes: &[u8],
    align: u64,
    out: &mut u32,
) -> u32
    requires { h.old.full ≡ true }
    ensures edits { MakesPiece section bytes.now align result h.old.held.elf h.new.held.elf
        out.old out.new }
    ensures full { h.new.full ≡ true }
{
    let mut object = h.take(alloc);
    let number = add_bytes(object.as_mut(), ScnId(section), bytes, align, out);
    h.put(object);
    number
}

/// Sets or clears the flags of the object that `bits` has, `ELF_F_DIRTY` and `ELF_F_LAYOUT`, and
/// gives those that it has then. It fails with `FlagKept` where `ELF_F_DIRTY` would be cleared.
///
/// Besides C's usual part: the handle holds an object.
///
/// Source: elf_flagelf of elf(3E).
#[unsafe(no_mangle)]
pub extern "C" fn elfkit_flag(
    alloc: Global,
    h: &mut Handle,
    set: bool,
    bits: u32,
    out: &mut u32,
) -> u32
    requires { h.old.full ≡ true }
    ensures edits { SetsFlags set bits result h.old.held.elf h.new.held.elf out.old out.new }
    ensures full { h.new.full ≡ true }
{
    let mut object = h.take(alloc);
    let number = set_flags(object.as_mut(), set, bits, out);
    h.put(object);
    number
}

/// Stores the byte of gaps. It marks nothing.
///
/// Besides C's usual part: the handle holds an object.
///
/// Source: elf_fill of elf(3E).
#[unsafe(no_mangle)]
pub extern "C" fn elfkit_fill(alloc: Global, h: &mut Handle, byte: u8)
    requires { h.old.full ≡ true }
    ensures edits { h.new.held.elf ≡ stepped (calls.set_fill byte) h.old.held.elf }
    ensures full { h.new.full ≡ true }
{
    let mut object = h.take(alloc);
    set_fill(object.as_mut(), byte);
    h.put(object);
}
