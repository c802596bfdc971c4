//! The calls that add a piece of bytes to a section, and that put bytes in a piece's place. C hands
//! over the bytes as they are in the file.

ghost use Rattle.std.specs.Prelude.{◌≡◌};
ghost use Rattle.elf_object.specs.Words.{Edits, result_map};
ghost use Rattle.elf_object.specs.Calls as calls;
ghost use Rattle.elf_descriptor.specs.Edits.{StepsTo, stepped, numbers_of};
ghost use Rattle.c_calls.specs.Editing.Edited.{Edited, Copied, MakesPiece};

use c_handles::lent::LentImage;
use c_handles::objects::OpenObject;
use c_records::code_of;
use elf_descriptor::Elf;
use elf_types::{DataId, ElfError, Octets, ScnId};
use elf_xlate::Items;

/// Gives a piece these bytes. A refusal drops them.
fn replace_bytes(elf: &mut Elf<LentImage>, d: DataId, bytes: Octets) -> Result<(), ElfError>
    ensures answer { result ≡ (calls.replace d.section d.piece (Items.Bytes bytes)).answer
        elf.old.o }
    ensures state { StepsTo result elf.old elf.new
        (stepped (calls.replace d.section d.piece (Items.Bytes bytes)) elf.old) }
{
    match elf.replace(d, Items::Bytes(bytes)) {
        Ok(()) => Ok(()),
        Err((_, e)) => Err(e),
    }
}

/// Adds a piece of these bytes. A refusal drops them.
fn append_bytes(
    elf: &mut Elf<LentImage>,
    s: ScnId,
    bytes: Octets,
    align: u64,
) -> Result<DataId, ElfError>
    ensures { Edits (result_map numbers_of result) elf.old elf.new
        ((calls.newdata_aligned s.0 (Items.Bytes bytes) align).answer elf.old.o)
        (stepped (calls.newdata_aligned s.0 (Items.Bytes bytes) align) elf.old) }
{
    match elf.newdata_aligned(s, Items::Bytes(bytes), align) {
        Ok(d) => Ok(d),
        Err((_, e)) => Err(e),
    }
}

/// Gives a piece bytes that are the object's own.
fn put_own(object: &mut OpenObject, d: DataId, bytes: Octets) -> u32
    ensures { Edited (calls.replace d.section d.piece (Items.Bytes bytes)) result
        object.old.elf object.new.elf }
{
    match replace_bytes(&mut object.elf, d, bytes) {
        Ok(()) => 0,
        Err(e) => code_of(e),
    }
}

/// Adds a piece of bytes that are the object's own, and gives its number.
fn add_own(object: &mut OpenObject, s: ScnId, bytes: Octets, align: u64, out: &mut u32) -> u32
    ensures { MakesPiece s.0 bytes align result object.old.elf object.new.elf out.old out.new }
{
    match append_bytes(&mut object.elf, s, bytes, align) {
        Ok(d) => {
            *out = d.piece;
            0
        }
        Err(e) => code_of(e),
    }
}

/// Gives a piece a copy of these bytes in place of what it holds; it becomes own and marked, and
/// keeps its alignment. It fails with, in this order: `Memory`, `NoSection`, `Reserved` for section
/// 0, `NoData`.
///
/// Source: elf_flagdata of elf(3E), of data that a program wrote.
pub fn put_piece_bytes(object: &mut OpenObject, d: DataId, bytes: &[u8]) -> u32
    ensures { Copied (calls.replace d.section d.piece (Items.Bytes bytes.now)) result
        object.old.elf object.new.elf }
{
    match Octets::from_slice(object.elf.alloc(), bytes) {
        Ok(copy) => put_own(object, d, copy),
        Err(e) => code_of(e),
    }
}

/// Adds a piece with a copy of these bytes to a section, with that alignment in it, and gives its
/// number in the section; it is own and marked. It fails with, in this order: `Memory`,
/// `NoSection`, `Reserved` for section 0, `TooMany` at 2^20 pieces, `BadAlign` where the alignment
/// is no power of two or is greater than 2^20; and `Memory`.
///
/// Source: elf_newdata of elf(3E).
pub fn add_bytes(object: &mut OpenObject, s: ScnId, bytes: &[u8], align: u64, out: &mut u32) -> u32
    ensures { MakesPiece s.0 bytes.now align result object.old.elf object.new.elf
        out.old out.new }
{
    match Octets::from_slice(object.elf.alloc(), bytes) {
        Ok(copy) => add_own(object, s, copy, align, out),
        Err(e) => code_of(e),
    }
}
