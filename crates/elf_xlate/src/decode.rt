//! From the file form to the memory form.

ghost use Rattle.std.specs.Prelude.{◌≡◌, ◌≢◌, ◌*◌, ◌/◌, ◌%◌, length, IfOk, IfErr, IsTrue, IsSome, None, Some};
ghost use Rattle.std.specs.List.{All};
ghost use Rattle.elf_types.specs.Answers.{FollowsBy};
ghost use Rattle.elf_types.specs.declared.records.Kind.TheVariants as kinds;
ghost use Rattle.elf_xlate.specs.declared.failure.XlateError.TheVariants.{Memory};
ghost use Rattle.elf_xlate.specs.Fields.{class_of};
ghost use Rattle.elf_xlate.specs.Items.{item_size};
ghost use Rattle.elf_xlate.specs.Translation.{decoded, items_of, items_kind, items_count, is_whole, first_unfit, AreItems, to_memory_answer, xlate_refusal};

use crate::byte_order::{Endian, in_form};
use crate::content::Items;
use crate::failure::XlateError;
use crate::records::{Codec, Form};
use crate::sizes::item_size;
use byteorder::{BigEndian, LittleEndian};
use elf_types::{Class, Dyn, ElfError, Kind, List, Order, Rel, Rela, Sym};
use std::alloc::Global;

/// The items of a section's data that bytes hold. It fails with, in this order: `Ragged` exactly
/// where the size of the kind's item does not divide the number of bytes, then `Memory`. The kind
/// `Empty` gives `Items::Empty`, whatever the bytes are.
///
/// Source: gelf_xlatetom of gelf(3E).
#[tactic(auto, using(crate::proofs::Decoded::decoded_kind, crate::proofs::Decoded::decoded_count))]
pub fn to_memory(
    alloc: Global,
    kind: Kind,
    class: Class,
    order: Order,
    bytes: &[u8],
) -> Result<Items, XlateError>
    ensures answer { FollowsBy (λ items. items) xlate_refusal result
        (to_memory_answer kind class order bytes.now) }
    ensures memory { IfErr result (λ e. e ≡ Memory → IsSome (decoded kind class order bytes.now)) }

    // What the items are good for: they are of the kind, have all the bytes, and can be written
    // back.
    ensures kind { IfOk result (λ items. items_kind items ≡ kind) }
    ensures count { kind ≢ kinds.Empty → IfOk result (λ items.
        items_count items * item_size kind class ≡ length bytes.now) }
    ensures ranged { IfOk result AreItems }
    ensures fits { IfOk result (λ items. first_unfit class items ≡ None) }
{
    if !is_whole(kind, class, bytes.len()) {
        return Err(XlateError::Ragged);
    }
    match in_form!(class, order, decode_items(alloc, kind, bytes)) {
        Ok(items) => Ok(items),
        Err(_) => Err(XlateError::Memory),
    }
}

/// Whether so many bytes are whole items of a kind.
pub fn is_whole(kind: Kind, class: Class, len: usize) -> bool
    ensures { result ≡ is_whole kind class len }
{
    kind == Kind::Empty || len as u64 % item_size(kind, class) == 0
}

/// The items of whole bytes in a byte order and a class that are types.
fn decode_items<T: Endian, const WIDE: bool>(
    alloc: Global,
    kind: Kind,
    bytes: &[u8],
) -> Result<Items, ElfError>
    requires { IsTrue (is_whole kind (class_of WIDE) (length bytes.now)) }
    ensures value { IfOk result (λ items.
        decoded kind (class_of WIDE) T.order bytes.now ≡ Some items) }
    ensures ranged { IfOk result AreItems }
    ensures fits { IfOk result (λ items. first_unfit (class_of WIDE) items ≡ None) }
{
    match kind {
        Kind::Empty => Ok(Items::Empty),
        Kind::Bytes => Ok(Items::Bytes(List::from_slice(alloc, bytes)?)),
        Kind::Half => Ok(Items::Half(decode_list::<Form<T, WIDE>, u16>(alloc, bytes)?)),
        Kind::Word => Ok(Items::Word(decode_list::<Form<T, WIDE>, u32>(alloc, bytes)?)),
        Kind::Addr => Ok(Items::Addr(decode_list::<Form<T, WIDE>, u64>(alloc, bytes)?)),
        Kind::Sym => Ok(Items::Sym(decode_list::<Form<T, WIDE>, Sym>(alloc, bytes)?)),
        Kind::Rel => Ok(Items::Rel(decode_list::<Form<T, WIDE>, Rel>(alloc, bytes)?)),
        Kind::Rela => Ok(Items::Rela(decode_list::<Form<T, WIDE>, Rela>(alloc, bytes)?)),
        Kind::Dyn => Ok(Items::Dyn(decode_list::<Form<T, WIDE>, Dyn>(alloc, bytes)?)),
    }
}

/// The items of a list of whole items. It fails with `Memory` alone.
pub fn decode_list<C: Codec<R>, R: Drop>(alloc: Global, bytes: &[u8]) -> Result<List<R>, ElfError>
    requires { length bytes.now % C.size ≡ 0 }
    ensures ok { IfOk result (λ l.
        l ≡ items_of C.item_of C.size (length bytes.now / C.size) bytes.now) }
    ensures count { IfOk result (λ l. length l ≡ length bytes.now / C.size) }
    ensures ranged { IfOk result (λ l. All C.in_range l) }
    ensures fits { IfOk result (λ l. All (λ x. IsTrue (C.fitting x)) l) }
    ensures err { IfErr result (λ e. e ≡ ElfError.Memory) }
{
    let size = C::file_size();
    let count = bytes.len() / size;
    let mut items = List::with_capacity(alloc, count as u64)?;
    for i in 0..count {
        let at = i * size;
        items.push(C::decode(&bytes[at..at + size]))?;
    }
    Ok(items)
}
