//! From one byte order to another, in place.

ghost use Rattle.std.specs.Prelude.{◌≡◌, ◌≢◌, ◌/◌, ◌%◌, length, IsTrue, IfSome};
ghost use Rattle.std.specs.List.{flat_map};
ghost use Rattle.elf_types.specs.declared.records.Kind.TheVariants as kinds;
ghost use Rattle.elf_xlate.specs.Fields.{class_of};
ghost use Rattle.elf_xlate.specs.Translation.{decoded, encoded, items_of, is_whole, TranslatesInPlace};

use crate::byte_order::Endian;
use crate::decode::is_whole;
use crate::failure::XlateError;
use crate::records::{Codec, Form};
use byteorder::{BigEndian, LittleEndian};
use elf_types::{Class, Dyn, Kind, Order, Rel, Rela, Sym};

/// Reads bytes as items of a kind in the order `from`, and puts them in their place in the order
/// `to`. It fails with `Ragged` exactly where the size of the kind's item does not divide the
/// number of bytes; the bytes stay then. It takes no memory.
///
/// Source: gABI chapter 4, "Data Representation"; gelf_xlatetom and gelf_xlatetof of gelf(3E).
pub fn translate_in_place(
    kind: Kind,
    class: Class,
    from: Order,
    to: Order,
    bytes: &mut [u8],
) -> Result<(), XlateError>
    requires { kind ≢ kinds.Empty }
    ensures { TranslatesInPlace class to (decoded kind class from bytes.old) result
        bytes.old bytes.new }
{
    if !is_whole(kind, class, bytes.len()) {
        return Err(XlateError::Ragged);
    }
    turn_order(kind, class, from, to, bytes);
    Ok(())
}

/// Puts whole items of a kind from one order into another.
fn turn_order(kind: Kind, class: Class, from: Order, to: Order, bytes: &mut [u8])
    requires some { kind ≢ kinds.Empty }
    requires whole { IsTrue (is_whole kind class (length bytes.old)) }
    ensures { IfSome (decoded kind class from bytes.old) (λ items.
        bytes.new ≡ encoded class to items) }
{
    if from == to {
        return;
    }
    match from {
        Order::Least => turn_class::<LittleEndian, BigEndian>(kind, class, bytes),
        Order::Greatest => turn_class::<BigEndian, LittleEndian>(kind, class, bytes),
    }
}

/// Puts whole items of a kind from one order into another, which are types.
fn turn_class<T: Endian, U: Endian>(kind: Kind, class: Class, bytes: &mut [u8])
    requires some { kind ≢ kinds.Empty }
    requires whole { IsTrue (is_whole kind class (length bytes.old)) }
    ensures { IfSome (decoded kind class T.order bytes.old) (λ items.
        bytes.new ≡ encoded class U.order items) }
{
    match class {
        Class::C32 => turn_items::<T, U, false>(kind, bytes),
        Class::C64 => turn_items::<T, U, true>(kind, bytes),
    }
}

/// The same in a class that is a type.
fn turn_items<T: Endian, U: Endian, const WIDE: bool>(kind: Kind, bytes: &mut [u8])
    requires some { kind ≢ kinds.Empty }
    requires whole { IsTrue (is_whole kind (class_of WIDE) (length bytes.old)) }
    ensures { IfSome (decoded kind (class_of WIDE) T.order bytes.old) (λ items.
        bytes.new ≡ encoded (class_of WIDE) U.order items) }
{
    match kind {
        Kind::Empty | Kind::Bytes => {}
        Kind::Half => turn_list::<Form<T, WIDE>, Form<U, WIDE>, u16>(bytes),
        Kind::Word => turn_list::<Form<T, WIDE>, Form<U, WIDE>, u32>(bytes),
        Kind::Addr => turn_list::<Form<T, WIDE>, Form<U, WIDE>, u64>(bytes),
        Kind::Sym => turn_list::<Form<T, WIDE>, Form<U, WIDE>, Sym>(bytes),
        Kind::Rel => turn_list::<Form<T, WIDE>, Form<U, WIDE>, Rel>(bytes),
        Kind::Rela => turn_list::<Form<T, WIDE>, Form<U, WIDE>, Rela>(bytes),
        Kind::Dyn => turn_list::<Form<T, WIDE>, Form<U, WIDE>, Dyn>(bytes),
    }
}

/// Reads each item of whole bytes in one form, and puts it in its place in another, which has as
/// many bytes for it and room for each.
fn turn_list<C: Codec<R>, D: Codec<R>, R: Drop>(bytes: &mut [u8])
    requires whole { length bytes.old % C.size ≡ 0 }
    requires size { D.size ≡ C.size }
    requires fits { (x : R) → IsTrue (C.fitting x) → IsTrue (D.fitting x) }
    ensures { bytes.new ≡ flat_map D.bytes_of
        (items_of C.item_of C.size (length bytes.old / C.size) bytes.old) }
{
    let size = C::file_size();
    let count = bytes.len() / size;
    for i in 0..count {
        let at = i * size;
        let place = &mut bytes[at..at + size];
        let item = C::decode(place);
        D::encode(&item, place);
    }
}
