//! From the memory form to the file form.

ghost use Rattle.std.specs.Prelude.{◌≡◌, ◌≤◌, ◌-◌, ◌*◌, ◌%◌, ◌^◌, ◌++◌, length, map, take, IsTrue, OnOk, OnErr, IfErr, None};
ghost use Rattle.std.specs.List.{All, flat_map};
ghost use Rattle.elf_types.specs.Answers.{answered, FollowsBy};
ghost use Rattle.elf_xlate.specs.declared.failure.XlateError.TheVariants.{Memory};
ghost use Rattle.elf_xlate.specs.Fields.{class_of};
ghost use Rattle.elf_xlate.specs.Translation.{encoded, first_unfit, first_not, between, items_between, items_kind, items_count, file_size, to_file_refusal, xlate_refusal};

use crate::byte_order::{Endian, in_form};
use crate::content::Items;
use crate::failure::XlateError;
use crate::fitting::unfit;
use crate::records::{Codec, Form};
use byteorder::{BigEndian, LittleEndian};
use elf_types::{Class, Dyn, Octets, Order, Rel, Rela, Sym};

/// Appends the file form of items. It fails with, in this order: `Unfit` with the index of the
/// first item that does not fit the class, exactly where there is one, then `Memory`. After a
/// refusal `out` is as before.
///
/// Source: gelf_xlatetof of gelf(3E).
pub fn to_file(
    items: &Items,
    class: Class,
    order: Order,
    out: &mut Octets,
) -> Result<(), XlateError>
    ensures ok { OnOk result (out.new ≡ out.old ++ encoded class order items.now) }
    ensures unchanged { OnErr result (out.new ≡ out.old) }
    ensures answer { FollowsBy (λ done. done) xlate_refusal result
        (answered (to_file_refusal class items.now) tt) }
    ensures memory { IfErr result (λ e. e ≡ Memory → first_unfit class items.now ≡ None) }
{
    let length = out.len();
    if in_form!(class, order, encode_items(items, out)) {
        return Ok(());
    }
    out.truncate(length);
    match unfit(items, class) {
        Some(index) => Err(XlateError::Unfit { index }),
        None => Err(XlateError::Memory),
    }
}

/// The most bytes of items that are written at a time.
const AT_ONCE: usize = 1024;

/// Appends the bytes of items, which are tested and written some at a time. Where it returns false,
/// one does not fit or there is no memory, and there may be bytes of some.
#[tactic(auto, unfolding(crate::proofs::Words::items))]
fn encode_items<T: Endian, const WIDE: bool>(items: &Items, out: &mut Octets) -> bool
    ensures fits { IsTrue result → first_unfit (class_of WIDE) items.now ≡ None }
    ensures bytes { IsTrue result → out.new ≡ out.old ++ encoded (class_of WIDE) T.order items.now }
    ensures front { take (length out.old) out.new ≡ out.old }
{
    match items {
        Items::Empty => true,
        Items::Bytes(l) => append_bytes(l.as_slice(), out),
        Items::Half(l) => encode_list::<Form<T, WIDE>, u16, AT_ONCE>(l.as_slice(), out),
        Items::Word(l) => encode_list::<Form<T, WIDE>, u32, AT_ONCE>(l.as_slice(), out),
        Items::Addr(l) => encode_list::<Form<T, WIDE>, u64, AT_ONCE>(l.as_slice(), out),
        Items::Sym(l) => encode_list::<Form<T, WIDE>, Sym, AT_ONCE>(l.as_slice(), out),
        Items::Rel(l) => encode_list::<Form<T, WIDE>, Rel, AT_ONCE>(l.as_slice(), out),
        Items::Rela(l) => encode_list::<Form<T, WIDE>, Rela, AT_ONCE>(l.as_slice(), out),
        Items::Dyn(l) => encode_list::<Form<T, WIDE>, Dyn, AT_ONCE>(l.as_slice(), out),
    }
}

/// Appends bytes as they are.
#[tactic(auto, using(crate::proofs::Bytes::lowest_same))]
fn append_bytes(bytes: &[u8], out: &mut Octets) -> bool
    ensures bytes { IsTrue result → out.new ≡ out.old ++ map (λ n. n % 256) bytes.now }
    ensures front { take (length out.old) out.new ≡ out.old }
{
    out.extend(bytes).is_ok()
}

/// Appends the bytes of a list, of at most `N` bytes at a time.
fn encode_list<C: Codec<R>, R: Copy, const N: usize>(items: &[R], out: &mut Octets) -> bool
    requires least { 64 ≤ N }
    requires most { N ≤ 2 ^ 16 }
    ensures fits { IsTrue result → first_not C.fitting items.now ≡ None }
    ensures bytes { IsTrue result → out.new ≡ out.old ++ flat_map C.bytes_of items.now }
    ensures front { take (length out.old) out.new ≡ out.old }
{
    let size = C::file_size();
    if let Err(_) = out.reserve((items.len() as u64).saturating_mul(size as u64)) {
        return false;
    }
    let zeros = [0; N];
    encode_each::<C, R>(items, &zeros, out)
}

/// Appends the bytes of each item of a list, as many items at a time as have the bytes of `zeros`.
fn encode_each<C: Codec<R>, R: Copy>(items: &[R], zeros: &[u8], out: &mut Octets) -> bool
    requires { 64 ≤ length zeros.now }
    ensures fits { IsTrue result → first_not C.fitting items.now ≡ None }
    ensures bytes { IsTrue result → out.new ≡ out.old ++ flat_map C.bytes_of items.now }
    ensures front { take (length out.old) out.new ≡ out.old }
{
    let size = C::file_size();
    let most = zeros.len() / size;
    let mut rest = items;
    while !rest.is_empty() {
        let count = rest.len().min(most);
        let (some, others) = rest.split_at(count);
        let len = size * count;
        let blank = &zeros[..len];
        if !append_items::<C, R>(some, blank, out) {
            return false;
        }
        rest = others;
    }
    true
}

/// Appends the bytes of items. They are written where they stay, over as many zeros: what is
/// written to a buffer in narrow pieces and copied from it in broad ones makes the processor wait.
fn append_items<C: Codec<R>, R: Copy>(items: &[R], zeros: &[u8], out: &mut Octets) -> bool
    requires { length zeros.now ≡ C.size * length items.now }
    ensures fits { IsTrue result → All (λ x. IsTrue (C.fitting x)) items.now }
    ensures bytes { IsTrue result → out.new ≡ out.old ++ flat_map C.bytes_of items.now }
    ensures front { take (length out.old) out.new ≡ out.old }
{
    if let Err(_) = out.extend(zeros) {
        return false;
    }
    let place = out.len() as usize - zeros.len();
    let (_, room) = out.as_mut_slice().split_at_mut(place);
    put_fitting::<C, R>(items, room)
}

/// Writes the bytes of the items of a list, if each fits its fields. An item is read whole before
/// anything is written, so that the compiler, which can't tell that the two do not overlap, needn't
/// keep the order of reads and writes.
fn put_fitting<C: Codec<R>, R: Copy>(items: &[R], out: &mut [u8]) -> bool
    requires { length out.old ≡ C.size * length items.now }
    ensures fits { IsTrue result → All (λ x. IsTrue (C.fitting x)) items.now }
    ensures bytes { IsTrue result → out.new ≡ flat_map C.bytes_of items.now }
{
    let size = C::file_size();
    for (i, item) in items.iter().enumerate() {
        let item = *item;
        if !C::fits(&item) {
            return false;
        }
        let place = i * size;
        C::encode(&item, &mut out[place..place + size]);
    }
    true
}

/// Writes the file form of the items from the index `from` on and before the index `to`. They are
/// items of the list, all items fit the class, and `out` has just as many bytes as the form. It
/// rejects nothing and takes no memory.
///
/// Source: gelf_xlatetof of gelf(3E).
pub fn put_items(items: &Items, class: Class, order: Order, from: u64, to: u64, out: &mut [u8])
    requires order { from ≤ to }
    requires inside { to ≤ items_count items.now }
    requires room { length out.old ≡ file_size (items_kind items.now) class (to - from) }
    requires fits { first_unfit class items.now ≡ None }
    ensures { out.new ≡ encoded class order (items_between from to items.now) }
{
    in_form!(
        class,
        order,
        encode_range(items, from as usize, to as usize, out)
    )
}

/// Writes a range of items as `put_items` does, in a byte order and a class that are types.
#[tactic(auto, using(crate::proofs::Pieces::range_passes), unfolding(crate::proofs::Words::items))]
fn encode_range<T: Endian, const WIDE: bool>(items: &Items, from: usize, to: usize, out: &mut [u8])
    requires order { from ≤ to }
    requires inside { to ≤ items_count items.now }
    requires room { length out.old ≡ file_size (items_kind items.now) (class_of WIDE) (to - from) }
    requires fits { first_unfit (class_of WIDE) items.now ≡ None }
    ensures { out.new ≡ encoded (class_of WIDE) T.order (items_between from to items.now) }
{
    match items {
        Items::Empty => {}
        Items::Bytes(l) => put_bytes(&l.as_slice()[from..to], out),
        Items::Half(l) => put_list::<Form<T, WIDE>, u16>(&l.as_slice()[from..to], out),
        Items::Word(l) => put_list::<Form<T, WIDE>, u32>(&l.as_slice()[from..to], out),
        Items::Addr(l) => put_list::<Form<T, WIDE>, u64>(&l.as_slice()[from..to], out),
        Items::Sym(l) => put_list::<Form<T, WIDE>, Sym>(&l.as_slice()[from..to], out),
        Items::Rel(l) => put_list::<Form<T, WIDE>, Rel>(&l.as_slice()[from..to], out),
        Items::Rela(l) => put_list::<Form<T, WIDE>, Rela>(&l.as_slice()[from..to], out),
        Items::Dyn(l) => put_list::<Form<T, WIDE>, Dyn>(&l.as_slice()[from..to], out),
    }
}

/// Writes bytes as they are.
#[tactic(auto, using(crate::proofs::Bytes::lowest_same))]
fn put_bytes(bytes: &[u8], out: &mut [u8])
    requires { length out.old ≡ length bytes.now }
    ensures { out.new ≡ map (λ n. n % 256) bytes.now }
{
    out.copy_from_slice(bytes);
}

/// Writes the bytes of each item of a list.
fn put_list<C: Codec<R>, R: Copy>(items: &[R], out: &mut [u8])
    requires room { length out.old ≡ C.size * length items.now }
    requires fits { All (λ x. IsTrue (C.fitting x)) items.now }
    ensures { out.new ≡ flat_map C.bytes_of items.now }
{
    let size = C::file_size();
    for (i, item) in items.iter().enumerate() {
        let item = *item;
        let at = i * size;
        C::encode(&item, &mut out[at..at + size]);
    }
}
