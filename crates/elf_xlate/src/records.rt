//! Items as records: how one item is read and written in a byte order and a class.

ghost use Rattle.std.specs.Prelude.{ℕ, List, Bool, true, length, IsTrue, ◌≡◌, ◌≤◌, ◌<◌, ◌^◌};
ghost use Rattle.elf_types.specs.declared.records.Kind.TheVariants as kinds;
ghost use Rattle.elf_xlate.specs.Fields.{class_of, fits};
ghost use Rattle.elf_xlate.specs.Items.{item_size, half_of, half_bytes, word_of, word_bytes, addr_of, addr_bytes};

use crate::byte_order::Endian;
use crate::fields::{
    get_field, get_four, get_native, get_two, put_field, put_four, put_native, put_two,
};
use crate::fitting::{Fit, class};
use std::marker::PhantomData;

/// A byte order and a class, class 64 or class 32.
pub struct Form<T, const WIDE: bool> {
    order: PhantomData<T>,
}

/// How items of a type are read and written in a form.
pub trait Codec<R> {
    // The number of bytes of an item.
    ghost size: { ℕ };

    // The item that bytes hold.
    ghost item_of: { List ℕ → R };

    // The bytes of an item.
    ghost bytes_of: { R → List ℕ };

    // Each field of an item is in the range of its type.
    ghost in_range: { R → Type 0 };

    // Whether an item fits its fields.
    ghost fitting: { R → Bool };

    /// The number of bytes of an item.
    fn file_size() -> usize
        ensures { result ≡ size };

    /// The item that bytes hold.
    fn decode(bytes: &[u8]) -> R
        requires { length bytes.now ≡ size }
        ensures value { result ≡ item_of bytes.now }
        ensures ranged { in_range result }
        ensures fits { IsTrue (fitting result) };

    /// Whether the item fits its fields.
    fn fits(item: &R) -> bool
        ensures { result ≡ fitting item.now };

    /// Writes the item's bytes.
    fn encode(item: &R, out: &mut [u8])
        requires room { length out.old ≡ size }
        requires fits { IsTrue (fitting item.now) }
        ensures { out.new ≡ bytes_of item.now };

    // An item has a byte.
    ghost is_some: { 0 < size };

    // An item has at most 64 bytes.
    ghost is_small: { size ≤ 64 };
}

/// The item that bytes hold.
pub fn decode_one<C: Codec<R>, R>(bytes: &[u8]) -> R
    requires { length bytes.now ≡ C.size }
    ensures value { result ≡ C.item_of bytes.now }
    ensures ranged { C.in_range result }
    ensures fits { IsTrue (C.fitting result) }
{
    C::decode(bytes)
}

/// Writes an item's bytes.
pub fn encode_one<C: Codec<R>, R>(item: &R, out: &mut [u8])
    requires room { length out.old ≡ C.size }
    requires fits { IsTrue (C.fitting item.now) }
    ensures { out.new ≡ C.bytes_of item.now }
{
    C::encode(item, out);
}

impl<T: Endian, const WIDE: bool> Codec<u16> for Form<T, WIDE> {
    ghost use Rattle.std.proofs.Common.{rules};

    ghost size = { item_size kinds.Half (class_of WIDE) };

    ghost item_of = { half_of (class_of WIDE) T.order };

    ghost bytes_of = { half_bytes (class_of WIDE) T.order };

    ghost in_range = { λ n. n < 2 ^ 16 };

    ghost fitting = { λ _. true };

    ghost is_some = { Prim.search rules };

    ghost is_small = { Prim.search rules };

    fn file_size() -> usize {
        2
    }

    #[tactic(auto, unfolding(crate::specs::Items::half_of, crate::specs::Items::half_fields))]
    fn decode(bytes: &[u8]) -> u16 {
        get_field!(T, WIDE, bytes, 0:2, 0:2)
    }

    fn fits(_item: &u16) -> bool {
        true
    }

    #[tactic(auto, using(crate::proofs::Tables::half_laid), unfolding(crate::proofs::Words::half))]
    fn encode(item: &u16, out: &mut [u8]) {
        put_field!(T, WIDE, out, 0:2, 0:2, *item);
    }
}

impl<T: Endian, const WIDE: bool> Codec<u32> for Form<T, WIDE> {
    ghost use Rattle.std.proofs.Common.{rules};

    ghost size = { item_size kinds.Word (class_of WIDE) };

    ghost item_of = { word_of (class_of WIDE) T.order };

    ghost bytes_of = { word_bytes (class_of WIDE) T.order };

    ghost in_range = { λ n. n < 2 ^ 32 };

    ghost fitting = { λ _. true };

    ghost is_some = { Prim.search rules };

    ghost is_small = { Prim.search rules };

    fn file_size() -> usize {
        4
    }

    #[tactic(auto, unfolding(crate::specs::Items::word_of, crate::specs::Items::word_fields))]
    fn decode(bytes: &[u8]) -> u32 {
        get_field!(T, WIDE, bytes, 0:4, 0:4)
    }

    fn fits(_item: &u32) -> bool {
        true
    }

    #[tactic(auto, using(crate::proofs::Tables::word_laid), unfolding(crate::proofs::Words::word))]
    fn encode(item: &u32, out: &mut [u8]) {
        put_field!(T, WIDE, out, 0:4, 0:4, *item);
    }
}

impl<T: Endian, const WIDE: bool> Codec<u64> for Form<T, WIDE> {
    ghost use Rattle.std.proofs.Common.{rules};

    ghost size = { item_size kinds.Addr (class_of WIDE) };

    ghost item_of = { addr_of (class_of WIDE) T.order };

    ghost bytes_of = { addr_bytes (class_of WIDE) T.order };

    ghost in_range = { λ n. n < 2 ^ 64 };

    ghost fitting = { fits (class_of WIDE) };

    ghost is_some = { Prim.search rules };

    ghost is_small = { Prim.search rules };

    fn file_size() -> usize {
        if WIDE { 8 } else { 4 }
    }

    #[tactic(auto, unfolding(crate::specs::Items::addr_of, crate::specs::Items::addr_fields))]
    fn decode(bytes: &[u8]) -> u64 {
        get_field!(T, WIDE, bytes, 0:4, 0:8)
    }

    fn fits(item: &u64) -> bool {
        item.fits_class(class::<WIDE>())
    }

    #[tactic(auto, using(crate::proofs::Tables::addr_laid), unfolding(crate::proofs::Words::addr))]
    fn encode(item: &u64, out: &mut [u8]) {
        put_field!(T, WIDE, out, 0:4, 0:8, *item);
    }
}
