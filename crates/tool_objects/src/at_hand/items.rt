//! The items of a section of which the bytes are in memory: each is told from the bytes alone.

ghost use Rattle.std.specs.Prelude.{◌≡◌, ◌*◌, ◌/◌, ◌%◌, ◌<◌, ◌≤◌, ◌^◌, length, take, drop, slice_get, IsTrue, IfSome, None};
ghost use Rattle.gelf_view.specs.elf_xlate.Translation.{is_whole};
ghost use Rattle.gelf_view.specs.section_data.Held.{items_of_bytes};
ghost use Rattle.tool_objects.specs.AtHand.Items.{AreSectionItems, HoldsItems};

use crate::at_hand::held::held_bytes;
use elf_types::{Class, DataId, Order, ScnId};
use gelf_view::item_count;
use gelf_view::prelude::{Elf, Item};
use tool_output::prelude::Source;

/// The bytes of the items of a section, and by what they are read.
#[derive(Clone, Copy)]
pub struct ItemBytes<'a> {
    /// The class of the object.
    pub class: Class,
    /// Its byte order.
    pub order: Order,
    /// The bytes.
    pub bytes: &'a [u8],
}

/// Indexes of items from one on, and below another where there is an end.
#[derive(Clone, Copy)]
pub struct Span {
    /// The first.
    pub from: u64,
    /// One after the last, or None where there is no end.
    pub to: Option<u64>,
}

/// The bytes of the items of a section, where they are in memory: the section was read, it has one
/// piece of this kind, and that was not edited. Nothing is read.
pub fn item_bytes<S: Source, T: Item>(elf: &Elf<S>, s: ScnId) -> Option<&[u8]>
    ensures { IfSome result (λ b. HoldsItems T.kind T.list_of elf.now s.0 b.now) }
{
    let d = DataId {
        section: s.0,
        piece: 0,
    };
    match item_count::<S, T>(elf, d) {
        Ok(_) => held_bytes(elf, d),
        Err(_) => None,
    }
}

/// The bytes of the items of a section, where they are loaded, with the class and the byte order of
/// the object.
#[tactic(auto, using(crate::proofs::at_hand::HeldItems::are_items), unfolding(crate::specs::Passed::header_of))]
pub fn items_at_hand<S: Source, T: Item>(elf: &Elf<S>, s: ScnId) -> Option<ItemBytes<'_>>
    ensures { IfSome result (λ b. AreSectionItems T.kind T.list_of elf.now s.0 b) }
{
    let header = elf.ehdr();
    match item_bytes::<S, T>(elf, s) {
        Some(bytes) => Some(ItemBytes {
            class: header.class,
            order: header.order,
            bytes,
        }),
        None => None,
    }
}

/// The bytes of item `i` of whole items of a size, where there is such an item.
#[tactic(auto, using(crate::proofs::Passed::item_bytes))]
#[inline(always)]
fn bytes_of_item(bytes: &[u8], size: usize, i: u64) -> Option<&[u8]>
    requires some { 0 < size }
    requires whole { length bytes.now % size ≡ 0 }
    ensures there { IfSome result (λ b. b.now ≡ take size (drop (i * size) bytes.now)) }
    ensures inside { IfSome result (λ b. i < length bytes.now / size) }
    ensures len { IfSome result (λ b. length b.now ≡ size) }
    ensures past { result ≡ None → length bytes.now / size ≤ i }
{
    let at = (i as usize).checked_mul(size)?;
    if bytes.len() <= at {
        return None;
    }
    Some(&bytes[at..at + size])
}

/// Item `i` of the items that bytes hold, where there is one. It takes no memory.
#[inline(always)]
pub fn item_of<T: Item>(bytes: &[u8], i: u64, class: Class, order: Order) -> Option<T>
    requires { IsTrue (is_whole T.kind class (length bytes.now)) }
    ensures { result ≡ slice_get (T.list_of (items_of_bytes T.kind class order bytes.now)) i }
{
    match bytes_of_item(bytes, T::size(class), i) {
        Some(item) => Some(T::get(class, order, item)),
        None => None,
    }
}

/// The number of bytes of a slice, which is below 2^63.
fn count_bytes(bytes: &[u8]) -> usize
    ensures exact { result ≡ length bytes.now }
    ensures small { result < 2 ^ 63 }
{
    bytes.len()
}

/// A number of items that bytes do not pass: as many as they hold.
pub fn most_items<T: Item>(bytes: &[u8], class: Class, order: Order) -> u64
    requires { IsTrue (is_whole T.kind class (length bytes.now)) }
    ensures items { length (T.list_of (items_of_bytes T.kind class order bytes.now)) ≤ result }
    ensures small { result < 2 ^ 63 }
{
    let count = count_bytes(bytes);
    (count / T::size(class)) as u64
}
