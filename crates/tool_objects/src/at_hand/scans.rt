//! Looking for items that pass a test, where their bytes are: those that do not are passed over
//! with one look at each.

ghost use Rattle.std.specs.Prelude.{◌≡◌, ◌⊎◌, ◌<◌, ◌≤◌, ◌^◌, ℕ, Bool as TheBool, false, length, Some, IsTrue, IfSome};
ghost use Rattle.gelf_view.specs.elf_xlate.Translation.{is_whole};
ghost use Rattle.gelf_view.specs.section_data.Held.{items_of_bytes};
ghost use Rattle.tool_objects.specs.AtHand.Items.{held_items, AreWhole, IsNextPassing};

use crate::at_hand::items::{ItemBytes, Span, item_of, most_items};
use elf_types::{Class, Order};
use gelf_view::prelude::Item;

/// A test of items by their indexes.
pub trait ItemTest<T> {
    // Whether it holds of an item, by its index.
    ghost holds: { Self → ℕ → T → TheBool };

    /// Whether the test holds of item `i`.
    fn holds(&self, i: u64, item: &T) -> bool
        ensures { result ≡ holds self.now i item.now };
}

/// The lesser of a number and an end, where there is one.
fn lesser(count: u64, end: Option<u64>) -> u64
    ensures most { result ≤ count }
    ensures either { (count ≤ result) ⊎ (end ≡ Some result) }
{
    match end {
        Some(n) => if n < count { n } else { count },
        None => count,
    }
}

/// The least index from one on of an item that passes a test, of those that bytes hold. None passes
/// it from the end on, where there is one.
#[inline(always)]
fn next_in<T: Item, C: ItemTest<T>>(
    test: &C,
    bytes: &[u8],
    class: Class,
    order: Order,
    span: Span,
) -> Option<u64>
    requires whole { IsTrue (is_whole T.kind class (length bytes.now)) }
    requires late { IfSome span.to (λ to. (i : ℕ) (x : T) → to ≤ i
        → C.holds test.now i x ≡ false) }
    ensures next { IsNextPassing (C.holds test.now)
        (T.list_of (items_of_bytes T.kind class order bytes.now)) span.from result }
    ensures within { IfSome result (λ i. (span.from ≤ i) × (i < 2 ^ 63)) }
{
    let count = lesser(most_items::<T>(bytes, class, order), span.to);
    for i in span.from..count {
        match item_of::<T>(bytes, i, class, order) {
            Some(item) => {
                if test.holds(i, &item) {
                    return Some(i);
                }
            }
            None => return None,
        }
    }
    None
}

/// The least index from one on of an item that passes a test, with the class and the byte order
/// looked at once.
fn next_by<T: Item, C: ItemTest<T>>(
    test: &C,
    bytes: &[u8],
    class: Class,
    order: Order,
    span: Span,
) -> Option<u64>
    requires whole { IsTrue (is_whole T.kind class (length bytes.now)) }
    requires late { IfSome span.to (λ to. (i : ℕ) (x : T) → to ≤ i
        → C.holds test.now i x ≡ false) }
    ensures next { IsNextPassing (C.holds test.now)
        (T.list_of (items_of_bytes T.kind class order bytes.now)) span.from result }
    ensures within { IfSome result (λ i. (span.from ≤ i) × (i < 2 ^ 63)) }
{
    match (class, order) {
        (Class::C32, Order::Least) => {
            next_in::<T, C>(test, bytes, Class::C32, Order::Least, span)
        }
        (Class::C32, Order::Greatest) => {
            next_in::<T, C>(test, bytes, Class::C32, Order::Greatest, span)
        }
        (Class::C64, Order::Least) => {
            next_in::<T, C>(test, bytes, Class::C64, Order::Least, span)
        }
        (Class::C64, Order::Greatest) => {
            next_in::<T, C>(test, bytes, Class::C64, Order::Greatest, span)
        }
    }
}

/// The least index of a span at which an item passes a test, of the items that bytes hold, or None
/// where there is none; none passes it after the span. Nothing is read, and nothing takes memory.
pub fn next_found<T: Item, C: ItemTest<T>>(
    test: &C,
    items: &ItemBytes<'_>,
    span: Span,
) -> Option<u64>
    requires whole { AreWhole T.kind items.now }
    requires late { IfSome span.to (λ to. (i : ℕ) (x : T) → to ≤ i
        → C.holds test.now i x ≡ false) }
    ensures next { IsNextPassing (C.holds test.now)
        (held_items T.kind T.list_of items.now) span.from
        result }
    ensures within { IfSome result (λ i. (span.from ≤ i) × (i < 2 ^ 63)) }
{
    next_by::<T, C>(test, items.bytes, items.class, items.order, span)
}
