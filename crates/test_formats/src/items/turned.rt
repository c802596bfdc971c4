//! Items that are put from one byte order into the other, in place.

use elf_types::{Class, Kind, Octets, Order};
use elf_xlate::{Items, XlateError, to_file, translate_in_place};
use test_kit_images::ClassAndOrder;
use test_kit_rows::{failed, failed_by, same, same_bytes};

/// The other byte order.
fn other_order(order: Order) -> Order {
    match order {
        Order::Least => Order::Greatest,
        Order::Greatest => Order::Least,
    }
}

/// Whether bytes of a kind become these by a translation in place, and then what they were.
fn are_turned(
    rt: &HostRuntime,
    kind: Kind,
    form: ClassAndOrder,
    wanted: &[u8],
    bytes: &mut Octets,
    first: &[u8],
) -> bool {
    let (class, order) = form;
    let other = other_order(order);
    if matches!(kind, Kind::Empty) {
        return false;
    }
    let there = translate_in_place(kind, class, order, other, bytes.as_mut_slice());
    if !same(rt, &there, &Ok(())) || !same_bytes(rt, bytes.as_slice(), wanted) {
        return false;
    }
    let back = translate_in_place(kind, class, other, order, bytes.as_mut_slice());
    same(rt, &back, &Ok(())) && same_bytes(rt, bytes.as_slice(), first)
}

/// Whether a copy of the bytes does.
fn is_copy_turned(
    rt: &HostRuntime,
    kind: Kind,
    form: ClassAndOrder,
    bytes: &[u8],
    wanted: &[u8],
) -> bool {
    match Octets::from_slice(rt.alloc(), bytes) {
        Ok(mut copy) => are_turned(rt, kind, form, wanted, &mut copy, bytes),
        Err(e) => failed(rt, e),
    }
}

/// Whether the bytes of items in a form become those of the other byte order, in place.
pub fn is_turned(rt: &HostRuntime, items: &Items, form: ClassAndOrder, bytes: &[u8]) -> bool {
    let mut wanted = Octets::new(rt.alloc());
    match to_file(items, form.0, other_order(form.1), &mut wanted) {
        Ok(()) => is_copy_turned(rt, items.kind(), form, bytes, wanted.as_slice()),
        Err(e) => failed_by(rt, &e),
    }
}

/// Whether three bytes, which are no whole items of a kind, are rejected and stay.
pub fn three_stay(rt: &HostRuntime, kind: Kind) -> bool {
    let mut bytes = *b"odd";
    if matches!(kind, Kind::Empty) {
        return false;
    }
    let turned = translate_in_place(kind, Class::C64, Order::Least, Order::Greatest, &mut bytes);
    same(rt, &turned, &Err(XlateError::Ragged)) && same_bytes(rt, &bytes, b"odd")
}
