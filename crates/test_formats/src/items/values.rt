//! One item of any kind.

ghost use Rattle.std.specs.Prelude.{◌≡◌, IsTrue, length};
ghost use Rattle.elf_xlate.specs.Items.{item_size};

use elf_types::{Dyn, Kind, List, Rel, Rela, Sym};
use elf_xlate::{
    Items, get_addr, get_dyn, get_half, get_rel, get_rela, get_sym, get_word, item_size,
};
use std::alloc::Global;
use test_kit_images::ClassAndOrder;
use test_kit_rows::{other, same};

/// An item of a section's data.
#[derive(Clone, Copy)]
pub enum Value {
    /// A two-byte number.
    Half(u16),
    /// A four-byte number.
    Word(u32),
    /// An address.
    Addr(u64),
    /// A symbol.
    Sym(Sym),
    /// A relocation without an addend.
    Rel(Rel),
    /// A relocation with an addend.
    Rela(Rela),
    /// An entry of the dynamic section.
    Dyn(Dyn),
}

/// The kind of an item.
pub fn kind(value: Value) -> Kind {
    match value {
        Value::Half(_) => Kind::Half,
        Value::Word(_) => Kind::Word,
        Value::Addr(_) => Kind::Addr,
        Value::Sym(_) => Kind::Sym,
        Value::Rel(_) => Kind::Rel,
        Value::Rela(_) => Kind::Rela,
        Value::Dyn(_) => Kind::Dyn,
    }
}

/// Whether the first of some items is that one.
pub fn is_first(rt: &HostRuntime, items: &Items, value: Value) -> bool {
    match (items, value) {
        (Items::Half(l), Value::Half(v)) => same(rt, &l.get(0), &Some(v)),
        (Items::Word(l), Value::Word(v)) => same(rt, &l.get(0), &Some(v)),
        (Items::Addr(l), Value::Addr(v)) => same(rt, &l.get(0), &Some(v)),
        (Items::Sym(l), Value::Sym(v)) => same(rt, &l.get(0), &Some(v)),
        (Items::Rel(l), Value::Rel(v)) => same(rt, &l.get(0), &Some(v)),
        (Items::Rela(l), Value::Rela(v)) => same(rt, &l.get(0), &Some(v)),
        (Items::Dyn(l), Value::Dyn(v)) => same(rt, &l.get(0), &Some(v)),
        _ => other(rt, &items.kind(), "the kind of the value"),
    }
}

/// Whether there are as many bytes as an item of a kind has.
fn is_whole(kind: Kind, form: ClassAndOrder, bytes: &[u8]) -> bool
    ensures { IsTrue result → length bytes.now ≡ item_size kind form.0 }
{
    bytes.len() as u64 == item_size(kind, form.0)
}

/// Whether bytes are that item alone.
pub fn is_single(rt: &HostRuntime, form: ClassAndOrder, bytes: &[u8], value: Value) -> bool {
    let (class, order) = form;
    match value {
        Value::Half(v) => is_whole(Kind::Half, form, bytes)
            && same(rt, &get_half(class, order, bytes), &v),
        Value::Word(v) => is_whole(Kind::Word, form, bytes)
            && same(rt, &get_word(class, order, bytes), &v),
        Value::Addr(v) => is_whole(Kind::Addr, form, bytes)
            && same(rt, &get_addr(class, order, bytes), &v),
        Value::Sym(v) => is_whole(Kind::Sym, form, bytes)
            && same(rt, &get_sym(class, order, bytes), &v),
        Value::Rel(v) => is_whole(Kind::Rel, form, bytes)
            && same(rt, &get_rel(class, order, bytes), &v),
        Value::Rela(v) => is_whole(Kind::Rela, form, bytes)
            && same(rt, &get_rela(class, order, bytes), &v),
        Value::Dyn(v) => is_whole(Kind::Dyn, form, bytes)
            && same(rt, &get_dyn(class, order, bytes), &v),
    }
}

/// A list of two items, or of fewer where there is no memory.
fn pair<T: Copy + Drop>(alloc: Global, first: T, second: T) -> List<T> {
    let mut list = List::new(alloc);
    let _first_done = list.push(first).is_ok();
    let _second_done = list.push(second).is_ok();
    list
}

/// Two items of one kind, and none where their kinds differ, are those of numbers that fit each
/// class, or there is no memory.
pub fn of_two(alloc: Global, first: Value, second: Value) -> Items {
    match (first, second) {
        (Value::Addr(a), Value::Addr(b)) => Items::Addr(pair(alloc, a, b)),
        (Value::Sym(a), Value::Sym(b)) => Items::Sym(pair(alloc, a, b)),
        (Value::Rel(a), Value::Rel(b)) => Items::Rel(pair(alloc, a, b)),
        (Value::Rela(a), Value::Rela(b)) => Items::Rela(pair(alloc, a, b)),
        (Value::Dyn(a), Value::Dyn(b)) => Items::Dyn(pair(alloc, a, b)),
        _ => Items::Empty,
    }
}
