//! Lists in another order.

ghost use Rattle.std.specs.Prelude.{◌≡◌, ◌<◌, ◌≤◌, ◌++◌, length, slice_get, slice_index_or, OnOk, IfOk, IfErr};
ghost use Rattle.elf_types.specs.declared.errors.ElfError.TheVariants.{Memory};
ghost use Rattle.symbol_lookup.specs.hash_model.Reordered.{in_order, moved_along};
ghost use Rattle.hash_order.specs.Indexes.{item_or_none};

use crate::indexes::number_at;
use elf_types::{ElfError, List, Words};
use std::alloc::Global;

/// Appends the item at an index, where there is one. It fails with `Memory` alone.
fn push_item<T: Copy>(items: &List<T>, i: u32, moved: &mut List<T>) -> Result<(), ElfError>
    ensures ok { OnOk result (moved.new ≡ moved.old ++ item_or_none items.now i) }
    ensures err { IfErr result (λ e. e ≡ Memory) }
{
    match items.get(u64::from(i)) {
        Some(x) => moved.push(x),
        None => Ok(()),
    }
}

/// The items at these indexes, one after another. It fails with `Memory` alone.
pub fn in_order<T: Copy>(alloc: Global, order: &Words, items: &List<T>) -> Result<List<T>, ElfError>
    ensures ok { IfOk result (λ l. l ≡ in_order order.now items.now) }
    ensures err { IfErr result (λ e. e ≡ Memory) }
{
    let count = order.len();
    let mut moved = List::with_capacity(alloc, items.len())?;
    for k in 0..count {
        let i = number_at(order, k);
        push_item(items, i, &mut moved)?;
    }
    Ok(moved)
}

/// The items at these indexes, one after another, and then the items of the list after them, which
/// stay. It fails with `Memory` alone.
pub fn moved_along<T: Copy>(
    alloc: Global,
    order: &Words,
    items: &List<T>,
) -> Result<List<T>, ElfError>
    requires { length order.now ≤ length items.now }
    ensures ok { IfOk result (λ l. l ≡ moved_along order.now items.now) }
    ensures err { IfErr result (λ e. e ≡ Memory) }
{
    let mut moved = in_order(alloc, order, items)?;
    moved.extend(&items.as_slice()[order.len() as usize..])?;
    Ok(moved)
}
