//! The new index of each old one.

ghost use Rattle.std.specs.Prelude.{◌≡◌, ◌<◌, ◌≤◌, ◌^◌, length, slice_index_or, slice_set, IfOk, IfErr};
ghost use Rattle.std.specs.List.{range_with_len};
ghost use Rattle.elf_types.specs.declared.errors.ElfError.TheVariants.{Memory};
ghost use Rattle.symbol_lookup.specs.hash_model.Reordered.{new_index};
ghost use Rattle.hash_order.specs.Indexes.{AreBelow, AreNewIndexes};

use elf_types::{ElfError, Words};
use std::alloc::Global;

/// How many indexes there are of 32 bits.
const INDEXES: u64 = 0x1_0000_0000;

/// The number at an index.
pub fn number_at(words: &Words, i: u64) -> u32
    requires { i < length words.now }
    ensures { result ≡ slice_index_or words.now i 0 }
{
    words.as_slice()[i as usize]
}

/// Stores a number at an index.
fn set_number(words: &mut Words, i: u32, n: u64)
    requires there { i < length words.old }
    requires few { n < 2 ^ 32 }
    ensures { words.new ≡ slice_set words.old i n }
{
    words.as_mut_slice()[i as usize] = n as u32;
}

/// The indexes below a number. It fails with `Memory` alone.
fn indexes_below(alloc: Global, count: u64) -> Result<Words, ElfError>
    requires { count ≤ 2 ^ 32 }
    ensures ok { IfOk result (λ words. words ≡ range_with_len 0 count) }
    ensures err { IfErr result (λ e. e ≡ Memory) }
{
    let mut words = Words::with_capacity(alloc, count)?;
    for i in 0..count {
        words.push(i as u32)?;
    }
    Ok(words)
}

/// Puts the new indexes over the old ones: the last one first, so that the first one counts where
/// an index is twice.
fn fill_indexes(order: &Words, indexes: &mut Words)
    requires few { length order.now ≤ 2 ^ 32 }
    requires below { AreBelow order.now }
    requires old { indexes.old ≡ range_with_len 0 (length order.now) }
    ensures { AreNewIndexes order.now indexes.new }
{
    let count = order.len();
    for done in 0..count {
        let new = count - 1 - done;
        let old = number_at(order, new);
        set_number(indexes, old, new);
    }
}

/// The new index of each old one. It fails with `Memory` alone.
pub fn new_indexes(alloc: Global, order: &Words) -> Result<Words, ElfError>
    requires { AreBelow order.now }
    ensures ok { IfOk result (AreNewIndexes order.now) }
    ensures err { IfErr result (λ e. e ≡ Memory) }
{
    // An order has each of its indexes once, so it is never longer.
    if order.len() > INDEXES {
        return Err(ElfError::Memory);
    }
    let mut indexes = indexes_below(alloc, order.len())?;
    fill_indexes(order, &mut indexes);
    Ok(indexes)
}

/// The new index of an old one; one that is no symbol's stays.
pub fn new_index(order: &Words, indexes: &Words, i: u32) -> u32
    requires below { AreBelow order.now }
    requires new { AreNewIndexes order.now indexes.now }
    ensures { result ≡ new_index order.now i }
{
    match indexes.get(u64::from(i)) {
        Some(new) => new,
        None => i,
    }
}
