//! The rows in their order.

ghost use Rattle.std.specs.Prelude.{◌≡◌, ◌<◌, All, map, slice_index_or};
ghost use Rattle.elf_types.specs.Lists.{AreBytes};
ghost use Rattle.nm_tool.specs.Order.{entries_in_order};
ghost use Rattle.nm_tool.specs.Keys.{prefix, as_entry, KeyIs};

use elf_types::bytes_are_ranged;

/// A row as it is sorted: by its key, then by its name, then by its index.
#[derive(Clone, Copy, PartialEq, Eq, PartialOrd, Ord)]
pub struct SymbolSortRow<'a> {
    /// The value, where rows are sorted by value, and else the first sixteen bytes of the name: a
    /// number that decides most comparisons.
    pub key: u128,
    /// The name, as it is shown.
    pub name: &'a [u8],
    /// The symbol's index.
    pub index: u64,
}

/// The first sixteen bytes of a name as a number, the first of which counts most: names that
/// differ in them are in the order of these numbers.
pub fn prefix(name: &[u8]) -> u128
    ensures value { result ≡ prefix 16 name.now }
    ensures bytes { AreBytes name.now }
{
    bytes_are_ranged(name);
    let mut key = 0;
    for place in 0..16 {
        key = key * 256 + u128::from(byte_at(name, place));
    }
    key
}

/// The byte at a place, or 0 where there is none.
fn byte_at(name: &[u8], place: usize) -> u8
    ensures value { result ≡ slice_index_or name.now place 0 }
    ensures small { result < 256 }
{
    match name.get(place) {
        Some(byte) => *byte,
        None => 0,
    }
}

/// The rows in their order.
pub fn sorted<'a>(mut rows: Vec<SymbolSortRow<'a>>, by_value: bool) -> Vec<SymbolSortRow<'a>>
    requires { All (KeyIs by_value) rows.items }
    ensures { map (as_entry by_value) result.items
        ≡ entries_in_order (map (as_entry by_value) rows.entry.items) }
{
    rows.sort_unstable();
    rows
}
