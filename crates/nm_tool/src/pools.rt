//! The symbols that are listed with copies of their names, held until they are sorted: where the
//! bytes of the names are not in memory, as where they were edited.

ghost use Rattle.std.specs.Prelude.{◌≡◌, if◌then◌else◌, [], IfOk, IfErr, All, map};
ghost use Rattle.elf_types.specs.declared.errors.ElfError.TheVariants.{Memory};
ghost use Rattle.nm_tool.specs.Keys.{as_entry, KeyIs};
ghost use Rattle.nm_tool.specs.Pools.{spot_entries, pool_with_name};

use crate::order::{SymbolSortRow, prefix};
use elf_types::{ElfError, List, Octets};
use std::alloc::Global;

/// A symbol whose name is the next in a pool.
#[derive(Clone, Copy)]
pub struct Spot {
    /// Its value.
    pub value: u64,
    /// Its index.
    pub index: u64,
    /// The length of its name, in bytes.
    pub len: u64,
}

/// Symbols, and their names one after another.
#[derive(Drop)]
pub struct Pool {
    /// The names.
    pub names: Octets,
    /// The symbols.
    pub spots: List<Spot>,
}

impl Pool {
    /// A pool without symbols.
    pub fn new(alloc: Global) -> Pool
        ensures { result ≡ record { names = []; spots = [] } }
    {
        Pool {
            names: Octets::new(alloc),
            spots: List::new(alloc),
        }
    }

    /// The pool with one more symbol, unless its name is empty. It fails with `Memory` alone.
    #[tactic(auto, unfolding(crate::specs::Pools::pool_with_name))]
    pub fn with(mut self, value: u64, index: u64, name: &[u8]) -> Result<Pool, ElfError>
        ensures ok { IfOk result (λ p. p ≡ pool_with_name self value index name.now) }
        ensures err { IfErr result (λ e. e ≡ Memory) }
    {
        if name.is_empty() {
            return Ok(self);
        }
        self.names.extend(name)?;
        self.spots.push(Spot {
            value,
            index,
            len: name.len() as u64,
        })?;
        Ok(self)
    }
}

/// The row of a symbol that has this name.
#[tactic(auto, unfolding(crate::specs::Keys::as_entry))]
pub fn row_of<'a>(by_value: bool, spot: Spot, name: &'a [u8]) -> SymbolSortRow<'a>
    ensures entry { as_entry by_value result ≡ record {
      value = if by_value then spot.value else 0;
      name = name.now;
      index = spot.index;
    } }
    ensures key { KeyIs by_value result }
{
    let first = prefix(name);
    let index = spot.index;
    if by_value {
        let key = u128::from(spot.value);
        return SymbolSortRow { key, name, index };
    }
    SymbolSortRow {
        key: first,
        name,
        index,
    }
}

/// The rows of the symbols of a pool, in its order. It fails with `Memory` alone.
pub fn rows_of<'a>(
    alloc: Global,
    pool: &'a Pool,
    by_value: bool,
) -> Result<Vec<SymbolSortRow<'a>>, ElfError>
    ensures rows { IfOk result (λ rows.
        map (as_entry by_value) rows.items ≡ spot_entries by_value pool.now.names pool.now.spots) }
    ensures keys { IfOk result (λ rows. All (KeyIs by_value) rows.items) }
    ensures err { IfErr result (λ e. e ≡ Memory) }
{
    let mut names = pool.names.as_slice();
    let spots = pool.spots.as_slice();
    let mut rows = Vec::with_capacity(alloc, spots.len())?;
    for spot in spots {
        let len = (spot.len as usize).min(names.len());
        let (name, rest) = names.split_at(len);
        rows.push(row_of(by_value, *spot, name))?;
        names = rest;
    }
    Ok(rows)
}
