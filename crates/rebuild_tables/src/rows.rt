//! The rows of a symbol table: each symbol with the word of its extended index.

ghost use Rattle.std.specs.Prelude.{◌≡◌};
ghost use Rattle.rebuild_tables.specs.Rows.{row_count};

use elf_types::{Class, Order};

/// Items of one size that are in the base of an object, one after the other.
#[derive(Clone, Copy)]
pub struct TableAt {
    /// The place of the first, in bytes.
    pub at: u64,
    /// Their number.
    pub count: u64,
}

/// The rows of a symbol table, and which of its two tables is rebuilt.
#[derive(Clone, Copy)]
pub struct FollowedRows {
    /// The class in which they are written.
    pub class: Class,
    /// The byte order in which they are written.
    pub order: Order,
    /// Whether the extended indexes are made, and not the symbols.
    pub indexes: bool,
    /// The symbols.
    pub syms: TableAt,
    /// The words of their extended indexes, of which there may be fewer or more, or none.
    pub words: TableAt,
}

/// How many items are made.
pub(crate) fn row_count(x: FollowedRows) -> u64
    ensures { result ≡ row_count x }
{
    if x.indexes {
        return x.words.count;
    }
    x.syms.count
}
