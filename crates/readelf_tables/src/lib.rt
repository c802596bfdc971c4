//! The parts of readelf on tables: the lines of symbols, of relocations, of dynamic entries and of
//! version indexes.
//!
//! - `symbols`, `relocations`, `dynamic`, `indexes`: the four parts; `tables` is what they share: a
//!   title, and a row for each item.
//! - `blocks`: `relocation_lines` makes the line of a relocation, whether its table is loaded or
//!   not; `blocks` tells the rows of a loaded table, a block at a time.
//! - `rows_of_symbols`: the line of a symbol, and the rows of a table of symbols whose bytes are
//!   loaded.
#![tactic(auto)]

pub mod blocks;
pub mod dynamic;
pub mod indexes;
pub mod relocations;
pub mod rows_of_symbols;
pub mod symbols;
pub mod tables;

pub use dynamic::show_dynamic;
pub use indexes::{index_constants_are, show_indexes};
pub use relocations::show_relocations;
pub use symbols::show_symbols;
