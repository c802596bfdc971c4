//! The lines of a table of relocations whose bytes are loaded: they are told from bytes alone, a
//! block of rows at a time.

pub mod at_hand;
pub mod blocks;
pub mod relocation_lines;

pub use at_hand::{TableBytes, load_table, table_at_hand};
pub use blocks::{Relocation, show_blocks};
pub use relocation_lines::{RelocationEntry, RelocationLine};
