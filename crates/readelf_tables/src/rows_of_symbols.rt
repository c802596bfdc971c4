//! The line of a symbol, and the rows of a table of symbols whose bytes are loaded: they are told
//! from bytes alone.

pub mod symbol_bytes;
pub mod symbol_lines;
pub mod usual_names;

pub use symbol_bytes::{SymbolBytes, show_symbol_bytes, symbols_at_hand};
pub use symbol_lines::SymbolLine;
