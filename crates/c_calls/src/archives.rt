//! The calls of the library on an archive that is open for C: each gives its value in C's memory,
//! and returns a number, 0 where it is not rejected.

mod records;
mod symbols;
mod walking;

pub use records::{ArSymRecord, MemberRecord};
pub use symbols::{give_symbol, give_symbol_name, list_symbols};
pub use walking::{give_name, next_member};
