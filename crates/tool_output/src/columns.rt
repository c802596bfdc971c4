//! Numbers in columns: the digits of a number of 128 bits in a radix, with spaces or zeros before
//! them; and bytes, by two hexadecimal digits each.

pub mod columns;
pub mod digits;
pub mod hex_pairs;

pub use columns::{put_column, put_number, put_zero_filled_before};
pub use hex_pairs::put_hex_pairs;
