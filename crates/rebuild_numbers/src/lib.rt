//! What follows the new numbers of sections in a kept section: links, group members, symbols and
//! extended indexes.
//!
//! Each call takes items by slices and returns lists, so it serves whoever holds them.
//!
//! - `kept`: what strip keeps, by the section headers alone: the extended indexes of each symbol
//!   table, and whether the table of the names is rebuilt.
#![tactic(auto)]

mod groups;
pub mod kept;
mod links;
mod numbering;
pub mod prelude;
mod symbols;
mod words;

pub use groups::followed_group;
pub use links::followed_header;
pub use numbering::Numbering;
pub use symbols::followed_syms;
pub use words::followed_words;
