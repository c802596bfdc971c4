//! Which sections strip and copy remove: those with some names, and in further steps what goes with
//! them (strip(1) of the development tools).
//!
//! A [`SectionSet`] keeps a mark for each section, and each step makes one from the one before it
//! in a pass or two over the section headers. Only the first step reads something: the names.
//!
//! - `sought`: names to look for, and the first section with each; a search takes as many steps as
//!   their number has digits.
#![tactic(auto)]

mod extended_indexes;
mod headers;
mod links;
mod names;
pub mod prelude;
mod relocations;
mod removing;
mod sets;
pub mod sought;
mod string_tables;
mod symbol_tables;
mod walks;

pub use headers::{is_header_allocated, is_relocations};
pub use removing::{removed, removed_by_name};
pub use sets::SectionSet;
