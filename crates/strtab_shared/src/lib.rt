//! String tables (gABI chapter 4, "String Table") of names from an older table: names that share
//! one NUL there are held once, however long they are together.
//!
//! - `bytes`: bytes that are held once and may be at many places: ranges of a text, one after
//!   another.
#![tactic(auto)]

pub mod bytes;
mod entries;
mod finding;
mod hashes;
mod parts;
mod placing;
pub mod prelude;
mod strings;

pub use strings::{NOWHERE, SharedStrings};
