//! Tests of the views of a section's data, of lookups and of hash sections.
//!
//! - `lookups`: tests of lookups by name.
//! - `hashes`: tests of hash sections that are rebuilt.
#![tactic(auto)]

#[cfg(test)]
mod computed;
pub mod hashes;
#[cfg(test)]
mod items;
pub mod lookups;
#[cfg(test)]
mod names;
#[cfg(test)]
mod notes;
#[cfg(test)]
mod questions;
#[cfg(test)]
mod records;
#[cfg(test)]
mod strings;
#[cfg(test)]
mod symbols;
#[cfg(test)]
mod versions;
