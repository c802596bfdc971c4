//! A symbol table in another order, with all that goes by the indexes of its symbols: extended
//! indexes, versions, relocations and the signatures of groups.
//!
//! [`reorder`] works out all changes before it makes the first one, so an error leaves the object
//! as it was.
#![tactic(auto)]

mod checks;
mod indexes;
mod kinds;
mod moving;
mod nexts;
mod planning;
mod relocations;
mod reordering;
mod storing;

pub use reordering::reorder;
