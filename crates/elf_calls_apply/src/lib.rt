//! The calls of a script, applied to a descriptor one by one: each is one step of the plain object,
//! with its result.
//!
//! A call of a script is one call of the library, or a getter and then the call that stores what it
//! gave with one field changed. `specs/Stated.antt` says which.
#![tactic(auto)]

mod answers;
mod applying;
mod fields;
mod flags;
mod getters;
mod headers;
mod items;
mod pieces;
mod reading;

pub use answers::{Answer, PieceItem};
pub use applying::apply;
