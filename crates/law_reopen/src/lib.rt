//! Theorems on what a command writes: it opens again, as the object that was written and settled.
//! They are on the calls of a script, and on what strip, copy, rehash and unstrip make. Their
//! statements are in `specs/`, the lemmas that prove them in `proofs/`.
//!
//! - `laws`: images that are opened again.
//! - `rehash`: the files that rehash writes.
#![tactic(auto)]

pub mod laws;
pub mod rehash;
