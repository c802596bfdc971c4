//! Theorems on the files that commands write. Their statements are in `specs/`, the lemmas that
//! prove them in `proofs/`.
//!
//! - `commands`: what the commands that write make, and how they end.
//! - `strip`: the files that strip writes.
//! - `copy`: the files that copy writes.
#![tactic(auto)]

pub mod commands;
pub mod copy;
pub mod strip;
