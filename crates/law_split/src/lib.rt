//! Theorems on the stripped file and the debug file that strip -f makes of an image: what they hold
//! when they are opened again, and what they are merged to. Their statements are in `specs/`, the
//! lemmas that prove them in `proofs/`.
//!
//! - `laws`: the two objects, opened again and merged.
//! - `files`: the two files that strip -f writes.
#![tactic(auto)]

pub mod files;
pub mod laws;
