//! Theorems on what strip, copy, rehash and unstrip make of an image. Their statements are in
//! `specs/` here and in rebuild_model, the lemmas that prove them in `proofs/`.
//!
//! - `strip`: what strip, copy, rehash and unstrip make are objects; an update rejects what strip
//!   and unstrip make for its places alone; what strip writes keeps each byte that is loaded.
//! - `copy`: what copy keeps of an image, and what it changes.
#![tactic(auto)]

pub mod copy;
pub mod prelude;
pub mod strip;
