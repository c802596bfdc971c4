//! Theorems on the plain object: what holds of the definitions of elf_object. Their statements are
//! in `specs/`, the lemmas that prove them in `proofs/`.
//!
//! - `laws`: objects that are opened, edited, placed and written.
//! - `writing`: for those who write images: what a write may leave alone, in what order bytes are,
//!   and what a write that failed leaves.
#![tactic(auto)]

pub mod laws;
pub mod prelude;
pub mod writing;
