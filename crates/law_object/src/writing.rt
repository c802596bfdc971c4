//! Theorems for those who write images: what a write may leave alone, in what order bytes are, and
//! what a write that failed leaves. Their statements are in `specs/`, the lemmas that prove them in
//! `proofs/`.

pub mod based;
pub mod failed;
pub mod in_place;
pub mod plans;
#[cfg(test)]
mod tests;
