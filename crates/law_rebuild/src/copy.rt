//! Theorems on what copy makes of an image: what it keeps, and what it changes. Their statements
//! are in `specs/`, the lemmas that prove them in `proofs/`.

pub mod laws;
