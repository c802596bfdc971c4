//! A theorem on the files that copy writes. Its statement is in `specs/`, the lemmas that prove it
//! in `proofs/`.

pub mod laws;
