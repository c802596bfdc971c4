//! A theorem on the files that strip writes. Its statement is in `specs/`, the lemmas that prove it
//! in `proofs/`.

pub mod laws;
