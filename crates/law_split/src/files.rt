//! A theorem on the two files that strip -f writes. Its statement is in `specs/`, the lemmas that
//! prove it in `proofs/`.

pub mod laws;
