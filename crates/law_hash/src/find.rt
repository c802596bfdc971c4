//! Theorems on what elflint finds: nothing in hash sections as they are built. Their statements are
//! in `specs/`, the lemmas that prove them in `proofs/`.

pub mod laws;
