//! Theorems on hash sections: those that are built are whole, so a lookup by a name finds in them
//! what a search among all symbols finds. Their statements are in `specs/`, the lemmas that prove
//! them in `proofs/`.
//!
//! - `laws`: lookups in hash sections that are built, and in the image that rehash writes.
//! - `find`: elflint finds nothing in hash sections as they are built.
#![tactic(auto)]

pub mod find;
pub mod laws;
