//! Hash sections, as definitions over the plain object: the two hashes of a name, what sections of
//! type HASH and GNU_HASH hold, how they are built, and a symbol table in another order (gABI
//! chapter 5, "Hash Table"). They are in `specs/`.
#![tactic(auto)]

pub mod prelude;
