//! What the commands that write mean: strip, copy, rehash, the debug half, unstrip and the self
//! test, as definitions over the plain object. They are in `specs/`.
#![tactic(auto)]

#[cfg(test)]
mod copy_tests;
#[cfg(test)]
mod executable_tests;
#[cfg(test)]
mod hash_tests;
pub mod prelude;
#[cfg(test)]
mod program_tests;
#[cfg(test)]
mod strip_tests;
