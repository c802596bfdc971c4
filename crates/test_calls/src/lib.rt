//! Tests of scripts that are run on small images.
//!
//! - `scripts`: what each line of a script says, and why lines are rejected.
#![tactic(auto)]

#[cfg(test)]
mod edits;
#[cfg(test)]
mod getters;
#[cfg(test)]
mod runs;
pub mod scripts;
