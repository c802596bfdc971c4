//! What the commands that write give, as definitions in `specs/`: their texts, their status and
//! their files.
#![tactic(auto)]

pub mod laws;
pub mod options;
pub mod prelude;
#[cfg(test)]
mod tests;

pub use options::StripOptions;
