//! Tests of the two outputs of a tool, and of the files that tools make.
//!
//! - `files`: tests of files that are made of images.
#![tactic(auto)]

pub mod files;
#[cfg(test)]
mod outputs;
#[cfg(test)]
mod sayings;
