//! Tests of the commands that write files, over files and outputs in memory, one file a command.
//!
//! - `changes`: tests of `calls -i`: what it writes into a file, and what it leaves of one where
//!   something is rejected or a call fails.
#![tactic(auto)]

#[cfg(test)]
mod calls;
pub mod changes;
#[cfg(test)]
mod copy;
#[cfg(test)]
mod copy_images;
#[cfg(test)]
mod groups;
#[cfg(test)]
mod images;
#[cfg(test)]
mod joins;
#[cfg(test)]
mod rehash;
#[cfg(test)]
mod rows;
#[cfg(test)]
mod sections;
#[cfg(test)]
mod selftest;
#[cfg(test)]
mod splits;
#[cfg(test)]
mod stops;
#[cfg(test)]
mod strip;
