//! Tests of descriptors and of their cells.
//!
//! - `callers`: what callers of a descriptor, over a source and over a device, learn from its
//!   contracts alone.
//! - `devices`: tests of the calls of a descriptor over a device by which an update in place is
//!   done.
#![tactic(auto)]

#[cfg(test)]
mod beginnings;
pub mod callers;
#[cfg(test)]
mod cells;
pub mod devices;
#[cfg(test)]
mod edits;
#[cfg(test)]
mod files;
#[cfg(test)]
mod lends;
#[cfg(test)]
mod limits;
#[cfg(test)]
mod reading;
#[cfg(test)]
mod refusals;
#[cfg(test)]
mod rooms;
#[cfg(test)]
mod rows;
#[cfg(test)]
mod shapes;
#[cfg(test)]
mod steps;
