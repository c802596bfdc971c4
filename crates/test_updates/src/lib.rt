//! Tests of updates. They demand that an update ends, since one that always ran out of memory would
//! meet the contracts too.
//!
//! - `in_place`: tests of updates in place.
#![tactic(auto)]

#[cfg(test)]
mod copies;
#[cfg(test)]
mod counts;
#[cfg(test)]
mod created;
#[cfg(test)]
mod faults;
pub mod in_place;
#[cfg(test)]
mod puts;
#[cfg(test)]
mod refusals;
