//! The debug half of a program: its sections under their numbers, of which those that are loaded of
//! the file have no bytes (eu-strip(1) with -f).
//!
//! In the plan a section that keeps its bytes is a range of the file, and nothing of the file is
//! read. `keep_half` returns the headers and the ranges of its sections, `plan_half` where each
//! part of its image is, and `debug_of` makes its object in memory.
#![tactic(auto)]

mod halving;
mod keeping;
mod loaded;
mod planning;
pub mod prelude;
mod ranges;

pub use halving::debug_of;
pub use keeping::keep_half;
pub use planning::plan_half;
