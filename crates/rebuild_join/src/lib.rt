//! The program that a stripped file and a debug file are merged to: its plan, range by range of
//! both, and the object in memory.
//!
//! The base of the plan is the bytes of the stripped file followed by those of the debug file, and
//! nothing of either is read. `plan_joined` returns where each part of the image is, and where its
//! bytes are.
//!
//! - `pair`: two sources as one: the bytes of the first, and after them those of the second.
//! - `joined`: the merged object in memory: `unstrip` (eu-unstrip(1)).
#![tactic(auto)]

mod adding;
pub mod joined;
mod joining;
mod keeping;
pub mod pair;
mod planning;
pub mod prelude;
mod ranges;

pub use joining::plan_joined;
