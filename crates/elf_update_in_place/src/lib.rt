//! An update in place (elf_update of elf(3E)): the device becomes the image, and of its bytes only
//! what changed is written.
//!
//! - `moves`: the parts that change, where bytes are written, and the homes that this disturbs.
//! - `writes`: the write phase: the parts that change, and the fill between parts.
#![tactic(auto)]

mod fronts;
mod homes;
mod loads;
mod marks;
pub mod moves;
mod rooms;
mod updates;
pub mod writes;

pub use updates::update_in_place;
