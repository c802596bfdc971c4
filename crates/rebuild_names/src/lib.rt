//! The table of the sections' names as strip rebuilds it: from the names of the kept sections, each
//! once and in order of first use, with the place of each section's name.
#![tactic(auto)]

mod adding;
mod building;
mod copying;
mod known;
pub mod prelude;

pub use building::{NewNames, build_names};
pub use known::{KnownPlaces, name_field, note_place, push_place};
