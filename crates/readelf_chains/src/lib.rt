//! The parts of readelf on chains of records: the lines of notes, and of version definitions and
//! needs.
#![tactic(auto)]

pub mod chains;
pub mod definitions;
pub mod entries;
pub mod needs;
pub mod notes;

pub use definitions::show_definitions;
pub use needs::show_needs;
pub use notes::show_notes;
