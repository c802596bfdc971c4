//! What comes before an image is written: why an update is rejected, where the parts of the image
//! are and in what order, and an update that only stores the places (elf_update of elf(3E)).
#![tactic(auto)]

mod contents;
mod parts;
mod places;
mod plans;
pub mod prelude;
mod sections;

pub use places::{PlacedParts, has_layout, place_parts, update_null};
pub use plans::plan;
pub use sections::{count_pieces, has_file_bytes, home_extent, is_in_file};
