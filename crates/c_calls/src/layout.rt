//! The layout of an image for C, by its headers alone: where each part is, and the bytes of the ELF
//! header and of the two tables. C writes the sections' bytes itself, so none is copied.

mod checks;
mod headers;
mod laws;
mod parts;
mod planning;
mod records;

pub use laws::layout_makes_image;
pub use parts::{give_part, give_part_bytes};
pub use planning::lay_out;
pub use records::PartRecord;
