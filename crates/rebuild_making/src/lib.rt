//! The parts by which commands make an object through the calls of a descriptor: over the base of
//! another object, section after section, with its program headers and its header, and with places
//! for what follows the base.
#![tactic(auto)]

mod bases;
mod headers;
mod places;
pub mod prelude;
mod sections;
mod segments;

pub use bases::create_over_base;
pub use headers::finish_header;
pub use places::arrange;
pub use sections::add_section;
pub use segments::copy_segments;
