//! The parts of readelf on headers: the lines of the ELF header, of the program headers and of the
//! section headers.
#![tactic(auto)]

pub mod headers;
pub mod section_blocks;
pub mod sections;
pub mod segments;

pub use headers::show_header;
pub use sections::show_sections;
pub use segments::show_segments;
