//! The tool size: how much memory the sections of an object take.
#![tactic(auto)]

pub mod headers;
pub mod rows;
pub mod sums;
pub mod tool;

pub use headers::sum_source;
pub use rows::SizeTitle;
pub use tool::{SizeTool, size};
