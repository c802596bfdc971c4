//! The commands, one file each.

pub mod elflint;
pub mod lines;
pub mod nm;
pub mod readelf;
pub mod size;
pub mod strings;
