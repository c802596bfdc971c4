//! What callers of a descriptor, over a source and over a device, learn from its contracts alone.

pub mod lending;
pub mod once;
pub mod ranges;
pub mod reads;
pub mod rooms;
pub mod settling;
pub mod writes;
