//! What `rebuild_image` passes on of the crates below it.

pub use crate::listed::HeaderListing;
pub use crate::ranges::{ByteRange, PartRanges, RangedImage, RangedParts};
pub use strtab_shared::bytes::SharedBytes;
