//! The plan of an image that is rebuilt.

use elf_layout::Parts;
use rebuild_tables::prelude::{PartRanges, SharedBytes};

/// What an image is copied from besides the base of a descriptor, and where its parts are.
#[derive(Drop)]
pub struct RangedPlan {
    /// The bytes that are held.
    pub held: SharedBytes,
    /// The ranges of the parts, of these bytes and of the base.
    pub ranges: PartRanges,
    /// How many first bytes of the base are between the parts.
    pub kept: u64,
    /// Where the parts are that are not empty, by their places.
    pub plan: Parts,
    /// The length of the image in bytes.
    pub end: u64,
}
