//! Listed headers with their places, and where the bytes of the sections are.

use elf_types::{Kind, List};
use rebuild_tables::prelude::{ByteRange, HeaderListing, SharedBytes};

/// What was kept of sections, with the places of what follows the base of a program.
#[derive(Drop)]
pub struct Arranged {
    /// The headers, and how many bytes each section has in the file.
    pub listed: HeaderListing,
    /// The range of each section.
    pub ranges: List<ByteRange>,
    /// As items of which kind the bytes of each section are read.
    pub kinds: List<Kind>,
    /// The bytes that are held.
    pub held: SharedBytes,
    /// The place from which on what is not loaded is, where there is one.
    pub tail: Option<u64>,
}
