//! The headers of an image.

use elf_types::{Addrs, Ehdr, Shdrs};

/// The header of an image and those of its sections, and how many bytes each section has in the
/// file.
#[derive(Drop)]
pub struct HeaderListing {
    /// The header, with its true counts.
    pub header: Ehdr,
    /// The headers of the sections, by number from 0 on.
    pub headers: Shdrs,
    /// The number of bytes in the file of each; 0 of section 0 and of those that occupy no space.
    pub sizes: Addrs,
}
