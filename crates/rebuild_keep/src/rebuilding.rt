//! The object that is rebuilt.

use elf_update_plan::prelude::Elf;
use rebuild_making::prelude::NoSource;

/// An object that is rebuilt, and for a program the place from which on what is not loaded is.
#[derive(Drop)]
pub struct Rebuilt {
    /// The object.
    pub elf: Elf<NoSource>,
    /// The place, in bytes; None without program headers.
    pub tail: Option<u64>,
}
