//! What copy changes.

use elf_types::{List, Octets};
use tool_text::Args;

/// A section's name, and bytes for it.
#[derive(Drop)]
pub struct NameBytes {
    /// The name.
    pub name: Octets,
    /// The bytes.
    pub bytes: Octets,
}

/// A section's name, and flags for it.
#[derive(Drop)]
pub struct NameBits {
    /// The name.
    pub name: Octets,
    /// The flags, `sh_flags`.
    pub bits: u64,
}

/// The changes that copy makes, in five kinds that come one after the other, each in the order of
/// its list.
#[derive(Drop)]
pub struct ChangeLists {
    /// The names of the sections that are removed.
    pub remove: Args,
    /// The sections that get other bytes: the name, and the bytes.
    pub update: List<NameBytes>,
    /// The sections that get another name: the name, and as bytes the new name.
    pub rename: List<NameBytes>,
    /// The sections that get other flags.
    pub flags: List<NameBits>,
    /// The sections that are added: the name, and the bytes.
    pub add: List<NameBytes>,
}
