//! What the options of copy ask for.

use elf_types::List;
use tool_text::{Args, Text};

/// The changes of `copy`, one list for each option, in the order of the arguments. No name of a
/// section holds a NUL byte.
#[derive(Drop)]
pub struct CopyChanges {
    /// `-R`: the names of sections to remove.
    pub remove: Args,
    /// `-u`: the sections that get new bytes.
    pub update: List<NamedFile>,
    /// `-n`: the sections that get a new name.
    pub rename: List<Renaming>,
    /// `-f`: the sections that get new flags.
    pub flags: List<NamedBits>,
    /// `-a`: the sections that are added.
    pub add: List<NamedFile>,
}

/// The option-argument `NAME=FILE`, split at its first `=`.
#[derive(Drop)]
pub struct NamedFile {
    /// The name of the section, which is not empty.
    pub name: Text,
    /// The file of its bytes.
    pub file: Text,
}

/// The option-argument `OLD=NEW`, split at its first `=`.
#[derive(Drop)]
pub struct Renaming {
    /// The name of the section, which is not empty.
    pub old: Text,
    /// Its new name.
    pub new: Text,
}

/// The option-argument `NAME=BITS`, split at its first `=`.
#[derive(Drop)]
pub struct NamedBits {
    /// The name of the section, which is not empty.
    pub name: Text,
    /// Its flags.
    pub bits: u64,
}
