//! The parts that the options of readelf ask for.

/// The parts that readelf shows, one option each.
#[derive(Clone, Copy, PartialEq, Eq)]
pub struct ReadelfParts {
    /// `-h`: the ELF header.
    pub header: bool,
    /// `-l`: the program headers.
    pub segments: bool,
    /// `-S`: the section headers.
    pub sections: bool,
    /// `-s`: the symbol tables.
    pub symbols: bool,
    /// `-r`: the relocations.
    pub relocations: bool,
    /// `-d`: the dynamic section.
    pub dynamic: bool,
    /// `-n`: the notes.
    pub notes: bool,
    /// `-V`: the version sections.
    pub versions: bool,
}
