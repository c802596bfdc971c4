//! The section of a symbol.

/// Where a symbol is defined, with its extended index (gABI chapter 4, "Symbol Table",
/// `st_shndx`).
#[derive(Clone, Copy, Debug, PartialEq, Eq)]
pub enum SymPlace {
    /// A reserved index, from `SHN_LORESERVE` to 0xfffe: the symbol is of no section.
    Special(u16),
    /// The number of a section; 0 for an undefined symbol.
    Section(u32),
}
