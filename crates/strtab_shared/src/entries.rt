//! What a table in the making keeps of each of its names.

/// Where a name is in the table. Names with one digest form a chain, the newest first, which leaves
/// out the first name with each hash.
#[derive(Clone, Copy)]
pub struct NameEntry {
    /// The offset of the name's first byte in the table.
    pub start: u32,
    /// The number of the name's bytes, without the NUL.
    pub len: u32,
    /// The index of the entry before this one in its chain; None for one that is in no chain.
    pub older: Option<u32>,
}
