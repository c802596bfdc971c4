//! What a table in the making keeps of each of its names.

/// Where a name is in the table.
#[derive(Clone, Copy)]
pub struct Entry {
    /// The offset of the name's first byte in the table.
    pub start: u32,
    /// The number of the name's bytes, without the NUL.
    pub len: u32,
}
