//! What becomes of the names of sections.

ghost use Rattle.std.specs.Prelude.{◌≡◌, slice_get, unwrap_or};

use elf_types::Words;
use strtab_shared::bytes::SharedBytes;

/// The table of the names of all sections.
#[derive(Drop)]
pub struct NewNameTable {
    /// The table's bytes: names that share one NUL in an older table are held once.
    pub table: SharedBytes,
    /// For each section by its number the place of its name in the table, in bytes.
    pub places: Words,
}

/// What becomes of the names.
#[derive(Drop)]
pub enum Naming {
    /// No name changes, so they stay as they are stored.
    Stay,
    /// Names change, and there is no table of their own for them.
    NoTable,
    /// Their table would be too large.
    TooLarge,
    /// They are stored in a new table.
    Anew(NewNameTable),
}

/// The place of a section's name in a table, in bytes, and 0 where none is told.
pub fn place_at(places: &Words, s: u32) -> u32
    ensures { result ≡ unwrap_or (slice_get places.now s) 0 }
{
    places.get(u64::from(s)).unwrap_or(0)
}
