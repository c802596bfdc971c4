//! What is held of a piece.

use section_table::prelude::Items;

/// What is held of a piece.
#[derive(Drop)]
pub enum Held<'a> {
    /// The items of an own piece.
    Edited(&'a Items),
    /// The home's bytes in file form, of a clean home piece whose section is loaded.
    Raw(&'a [u8]),
    /// Nothing: the home of the clean home piece is not loaded.
    Unread,
}
