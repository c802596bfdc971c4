//! What a section gets when the symbols are put in another order.

use elf_xlate::Items;

/// What a section gets.
#[derive(Drop)]
pub enum Next {
    /// Nothing: it does not follow.
    Stay,
    /// The items of its first piece.
    Items(Items),
    /// The index of the symbol that is its signature; it is a group.
    Signature(u32),
}
