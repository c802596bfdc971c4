//! The items of a home, as far as they are held in memory form.

ghost use Rattle.std.specs.Prelude.{◌≡◌};
ghost use Rattle.section_data.specs.Kept.{is_holding};

use crate::room::Room;
use elf_object::prelude::Items;

/// What is held of a home's items in memory form.
#[derive(Drop)]
pub(crate) enum HomeItems {
    /// Nothing.
    Nothing,
    /// The items.
    Translated(Items),
    /// The items of a home of bytes, which are its raw bytes, with memory reserved for a copy of
    /// them.
    Raw(Room),
}

impl HomeItems {
    /// Whether the items are held.
    pub(crate) fn is_some(&self) -> bool
        ensures { result ≡ is_holding self.now }
    {
        match self {
            HomeItems::Nothing => false,
            _ => true,
        }
    }
}
