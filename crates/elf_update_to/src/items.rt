//! Items in their file form, as entries of one size.

ghost use Rattle.std.specs.Prelude.{◌≡◌, None, max};
ghost use Rattle.elf_update_plan.specs.elf_xlate.Translation.{first_unfit};

use crate::entries::Entries;
use elf_types::{Class, Order};
use elf_update_plan::prelude::{Items, item_size, put_items};

/// Items that fit a class, in their file form.
#[derive(Drop)]
pub struct ItemsForm<'a> {
    /// The items.
    pub items: &'a Items,
    /// The class.
    pub class: Class,
    /// The byte order.
    pub order: Order,
}

impl Entries for ItemsForm<'_> {
    ghost use Rattle.elf_update_plan.specs.elf_xlate.Items.{item_size};
    ghost use Rattle.elf_update_plan.specs.elf_xlate.Translation.{encoded, items_kind, items_count};

    ghost ready = { λ f. first_unfit f.class f.items.now ≡ None };

    ghost bytes = { λ f. encoded f.class f.order f.items.now };

    ghost size = { λ f. max (item_size (items_kind f.items.now) f.class) 1 };

    ghost count = { λ f. items_count f.items.now };

    fn entry_size(&self) -> usize {
        item_size(self.items.kind(), self.class).max(1) as usize
    }

    fn put_entries(&self, from: u64, some: u64, out: &mut [u8]) {
        let _count = self.items.count();
        put_items(self.items, self.class, self.order, from, from + some, out);
    }
}
