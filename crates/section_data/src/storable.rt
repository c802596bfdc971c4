//! The types whose items are stored one by one.

ghost use Rattle.std.specs.Prelude.{◌≡◌, Bool, true};
ghost use Rattle.elf_types.specs.declared.records.Class.{Class as TheClass};
ghost use Rattle.elf_object.specs.elf_xlate.Fields.{fits, fits_signed};
ghost use Rattle.elf_object.specs.elf_xlate.Items.{info_fits, sym_fits, rel_fits, rela_fits, dyn_fits};

use crate::item::Item;
use elf_types::{Class, Dyn, Rel, Rela, Sym};

/// A type whose items are stored one by one, where they fit their fields in a class: in class 32
/// numbers of four bytes are below 2^32 and signed ones from -2^31 to 2^31 - 1, the index of a
/// relocation's symbol is below 2^24 and its type below 2^8. In class 64 every item fits.
pub trait Storable: Item {
    // Whether an item fits a class.
    ghost fitting: { TheClass → Self → Bool };

    /// Whether the item fits a class. It takes no memory.
    ///
    /// Source: gABI chapter 4, "Data Representation" and "Relocation".
    fn fits(&self, class: Class) -> bool
        ensures { result ≡ fitting class self.now };
}

/// Whether a number fits a field of four bytes in class 32 and of eight in class 64.
fn number_fits(class: Class, n: u64) -> bool
    ensures { result ≡ fits class n }
{
    match class {
        Class::C32 => n < 1 << 32,
        Class::C64 => true,
    }
}

/// Whether a signed number does.
fn signed_fits(class: Class, n: i64) -> bool
    ensures { result ≡ fits_signed class n }
{
    match class {
        Class::C32 => -(1 << 31) <= n && n < 1 << 31,
        Class::C64 => true,
    }
}

/// Whether the symbol's index and the type of a relocation fit its `r_info`.
fn info_fits(class: Class, sym: u32, rtype: u32) -> bool
    ensures { result ≡ info_fits class sym rtype }
{
    match class {
        Class::C32 => sym < 1 << 24 && rtype < 1 << 8,
        Class::C64 => true,
    }
}

impl Storable for u16 {
    ghost fitting = { λ class n. true };

    fn fits(&self, _class: Class) -> bool {
        true
    }
}

impl Storable for u32 {
    ghost fitting = { λ class n. true };

    fn fits(&self, _class: Class) -> bool {
        true
    }
}

impl Storable for u64 {
    ghost fitting = { fits };

    fn fits(&self, class: Class) -> bool {
        number_fits(class, *self)
    }
}

impl Storable for Sym {
    ghost fitting = { sym_fits };

    #[tactic(auto, unfolding(elf_object::specs::Passed::sym_fits))]
    fn fits(&self, class: Class) -> bool {
        number_fits(class, self.value) && number_fits(class, self.size)
    }
}

impl Storable for Rel {
    ghost fitting = { rel_fits };

    #[tactic(auto, unfolding(elf_object::specs::Passed::rel_fits))]
    fn fits(&self, class: Class) -> bool {
        number_fits(class, self.offset) && info_fits(class, self.sym, self.rtype)
    }
}

impl Storable for Rela {
    ghost fitting = { rela_fits };

    #[tactic(auto, unfolding(elf_object::specs::Passed::rela_fits))]
    fn fits(&self, class: Class) -> bool {
        number_fits(class, self.offset)
            && info_fits(class, self.sym, self.rtype)
            && signed_fits(class, self.addend)
    }
}

impl Storable for Dyn {
    ghost fitting = { dyn_fits };

    #[tactic(auto, unfolding(elf_object::specs::Passed::dyn_fits))]
    fn fits(&self, class: Class) -> bool {
        signed_fits(class, self.tag) && number_fits(class, self.val)
    }
}
