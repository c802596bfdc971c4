//! The items of a section's data.

ghost use Rattle.std.specs.Prelude.{◌≡◌};
ghost use Rattle.elf_xlate.specs.Translation.{items_count, items_kind};

use elf_types::{Addrs, Dyns, Halves, Kind, Octets, Relas, Rels, Syms, Words};

/// The items of a section's data, all of one kind, in memory form.
#[derive(Drop)]
pub enum Items {
    /// No data in the file.
    Empty,
    /// Bytes.
    Bytes(Octets),
    /// Two-byte numbers.
    Half(Halves),
    /// Four-byte numbers.
    Word(Words),
    /// Addresses.
    Addr(Addrs),
    /// Symbols.
    Sym(Syms),
    /// Relocations without an addend.
    Rel(Rels),
    /// Relocations with an addend.
    Rela(Relas),
    /// Entries of the dynamic section.
    Dyn(Dyns),
}

impl Items {
    /// The kind of the items. It takes no memory.
    pub fn kind(&self) -> Kind
        ensures { result ≡ items_kind self.now }
    {
        match self {
            Items::Empty => Kind::Empty,
            Items::Bytes(_) => Kind::Bytes,
            Items::Half(_) => Kind::Half,
            Items::Word(_) => Kind::Word,
            Items::Addr(_) => Kind::Addr,
            Items::Sym(_) => Kind::Sym,
            Items::Rel(_) => Kind::Rel,
            Items::Rela(_) => Kind::Rela,
            Items::Dyn(_) => Kind::Dyn,
        }
    }

    /// The number of items, 0 for `Empty`. It takes no memory.
    pub fn count(&self) -> u64
        ensures { result ≡ items_count self.now }
    {
        match self {
            Items::Empty => 0,
            Items::Bytes(l) => l.len(),
            Items::Half(l) => l.len(),
            Items::Word(l) => l.len(),
            Items::Addr(l) => l.len(),
            Items::Sym(l) => l.len(),
            Items::Rel(l) => l.len(),
            Items::Rela(l) => l.len(),
            Items::Dyn(l) => l.len(),
        }
    }
}
