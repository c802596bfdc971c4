//! The types whose lists are the items of a section's data.

ghost use Rattle.std.specs.Prelude.{◌≡◌, List, length, refl};
ghost use Rattle.std.specs.Borrow.{sem};
ghost use Rattle.elf_types.specs.declared.records.Kind.{Kind as TheKind};
ghost use Rattle.elf_types.specs.declared.records.Kind.TheVariants as kinds;
ghost use Rattle.elf_object.specs.elf_xlate.declared.content.Items.{Items as TheItems};
ghost use Rattle.elf_object.specs.elf_xlate.declared.content.Items.TheVariants as items;
ghost use Rattle.elf_object.specs.elf_xlate.Translation.{items_kind, items_count};
ghost use Rattle.elf_object.specs.Answers.{bytes_of, halves_of, words_of, addrs_of, syms_of, rels_of, relas_of, dyns_of};
ghost use Rattle.section_data.specs.Lends.{LendsList};

use elf_object::prelude::Items;
use elf_types::{Dyn, Kind, List, Rel, Rela, Sym};

/// A type whose lists are the items of a kind.
pub trait Listed {
    // The kind of the items.
    ghost kind: { TheKind };

    // A list as items of the kind.
    ghost variant: { List Self → TheItems };

    // The list in items of the kind.
    ghost list_of: { TheItems → List Self };

    /// The kind of the items. It takes no memory.
    fn kind() -> Kind
        ensures { result ≡ kind };

    /// The list in items of the kind. It takes no memory.
    fn list(items: &Items) -> &List<Self>
        requires { items_kind items.now ≡ kind }
        ensures value { result.now ≡ list_of items.now }
        ensures counted { length result.now ≡ items_count items.now };

    /// The list in items of the kind, lent for writing: what the borrower leaves is what the items
    /// hold.
    fn list_mut(items: &mut Items) -> &mut List<Self>
        requires { items_kind items.old ≡ kind }
        ensures* lends { sem 𝓛 (LendsList Self.row variant items.entry result) }
        ensures value { result.now ≡ list_of items.old }
        ensures counted { length result.now ≡ items_count items.old };

    // The items of a list have it.
    ghost back: { (l : List Self) → list_of (variant l) ≡ l };

    // They are of the kind.
    ghost of_kind: { (l : List Self) → items_kind (variant l) ≡ kind };

    // They are as many.
    ghost counted: { (l : List Self) → items_count (variant l) ≡ length l };
}

impl Listed for u8 {
    ghost kind = { kinds.Bytes };

    ghost variant = { items.Bytes };

    ghost list_of = { bytes_of };

    fn kind() -> Kind {
        Kind::Bytes
    }

    fn list(items: &Items) -> &List<u8> {
        match items {
            Items::Bytes(list) => list,
            _ => unreachable!(),
        }
    }

    fn list_mut(items: &mut Items) -> &mut List<u8> {
        match items {
            Items::Bytes(list) => list,
            _ => unreachable!(),
        }
    }

    ghost back = { λ _. refl };

    ghost of_kind = { λ _. refl };

    ghost counted = { λ _. refl };
}

impl Listed for u16 {
    ghost kind = { kinds.Half };

    ghost variant = { items.Half };

    ghost list_of = { halves_of };

    fn kind() -> Kind {
        Kind::Half
    }

    fn list(items: &Items) -> &List<u16> {
        match items {
            Items::Half(list) => list,
            _ => unreachable!(),
        }
    }

    fn list_mut(items: &mut Items) -> &mut List<u16> {
        match items {
            Items::Half(list) => list,
            _ => unreachable!(),
        }
    }

    ghost back = { λ _. refl };

    ghost of_kind = { λ _. refl };

    ghost counted = { λ _. refl };
}

impl Listed for u32 {
    ghost kind = { kinds.Word };

    ghost variant = { items.Word };

    ghost list_of = { words_of };

    fn kind() -> Kind {
        Kind::Word
    }

    fn list(items: &Items) -> &List<u32> {
        match items {
            Items::Word(list) => list,
            _ => unreachable!(),
        }
    }

    fn list_mut(items: &mut Items) -> &mut List<u32> {
        match items {
            Items::Word(list) => list,
            _ => unreachable!(),
        }
    }

    ghost back = { λ _. refl };

    ghost of_kind = { λ _. refl };

    ghost counted = { λ _. refl };
}

impl Listed for u64 {
    ghost kind = { kinds.Addr };

    ghost variant = { items.Addr };

    ghost list_of = { addrs_of };

    fn kind() -> Kind {
        Kind::Addr
    }

    fn list(items: &Items) -> &List<u64> {
        match items {
            Items::Addr(list) => list,
            _ => unreachable!(),
        }
    }

    fn list_mut(items: &mut Items) -> &mut List<u64> {
        match items {
            Items::Addr(list) => list,
            _ => unreachable!(),
        }
    }

    ghost back = { λ _. refl };

    ghost of_kind = { λ _. refl };

    ghost counted = { λ _. refl };
}

impl Listed for Sym {
    ghost kind = { kinds.Sym };

    ghost variant = { items.Sym };

    ghost list_of = { syms_of };

    fn kind() -> Kind {
        Kind::Sym
    }

    fn list(items: &Items) -> &List<Sym> {
        match items {
            Items::Sym(list) => list,
            _ => unreachable!(),
        }
    }

    fn list_mut(items: &mut Items) -> &mut List<Sym> {
        match items {
            Items::Sym(list) => list,
            _ => unreachable!(),
        }
    }

    ghost back = { λ _. refl };

    ghost of_kind = { λ _. refl };

    ghost counted = { λ _. refl };
}

impl Listed for Rel {
    ghost kind = { kinds.Rel };

    ghost variant = { items.Rel };

    ghost list_of = { rels_of };

    fn kind() -> Kind {
        Kind::Rel
    }

    fn list(items: &Items) -> &List<Rel> {
        match items {
            Items::Rel(list) => list,
            _ => unreachable!(),
        }
    }

    fn list_mut(items: &mut Items) -> &mut List<Rel> {
        match items {
            Items::Rel(list) => list,
            _ => unreachable!(),
        }
    }

    ghost back = { λ _. refl };

    ghost of_kind = { λ _. refl };

    ghost counted = { λ _. refl };
}

impl Listed for Rela {
    ghost kind = { kinds.Rela };

    ghost variant = { items.Rela };

    ghost list_of = { relas_of };

    fn kind() -> Kind {
        Kind::Rela
    }

    fn list(items: &Items) -> &List<Rela> {
        match items {
            Items::Rela(list) => list,
            _ => unreachable!(),
        }
    }

    fn list_mut(items: &mut Items) -> &mut List<Rela> {
        match items {
            Items::Rela(list) => list,
            _ => unreachable!(),
        }
    }

    ghost back = { λ _. refl };

    ghost of_kind = { λ _. refl };

    ghost counted = { λ _. refl };
}

impl Listed for Dyn {
    ghost kind = { kinds.Dyn };

    ghost variant = { items.Dyn };

    ghost list_of = { dyns_of };

    fn kind() -> Kind {
        Kind::Dyn
    }

    fn list(items: &Items) -> &List<Dyn> {
        match items {
            Items::Dyn(list) => list,
            _ => unreachable!(),
        }
    }

    fn list_mut(items: &mut Items) -> &mut List<Dyn> {
        match items {
            Items::Dyn(list) => list,
            _ => unreachable!(),
        }
    }

    ghost back = { λ _. refl };

    ghost of_kind = { λ _. refl };

    ghost counted = { λ _. refl };
}
