//! Sections that go by the symbols of a table.

ghost use Rattle.std.specs.Prelude.{◌≡◌, ◌==◌, ◌||◌};
ghost use Rattle.symbol_lookup.specs.hash_model.Reordered.{has_item_each, kind_by_symbols};

use elf_types::Kind;
use elf_types::constants::{SHT_GNU_VERSYM, SHT_REL, SHT_RELA, SHT_SYMTAB_SHNDX};

/// The kind of the items of a section of a type that goes by the symbols to which it links. A
/// section of another type has none.
pub fn kind_by_symbols(stype: u32) -> Option<Kind>
    ensures { result ≡ kind_by_symbols stype }
{
    if stype == SHT_SYMTAB_SHNDX {
        Some(Kind::Word)
    } else if stype == SHT_GNU_VERSYM {
        Some(Kind::Half)
    } else if stype == SHT_REL {
        Some(Kind::Rel)
    } else if stype == SHT_RELA {
        Some(Kind::Rela)
    } else {
        None
    }
}

/// Whether each symbol has an item of its own in a section of a type: an extended index, or a
/// version.
pub fn has_item_each(stype: u32) -> bool
    ensures { result ≡ has_item_each stype }
{
    stype == SHT_SYMTAB_SHNDX || stype == SHT_GNU_VERSYM
}
