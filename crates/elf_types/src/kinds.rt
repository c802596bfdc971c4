//! What a section's data consists of.

ghost use Rattle.std.specs.Prelude.{◌≡◌, ◌<◌};
ghost use Rattle.elf_types.specs.Kinds.{has_flag, is_compressed, kind_of_type, section_kind};

use crate::constants::{
    SHF_COMPRESSED, SHT_DYNAMIC, SHT_DYNSYM, SHT_FINI_ARRAY, SHT_GNU_VERSYM, SHT_GROUP, SHT_HASH,
    SHT_INIT_ARRAY, SHT_NOBITS, SHT_NULL, SHT_PREINIT_ARRAY, SHT_REL, SHT_RELA, SHT_SYMTAB,
    SHT_SYMTAB_SHNDX,
};
use crate::records::{Class, Kind, Shdr};

/// Whether a section's flags say that its data is compressed.
#[tactic(auto, unfolding(crate::specs::Kinds::is_compressed))]
pub fn is_compressed(flags: u64) -> bool
    ensures { result ≡ is_compressed flags }
{
    flags / SHF_COMPRESSED % 2 == 1
}

/// Whether a section header has a flag, which is a power of two (gABI chapter 4, "Sections",
/// sh_flags). It takes no memory.
pub fn has_flag(h: &Shdr, flag: u64) -> bool
    requires { 0 < flag }
    ensures { result ≡ has_flag flag h.now }
{
    h.flags / flag % 2 == 1
}

/// The kind by a section's type.
#[tactic(auto, unfolding(crate::specs::Kinds::kind_of_type))]
fn kind_of_type(stype: u32, entsize: u64) -> Kind
    ensures { result ≡ kind_of_type stype entsize }
{
    match stype {
        SHT_SYMTAB | SHT_DYNSYM => Kind::Sym,
        SHT_RELA => Kind::Rela,
        SHT_REL => Kind::Rel,
        SHT_DYNAMIC => Kind::Dyn,
        SHT_HASH if entsize == 8 => Kind::Bytes,
        SHT_HASH | SHT_GROUP | SHT_SYMTAB_SHNDX => Kind::Word,
        SHT_GNU_VERSYM => Kind::Half,
        SHT_INIT_ARRAY | SHT_FINI_ARRAY | SHT_PREINIT_ARRAY => Kind::Addr,
        _ => Kind::Bytes,
    }
}

/// The kind of a section's items, by its type, its flag `SHF_COMPRESSED` and, for a hash section,
/// its `sh_entsize` (a hash section with words of eight bytes is kept as bytes). It is the same in
/// both classes. It takes no memory.
///
/// Source: gABI chapter 4, "Sections", and chapter 5, "Hash Table"; the version sections are GNU's.
#[tactic(auto, unfolding(crate::specs::Kinds::section_kind))]
pub fn kind_of(_class: Class, h: &Shdr) -> Kind
    ensures { result ≡ section_kind h.now }
{
    match h.stype {
        SHT_NULL | SHT_NOBITS => Kind::Empty,
        _ if is_compressed(h.flags) => Kind::Bytes,
        _ => kind_of_type(h.stype, h.entsize),
    }
}
