//! What rules look at: sections by their headers. Nothing here is read, and nothing takes memory.

ghost use Rattle.std.specs.Prelude.{◌≡◌, ◌<◌, ◌==◌, ◌&&◌, length};
ghost use Rattle.elf_types.specs.declared.records.Kind.TheVariants as kinds;
ghost use Rattle.elf_types.specs.Kinds.{section_kind};
ghost use Rattle.tool_objects.specs.elf_xlate.Translation.{is_whole as stated_whole};
ghost use Rattle.tool_objects.specs.elf_object.Object.{section_at};
ghost use Rattle.tool_objects.specs.elf_object.Open.{home_len as stated_len};
ghost use Rattle.tool_objects.specs.elf_object.Answers.{same_kind};
ghost use Rattle.tool_objects.specs.elf_object.Sections.{header_at, is_allocated, is_of, is_relocations, info_is_section};
ghost use Rattle.elf_lint_findings.specs.Looking as looking;

use elf_types::constants::{
    SHF_ALLOC, SHF_INFO_LINK, SHT_DYNSYM, SHT_NOBITS, SHT_NULL, SHT_REL, SHT_RELA, SHT_STRTAB,
    SHT_SYMTAB,
};
use elf_types::{Class, DataId, Kind, NULL_SECTION, ScnId, Shdr, is_compressed, kind_of};
use tool_objects::prelude::{Elf, Source, item_size};
use tool_objects::{is_out, section_header};

/// The class of an object.
#[tactic(auto, unfolding(tool_objects::specs::Passed::header_of))]
pub fn object_class<S: Source>(elf: &Elf<S>) -> Class
    ensures { result ≡ elf.now.o.header.class }
{
    elf.ehdr().class
}

/// Whether so many bytes are whole items of a kind: any number of single bytes is, and no division
/// tells it.
#[tactic(auto, using(crate::proofs::WholeLemmas::whole_bytes))]
fn is_whole(kind: Kind, class: Class, len: u64) -> bool
    ensures { result ≡ stated_whole kind class len }
{
    match kind {
        Kind::Empty => true,
        Kind::Bytes => true,
        _ => len % item_size(kind, class) == 0,
    }
}

/// How many bytes of the file a section with this header has.
#[tactic(auto, unfolding(tool_objects::specs::Passed::home_len))]
fn home_len(h: &Shdr) -> u64
    ensures { result ≡ stated_len h.now }
{
    if h.stype == SHT_NULL || h.stype == SHT_NOBITS {
        0
    } else {
        h.size
    }
}

/// Whether the size of a section that is there is a multiple of its item's.
fn has_whole_items<S: Source>(elf: &Elf<S>, s: ScnId) -> bool
    requires { s.0 < length elf.now.o.sections }
    ensures { result ≡ stated_whole (section_kind (header_at elf.now.o s.0)) elf.now.o.header.class
        (stated_len (header_at elf.now.o s.0)) }
{
    let h = section_header(elf, s);
    let class = object_class(elf);
    let kind = kind_of(class, &h);
    is_whole(kind, class, home_len(&h))
}

/// Whether a section that is there is ragged: it is in the file, and its size is no multiple of its
/// item's.
///
/// Source: gABI chapter 4, "Section Header", sh_size.
#[tactic(auto, using(crate::proofs::WholeLemmas::ragged_first), unfolding(crate::specs::Looking::is_ragged_section))]
pub fn is_ragged<S: Source>(elf: &Elf<S>, s: ScnId) -> bool
    requires { s.0 < length elf.now.o.sections }
    ensures { result ≡ looking.is_ragged_section elf.now.o s.0 }
{
    !has_whole_items(elf, s) && !is_out(elf, s)
}

/// Whether a section that is there is neither out of the file nor ragged.
#[tactic(auto, using(crate::proofs::WholeLemmas::intact_is), unfolding(crate::specs::Looking::is_ragged_section, crate::specs::Looking::is_intact))]
pub fn is_intact<S: Source>(elf: &Elf<S>, s: ScnId) -> bool
    requires { s.0 < length elf.now.o.sections }
    ensures { result ≡ looking.is_intact elf.now.o s.0 }
{
    !is_out(elf, s) && has_whole_items(elf, s)
}

/// Whether the rules that go by a section's type look at a section that is there.
#[tactic(auto, unfolding(crate::specs::Looking::is_looked_at))]
pub fn is_looked_at<S: Source>(elf: &Elf<S>, s: ScnId) -> bool
    requires { s.0 < length elf.now.o.sections }
    ensures { result ≡ looking.is_looked_at elf.now.o s.0 }
{
    s.0 != 0 && is_intact(elf, s)
}

/// Whether the rules that go by a section's data look at a section that is there.
#[tactic(auto, unfolding(crate::specs::Looking::is_plain))]
pub fn is_plain<S: Source>(elf: &Elf<S>, s: ScnId) -> bool
    requires { s.0 < length elf.now.o.sections }
    ensures { result ≡ looking.is_plain elf.now.o s.0 }
{
    is_looked_at(elf, s) && !is_compressed(section_header(elf, s).flags)
}

/// Whether a section that is there is plain and of a type. The type, which most are not of, is
/// looked at first.
#[tactic(auto, using(crate::proofs::WholeLemmas::either_first))]
pub fn is_plain_of<S: Source>(elf: &Elf<S>, s: ScnId, stype: u32) -> bool
    requires { s.0 < length elf.now.o.sections }
    ensures { result ≡ (looking.is_plain elf.now.o s.0
        && ((section_at elf.now.o s.0).header.stype == stype)) }
{
    section_header(elf, s).stype == stype && is_plain(elf, s)
}

/// Whether items are symbols.
#[tactic(auto, unfolding(tool_objects::specs::Passed::kind_code))]
fn are_symbols(kind: Kind) -> bool
    ensures { result ≡ same_kind kind kinds.Sym }
{
    matches!(kind, Kind::Sym)
}

/// Whether a section is of a type, with symbols as its items.
#[tactic(auto, unfolding(tool_objects::specs::Passed::is_of))]
fn is_table_of(class: Class, h: &Shdr, stype: u32) -> bool
    ensures { result ≡ is_of stype kinds.Sym h.now }
{
    h.stype == stype && are_symbols(kind_of(class, h))
}

/// Whether a section is a symbol table: of one of the two types, with symbols as its items.
///
/// Source: gABI chapter 4, "Sections", SHT_SYMTAB and SHT_DYNSYM.
#[tactic(auto, unfolding(crate::specs::Looking::is_symbol_table))]
pub fn is_symbol_table_header(class: Class, h: &Shdr) -> bool
    ensures { result ≡ looking.is_symbol_table h.now }
{
    is_table_of(class, h, SHT_SYMTAB) || is_table_of(class, h, SHT_DYNSYM)
}

/// Whether a section is a string table.
///
/// Source: gABI chapter 4, "Sections", SHT_STRTAB.
pub fn is_string_table(h: &Shdr) -> bool
    ensures { result ≡ looking.is_string_table h.now }
{
    h.stype == SHT_STRTAB
}

/// Whether a section holds relocations.
///
/// Source: gABI chapter 4, "Sections", SHT_REL and SHT_RELA.
#[tactic(auto, unfolding(tool_objects::specs::Passed::is_relocations))]
pub fn is_relocation_section(h: &Shdr) -> bool
    ensures { result ≡ is_relocations h.now }
{
    h.stype == SHT_REL || h.stype == SHT_RELA
}

/// Whether `sh_info` is a section's number.
///
/// Source: gABI chapter 4, "Section Header", sh_info; "Sections", SHF_INFO_LINK.
#[tactic(auto, unfolding(tool_objects::specs::Passed::info_is_section))]
pub fn info_is_section(h: &Shdr) -> bool
    ensures { result ≡ info_is_section h.now }
{
    is_relocation_section(h) || h.flags / SHF_INFO_LINK % 2 == 1
}

/// Whether a section is in memory when the program runs.
///
/// Source: gABI chapter 4, "Sections", SHF_ALLOC.
#[tactic(auto, unfolding(tool_objects::specs::Passed::is_allocated))]
pub fn is_allocated_section(h: &Shdr) -> bool
    ensures { result ≡ is_allocated h.now }
{
    h.flags / SHF_ALLOC % 2 == 1
}

/// The header of the section to which a section that is there links; one that is not there is of no
/// type.
#[tactic(auto, unfolding(crate::specs::Looking::linked_header, tool_objects::specs::Passed::shdr_answer))]
pub fn linked_header<S: Source>(elf: &Elf<S>, s: ScnId) -> Shdr
    requires { s.0 < length elf.now.o.sections }
    ensures { result ≡ looking.linked_header elf.now.o s.0 }
{
    match elf.shdr(ScnId(section_header(elf, s).link)) {
        Ok(header) => header,
        Err(_) => NULL_SECTION,
    }
}
