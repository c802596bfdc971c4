//! The fields of `set`, each with its value.

ghost use Rattle.std.specs.Prelude.{◌≡◌};
ghost use Rattle.elf_calls_script.specs.Parts.{in_table, one_of};
ghost use Rattle.elf_calls_script.specs.Fields.{ehdr_field_phrases, phdr_field_phrases, shdr_field_phrases, item_fields};
ghost use Rattle.elf_calls_script.specs.Said.{Says};

use crate::calls::{EhdrSet, ItemSet, PhdrSet, ShdrSet};
use crate::faults::{CallFault, Why};
use crate::words::Words;
use elf_types::Kind;

/// A field of the ELF header, and its value.
pub(crate) fn read_ehdr_field(words: &mut Words) -> Result<(EhdrSet, bool), CallFault>
    ensures { Says (one_of ehdr_field_phrases) words.old result words.new }
{
    let field = words.read_text()?;
    let n = words.read_number()?;
    match field {
        "osabi" => Ok((EhdrSet::Osabi(n.byte), n.is_byte)),
        "abiversion" => Ok((EhdrSet::Abiversion(n.byte), n.is_byte)),
        "type" => Ok((EhdrSet::Etype(n.half), n.is_half)),
        "machine" => Ok((EhdrSet::Machine(n.half), n.is_half)),
        "entry" => Ok((EhdrSet::Entry(n.xword), n.is_xword)),
        "phoff" => Ok((EhdrSet::Phoff(n.xword), n.is_xword)),
        "shoff" => Ok((EhdrSet::Shoff(n.xword), n.is_xword)),
        "flags" => Ok((EhdrSet::Flags(n.word), n.is_word)),
        "shstrndx" => Ok((EhdrSet::Shstrndx(n.word), n.is_word)),
        _ => Err(CallFault::Why(Why::BadWords)),
    }
}

/// A field of a program header, and its value.
pub(crate) fn read_phdr_field(words: &mut Words) -> Result<(PhdrSet, bool), CallFault>
    ensures { Says (one_of phdr_field_phrases) words.old result words.new }
{
    let field = words.read_text()?;
    let n = words.read_number()?;
    match field {
        "type" => Ok((PhdrSet::Ptype(n.word), n.is_word)),
        "flags" => Ok((PhdrSet::Flags(n.word), n.is_word)),
        "offset" => Ok((PhdrSet::Offset(n.xword), n.is_xword)),
        "vaddr" => Ok((PhdrSet::Vaddr(n.xword), n.is_xword)),
        "paddr" => Ok((PhdrSet::Paddr(n.xword), n.is_xword)),
        "filesz" => Ok((PhdrSet::Filesz(n.xword), n.is_xword)),
        "memsz" => Ok((PhdrSet::Memsz(n.xword), n.is_xword)),
        "align" => Ok((PhdrSet::Align(n.xword), n.is_xword)),
        _ => Err(CallFault::Why(Why::BadWords)),
    }
}

/// A field of a section header, and its value.
pub(crate) fn read_shdr_field(words: &mut Words) -> Result<(ShdrSet, bool), CallFault>
    ensures { Says (one_of shdr_field_phrases) words.old result words.new }
{
    let field = words.read_text()?;
    let n = words.read_number()?;
    match field {
        "name" => Ok((ShdrSet::Name(n.word), n.is_word)),
        "type" => Ok((ShdrSet::Stype(n.word), n.is_word)),
        "flags" => Ok((ShdrSet::Flags(n.xword), n.is_xword)),
        "addr" => Ok((ShdrSet::Addr(n.xword), n.is_xword)),
        "offset" => Ok((ShdrSet::Offset(n.xword), n.is_xword)),
        "size" => Ok((ShdrSet::Size(n.xword), n.is_xword)),
        "link" => Ok((ShdrSet::Link(n.word), n.is_word)),
        "info" => Ok((ShdrSet::Info(n.word), n.is_word)),
        "addralign" => Ok((ShdrSet::Addralign(n.xword), n.is_xword)),
        "entsize" => Ok((ShdrSet::Entsize(n.xword), n.is_xword)),
        _ => Err(CallFault::Why(Why::BadWords)),
    }
}

/// A field of an item of a kind, and its value. Items of the kinds `Empty` and `Bytes` have none.
#[tactic(auto, unfolding(crate::specs::Fields::item_fields))]
pub(crate) fn read_item_field(words: &mut Words, kind: Kind) -> Result<(ItemSet, bool), CallFault>
    ensures { Says (one_of (item_fields kind)) words.old result words.new }
{
    let field = words.read_text()?;
    match kind {
        Kind::Half => read_half_field(field, words),
        Kind::Word => read_word_field(field, words),
        Kind::Addr => read_addr_field(field, words),
        Kind::Sym => read_sym_field(field, words),
        Kind::Rel => read_rel_field(field, words),
        Kind::Rela => read_rela_field(field, words),
        Kind::Dyn => read_dyn_field(field, words),
        Kind::Empty | Kind::Bytes => Err(CallFault::Why(Why::BadWords)),
    }
}

/// The value of a two-byte number.
#[tactic(auto, using(crate::proofs::Said::said), unfolding(crate::specs::Fields::item_fields))]
fn read_half_field(field: &str, words: &mut Words) -> Result<(ItemSet, bool), CallFault>
    ensures { Says (in_table (item_fields Kind.Half) field.now) words.old result words.new }
{
    if field != "value" {
        return Err(CallFault::Why(Why::BadWords));
    }
    let n = words.read_number()?;
    Ok((ItemSet::Half(n.half), n.is_half))
}

/// The value of a four-byte number.
#[tactic(auto, using(crate::proofs::Said::said), unfolding(crate::specs::Fields::item_fields))]
fn read_word_field(field: &str, words: &mut Words) -> Result<(ItemSet, bool), CallFault>
    ensures { Says (in_table (item_fields Kind.Word) field.now) words.old result words.new }
{
    if field != "value" {
        return Err(CallFault::Why(Why::BadWords));
    }
    let (n, fits) = words.read_u32()?;
    Ok((ItemSet::Word(n), fits))
}

/// The value of an address.
#[tactic(auto, using(crate::proofs::Said::said), unfolding(crate::specs::Fields::item_fields))]
fn read_addr_field(field: &str, words: &mut Words) -> Result<(ItemSet, bool), CallFault>
    ensures { Says (in_table (item_fields Kind.Addr) field.now) words.old result words.new }
{
    if field != "value" {
        return Err(CallFault::Why(Why::BadWords));
    }
    let (n, fits) = words.read_u64()?;
    Ok((ItemSet::Addr(n), fits))
}

/// The value of a field of a symbol.
fn read_sym_field(field: &str, words: &mut Words) -> Result<(ItemSet, bool), CallFault>
    ensures { Says (in_table (item_fields Kind.Sym) field.now) words.old result words.new }
{
    let n = words.read_number()?;
    match field {
        "name" => Ok((ItemSet::SymName(n.word), n.is_word)),
        "value" => Ok((ItemSet::SymValue(n.xword), n.is_xword)),
        "size" => Ok((ItemSet::SymSize(n.xword), n.is_xword)),
        "info" => Ok((ItemSet::SymInfo(n.byte), n.is_byte)),
        "other" => Ok((ItemSet::SymOther(n.byte), n.is_byte)),
        "shndx" => Ok((ItemSet::SymShndx(n.half), n.is_half)),
        _ => Err(CallFault::Why(Why::BadWords)),
    }
}

/// The value of a field of a relocation without an addend.
fn read_rel_field(field: &str, words: &mut Words) -> Result<(ItemSet, bool), CallFault>
    ensures { Says (in_table (item_fields Kind.Rel) field.now) words.old result words.new }
{
    let n = words.read_number()?;
    match field {
        "offset" => Ok((ItemSet::RelOffset(n.xword), n.is_xword)),
        "sym" => Ok((ItemSet::RelSym(n.word), n.is_word)),
        "type" => Ok((ItemSet::RelType(n.word), n.is_word)),
        _ => Err(CallFault::Why(Why::BadWords)),
    }
}

/// The value of a field of a relocation with an addend.
#[tactic(auto, using(crate::proofs::Said::said), unfolding(crate::specs::Fields::item_fields))]
fn read_rela_field(field: &str, words: &mut Words) -> Result<(ItemSet, bool), CallFault>
    ensures { Says (in_table (item_fields Kind.Rela) field.now) words.old result words.new }
{
    match field {
        "offset" => {
            let (offset, fits) = words.read_u64()?;
            Ok((ItemSet::RelaOffset(offset), fits))
        }
        "sym" => {
            let (sym, fits) = words.read_u32()?;
            Ok((ItemSet::RelaSym(sym), fits))
        }
        "type" => {
            let (rtype, fits) = words.read_u32()?;
            Ok((ItemSet::RelaType(rtype), fits))
        }
        "addend" => {
            let (addend, fits) = words.read_i64()?;
            Ok((ItemSet::RelaAddend(addend), fits))
        }
        _ => Err(CallFault::Why(Why::BadWords)),
    }
}

/// The value of a field of an entry of the dynamic section.
#[tactic(auto, using(crate::proofs::Said::said), unfolding(crate::specs::Fields::item_fields))]
fn read_dyn_field(field: &str, words: &mut Words) -> Result<(ItemSet, bool), CallFault>
    ensures { Says (in_table (item_fields Kind.Dyn) field.now) words.old result words.new }
{
    match field {
        "tag" => {
            let (tag, fits) = words.read_i64()?;
            Ok((ItemSet::DynTag(tag), fits))
        }
        "val" => {
            let (val, fits) = words.read_u64()?;
            Ok((ItemSet::DynVal(val), fits))
        }
        _ => Err(CallFault::Why(Why::BadWords)),
    }
}
