//! The symbols that a hash section lists, by the hashes of their names.

ghost use Rattle.std.specs.Prelude.{◌≡◌, ◌<◌, ◌==◌, ◌&&◌, not, length, is_some, slice_get, IfOk, IfSome, IsTrue, Some};
ghost use Rattle.std.specs.Option.{option_map};
ghost use Rattle.hash_model.specs.Listed.{is_defined_global, listed_name, not_empty};
ghost use Rattle.hash_model.specs.elf_object.Sections.{header_at};
ghost use Rattle.tool_objects.specs.Steps.{Learns, ReadsElf};
ghost use Rattle.tool_objects.specs.AtHand.Strings.{EndsAt};
ghost use Rattle.elf_lint_findings.specs.Looking.{links_to_symbols, section_symbols};
ghost use Rattle.elf_lint_hashes.specs.Listed as listed;
ghost use Rattle.elf_lint_hashes.specs.Listed.{hash_by, AreListed};

use elf_lint_findings::{is_symbol_table_header, item_at, linked_header, object_class};
use elf_outside::Source;
use elf_types::constants::{SHN_UNDEF, STB_LOCAL};
use elf_types::{DataId, ScnId, Sym, bind};
use symbol_hashes::{elf_hash, gnu_hash};
use tool_objects::at_hand::{is_past, strings_end};
use tool_objects::prelude::{Elf, item_count, section_header, string_at};
use tool_output::Stop;

/// How a name is hashed.
#[derive(Clone, Copy)]
pub enum NameHash {
    /// In a section of type `SHT_HASH`.
    Sysv,
    /// In GNU's hash section.
    Gnu,
}

/// A symbol table to which a hash section links.
#[derive(Clone, Copy)]
pub struct LinkedSymbolTable {
    /// The section.
    pub section: ScnId,
    /// How many symbols it has.
    pub count: u64,
    /// The section of their names.
    pub strings: ScnId,
}

/// The symbol table to which a section that is there links, or None where that is none, or its
/// symbols can not be told. Nothing is read.
#[tactic(auto, unfolding(elf_lint_findings::specs::Looking::links_to_symbols))]
pub fn linked_symbols<S: Source>(elf: &Elf<S>, s: ScnId) -> Option<LinkedSymbolTable>
    requires { s.0 < length elf.now.o.sections }
    ensures there { is_some result ≡ links_to_symbols elf.now.o s.0 }
    ensures linked { IfSome result (λ l. l.section.0 ≡ (header_at elf.now.o s.0).link) }
    ensures listed { IfSome result (AreListed elf.now.o) }
{
    let linked = linked_header(elf, s);
    let section = ScnId(section_header(elf, s).link);
    if !is_symbol_table_header(object_class(elf), &linked) {
        return None;
    }
    let d = DataId {
        section: section.0,
        piece: 0,
    };
    match item_count::<S, Sym>(elf, d) {
        Ok(count) => Some(LinkedSymbolTable {
            section,
            count,
            strings: ScnId(linked.link),
        }),
        Err(_) => None,
    }
}

/// The hash of a name.
fn hash_of(by: NameHash, name: &[u8]) -> u32
    ensures { result ≡ hash_by by name.now }
{
    match by {
        NameHash::Sysv => elf_hash(name),
        NameHash::Gnu => gnu_hash(name),
    }
}

/// The hash of a name that is not empty.
fn hash_unless_empty(by: NameHash, name: &[u8]) -> Option<u32>
    ensures { result ≡ option_map (hash_by by) (not_empty (Some name.now)) }
{
    if name.is_empty() {
        None
    } else {
        Some(hash_of(by, name))
    }
}

/// Whether symbol `i` is listed where it has a name: it is not the first, not local, and defined.
fn may_be_listed(i: u64, x: Sym) -> bool
    ensures { result ≡ (not (i == 0) && is_defined_global x) }
{
    i != 0 && bind(x.info) != STB_LOCAL && u32::from(x.shndx) != SHN_UNDEF
}

/// Symbol `i`, or None where there is none.
#[tactic(auto, unfolding(elf_lint_findings::specs::Looking::section_symbols))]
fn symbol_at<S: Source>(elf: &mut Elf<S>, l: LinkedSymbolTable, i: u64) -> Result<Option<Sym>, Stop>
    ensures { Learns S.Source (λ o. slice_get
        (section_symbols o l.section.0) i) result elf.old elf.new }
{
    item_at::<S, Sym>(elf, l.section, i)
}

/// Where the names of a table end, where it has symbols after the first and that can be told.
pub fn end_of_names<S: Source>(elf: &mut Elf<S>, l: LinkedSymbolTable) -> Result<Option<u64>, Stop>
    ensures end { IsTrue elf.old.told → IfOk result
        (λ end. IfSome end (EndsAt elf.old.o l.strings.0)) }
    ensures reads { ReadsElf S.Source result elf.old elf.new }
{
    if l.count < 2 {
        return Ok(None);
    }
    strings_end(elf, l.strings)
}

/// The hash of the name of symbol `i`, which was looked at, where it is listed. A name that begins
/// where names end can not be read, and is not looked for.
#[tactic(auto, unfolding(hash_model::specs::Listed::listed_name, hash_model::specs::Passed::symbol_name))]
fn hash_if_listed<S: Source>(
    elf: &mut Elf<S>,
    by: NameHash,
    l: LinkedSymbolTable,
    end: Option<u64>,
    i: u64,
    x: Sym,
) -> Result<Option<u32>, Stop>
    requires listed { AreListed elf.old.o l }
    requires end { IsTrue elf.old.told → IfSome end (EndsAt elf.old.o l.strings.0) }
    ensures { Learns S.Source (λ o. option_map (hash_by by) (listed_name o l.section.0 i x))
        result elf.old elf.new }
{
    if !may_be_listed(i, x) {
        return Ok(None);
    }
    let at = u64::from(x.name);
    if is_past(end, at) {
        return Ok(None);
    }
    match string_at(elf, l.strings, at) {
        Ok(Some(name)) => Ok(hash_unless_empty(by, name)),
        Ok(None) => Ok(None),
        Err(stop) => Err(stop),
    }
}

/// The hash of the name of symbol `i` of a table, where it is listed; the names end there where
/// that is known. It stops by `Read` where a read of the source failed, and by `Memory`.
///
/// Source: gABI chapter 5, "Hash Table".
pub fn listed_hash<S: Source>(
    elf: &mut Elf<S>,
    by: NameHash,
    l: LinkedSymbolTable,
    end: Option<u64>,
    i: u64,
) -> Result<Option<u32>, Stop>
    requires listed { AreListed elf.old.o l }
    requires end { IsTrue elf.old.told → IfSome end (EndsAt elf.old.o l.strings.0) }
    ensures { Learns S.Source (λ o. listed.listed_hash by o l.section.0 i) result elf.old elf.new }
{
    match symbol_at(elf, l, i) {
        Ok(Some(x)) => hash_if_listed(elf, by, l, end, i, x),
        Ok(None) => Ok(None),
        Err(stop) => Err(stop),
    }
}
