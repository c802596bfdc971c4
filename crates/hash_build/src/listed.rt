//! The symbols that a hash section lists, by the hashes of their names.

ghost use Rattle.std.specs.Prelude.{◌≡◌, ◌+◌, ◌++◌, ◌∷◌, ◌==◌, ◌&&◌, not, [], length, slice_index_or, if◌then◌else◌, IsTrue, IfOk, OnOk, Ok, None};
ghost use Rattle.std.specs.Option.{option_map};
ghost use Rattle.elf_types.specs.Answers.{Follows};
ghost use Rattle.symbol_lookup.specs.elf_object.Strings.{readable, string_answer};
ghost use Rattle.symbol_lookup.specs.hash_model.Listed.{is_defined_global, not_empty};
ghost use Rattle.hash_build.specs.Hashed.{hash_with, listed_hashes};
ghost use Rattle.hash_build.specs.Reading.{no_hash};
ghost use Rattle.hash_build.specs.Tables.{IsSymbolTable, ReadsTable};

use crate::hashing::{Hashing, hash_unless_empty};
use crate::tables::SymbolTable;
use elf_outside::Source;
use elf_types::constants::{SHN_UNDEF, STB_LOCAL};
use elf_types::{DataId, ElfError, List, Sym, bind};
use symbol_lookup::prelude::{Elf, strptr, sym};

/// What a symbol, or a name, that is rejected tells: that it has no hash, unless memory ran out or
/// a read failed.
#[tactic(auto, unfolding(crate::specs::Reading::no_hash))]
fn no_hash(e: ElfError) -> Result<Option<u32>, ElfError>
    ensures { result ≡ no_hash e }
{
    match e {
        ElfError::Memory => Err(ElfError::Memory),
        ElfError::Read => Err(ElfError::Read),
        _ => Ok(None),
    }
}

/// Whether symbol `i` is listed where it has a name: it is not the first, not local, and defined.
fn may_be_listed(i: u64, x: Sym) -> bool
    ensures { result ≡ (not (i == 0) && is_defined_global x) }
{
    i != 0 && bind(x.info) != STB_LOCAL && u32::from(x.shndx) != SHN_UNDEF
}

/// The hash of the name at an offset of a table's strings, or None where it is empty or can not be
/// read.
fn hash_of_string<S: Source>(
    elf: &mut Elf<S>,
    t: SymbolTable,
    by: Hashing,
    offset: u64,
) -> Result<Option<u32>, ElfError>
    requires { IsSymbolTable elf.old.o t }
    ensures follows { IsTrue elf.old.told → Follows result (Ok (option_map (hash_with by)
        (not_empty (readable (string_answer elf.old.o t.strings.0 offset))))) }
    ensures reads { ReadsTable S.Source t.section.0 result elf.old elf.new }
{
    match strptr(elf, t.strings, offset) {
        Ok(name) => Ok(hash_unless_empty(by, name)),
        Err(e) => no_hash(e),
    }
}

/// The hash of the name of symbol `i`, which was looked at, where it is listed.
fn hash_if_listed<S: Source>(
    elf: &mut Elf<S>,
    t: SymbolTable,
    by: Hashing,
    i: u64,
    x: Sym,
) -> Result<Option<u32>, ElfError>
    requires { IsSymbolTable elf.old.o t }
    ensures follows { IsTrue elf.old.told → Follows result (Ok (option_map (hash_with by)
        (if not (i == 0) && is_defined_global x
        then not_empty (readable (string_answer elf.old.o t.strings.0 x.name)) else None))) }
    ensures first { i ≡ 0 → IfOk result (λ hash. hash ≡ None) }
    ensures reads { ReadsTable S.Source t.section.0 result elf.old elf.new }
{
    if may_be_listed(i, x) {
        return hash_of_string(elf, t, by, u64::from(x.name));
    }
    Ok(None)
}

/// The hash of the name of symbol `i` of a table, where it is listed.
fn listed_hash<S: Source>(
    elf: &mut Elf<S>,
    t: SymbolTable,
    by: Hashing,
    i: u64,
) -> Result<Option<u32>, ElfError>
    requires { IsSymbolTable elf.old.o t }
    ensures follows { IsTrue elf.old.told → Follows result
        (Ok (slice_index_or (listed_hashes by elf.old.o t.section.0) i None)) }
    ensures first { i ≡ 0 → IfOk result (λ hash. hash ≡ None) }
    ensures reads { ReadsTable S.Source t.section.0 result elf.old elf.new }
{
    let d = DataId {
        section: t.section.0,
        piece: 0,
    };
    match sym(elf, d, i) {
        Ok(x) => hash_if_listed(elf, t, by, i, x),
        Err(e) => no_hash(e),
    }
}

/// Appends the hash of symbol `i` to those of the symbols before it.
fn push_hash<S: Source>(
    elf: &mut Elf<S>,
    t: SymbolTable,
    by: Hashing,
    i: u64,
    hashes: &mut List<Option<u32>>,
) -> Result<(), ElfError>
    requires { IsSymbolTable elf.old.o t }
    ensures told { IsTrue elf.old.told → OnOk result (hashes.new
        ≡ hashes.old ++ slice_index_or (listed_hashes by elf.old.o t.section.0) i None ∷ []) }
    ensures long { OnOk result (length hashes.new ≡ length hashes.old + 1) }
    ensures first { i ≡ length hashes.old → slice_index_or hashes.old 0 None ≡ None
        → OnOk result (slice_index_or hashes.new 0 None ≡ None) }
    ensures reads { ReadsTable S.Source t.section.0 result elf.old elf.new }
{
    match listed_hash(elf, t, by, i) {
        Ok(hash) => hashes.push(hash),
        Err(e) => Err(e),
    }
}

/// Appends the hash of each symbol.
fn fill_hashes<S: Source>(
    elf: &mut Elf<S>,
    t: SymbolTable,
    by: Hashing,
    hashes: &mut List<Option<u32>>,
) -> Result<(), ElfError>
    requires table { IsSymbolTable elf.old.o t }
    requires none { hashes.old ≡ [] }
    ensures told { IsTrue elf.old.told
        → OnOk result (hashes.new ≡ listed_hashes by elf.old.o t.section.0) }
    ensures long { OnOk result (length hashes.new ≡ t.count) }
    ensures first { OnOk result (slice_index_or hashes.new 0 None ≡ None) }
    ensures reads { ReadsTable S.Source t.section.0 result elf.old elf.new }
{
    for i in 0..t.count {
        match push_hash(elf, t, by, i, hashes) {
            Ok(()) => {}
            Err(e) => return Err(e),
        }
    }
    Ok(())
}

/// Appends the hash of each symbol, with memory for all of them reserved first.
fn fill_reserved<S: Source>(
    elf: &mut Elf<S>,
    t: SymbolTable,
    by: Hashing,
    hashes: &mut List<Option<u32>>,
) -> Result<(), ElfError>
    requires table { IsSymbolTable elf.old.o t }
    requires none { hashes.old ≡ [] }
    ensures told { IsTrue elf.old.told
        → OnOk result (hashes.new ≡ listed_hashes by elf.old.o t.section.0) }
    ensures long { OnOk result (length hashes.new ≡ t.count) }
    ensures first { OnOk result (slice_index_or hashes.new 0 None ≡ None) }
    ensures reads { ReadsTable S.Source t.section.0 result elf.old elf.new }
{
    match hashes.reserve(t.count) {
        Ok(()) => fill_hashes(elf, t, by, hashes),
        Err(e) => Err(e),
    }
}

/// For each symbol of a table the hash of its name where it is listed, and else None. It stops by
/// `Memory`, and by `Read` where a read of the source failed. It reads the table and its strings at
/// the first use, each once, and marks nothing dirty.
///
/// Source: gABI chapter 5, "Hash Table".
pub fn read_hashes<S: Source>(
    elf: &mut Elf<S>,
    t: SymbolTable,
    by: Hashing,
) -> Result<List<Option<u32>>, ElfError>
    requires { IsSymbolTable elf.old.o t }
    ensures told { IsTrue elf.old.told
        → IfOk result (λ hashes. hashes ≡ listed_hashes by elf.old.o t.section.0) }
    ensures long { IfOk result (λ hashes. length hashes ≡ t.count) }
    ensures first { IfOk result (λ hashes. slice_index_or hashes 0 None ≡ None) }
    ensures reads { ReadsTable S.Source t.section.0 result elf.old elf.new }
{
    let mut hashes = List::new(elf.alloc());
    match fill_reserved(elf, t, by, &mut hashes) {
        Ok(()) => Ok(hashes),
        Err(e) => Err(e),
    }
}
