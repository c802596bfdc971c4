//! GNU's hash section, rebuilt.

ghost use Rattle.std.specs.Prelude.{◌≡◌, ◌<◌, ◌++◌, ◌∷◌, ◌^◌, [], length, IsTrue, IfOk, IfErr, OnOk};
ghost use Rattle.elf_types.specs.Answers.{Follows};
ghost use Rattle.elf_types.specs.declared.errors.ElfError.TheVariants.{Memory};
ghost use Rattle.symbol_lookup.specs.elf_object.Words.{AnswersRead};
ghost use Rattle.symbol_lookup.specs.elf_descriptor.Reads.{Looks, wanted};
ghost use Rattle.symbol_lookup.specs.hash_model.HashSections.{gnu_bytes};
ghost use Rattle.symbol_lookup.specs.hash_model.BuiltHashes.{hash_refusal};
ghost use Rattle.hash_build.specs.declared.hashing.Hashing.TheVariants as kinds;
ghost use Rattle.hash_build.specs.Calls as calls;
ghost use Rattle.hash_build.specs.Calls.{order_refusals, IsWantOrUnsorted};
ghost use Rattle.hash_build.specs.Hashed.{listed_hashes};
ghost use Rattle.hash_build.specs.Gnu.{gnu_answer, gnu_of};
ghost use Rattle.hash_build.specs.Tables.{IsSymbolTable, ReadsInOrder};

use crate::bloom::bloom_of;
use crate::buckets::{first_hashed, first_unsorted};
use crate::chains::chained_words;
use crate::encoding::append_parts;
use crate::hashing::Hashing;
use crate::listed::read_hashes;
use crate::shape::GnuShape;
use crate::tables::{SymbolTable, form_of, table_of};
use elf_outside::Source;
use elf_types::{Class, ElfError, List, Octets, Order, ScnId, Words};
use std::alloc::Global;
use symbol_lookup::prelude::Elf;

/// The four numbers with which a section begins. It fails with `Memory` alone.
fn head_words(alloc: Global, shape: GnuShape, from: u32) -> Result<Words, ElfError>
    ensures ok { IfOk result (λ words.
        words ≡ shape.nbuckets ∷ from ∷ shape.bloom ∷ shape.shift ∷ []) }
    ensures err { IfErr result (λ e. e ≡ Memory) }
{
    let mut words = Words::with_capacity(alloc, 4)?;
    words.push(shape.nbuckets)?;
    words.push(from)?;
    words.push(shape.bloom)?;
    words.push(shape.shift)?;
    Ok(words)
}

/// Appends the section for symbols with these hashes. It fails with `Memory` alone.
fn append_section(
    alloc: Global,
    form: (Class, Order),
    shape: GnuShape,
    hashes: &List<Option<u32>>,
    out: &mut Octets,
) -> Result<(), ElfError>
    requires buckets { 0 < shape.nbuckets }
    requires bloom { 0 < shape.bloom }
    requires few { length hashes.now < 2 ^ 32 }
    ensures ok { OnOk result (out.new
        ≡ out.old ++ gnu_bytes form.0 form.1 (gnu_of form.0 shape hashes.now)) }
    ensures err { IfErr result (λ e. e ≡ Memory) }
{
    let from = first_hashed(hashes);
    let head = head_words(alloc, shape, from as u32)?;
    let bloom = bloom_of(alloc, form.0, shape, hashes)?;
    let words = chained_words(alloc, hashes, shape.nbuckets, from)?;
    append_parts(head, bloom, words, form, out)
}

/// The section for symbols with these hashes. It fails with `Memory` alone.
fn section_of(
    alloc: Global,
    form: (Class, Order),
    shape: GnuShape,
    hashes: &List<Option<u32>>,
) -> Result<Octets, ElfError>
    requires buckets { 0 < shape.nbuckets }
    requires bloom { 0 < shape.bloom }
    requires few { length hashes.now < 2 ^ 32 }
    ensures ok { IfOk result (λ bytes.
        bytes ≡ gnu_bytes form.0 form.1 (gnu_of form.0 shape hashes.now)) }
    ensures err { IfErr result (λ e. e ≡ Memory) }
{
    let mut out = Octets::new(alloc);
    match append_section(alloc, form, shape, hashes, &mut out) {
        Ok(()) => Ok(out),
        Err(e) => Err(e),
    }
}

/// The section for symbols with these hashes, where they are in the order that it needs; else
/// `Unsorted`.
fn section_if_sorted(
    alloc: Global,
    form: (Class, Order),
    shape: GnuShape,
    hashes: &List<Option<u32>>,
) -> Result<Octets, ElfError>
    requires buckets { 0 < shape.nbuckets }
    requires bloom { 0 < shape.bloom }
    requires few { length hashes.now < 2 ^ 32 }
    ensures follows { Follows result (gnu_answer form.0 form.1 shape hashes.now) }
    ensures err { IfErr result IsWantOrUnsorted }
{
    match first_unsorted(hashes, shape.nbuckets) {
        Some(at) => Err(ElfError::Unsorted { at }),
        None => section_of(alloc, form, shape, hashes),
    }
}

/// The section for the symbols of a table.
fn section_for<S: Source>(
    elf: &mut Elf<S>,
    t: SymbolTable,
    shape: GnuShape,
) -> Result<Octets, ElfError>
    requires table { IsSymbolTable elf.old.o t }
    requires buckets { 0 < shape.nbuckets }
    requires bloom { 0 < shape.bloom }
    ensures told { IsTrue elf.old.told → Follows result (gnu_answer elf.old.o.header.class
        elf.old.o.header.order shape (listed_hashes kinds.Gnu elf.old.o t.section.0)) }
    ensures reads { ReadsInOrder S.Source t.section.0 result elf.old elf.new }
{
    let alloc = elf.alloc();
    let of = form_of(elf);
    match read_hashes(elf, t, Hashing::Gnu) {
        Ok(hashes) => section_if_sorted(alloc, of, shape, &hashes),
        Err(e) => Err(e),
    }
}

/// The bytes of GNU's hash section of a shape for the symbols in piece 0 of a symbol table, in the
/// image's byte order. Its first symbol is the first listed one, or the number of symbols; its
/// bloom has just the bits of the listed symbols; a chain word is the hash with its low bit as the
/// end mark.
///
/// It fails as `build_sysv` does: `NoSection`, `NoData`, `WrongKind`, and for the clean home piece
/// `OutOfFile` and `Ragged`; then `TooMany` exactly where there are 2^32 symbols or more; then
/// `Memory` or `Read`, at any step, and `Unsorted` exactly where the symbols are not in the order
/// that `gnu_order` gives, with the first symbol that is not listed after a listed one, or whose
/// bucket is below its predecessor's. It reads the table and its strings at the first use, each
/// once, and marks nothing dirty.
///
/// Source: GNU's hash section, which is no part of the gABI.
pub fn build_gnu<S: Source>(elf: &mut Elf<S>, s: ScnId, shape: GnuShape) -> Result<Octets, ElfError>
    requires buckets { 0 < shape.nbuckets }
    requires bloom { 0 < shape.bloom }
    requires shift { shape.shift < 32 }
    ensures answer { AnswersRead elf.old.told (wanted (calls.build_gnu s.0 shape) elf.old)
        (order_refusals (hash_refusal elf.old.o s.0)) result
        ((calls.build_gnu s.0 shape).answer elf.old.o) }
    ensures looks { Looks S.Source (calls.build_gnu s.0 shape) result elf.old elf.new }
{
    match table_of(elf, s) {
        Ok(t) => section_for(elf, t, shape),
        Err(e) => Err(e),
    }
}
