//! Looking a symbol up by a hash section.

ghost use Rattle.std.specs.Prelude.{◌≡◌, ◌⊎◌, IsTrue, IfOk, IfErr, OnOk, None, Some, []};
ghost use Rattle.elf_types.specs.Answers.{Follows, IsRefusal};
ghost use Rattle.hash_model.specs.elf_object.Words.{AnswersRead};
ghost use Rattle.hash_model.specs.elf_object.Answers.{no_section};
ghost use Rattle.gelf_view.specs.elf_descriptor.Reads.{Looks, Queries, wanted};
ghost use Rattle.gelf_view.specs.Calls as views;
ghost use Rattle.symbol_lookup.specs.Lookups as calls;
ghost use Rattle.symbol_lookup.specs.Lookups.{bytes_refusal, chain_refusals, gnu_found, gnu_needs, gnu_refusal, link_of, linked_refusal, sysv_found, sysv_needs, sysv_refusal, words_refusal, Needs};
ghost use Rattle.symbol_lookup.specs.Searches.{HasBytes, IsFree, Searches};

use crate::gnu::gnu_start;
use crate::linear::link;
use crate::sysv::sysv_start;
use crate::walking::find_from;
use elf_types::{DataId, ElfError, ScnId, Sym};
use gelf_view::prelude::Elf;
use gelf_view::{bytes, item_count};
use hash_model::prelude::Source;
use symbol_hashes::{elf_hash, gnu_hash};

/// The symbol table to which a section that is there links. It fails as a lend of its symbols.
fn table_of<S: Source>(elf: &Elf<S>, h: ScnId) -> Result<ScnId, ElfError>
    requires { no_section elf.now.o h.0 ≡ None }
    ensures passed { IfOk result (λ s. linked_refusal elf.now.o h.0 ≡ None) }
    ensures link { IfOk result (λ s. s.0 ≡ link_of elf.now.o h.0) }
    ensures refused { IfErr result (λ e. linked_refusal elf.now.o h.0 ≡ Some e) }
    ensures err { IfErr result IsRefusal }
{
    let s = link(elf, h);
    match item_count::<S, Sym>(elf, DataId::home(s)) {
        Ok(_) => Ok(s),
        Err(e) => Err(e),
    }
}

/// The symbol table to which a hash section of words links. It fails as a lend of the words, and
/// then as a lend of the symbols.
fn table_of_words<S: Source>(elf: &Elf<S>, h: ScnId) -> Result<ScnId, ElfError>
    ensures passed { IfOk result (λ s. words_refusal elf.now.o h.0 ≡ None) }
    ensures symbols { IfOk result (λ s. linked_refusal elf.now.o h.0 ≡ None) }
    ensures link { IfOk result (λ s. s.0 ≡ link_of elf.now.o h.0) }
    ensures refused { IfErr result (λ e. sysv_refusal elf.now.o h.0 ≡ Some e) }
    ensures err { IfErr result IsRefusal }
{
    match item_count::<S, u32>(
        elf,
        DataId {
            section: h.0,
            piece: 0,
        },
    ) {
        Ok(_) => table_of(elf, h),
        Err(e) => Err(e),
    }
}

/// Makes sure that the bytes of a hash section are in memory. It fails as a lend of them; then
/// `Memory` or `Read`.
fn fetch<S: Source>(elf: &mut Elf<S>, h: ScnId) -> Result<(), ElfError>
    ensures passed { OnOk result (bytes_refusal elf.old.o h.0 ≡ None) }
    ensures refused { IfErr result
        (λ e. ((bytes_refusal elf.old.o h.0 ≡ Some e) × IsRefusal e)
        ⊎ ((bytes_refusal elf.old.o h.0 ≡ None) × IsFree e)) }
    ensures queries { Queries S.Source (views.bytes h.0 0) [] result elf.old elf.new }
    ensures searches { bytes_refusal elf.old.o h.0 ≡ None → (n : Needs) → HasBytes n elf.old.o h.0
        → Searches S.Source n result elf.old elf.new }
{
    let d = DataId {
        section: h.0,
        piece: 0,
    };
    match bytes(elf, d) {
        Ok(_) => Ok(()),
        Err(e) => Err(e),
    }
}

/// What a name finds by a section of type `SHT_HASH`, whose symbols are those of a table.
fn find_by_words<S: Source>(
    elf: &mut Elf<S>,
    h: ScnId,
    s: ScnId,
    name: &[u8],
) -> Result<Option<u64>, ElfError>
    requires words { words_refusal elf.old.o h.0 ≡ None }
    requires symbols { linked_refusal elf.old.o h.0 ≡ None }
    requires link { s.0 ≡ link_of elf.old.o h.0 }
    ensures follows { IsTrue elf.old.told → Follows result (sysv_found elf.old.o h.0 name.now) }
    ensures searches { Searches S.Source (sysv_needs elf.old.o h.0) result elf.old elf.new }
{
    match sysv_start(elf, h, elf_hash(name)) {
        Ok(start) => find_from(elf, h, s, start, name),
        Err(e) => Err(e),
    }
}

/// What a name finds by GNU's hash section, whose symbols are those of a table.
fn find_by_bytes<S: Source>(
    elf: &mut Elf<S>,
    h: ScnId,
    s: ScnId,
    name: &[u8],
) -> Result<Option<u64>, ElfError>
    requires bytes { bytes_refusal elf.old.o h.0 ≡ None }
    requires symbols { linked_refusal elf.old.o h.0 ≡ None }
    requires link { s.0 ≡ link_of elf.old.o h.0 }
    ensures follows { IsTrue elf.old.told → Follows result (gnu_found elf.old.o h.0 name.now) }
    ensures searches { Searches S.Source (gnu_needs elf.old.o h.0) result elf.old elf.new }
{
    match gnu_start(elf, h, gnu_hash(name)) {
        Ok(start) => find_from(elf, h, s, start, name),
        Err(e) => Err(e),
    }
}

/// The least index of a symbol with that name, as `find_linear` tells it, on the chain of the
/// name's bucket in a hash section of words. The symbols are those in piece 0 of the section to
/// which the hash section links.
///
/// It fails as a lend of words of piece 0 of the hash section, then as a lend of symbols of piece 0
/// of the linked one. Then `Memory` or `Read` may come, at any read, and `BadChain` comes at the
/// place of the first word that is needed and is not there, in bytes: a number of buckets that is
/// 0, a word past the end of the section, a chain word of an index that is not below their number;
/// and at the last word that was read where the walk is at a symbol after as many steps as there
/// are symbols. The walk goes to its end before a symbol is chosen, so a bad chain is met also
/// after a symbol with the name. It reads each section at the first use, once, and marks nothing
/// dirty.
///
/// Source: gABI chapter 5, "Hash Table".
pub fn find_sysv<S: Source>(
    elf: &mut Elf<S>,
    h: ScnId,
    name: &[u8],
) -> Result<Option<u64>, ElfError>
    ensures answer { AnswersRead elf.old.told (wanted (calls.find_sysv h.0 name.now) elf.old)
        (chain_refusals (sysv_refusal elf.old.o h.0) (sysv_refusal elf.old.o h.0)) result
        ((calls.find_sysv h.0 name.now).answer elf.old.o) }
    ensures looks { Looks S.Source (calls.find_sysv h.0 name.now) result elf.old elf.new }
{
    match table_of_words(elf, h) {
        Ok(s) => find_by_words(elf, h, s, name),
        Err(e) => Err(e),
    }
}

/// The least index of a symbol with that name, as `find_linear` tells it, on the chain of the
/// name's bucket in GNU's hash section, whose bytes are read in the image's byte order. The symbols
/// are those in piece 0 of the section to which the hash section links. A name whose hash does not
/// pass the bloom is not there, and the hashes in the chain words are not compared.
///
/// It fails as a lend of bytes of piece 0 of the hash section, then as a lend of symbols of piece 0
/// of the linked one. Then `Memory` or `Read` may come, at any read, and `BadChain` comes at the
/// place of the first word that is needed and is not there: a number of buckets or of bloom words
/// that is 0, a word past the end of the section, a bucket from 1 on that is below the first symbol
/// that the section knows; and at the last word that was read where the walk is at a symbol after
/// as many steps as there are symbols. The walk goes to its end before a symbol is chosen. It reads
/// each section at the first use, once, and marks nothing dirty.
///
/// Source: GNU's hash section, which is no part of the gABI.
pub fn find_gnu<S: Source>(elf: &mut Elf<S>, h: ScnId, name: &[u8]) -> Result<Option<u64>, ElfError>
    ensures answer { AnswersRead elf.old.told (wanted (calls.find_gnu h.0 name.now) elf.old)
        (chain_refusals (bytes_refusal elf.old.o h.0) (gnu_refusal elf.old.o h.0)) result
        ((calls.find_gnu h.0 name.now).answer elf.old.o) }
    ensures looks { Looks S.Source (calls.find_gnu h.0 name.now) result elf.old elf.new }
{
    match fetch(elf, h) {
        Ok(()) => match table_of(elf, h) {
            Ok(s) => find_by_bytes(elf, h, s, name),
            Err(e) => Err(e),
        },
        Err(e) => Err(e),
    }
}
