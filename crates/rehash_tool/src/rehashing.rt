//! The hash sections of the dynamic symbols, rebuilt.

ghost use Rattle.std.specs.Prelude.{◌≡◌, ◌&&◌, false, is_none, IsTrue, Ok};
ghost use Rattle.rebuild_model.specs.Rehashed.{rehashed_at};
ghost use Rattle.rehash_tool.specs.Steps.{both_hashes, words_laid_out, AreHashSectionsRebuilt, KeepsSource, TurnsObject, Rehashes};

use crate::layouts::lay_out;
use crate::sections::{dynamic_symbols, gnu_section, sysv_section};
use crate::steps::{with_gnu_there, with_sysv_there};
use elf_outside::Source;
use elf_types::{ElfError, ScnId};
use tool_files::prelude::Elf;

/// Rebuilds the hash section of words, where there is one, and lays the object out.
fn rehash_words<S: Source>(elf: &mut Elf<S>, s: ScnId, words: Option<u32>) -> Result<(), ElfError>
    ensures { TurnsObject S.Source (words_laid_out elf.old.o s.0 words) result elf.old elf.new }
{
    match with_sysv_there(elf, s, words) {
        Ok(()) => {
            lay_out(elf);
            Ok(())
        }
        Err(e) => Err(e),
    }
}

/// Rebuilds both hash sections, each where it is there.
fn rehash_both<S: Source>(
    elf: &mut Elf<S>,
    s: ScnId,
    gnu: Option<u32>,
    words: Option<u32>,
) -> Result<(), ElfError>
    ensures { TurnsObject S.Source (both_hashes elf.old.o s.0 gnu words) result elf.old elf.new }
{
    match with_gnu_there(elf, s, gnu) {
        Ok(()) => rehash_words(elf, s, words),
        Err(e) => Err(e),
    }
}

/// Whether there is neither section.
fn are_absent(gnu: Option<u32>, words: Option<u32>) -> bool
    ensures { result ≡ (is_none gnu && is_none words) }
{
    match gnu {
        Some(_) => false,
        None => match words {
            Some(_) => false,
            None => true,
        },
    }
}

/// Rebuilds the hash sections of a table, and tells whether there is one.
fn rehash_at<S: Source>(
    elf: &mut Elf<S>,
    s: ScnId,
    gnu: Option<u32>,
    words: Option<u32>,
) -> Result<bool, ElfError>
    ensures keeps { KeepsSource S.Source result elf.old elf.new }
    ensures rehashed { IsTrue elf.old.told
        → AreHashSectionsRebuilt result (rehashed_at elf.old.o s.0 gnu words) elf.new.o }
    ensures none { result ≡ Ok false → elf.new ≡ elf.old }
{
    if are_absent(gnu, words) {
        return Ok(false);
    }
    match rehash_both(elf, s, gnu, words) {
        Ok(()) => Ok(true),
        Err(e) => Err(e),
    }
}

/// Rebuilds the hash sections of the first table of dynamic symbols: the first GNU hash section
/// that links to it, for which the symbols are put in order and what goes by their indexes follows,
/// and then the first hash section of words that does. Each keeps its shape where that is moderate.
/// A program is then laid out as its headers say (`LAYOUT`). It returns false where there is no
/// such table, or neither section; then nothing is done.
///
/// It fails as these calls do, in this order: `data` on the GNU hash section, `gnu_order`,
/// `reorder`, `build_gnu`, `replace`; `data` on the hash section of words, `build_sysv`, `replace`.
/// `Memory` and `Read` may come at any step. Where it is rejected the object is open: some of the
/// steps may have been done.
///
/// Source: gABI chapter 5, "Hash Table"; GNU's hash section is no part of the gABI.
pub fn rehash<S: Source>(elf: &mut Elf<S>) -> Result<bool, ElfError>
    ensures { Rehashes S.Source result elf.old elf.new }
{
    match dynamic_symbols(elf) {
        Some(s) => {
            let gnu = gnu_section(elf, s);
            let words = sysv_section(elf, s);
            rehash_at(elf, ScnId(s), gnu, words)
        }
        None => Ok(false),
    }
}
