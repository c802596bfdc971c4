//! What rows become, held in its file form.

ghost use Rattle.std.specs.Prelude.{◌≡◌, ◌++◌, ◌≤◌, ◌⊎◌, OnOk, IfErr};
ghost use Rattle.elf_types.specs.declared.errors.ElfError.TheVariants.{Memory, Read};
ghost use Rattle.elf_xlate.specs.declared.content.Items.TheVariants as items;
ghost use Rattle.elf_xlate.specs.Translation.{encoded, first_unfit};
ghost use Rattle.rebuild_image.specs.rebuild_model.Followed as rules;
ghost use Rattle.rebuild_keep.specs.Makes.{AsksFor, SymsFit};
ghost use Rattle.rebuild_tables.specs.Rows.{AreInBase, made_of_rows, rows_made, rows_made_between, rows_due, tables_due, HoldsMade};

use crate::reading::{read_syms, read_words};
use crate::rows::{FollowedRows, row_count};
use elf_outside::Source;
use elf_types::{ElfError, Kind, Sym};
use elf_xlate::{Items, item_size};
use rebuild_image::hold_items;
use rebuild_image::prelude::SharedBytes;
use rebuild_keep::prelude::{Elf, Numbering, followed_syms, followed_words};
use std::alloc::Global;

/// How many rows are read at a time.
const ROWS: u64 = 2_048;

/// The room that is made besides for what is held after, which headers seldom pass.
const SPARE: u64 = 65_536;

/// Appends items that fit the class in their file form. It fails with `Memory` alone.
fn append_items(held: &mut SharedBytes, x: FollowedRows, items: &Items) -> Result<(), ElfError>
    requires { first_unfit x.class items.now ≡ None }
    ensures ok { OnOk result (held.new ≡ held.old ++ encoded x.class x.order items.now) }
    ensures err { IfErr result (λ e. e ≡ Memory) }
{
    match hold_items(held, x.class, x.order, items) {
        Ok(_) => Ok(()),
        Err(e) => Err(e),
    }
}

/// Appends the file form of what symbols become, with the words of their extended indexes. It fails
/// with `Memory` alone.
fn append_syms(
    alloc: Global,
    held: &mut SharedBytes,
    x: FollowedRows,
    numbering: &Numbering,
    words: &[u32],
    syms: &[Sym],
) -> Result<(), ElfError>
    requires { SymsFit x.class syms.now }
    ensures ok { OnOk result (held.new ≡ held.old ++ encoded x.class x.order
        (items.Sym (rules.followed_syms numbering.now words.now syms.now))) }
    ensures err { IfErr result (λ e. e ≡ Memory) }
{
    match followed_syms(alloc, numbering, words, syms) {
        Ok(made) => append_items(held, x, &Items::Sym(made)),
        Err(e) => Err(e),
    }
}

/// Appends the file form of what words become, with their symbols. It fails with `Memory` alone.
fn append_words(
    alloc: Global,
    held: &mut SharedBytes,
    x: FollowedRows,
    numbering: &Numbering,
    words: &[u32],
    syms: &[Sym],
) -> Result<(), ElfError>
    ensures ok { OnOk result (held.new ≡ held.old ++ encoded x.class x.order
        (items.Word (rules.followed_words numbering.now syms.now words.now))) }
    ensures err { IfErr result (λ e. e ≡ Memory) }
{
    match followed_words(alloc, numbering, syms, words) {
        Ok(made) => append_items(held, x, &Items::Word(made)),
        Err(e) => Err(e),
    }
}

/// Appends the file form of what is made of some rows. It fails with `Memory` alone.
fn append_made(
    alloc: Global,
    held: &mut SharedBytes,
    x: FollowedRows,
    numbering: &Numbering,
    words: &[u32],
    syms: &[Sym],
) -> Result<(), ElfError>
    requires { SymsFit x.class syms.now }
    ensures ok { OnOk result (held.new ≡ held.old ++ encoded x.class x.order
        (made_of_rows numbering.now x.indexes words.now syms.now)) }
    ensures err { IfErr result (λ e. e ≡ Memory) }
{
    if x.indexes {
        return append_words(alloc, held, x, numbering, words, syms);
    }
    append_syms(alloc, held, x, numbering, words, syms)
}

/// Appends the file form of what is made of the rows from one on and before another one. It fails
/// with `Memory` and `Read`.
fn hold_some<S: Source>(
    elf: &mut Elf<S>,
    numbering: &Numbering,
    x: FollowedRows,
    from: u64,
    to: u64,
    held: &mut SharedBytes,
) -> Result<(), ElfError>
    requires inside { AreInBase elf.old.o.base x }
    requires order { from ≤ to }
    ensures ok { OnOk result (HoldsMade elf.old.told (encoded x.class x.order
        (rows_made_between numbering.now elf.old.o.base x from to)) held.old held.new) }
    ensures asks { AsksFor S.Source result elf.old elf.new (rows_due x from to) }
    ensures err { IfErr result (λ e. (e ≡ Memory) ⊎ (e ≡ Read)) }
{
    let alloc = elf.alloc();
    let words = match read_words(elf, x, from, to) {
        Ok(words) => words,
        Err(e) => return Err(e),
    };
    let syms = match read_syms(elf, x, from, to) {
        Ok(syms) => syms,
        Err(e) => return Err(e),
    };
    append_made(alloc, held, x, numbering, words.as_slice(), syms.as_slice())
}

/// Appends the file form of what is made of all rows. It fails with `Memory` and `Read`.
fn hold_all<S: Source>(
    elf: &mut Elf<S>,
    numbering: &Numbering,
    x: FollowedRows,
    held: &mut SharedBytes,
) -> Result<(), ElfError>
    requires inside { AreInBase elf.old.o.base x }
    ensures ok { OnOk result (HoldsMade elf.old.told
        (encoded x.class x.order (rows_made numbering.now elf.old.o.base x)) held.old held.new) }
    ensures asks { AsksFor S.Source result elf.old elf.new (tables_due x) }
    ensures err { IfErr result (λ e. (e ≡ Memory) ⊎ (e ≡ Read)) }
{
    let count = row_count(x);
    for p in 0..count / ROWS + 1 {
        let from = p * ROWS;
        let to = from.saturating_add(ROWS).min(count);
        match hold_some(elf, numbering, x, from, to, held) {
            Ok(()) => {}
            Err(e) => return Err(e),
        }
    }
    Ok(())
}

/// Makes room for what is made and for what is held after it, so that what was made is seldom
/// moved. It fails with `Memory` alone.
fn reserve_rows(held: &mut SharedBytes, x: FollowedRows) -> Result<(), ElfError>
    ensures same { held.new ≡ held.old }
    ensures err { IfErr result (λ e. e ≡ Memory) }
{
    let kind = if x.indexes { Kind::Word } else { Kind::Sym };
    let len = row_count(x).saturating_mul(item_size(kind, x.class));
    held.reserve(len.saturating_add(SPARE))
}

/// Appends the file form of what rows become by the new numbers of the sections: the symbols, or
/// the words of their extended indexes. The rows lie in the base. They are read from it some at a
/// time, each once, and no section is loaded; besides what is appended it holds so many rows alone.
/// It fails with `Memory` and `Read`; what a refusal leaves of what is held is not stated.
///
/// Source: gABI chapter 4, "Symbol Table", st_shndx, and SHT_SYMTAB_SHNDX.
pub fn hold_rows<S: Source>(
    elf: &mut Elf<S>,
    numbering: &Numbering,
    x: FollowedRows,
    held: &mut SharedBytes,
) -> Result<(), ElfError>
    requires inside { AreInBase elf.old.o.base x }
    ensures ok { OnOk result (HoldsMade elf.old.told
        (encoded x.class x.order (rows_made numbering.now elf.old.o.base x)) held.old held.new) }
    ensures asks { AsksFor S.Source result elf.old elf.new (tables_due x) }
    ensures err { IfErr result (λ e. (e ≡ Memory) ⊎ (e ≡ Read)) }
{
    if let Err(e) = reserve_rows(held, x) {
        return Err(e);
    }
    hold_all(elf, numbering, x, held)
}
