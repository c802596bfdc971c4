//! Words as the bytes of an image.

ghost use Rattle.std.specs.Prelude.{◌≡◌, ◌++◌, OnOk, IfErr, None};
ghost use Rattle.elf_types.specs.declared.errors.ElfError.TheVariants.{Memory};
ghost use Rattle.elf_xlate.specs.declared.content.Items.TheVariants as items;
ghost use Rattle.elf_xlate.specs.Translation.{encoded, first_unfit};
ghost use Rattle.symbol_lookup.specs.hash_model.HashSections.{bloom_bytes, numbers_as};

use elf_types::{Addrs, Class, ElfError, Octets, Order, Words};
use elf_xlate::{Items, to_file};

/// Appends the file form of items that fit the class, for which out of memory is the one refusal.
fn append_items(items: &Items, form: (Class, Order), out: &mut Octets) -> Result<(), ElfError>
    requires { first_unfit form.0 items.now ≡ None }
    ensures ok { OnOk result (out.new ≡ out.old ++ encoded form.0 form.1 items.now) }
    ensures err { IfErr result (λ e. e ≡ Memory) }
{
    match to_file(items, form.0, form.1, out) {
        Ok(()) => Ok(()),
        Err(_) => Err(ElfError::Memory),
    }
}

/// Appends words of four bytes. It fails with `Memory` alone.
fn append_words(words: Words, form: (Class, Order), out: &mut Octets) -> Result<(), ElfError>
    ensures ok { OnOk result (out.new ≡ out.old ++ numbers_as form.1 4 words) }
    ensures err { IfErr result (λ e. e ≡ Memory) }
{
    append_items(&Items::Word(words), form, out)
}

/// Appends the words of a bloom, which fit the class. It fails with `Memory` alone.
fn append_bloom(bloom: Addrs, form: (Class, Order), out: &mut Octets) -> Result<(), ElfError>
    requires { first_unfit form.0 (items.Addr bloom) ≡ None }
    ensures ok { OnOk result (out.new ≡ out.old ++ numbers_as form.1 (bloom_bytes form.0) bloom) }
    ensures err { IfErr result (λ e. e ≡ Memory) }
{
    append_items(&Items::Addr(bloom), form, out)
}

/// Appends the parts of GNU's hash section: the four numbers with which it begins, the bloom, and
/// the buckets with the chain words. It fails with `Memory` alone.
pub fn append_parts(
    head: Words,
    bloom: Addrs,
    words: Words,
    form: (Class, Order),
    out: &mut Octets,
) -> Result<(), ElfError>
    requires { first_unfit form.0 (items.Addr bloom) ≡ None }
    ensures ok { OnOk result (out.new ≡ out.old ++ (numbers_as form.1 4 head
        ++ (numbers_as form.1 (bloom_bytes form.0) bloom ++ numbers_as form.1 4 words))) }
    ensures err { IfErr result (λ e. e ≡ Memory) }
{
    append_words(head, form, out)?;
    append_bloom(bloom, form, out)?;
    append_words(words, form, out)
}
