//! What shared bytes are made of.

ghost use Rattle.std.specs.Prelude.{◌≡◌, ◌+◌, ◌≤◌, ◌<◌, ◌^◌, ◌++◌, [], true, length, take, OnOk, OnErr, IfErr};
ghost use Rattle.elf_types.specs.declared.errors.ElfError.TheVariants.{Memory};
ghost use Rattle.elf_xlate.specs.Translation.{encoded};
ghost use Rattle.strtab_shared.specs.Bytes.Parts.{whole, AreKept, PutsBehind};

use crate::bytes::stretches::Stretch;
use elf_types::{Class, ElfError, List, Octets, Order};
use elf_xlate::{Items, to_file};
use std::alloc::Global;

/// A text, ranges of it that are one after the other, and what of the text follows them.
#[derive(Drop)]
pub struct StretchParts {
    /// The bytes that are held.
    pub text: Octets,
    /// The stretches, one after the other.
    pub stretches: List<Stretch>,
    /// How many bytes the stretches have together.
    pub count: u64,
    /// The place from which on the text follows the stretches.
    pub tail: u64,
}

/// The parts of no bytes. It takes no memory.
pub(crate) fn no_parts(alloc: Global) -> StretchParts
    ensures kept { AreKept result }
    ensures none { whole result ≡ [] }
{
    StretchParts {
        text: List::new(alloc),
        stretches: List::new(alloc),
        count: 0,
        tail: 0,
    }
}

/// Frees all bytes and of the text.
pub(crate) fn clear_parts(parts: &mut StretchParts)
    ensures kept { AreKept parts.new }
    ensures none { whole parts.new ≡ [] }
{
    parts.text.truncate(0);
    parts.stretches.truncate(0);
    parts.count = 0;
    parts.tail = 0;
}

/// The number of bytes.
pub(crate) fn count_bytes(parts: &StretchParts) -> u64
    requires { AreKept parts.now }
    ensures { result ≡ length (whole parts.now) }
{
    let held = parts.text.len();
    let open = held - parts.tail;
    parts.count + open
}

/// Whether so many bytes more can be counted.
pub(crate) fn has_room(parts: &StretchParts, more: u64) -> bool
    requires { AreKept parts.now }
    ensures { result ≡ true → length (whole parts.now) + more < 2 ^ 64 }
{
    more <= u64::MAX - count_bytes(parts)
}

/// Puts bytes after the others. It fails with `Memory` alone.
pub(crate) fn put_behind(parts: &mut StretchParts, bytes: &[u8]) -> Result<(), ElfError>
    requires { AreKept parts.old }
    ensures { PutsBehind bytes.now result parts.old parts.new }
{
    if !has_room(parts, bytes.len() as u64) {
        return Err(ElfError::Memory);
    }
    match parts.text.extend(bytes) {
        Ok(()) => Ok(()),
        Err(e) => Err(e),
    }
}

/// Cuts a text to its length before, where it has more than so many bytes, as out of memory.
fn cut_if_long(text: &mut Octets, before: u64, most: u64) -> Result<(), ElfError>
    requires { before ≤ most }
    ensures ok { OnOk result (text.new ≡ text.old) }
    ensures cut { OnErr result (text.new ≡ take before text.old) }
    ensures most { length text.new ≤ most }
    ensures err { IfErr result (λ e. e ≡ Memory) }
{
    if text.len() <= most {
        return Ok(());
    }
    text.truncate(before);
    Err(ElfError::Memory)
}

/// Appends the file form of items to a text that may have so many bytes. It fails with `Memory`
/// alone, and then the text is as before.
fn append_form(
    text: &mut Octets,
    class: Class,
    order: Order,
    items: &Items,
    most: u64,
) -> Result<(), ElfError>
    requires { length text.old ≤ most }
    ensures ok { OnOk result (text.new ≡ text.old ++ encoded class order items.now) }
    ensures unchanged { OnErr result (text.new ≡ text.old) }
    ensures most { length text.new ≤ most }
    ensures err { IfErr result (λ e. e ≡ Memory) }
{
    let before = text.len();
    match to_file(items, class, order, text) {
        Ok(()) => cut_if_long(text, before, most),
        Err(_) => Err(ElfError::Memory),
    }
}

/// Puts the file form of items after the others. It fails with `Memory` alone.
pub(crate) fn put_items(
    parts: &mut StretchParts,
    class: Class,
    order: Order,
    items: &Items,
) -> Result<(), ElfError>
    requires { AreKept parts.old }
    ensures { PutsBehind (encoded class order items.now) result parts.old parts.new }
{
    let _held = parts.text.len();
    let most = (u64::MAX - parts.count).saturating_add(parts.tail);
    append_form(&mut parts.text, class, order, items, most)
}

/// Makes room in the text for so many bytes more. It fails with `Memory` alone.
pub(crate) fn make_room(parts: &mut StretchParts, count: u64) -> Result<(), ElfError>
    requires { AreKept parts.old }
    ensures kept { AreKept parts.new }
    ensures same { whole parts.new ≡ whole parts.old }
    ensures err { IfErr result (λ e. e ≡ Memory) }
{
    parts.text.reserve(count)
}
