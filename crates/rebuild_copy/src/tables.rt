//! The table of the names, where it is held.

ghost use Rattle.std.specs.Prelude.{◌≡◌, ◌+◌, min, drop, take, true, is_some, IfOk, IfErr, IfSome};
ghost use Rattle.elf_types.specs.declared.errors.ElfError.TheVariants.{Memory};
ghost use Rattle.rebuild_edits.specs.gelf_view.Records.{string_front};
ghost use Rattle.rebuild_copy.specs.Rows.{HasNamesIn, has_strings, held_in};

use crate::rows::{header_of, range_of};
use elf_types::constants::SHT_STRTAB;
use elf_types::{ElfError, Octets};
use rebuild_edits::prelude::string_in;
use rebuild_plan::Arranged;
use rebuild_plan::prelude::ByteRange;
use std::alloc::Global;

/// How many bytes of a name are copied at first, and one more.
const FIRST: u64 = 63;

/// From so many on all that there are are copied at once.
const MOST: u64 = 1 << 32;

/// Whether the names of the sections are in a string table, by its header.
pub(crate) fn has_strings(x: &Arranged) -> bool
    ensures { result ≡ has_strings x.now }
{
    let index = x.listed.header.shstrndx;
    index != 0 && index < x.listed.header.shnum && header_of(x, index).stype == SHT_STRTAB
}

/// The range of the bytes that are held of the table of the names, and one of none where there is
/// no such table.
pub(crate) fn table_of(x: &Arranged) -> ByteRange
    ensures { HasNamesIn x.now (held_in x.now result) }
{
    if !has_strings(x) {
        return ByteRange {
            held: true,
            at: 0,
            len: 0,
        };
    }
    range_of(x, x.listed.header.shstrndx)
}

/// The table of the names, where it is held, and the text in which it is, of which nothing is
/// stated.
#[derive(Drop)]
pub(crate) struct OldTable<'a> {
    /// The range of its bytes.
    pub range: ByteRange,
    /// The place of the text.
    pub text_at: u64,
    /// The text.
    pub text: &'a [u8],
}

/// The table of the names as an image has it, with its text.
pub(crate) fn old_table(x: &Arranged) -> OldTable<'_>
    ensures { HasNamesIn x.now (held_in x.now result.range) }
{
    let range = table_of(x);
    let (text_at, text) = x.held.text_of(range.at, range.len);
    OldTable {
        range,
        text_at,
        text,
    }
}

/// Where the name at a place of a table may be in its text. Nothing but the memory depends on it.
pub(crate) fn name_near(x: &Arranged, table: &OldTable<'_>, place: u32) -> u64 {
    let at = table.range.at.saturating_add(u64::from(place));
    x.held.text_place(at).saturating_sub(table.text_at)
}

/// How many bytes there are of so many and one more, where so many are left.
fn front_len(count: u64, left: u64) -> u64
    ensures { result ≡ min (count + 1) left }
{
    if count < left {
        return count + 1;
    }
    left
}

/// The bytes of a table from a place on, `count` of them and one more, or those that are there,
/// copied. It fails with `Memory` alone.
pub(crate) fn copy_front(
    alloc: Global,
    x: &Arranged,
    table: ByteRange,
    place: u32,
    count: u64,
) -> Result<Octets, ElfError>
    ensures ok { IfOk result
        (λ bytes. bytes ≡ take (count + 1) (drop place (held_in x.now table))) }
    ensures err { IfErr result (λ e. e ≡ Memory) }
{
    let _held = x.held.len();
    let past = u64::from(place);
    let len = front_len(count, table.len.saturating_sub(past));
    x.held.octets_at(alloc, table.at.saturating_add(past), len)
}

/// Whether a NUL is among bytes.
fn is_ended(bytes: &[u8]) -> bool
    ensures { result ≡ is_some (string_front bytes.now) }
{
    match string_in(bytes) {
        Some(_) => true,
        None => false,
    }
}

/// Bytes, if a NUL is among them.
fn if_ended(bytes: Octets) -> Option<Octets>
    ensures { IfSome result (λ same. (same ≡ bytes) × (is_some (string_front bytes) ≡ true)) }
{
    if is_ended(bytes.as_slice()) {
        return Some(bytes);
    }
    None
}

/// The bytes of a table from a place on, so many of them and one more, copied, if a NUL is among
/// them. It fails with `Memory` alone.
fn copy_ended(
    alloc: Global,
    x: &Arranged,
    table: ByteRange,
    place: u32,
    count: u64,
) -> Result<Option<Octets>, ElfError>
    ensures ok { IfOk result (λ found. IfSome found
        (λ bytes. string_front bytes ≡ string_front (drop place (held_in x.now table)))) }
    ensures err { IfErr result (λ e. e ≡ Memory) }
{
    match copy_front(alloc, x, table, place, count) {
        Ok(bytes) => Ok(if_ended(bytes)),
        Err(e) => Err(e),
    }
}

/// The bytes of a table from a place on, copied: at least those of the string with which they
/// begin, and its NUL, where one ends it. It fails with `Memory` alone, and copies at most a few
/// times as many bytes as that string has.
pub(crate) fn copy_string(
    alloc: Global,
    x: &Arranged,
    table: ByteRange,
    place: u32,
) -> Result<Octets, ElfError>
    ensures ok { IfOk result
        (λ bytes. string_front bytes ≡ string_front (drop place (held_in x.now table))) }
    ensures err { IfErr result (λ e. e ≡ Memory) }
{
    let most = table.len.min(MOST);
    let mut count = FIRST;
    while count < most {
        match copy_ended(alloc, x, table, place, count) {
            Ok(Some(bytes)) => return Ok(bytes),
            Ok(None) => {}
            Err(e) => return Err(e),
        }
        count *= 2;
    }
    copy_front(alloc, x, table, place, table.len)
}
