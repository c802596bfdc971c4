//! The table of the names, held.

ghost use Rattle.std.specs.Prelude.{◌≡◌, ◌⊎◌, ◌+◌, ◌≤◌, true, false, length, take, drop, IsTrue, IfOk, IfErr};
ghost use Rattle.elf_types.specs.declared.errors.ElfError.TheVariants.{Memory, Read};
ghost use Rattle.elf_outside.specs.Asks.{Asks};
ghost use Rattle.rebuild_copy.specs.Plans.{HoldsTable, table_due};
ghost use Rattle.rebuild_copy.specs.Rows.{has_strings, gathered_range};

use crate::edits::{hold_bytes, set_range};
use crate::rows::range_of;
use crate::tables::has_strings;
use elf_outside::Source;
use elf_types::{ElfError, Octets, ScnId};
use rebuild_edits::prelude::Elf;
use rebuild_plan::Arranged;
use rebuild_plan::prelude::ByteRange;
use std::alloc::Global;

/// How long the home of the names is.
fn names_len<S: Source>(elf: &Elf<S>) -> u64
    ensures { result ≡ table_due elf.now.o }
{
    match elf.home(ScnId(elf.shstrndx())) {
        Ok((_, len)) => len,
        Err(_) => 0,
    }
}

/// Whether a range lies in the base, and is not longer than the home of the names.
fn may_be_names<S: Source>(elf: &Elf<S>, range: ByteRange) -> bool
    ensures inside { result ≡ true → range.at + range.len ≤ length elf.now.o.base }
    ensures due { result ≡ true → range.len ≤ table_due elf.now.o }
{
    let count = elf.base_len();
    if range.at > count {
        return false;
    }
    if range.len > count - range.at {
        return false;
    }
    range.len <= names_len(elf)
}

/// Bytes of an object's base, so many from a place on. It fails with `Memory`, before it reads, and
/// `Read`. It loads no section.
fn copy_bytes<S: Source>(
    alloc: Global,
    elf: &mut Elf<S>,
    at: u64,
    n: u64,
) -> Result<Octets, ElfError>
    requires { at + n ≤ length elf.old.o.base }
    ensures bytes { IsTrue elf.old.told
        → IfOk result (λ octets. octets ≡ take n (drop at elf.old.o.base)) }
    ensures long { IfOk result (λ octets. length octets ≡ n) }
    ensures asks { Asks S.Source result elf.old.source elf.new.source n }
    ensures stays { elf.new ≡ record elf.old { source = elf.new.source } }
    ensures err { IfErr result (λ e. (e ≡ Memory) ⊎ (e ≡ Read)) }
{
    let mut bytes = vec![in alloc; 0u8; n as usize]?;
    elf.copy_base(at, bytes.as_mut_slice())?;
    Ok(Octets::from_vec(bytes))
}

/// Holds the bytes of a range of the base, which is that of the table of the names.
fn hold_range<S: Source>(
    alloc: Global,
    elf: &mut Elf<S>,
    x: &mut Arranged,
    range: ByteRange,
) -> Result<(), ElfError>
    requires strings { has_strings x.old ≡ true }
    requires range { range ≡ gathered_range x.old x.old.listed.header.shstrndx }
    requires base { range.held ≡ false }
    ensures { HoldsTable S.Source x.old x.new result elf.old elf.new }
{
    if !may_be_names(elf, range) {
        return Err(ElfError::Memory);
    }
    let bytes = match copy_bytes(alloc, elf, range.at, range.len) {
        Ok(bytes) => bytes,
        Err(e) => return Err(e),
    };
    match hold_bytes(&mut x.held, bytes.as_slice()) {
        Ok(found) => {
            set_range(&mut x.ranges, x.listed.header.shstrndx, found);
            Ok(())
        }
        Err(e) => Err(e),
    }
}

/// Holds the table of the names, where there is one: a range of the base is read. It fails with
/// `Memory` and `Read`; a range that is longer than the home of the names, or not in the base,
/// which no image has, counts as out of memory. It reads at most that home.
///
/// Source: gABI chapter 4, "String Table".
pub(crate) fn hold_table<S: Source>(
    alloc: Global,
    elf: &mut Elf<S>,
    x: &mut Arranged,
) -> Result<(), ElfError>
    ensures { HoldsTable S.Source x.old x.new result elf.old elf.new }
{
    if !has_strings(x) {
        return Ok(());
    }
    let range = range_of(x, x.listed.header.shstrndx);
    if range.held {
        return Ok(());
    }
    hold_range(alloc, elf, x, range)
}
