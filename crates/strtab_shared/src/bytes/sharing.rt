//! Ranges of a text that is held already.

ghost use Rattle.std.specs.Prelude.{◌≡◌, ◌+◌, ◌≤◌, ◌++◌, true, length, take, drop, OnOk, IfErr};
ghost use Rattle.elf_types.specs.Lists.{AreBytes};
ghost use Rattle.elf_types.specs.declared.errors.ElfError.TheVariants.{Memory};
ghost use Rattle.strtab_shared.specs.Bytes.Stretches.{stretched, StandFrom};
ghost use Rattle.strtab_shared.specs.Bytes.Parts.{whole, AreKept, PutsBehind, ClosesStretches};

use crate::bytes::parts::{StretchParts, count_bytes, put_behind};
use crate::bytes::stretches::Stretch;
use elf_types::{ElfError, bytes_are_ranged};

/// Makes a stretch of what follows the stretches. The bytes stay. It fails with `Memory` alone.
fn close_tail(parts: &mut StretchParts) -> Result<(), ElfError>
    requires { AreKept parts.old }
    ensures { ClosesStretches parts.old.text result parts.old parts.new }
{
    let held = parts.text.len();
    if parts.tail == held {
        return Ok(());
    }
    let end = count_bytes(parts);
    let stretch = Stretch {
        at: parts.tail,
        len: held - parts.tail,
        end,
    };
    match parts.stretches.push(stretch) {
        Ok(()) => {
            parts.count = end;
            parts.tail = held;
            Ok(())
        }
        Err(e) => Err(e),
    }
}

/// Puts a stretch that ends at a place after the others.
fn push_ending(parts: &mut StretchParts, at: u64, len: u64, end: u64) -> Result<(), ElfError>
    requires kept { AreKept parts.old }
    requires closed { parts.old.tail ≡ length parts.old.text }
    requires inside { at + len ≤ length parts.old.text }
    requires end { end ≡ parts.old.count + len }
    ensures puts { PutsBehind (take len (drop at parts.old.text)) result parts.old parts.new }
    ensures text { parts.new.text ≡ parts.old.text }
{
    match parts.stretches.push(Stretch { at, len, end }) {
        Ok(()) => {
            parts.count = end;
            Ok(())
        }
        Err(e) => Err(e),
    }
}

/// Puts a range of the text after the others, where nothing of it follows the stretches.
fn push_stretch(parts: &mut StretchParts, at: u64, len: u64) -> Result<(), ElfError>
    requires kept { AreKept parts.old }
    requires closed { parts.old.tail ≡ length parts.old.text }
    requires inside { at + len ≤ length parts.old.text }
    ensures puts { PutsBehind (take len (drop at parts.old.text)) result parts.old parts.new }
    ensures text { parts.new.text ≡ parts.old.text }
{
    match parts.count.checked_add(len) {
        Some(end) => push_ending(parts, at, len, end),
        None => Err(ElfError::Memory),
    }
}

/// Puts a range of the text after the others. It fails with `Memory` alone.
fn share_range(parts: &mut StretchParts, at: u64, len: u64) -> Result<(), ElfError>
    requires kept { AreKept parts.old }
    requires inside { at + len ≤ length parts.old.text }
    ensures puts { PutsBehind (take len (drop at parts.old.text)) result parts.old parts.new }
    ensures text { OnOk result (parts.new.text ≡ parts.old.text) }
{
    if let Err(e) = close_tail(parts) {
        return Err(e);
    }
    push_stretch(parts, at, len)
}

/// Appends bytes to the text, where nothing of it follows the stretches. They are not among the
/// bytes.
fn hold_closed(parts: &mut StretchParts, bytes: &[u8]) -> Result<(), ElfError>
    requires kept { AreKept parts.old }
    requires closed { parts.old.tail ≡ length parts.old.text }
    ensures { ClosesStretches (parts.old.text ++ bytes.now) result parts.old parts.new }
{
    match parts.text.extend(bytes) {
        Ok(()) => {
            parts.tail = parts.text.len();
            Ok(())
        }
        Err(e) => Err(e),
    }
}

/// Appends bytes to the text, of which ranges may be put after the others. The bytes stay. It fails
/// with `Memory` alone.
fn hold_text(parts: &mut StretchParts, bytes: &[u8]) -> Result<(), ElfError>
    requires { AreKept parts.old }
    ensures { ClosesStretches (parts.old.text ++ bytes.now) result parts.old parts.new }
{
    if let Err(e) = close_tail(parts) {
        return Err(e);
    }
    hold_closed(parts, bytes)
}

/// Appends bytes to the text as `hold_text` does, and returns the place from which on they are in
/// it.
pub(crate) fn hold_behind(parts: &mut StretchParts, bytes: &[u8]) -> Result<u64, ElfError>
    requires { AreKept parts.old }
    ensures kept { AreKept parts.new }
    ensures same { whole parts.new ≡ whole parts.old }
    ensures err { IfErr result (λ e. e ≡ Memory) }
{
    let place = parts.text.len();
    match hold_text(parts, bytes) {
        Ok(()) => Ok(place),
        Err(e) => Err(e),
    }
}

/// Whether bytes are in a text at a place.
fn stands_at(text: &[u8], at: u64, bytes: &[u8]) -> bool
    ensures inside { result ≡ true → at + length bytes.now ≤ length text.now }
    ensures same { result ≡ true → take (length bytes.now) (drop at text.now) ≡ bytes.now }
{
    let held = text.len() as u64;
    let len = bytes.len() as u64;
    if at > held {
        return false;
    }
    if len > held - at {
        return false;
    }
    let end = at + len;
    bytes == &text[at as usize..end as usize]
}

/// Puts bytes after the others: as a range of the text where they are in it at a place that is
/// told, and else they are held. It fails with `Memory` alone.
pub(crate) fn put_near(parts: &mut StretchParts, bytes: &[u8], near: u64) -> Result<(), ElfError>
    requires { AreKept parts.old }
    ensures { PutsBehind bytes.now result parts.old parts.new }
{
    if stands_at(parts.text.as_slice(), near, bytes) {
        return share_range(parts, near, bytes.len() as u64);
    }
    put_behind(parts, bytes)
}

/// Puts stretches of what the text has from a place on after the others.
fn share_stretches(
    parts: &mut StretchParts,
    base: u64,
    stretches: &[Stretch],
) -> Result<(), ElfError>
    requires kept { AreKept parts.old }
    requires base { base ≤ length parts.old.text }
    requires stand { StandFrom (drop base parts.old.text) 0 stretches.now }
    ensures kept { AreKept parts.new }
    ensures text { OnOk result (parts.new.text ≡ parts.old.text) }
    ensures ok { OnOk result (whole parts.new
        ≡ whole parts.old ++ stretched (drop base parts.old.text) stretches.now) }
    ensures err { IfErr result (λ e. e ≡ Memory) }
{
    let _held = parts.text.len();
    for s in stretches {
        match share_range(parts, base + s.at, s.len) {
            Ok(()) => {}
            Err(e) => return Err(e),
        }
    }
    Ok(())
}

/// Puts bytes after the others whose text is the end of the text, from a place on.
fn share_held(parts: &mut StretchParts, base: u64, more: &StretchParts) -> Result<(), ElfError>
    requires kept { AreKept parts.old }
    requires more { AreKept more.now }
    requires base { base ≤ length parts.old.text }
    requires text { drop base parts.old.text ≡ more.now.text }
    ensures kept { AreKept parts.new }
    ensures ok { OnOk result (whole parts.new ≡ whole parts.old ++ whole more.now) }
    ensures err { IfErr result (λ e. e ≡ Memory) }
{
    let _held = parts.text.len();
    let len = more.text.len() - more.tail;
    let at = base + more.tail;
    match share_stretches(parts, base, more.stretches.as_slice()) {
        Ok(()) => share_range(parts, at, len),
        Err(e) => Err(e),
    }
}

/// Puts other shared bytes after the others: their text is held, and not what they are. It fails
/// with `Memory` alone; what a refusal leaves is not stated.
pub(crate) fn put_shared(parts: &mut StretchParts, more: &StretchParts) -> Result<(), ElfError>
    requires kept { AreKept parts.old }
    requires more { AreKept more.now }
    ensures kept { AreKept parts.new }
    ensures ok { OnOk result (whole parts.new ≡ whole parts.old ++ whole more.now) }
    ensures err { IfErr result (λ e. e ≡ Memory) }
{
    let base = parts.text.len();
    match hold_text(parts, more.text.as_slice()) {
        Ok(()) => share_held(parts, base, more),
        Err(e) => Err(e),
    }
}

/// The bytes are bytes: it is for the proofs of callers, and does nothing.
pub(crate) fn parts_are_ranged(parts: &StretchParts)
    ensures { AreBytes (whole parts.now) }
{
    bytes_are_ranged(parts.text.as_slice());
}
