//! A section of strings that is one table: its bytes up to the last NUL, where they are in memory.

ghost use Rattle.std.specs.Prelude.{◌≡◌, ◌≤◌, ℕ, length, take, drop, true, false, IfOk, IfSome, IsTrue, None};
ghost use Rattle.std.specs.Option.{option_copied};
ghost use Rattle.elf_types.specs.declared.constants.TheConstants.{SHT_STRTAB};
ghost use Rattle.elf_types.specs.declared.records.Kind.TheVariants as kinds;
ghost use Rattle.gelf_view.specs.elf_object.Object.{section_at};
ghost use Rattle.gelf_view.specs.elf_object.Answers.{no_section, piece_count, kind_at};
ghost use Rattle.gelf_view.specs.Records.{string_front, AreEnded};
ghost use Rattle.tool_objects.specs.Steps.{ReadsElf};
ghost use Rattle.tool_objects.specs.AtHand.Strings.{is_past, EndsAt, HoldsStrings, IsOneTable};

use crate::at_hand::held::{held_bytes, load};
use elf_types::constants::SHT_STRTAB;
use elf_types::{DataId, Kind, ScnId};
use gelf_view::prelude::{Elf, ended_len};
use tool_output::Stop;
use tool_output::prelude::Source;

/// Whether a section is of type `SHT_STRTAB`.
#[tactic(auto, unfolding(crate::specs::Passed::shdr_answer))]
fn is_strings<S: Source>(elf: &Elf<S>, s: ScnId) -> bool
    ensures { result ≡ true → (no_section elf.now.o s.0 ≡ None)
        × ((section_at elf.now.o s.0).header.stype ≡ SHT_STRTAB) }
{
    match elf.shdr(s) {
        Ok(header) => header.stype == SHT_STRTAB,
        Err(_) => false,
    }
}

/// Whether a section has one piece.
#[tactic(auto, unfolding(crate::specs::Passed::pieces_answer))]
fn is_alone<S: Source>(elf: &Elf<S>, s: ScnId) -> bool
    ensures { result ≡ true → piece_count elf.now.o s.0 ≡ 1 }
{
    match elf.pieces(s) {
        Ok(count) => count == 1,
        Err(_) => false,
    }
}

/// Whether a piece holds bytes.
#[tactic(auto, unfolding(crate::specs::Passed::piece_kind_answer))]
fn is_of_bytes<S: Source>(elf: &Elf<S>, d: DataId) -> bool
    ensures { result ≡ true → kind_at elf.now.o d.section d.piece ≡ kinds.Bytes }
{
    match elf.piece_kind(d) {
        Ok(kind) => kind == Kind::Bytes,
        Err(_) => false,
    }
}

/// Whether the home of a section is in the file.
#[tactic(auto, unfolding(crate::specs::Passed::out_answer))]
fn is_in_file<S: Source>(elf: &Elf<S>, s: ScnId) -> bool
    ensures { result ≡ true → (section_at elf.now.o s.0).home.out ≡ false }
{
    match elf.is_out_of_file(s) {
        Ok(out) => !out,
        Err(_) => false,
    }
}

/// Whether a section is one table of strings: it is of type `SHT_STRTAB` and in the file, and has
/// one piece, which holds bytes. Nothing is read.
fn is_one_table<S: Source>(elf: &Elf<S>, s: ScnId) -> bool
    ensures { result ≡ true → IsOneTable elf.now.o s.0 }
{
    let d = DataId {
        section: s.0,
        piece: 0,
    };
    is_strings(elf, s) && is_in_file(elf, s) && is_alone(elf, s) && is_of_bytes(elf, d)
}

/// The first `n` bytes.
fn first_bytes(bytes: &[u8], n: usize) -> &[u8]
    requires { n ≤ length bytes.now }
    ensures { result.now ≡ take n bytes.now }
{
    &bytes[..n]
}

/// Bytes up to their last NUL: the same strings begin in them, and one begins at each place of
/// them.
///
/// Source: gABI chapter 4, "String Table".
pub fn up_to_last_nul(bytes: &[u8]) -> &[u8]
    ensures same { (at : ℕ) → string_front (drop at result.now) ≡ string_front (drop at bytes.now) }
    ensures ended { AreEnded result.now }
{
    let n = ended_len(bytes);
    first_bytes(bytes, n)
}

/// The bytes of a section of strings up to the last NUL, where it is one table and its bytes are in
/// memory. Its strings are those that begin in these bytes, and one begins at each place of them.
///
/// Source: gABI chapter 4, "String Table".
pub fn string_bytes<S: Source>(elf: &Elf<S>, s: ScnId) -> Option<&[u8]>
    ensures strings { IfSome result (λ b. HoldsStrings elf.now s.0 b.now) }
    ensures ended { IfSome result (λ b. AreEnded b.now) }
{
    if !is_one_table(elf, s) {
        return None;
    }
    let d = DataId {
        section: s.0,
        piece: 0,
    };
    match held_bytes(elf, d) {
        Some(bytes) => Some(up_to_last_nul(bytes)),
        None => None,
    }
}

/// Where the strings of a section end, where it is one table and its bytes are in memory.
fn end_at_hand<S: Source>(elf: &Elf<S>, s: ScnId) -> Option<u64>
    ensures { IsTrue elf.now.told → IfSome result (EndsAt elf.now.o s.0) }
{
    match string_bytes(elf, s) {
        Some(bytes) => Some(bytes.len() as u64),
        None => None,
    }
}

/// Where the strings of a section end, the place after its last NUL: a string can be read exactly
/// where it begins before that. It is told of a section of strings that is in the file and has one
/// piece, which is read where it is not in memory; of any other it is None, and nothing is read. It
/// stops by `Read` where a read of the source failed, and by `Memory`.
///
/// Source: gABI chapter 4, "String Table".
pub fn strings_end<S: Source>(elf: &mut Elf<S>, s: ScnId) -> Result<Option<u64>, Stop>
    ensures end { IsTrue elf.old.told → IfOk result (λ end. IfSome end (EndsAt elf.old.o s.0)) }
    ensures reads { ReadsElf S.Source result elf.old elf.new }
{
    if !is_one_table(elf, s) {
        return Ok(None);
    }
    match load(elf, s) {
        Ok(()) => Ok(end_at_hand(elf, s)),
        Err(stop) => Err(stop),
    }
}

/// Whether a place is at an end or after it, where that is known: a string that begins there can
/// not be read.
pub fn is_past(end: Option<u64>, at: u64) -> bool
    ensures { result ≡ is_past end at }
{
    match end {
        Some(end) => at >= end,
        None => false,
    }
}

/// The string that begins at a place of the bytes of strings, or None exactly where no NUL follows.
pub fn table_string_from(strings: &[u8], place: u32) -> Option<&[u8]>
    ensures { option_copied result ≡ string_front (drop place strings.now) }
{
    gelf_view::string_from(strings, u64::from(place))
}
