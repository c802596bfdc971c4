//! The layout with `ELF_F_LAYOUT`: the parts are where the caller puts them.

ghost use Rattle.std.specs.Prelude.{◌≡◌, ◌≤◌, ◌⊎◌, IfOk, IfErr, Ok, Err, true};
ghost use Rattle.std.specs.Option.{SomeIff};
ghost use Rattle.elf_types.specs.declared.errors.ElfError.TheVariants.{Memory};
ghost use Rattle.elf_layout.specs.Layout.{placing_within, length_from, length_with, positions};

use crate::meeting::overlap;
use crate::parts::{PartAt, Places};
use elf_types::{Addrs, ElfError};
use std::alloc::Global;

/// The places of parts that are where the caller puts them, in an image that has `base` bytes
/// already.
///
/// It fails with, in this order, `Overlap` where two parts share a byte, `TooLarge` where the
/// image's length is above `limit`, and `Memory`.
pub fn place_by_caller(
    alloc: Global,
    parts: &[PartAt],
    base: u64,
    limit: u64,
) -> Result<Places, ElfError>
    ensures ok { IfOk result (λ places. placing_within parts.now true base limit ≡ Ok places) }
    ensures err { IfErr result (λ e.
        (e ≡ Memory) ⊎ (placing_within parts.now true base limit ≡ Err e)) }
{
    if let Some((a, b)) = overlap(alloc, parts)? {
        return Err(ElfError::Overlap { a, b });
    }
    let Some(end) = length_within(parts, base, limit) else {
        return Err(ElfError::TooLarge);
    };
    let at = positions(alloc, parts)?;
    Ok(Places { at, end })
}

/// The image's length: the greatest end of a part that is not empty, and at least `base`. None
/// exactly where it is above `limit`.
#[tactic(auto, using(crate::proofs::Lengths::lengths))]
fn length_within(parts: &[PartAt], base: u64, limit: u64) -> Option<u64>
    ensures { SomeIff result (length_from base parts.now ≤ limit) (length_from base parts.now) }
{
    if base > limit {
        return None;
    }
    let mut length = base;
    for part in parts {
        length = longer_within(length, part, limit)?;
    }
    Some(length)
}

/// The image's length with one more part, or None exactly where it is above `limit`.
#[tactic(auto, unfolding(crate::specs::Layout::length_with, crate::specs::Meeting::end_of))]
fn longer_within(length: u64, part: &PartAt, limit: u64) -> Option<u64>
    requires { length ≤ limit }
    ensures { SomeIff result (length_with length part.now ≤ limit) (length_with length part.now) }
{
    if !part.has_bytes() {
        return Some(length);
    }
    if part.at > limit || part.len > limit - part.at {
        return None;
    }
    Some(length.max(part.at + part.len))
}

/// The positions of the parts, in their order. It fails with `Memory` alone.
#[tactic(auto, unfolding(crate::specs::Layout::positions))]
fn positions(alloc: Global, parts: &[PartAt]) -> Result<Addrs, ElfError>
    ensures ok { IfOk result (λ at. at ≡ positions parts.now) }
    ensures err { IfErr result (λ e. e ≡ Memory) }
{
    let at = parts.iter().map(|part| part.at).collect(alloc)?;
    Ok(Addrs::from_vec(at))
}
