//! The layout without `ELF_F_LAYOUT`: the parts are one after the other.

ghost use Rattle.std.specs.Prelude.{◌≡◌, ◌≤◌, ◌⊎◌, IfOk, IfErr, Ok, Err, false};
ghost use Rattle.std.specs.Option.{SomeIff};
ghost use Rattle.elf_types.specs.declared.errors.ElfError.TheVariants.{Memory};
ghost use Rattle.elf_layout.specs.Layout.{placing_within, place_of, end_after};

use crate::parts::{PartAt, Places};
use crate::rounding::rounded_within;
use elf_types::{Addrs, ElfError};
use std::alloc::Global;

/// The places of parts that are one after the other, each at a multiple of its alignment. Parts
/// without bytes in the image leave the end where it is.
///
/// It fails with `TooLarge` where a position or the image's length is above `limit`, and `Memory`.
pub fn place_in_order(alloc: Global, parts: &[PartAt], limit: u64) -> Result<Places, ElfError>
    ensures ok { IfOk result (λ places. placing_within parts.now false 0 limit ≡ Ok places) }
    ensures err { IfErr result (λ e.
        (e ≡ Memory) ⊎ (placing_within parts.now false 0 limit ≡ Err e)) }
{
    let mut at = Addrs::with_capacity(alloc, parts.len() as u64)?;
    let mut end = 0;
    let mut length = 0;
    for part in parts {
        let Some((place, after)) = next_within(end, part, limit) else {
            return Err(ElfError::TooLarge);
        };
        at.push(place)?;
        end = after;
        if part.has_bytes() {
            length = end;
        }
    }
    Ok(Places { at, end: length })
}

/// Where a part is that comes next from the end so far, and the end after it. None exactly where
/// one of the two is above `limit`.
#[tactic(auto, unfolding(crate::specs::Layout::end_after, crate::specs::Layout::place_of))]
fn next_within(end: u64, part: &PartAt, limit: u64) -> Option<(u64, u64)>
    requires { end ≤ limit }
    ensures { SomeIff result
        ((place_of end part.now ≤ limit) × (end_after end part.now ≤ limit))
        (place_of end part.now, end_after end part.now) }
{
    let place = rounded_within(end, part.align, limit)?;
    if !part.filled {
        return Some((place, end));
    }
    if part.len > limit - place {
        return None;
    }
    Some((place, place + part.len))
}
