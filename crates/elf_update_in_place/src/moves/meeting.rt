//! Whether a home shares a place with what is written: found by its place among the extents.

ghost use Rattle.std.specs.Prelude.{◌≡◌, ◌+◌, nat_lt};
ghost use Rattle.elf_update_in_place.specs.Moves.Extents.{StandInOrder, SplitsAt, meets_extents};

use crate::moves::extents::Extent;

/// How many extents end at or before a place.
fn count_ended(extents: &[Extent], at: u64) -> usize
    requires { StandInOrder 0 extents.now }
    ensures { SplitsAt extents.now at result }
{
    let mut low: usize = 0;
    let mut high = extents.len();
    while low < high {
        let middle = low + (high - low) / 2;
        if extents[middle].end <= at {
            low = middle + 1;
        } else {
            high = middle;
        }
    }
    low
}

/// Whether a place is below the end of an extent, which may pass 2^64.
pub(crate) fn is_below_end(place: u64, at: u64, len: u64) -> bool
    ensures { result ≡ nat_lt place (at + len) }
{
    place < at || place - at < len
}

/// Whether an extent shares a place with one of those that are one after the other.
pub(crate) fn meets(extents: &[Extent], at: u64, len: u64) -> bool
    requires { StandInOrder 0 extents.now }
    ensures { result ≡ meets_extents at len extents.now }
{
    let index = count_ended(extents, at);
    if len == 0 {
        return false;
    }
    if index >= extents.len() {
        return false;
    }
    is_below_end(extents[index].at, at, len)
}
