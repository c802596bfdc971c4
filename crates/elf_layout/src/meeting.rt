//! Parts that share a byte.

ghost use Rattle.std.specs.Prelude.{◌≡◌, ◌<◌, All, length, map, IfOk, IfErr};
ghost use Rattle.elf_types.specs.declared.errors.ElfError.TheVariants.{Memory};
ghost use Rattle.elf_layout.specs.Extents.{extents_of, sorted_extents_of, first_close};
ghost use Rattle.elf_layout.specs.Meeting.{overlap_of, ranks_by_position};

use crate::parts::PartAt;
use elf_types::{ElfError, List, Part};
use std::alloc::Global;

/// A part that is not empty, as it is sorted: by position, then by rank.
#[derive(Clone, Copy, PartialEq, Eq, PartialOrd, Ord)]
struct Extent {
    at: u64,
    rank: usize,
    len: u64,
}

/// Two parts that share a byte at the positions `at`, if there are any: of the parts that are
/// filled and not empty, in the order by position, then by rank, the first that a later one meets,
/// and the one next after it. A part's rank is its place in the list. It fails with `Memory` alone.
///
/// A part that meets a later one meets the next one too, which begins no later. So neighbours alone
/// are compared, after a sort.
pub fn overlap(alloc: Global, parts: &[PartAt]) -> Result<Option<(Part, Part)>, ElfError>
    ensures ok { IfOk result (λ pair. pair ≡ overlap_of parts.now) }
    ensures err { IfErr result (λ e. e ≡ Memory) }
{
    let extents = sorted_extents(alloc, parts)?;
    let Some((a, b)) = first_close(&extents) else {
        return Ok(None);
    };
    Ok(Some((parts[a].part, parts[b].part)))
}

/// The ranks of the parts that are not empty, by position and then by rank. A part's rank is its
/// place in the list. It fails with `Memory` alone.
pub fn ranks_by_position(alloc: Global, parts: &[PartAt]) -> Result<List<usize>, ElfError>
    ensures ok { IfOk result (λ ranks. ranks ≡ ranks_by_position parts.now) }
    ensures inside { IfOk result (λ ranks. All (λ rank. rank < length parts.now) ranks) }
    ensures err { IfErr result (λ e. e ≡ Memory) }
{
    let extents = sorted_extents(alloc, parts)?;
    ranks_of(alloc, &extents)
}

/// The ranks of extents. It fails with `Memory` alone.
fn ranks_of(alloc: Global, extents: &[Extent]) -> Result<List<usize>, ElfError>
    ensures ok { IfOk result (λ ranks. ranks ≡ map (λ e. e.rank) extents.now) }
    ensures err { IfErr result (λ e. e ≡ Memory) }
{
    let ranks = extents.iter().map(|extent| extent.rank).collect(alloc)?;
    Ok(List::from_vec(ranks))
}

/// The parts that are not empty, with their ranks, by position and then by rank. It fails with
/// `Memory` alone.
fn sorted_extents(alloc: Global, parts: &[PartAt]) -> Result<Vec<Extent>, ElfError>
    ensures ok { IfOk result (λ extents. extents.items ≡ sorted_extents_of parts.now) }
    ensures err { IfErr result (λ e. e ≡ Memory) }
{
    let mut extents = extents(alloc, parts)?;
    extents.sort_unstable();
    Ok(extents)
}

/// The parts that are not empty, with their ranks, in the order of the parts. It fails with
/// `Memory` alone.
fn extents(alloc: Global, parts: &[PartAt]) -> Result<Vec<Extent>, ElfError>
    ensures ok { IfOk result (λ extents. extents.items ≡ extents_of parts.now) }
    ensures err { IfErr result (λ e. e ≡ Memory) }
{
    let mut extents = Vec::with_capacity(alloc, parts.len())?;
    for (rank, part) in parts.iter().enumerate() {
        if part.has_bytes() {
            extents.push(Extent {
                at: part.at,
                rank,
                len: part.len,
            })?;
        }
    }
    Ok(extents)
}

/// The ranks of the first two neighbours of which the later begins before the earlier ends.
fn first_close(extents: &[Extent]) -> Option<(usize, usize)>
    ensures { result ≡ first_close extents.now }
{
    for next in 1..extents.len() {
        let (a, b) = (extents[next - 1], extents[next]);
        // The distance never overflows, where an end may lie past 2^64.
        if b.at.saturating_sub(a.at) < a.len {
            return Some((a.rank, b.rank));
        }
    }
    None
}
