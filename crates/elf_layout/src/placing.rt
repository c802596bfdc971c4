//! Placing the parts of an image.

ghost use Rattle.std.specs.Prelude.{◌≡◌, ◌≤◌, ◌⊎◌, IfOk, IfErr, Ok, Err, All, length};
ghost use Rattle.std.specs.Bool.{OnFalse};
ghost use Rattle.elf_types.specs.Answers.{FollowsBy};
ghost use Rattle.elf_types.specs.declared.errors.ElfError.TheVariants.{Memory};
ghost use Rattle.elf_layout.specs.Layout.{placing, placing_within, standing, limit_of, layout_refusal, MayWantMemory};
ghost use Rattle.elf_layout.specs.Meeting.{IsApart, LiesWithin};

use crate::caller::place_by_caller;
use crate::order::place_in_order;
use crate::parts::{PartAt, Parts, Places};
use elf_types::{Class, ElfError};
use std::alloc::Global;

/// Where the parts of an image are, and the image's length in bytes.
///
/// Without `layout` each part is at the end so far, rounded up to its alignment, from 0 on; `at`
/// and `base` do not count, and a part that is not filled leaves the end where it is. With `layout`
/// (`ELF_F_LAYOUT` of elf(3E)) each part is at its `at`, and the image keeps the `base` bytes that
/// it has already. The length is the greatest end of a part that is filled and not empty, and with
/// `layout` at least `base`.
///
/// It fails with, in this order: `Overlap`, with `layout`, where two such parts share a byte; of
/// the parts in the order by position, then by rank, it names the first that a later one meets, and
/// the one next after it. Then `TooLarge`, where the length, or without `layout` a position, is
/// above 2^40 in class 64 and 2^32 - 1 in class 32. `Memory` may come in place of a value and of
/// these two.
#[tactic(auto, unfolding(crate::specs::Layout::placing), using(crate::proofs::Placed::may_want))]
pub fn place(
    alloc: Global,
    parts: &Parts,
    layout: bool,
    base: u64,
    class: Class,
) -> Result<Places, ElfError>
    ensures answer { FollowsBy (λ places. places) layout_refusal result
        (placing parts.now layout base class) }
    ensures memory { IfErr result (λ e. e ≡ Memory →
        MayWantMemory (placing parts.now layout base class)) }

    // What the places are good for: no byte of the image is one of two parts, and none lies past
    // the end.
    ensures count { IfOk result (λ places. length places.at ≡ length parts.now) }
    ensures apart { IfOk result (λ _. IsApart (standing parts.now layout)) }
    ensures within { IfOk result (λ places. LiesWithin places.end (standing parts.now layout)) }
    ensures length { IfOk result (λ places. places.end ≤ limit_of class) }
    ensures positions { OnFalse layout
        (IfOk result (λ places. All (λ n. n ≤ limit_of class) places.at)) }
{
    place_within(alloc, parts.as_slice(), layout, base, limit(class))
}

/// Where the parts are, under any limit on the length and on the positions.
#[tactic(auto, using(crate::proofs::Successive::placing_anew))]
fn place_within(
    alloc: Global,
    parts: &[PartAt],
    layout: bool,
    base: u64,
    limit: u64,
) -> Result<Places, ElfError>
    ensures ok { IfOk result (λ places. placing_within parts.now layout base limit ≡ Ok places) }
    ensures err { IfErr result (λ e.
        (e ≡ Memory) ⊎ (placing_within parts.now layout base limit ≡ Err e)) }
{
    if layout {
        place_by_caller(alloc, parts, base, limit)
    } else {
        place_in_order(alloc, parts, limit)
    }
}

/// The greatest length of an image, and the greatest place that a header may name, in bytes.
#[tactic(auto, unfolding(crate::specs::Layout::limit_of))]
fn limit(class: Class) -> u64
    ensures { result ≡ limit_of class }
{
    match class {
        Class::C32 => u32::MAX as u64,
        Class::C64 => 1 << 40,
    }
}
