//! The places of what follows the base of a program, of which the headers are listed.

ghost use Rattle.std.specs.Prelude.{◌≡◌, ◌<◌, ◌+◌, ◌&&◌, ℕ, true, not};
ghost use Rattle.std.specs.Option.{SomeIff};
ghost use Rattle.elf_layout.specs.Layout.{place_of, end_after, limit_of};
ghost use Rattle.rebuild_model.specs.elf_object.Object.{Object, is_null};
ghost use Rattle.rebuild_model.specs.elf_object.Layout as stated;
ghost use Rattle.rebuild_model.specs.elf_object.Sections.{is_allocated};
ghost use Rattle.rebuild_making.specs.Placing.{is_movable, FitsBehind};
ghost use Rattle.rebuild_image.specs.Listed.Listing.{IsRow};
ghost use Rattle.rebuild_image.specs.Places.{IsArranged};

use elf_layout::rounded_within;
use elf_types::Shdr;
use elf_types::constants::SHT_NULL;
use rebuild_model::prelude::occupies_file;

/// Whether a section is in memory when the program runs.
fn is_allocated(h: &Shdr) -> bool
    ensures { result ≡ is_allocated h.now }
{
    rebuild_model::prelude::elf_object_is_allocated(h)
}

/// Whether a section with that header must be placed: it is neither `SHT_NULL` nor allocated.
fn is_movable(h: &Shdr) -> bool
    ensures { result ≡ (not (is_null h.now) && not (is_allocated h.now)) }
{
    h.stype != SHT_NULL && !is_allocated(h)
}

/// Where a section that must be placed follows an end, and the end after it; None exactly where one
/// of the two is above the limit.
fn next_behind(h: &Shdr, size: u64, end: u64, limit: u64) -> Option<(u64, u64)>
    ensures { (o : Object) (s : ℕ) → IsRow o s h.now size → 0 < s → is_movable o s ≡ true
        → limit ≡ limit_of o.header.class
        → SomeIff result (FitsBehind limit end (stated.section_part o s)) (
          place_of end (stated.section_part o s),
          end_after end (stated.section_part o s),
        ) }
{
    let Some(place) = rounded_within(end, h.addralign, limit) else {
        return None;
    };
    if !occupies_file(h) {
        return Some((place, end));
    }
    if size > limit - place {
        return None;
    }
    Some((place, place + size))
}

/// A section's header with its place after an end, where it must be placed, and the end after it;
/// None exactly where one of the two is above the limit.
pub(crate) fn place_behind(h: &Shdr, size: u64, end: u64, limit: u64) -> Option<(Shdr, u64)>
    ensures { (o : Object) (s : ℕ) → IsRow o s h.now size → 0 < s
        → limit ≡ limit_of o.header.class → IsArranged o s end limit result }
{
    if !is_movable(h) {
        return Some((*h, end));
    }
    match next_behind(h, size, end, limit) {
        Some((place, after)) => Some((
            Shdr {
                offset: place,
                ..*h
            },
            after,
        )),
        None => None,
    }
}
