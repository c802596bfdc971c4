//! What was gathered of one section.

ghost use Rattle.std.specs.Prelude.{◌≡◌};
ghost use Rattle.rebuild_copy.specs.Rows.{gathered_header, size_in, gathered_range};

use elf_types::{NULL_SECTION, Shdr};
use rebuild_plan::Arranged;
use rebuild_plan::prelude::ByteRange;

/// The header of a section, and one of zeros where there is none.
#[tactic(auto, unfolding(elf_ident::specs::Front::zero_shdr))]
pub(crate) fn header_of(x: &Arranged, s: u32) -> Shdr
    ensures { result ≡ gathered_header x.now s }
{
    x.listed.headers.get(u64::from(s)).unwrap_or(NULL_SECTION)
}

/// How many bytes a section has in the file, and 0 where there is none.
pub(crate) fn size_of(x: &Arranged, s: u32) -> u64
    ensures { result ≡ size_in x.now s }
{
    x.listed.sizes.get(u64::from(s)).unwrap_or(0)
}

/// The range of a section's bytes, and one of no bytes where there is none.
pub(crate) fn range_of(x: &Arranged, s: u32) -> ByteRange
    ensures { result ≡ gathered_range x.now s }
{
    let nothing = ByteRange {
        held: true,
        at: 0,
        len: 0,
    };
    x.ranges.get(u64::from(s)).unwrap_or(nothing)
}
