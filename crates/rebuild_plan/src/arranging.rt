//! Listed headers with the places after the base of a program, and those of another image as they
//! are.

ghost use Rattle.std.specs.Prelude.{◌≡◌, length};
ghost use Rattle.rebuild_plan.specs.Plans.{ArrangesTo};

use elf_types::ElfError;
use rebuild_tables::prelude::{HeaderListing, arrange_listed};
use std::alloc::Global;

/// Listed headers in which what is not loaded follows the tail, where there is one. It fails with
/// `TooLarge` exactly where one of these places is above 2^40 (class 64) or 2^32 - 1 (class 32),
/// and `Memory`.
///
/// Source: gABI chapter 4, "Section Header", sh_offset and sh_addralign.
pub fn arrange_to(
    alloc: Global,
    x: HeaderListing,
    tail: Option<u64>,
) -> Result<HeaderListing, ElfError>
    requires { length x.sizes ≡ length x.headers }
    ensures { ArrangesTo x tail result }
{
    if x.headers.is_empty() {
        return Ok(x);
    }
    match tail {
        Some(tail) => arrange_listed(alloc, x, tail),
        None => Ok(x),
    }
}
