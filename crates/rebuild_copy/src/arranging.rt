//! What was changed gets its places again.

ghost use Rattle.std.specs.Prelude.{◌≡◌, true};
ghost use Rattle.rebuild_plan.specs.Plans.{IsListable};
ghost use Rattle.rebuild_copy.specs.Arranging.{PlacesAgain};

use elf_types::ElfError;
use elf_types::constants::MAX_SECTIONS;
use rebuild_plan::{Arranged, arrange_to};
use std::alloc::Global;

/// Whether there are as many sizes as headers, and no more than sections may be.
fn is_listable(x: &Arranged) -> bool
    ensures { result ≡ true → IsListable x.now }
{
    if x.listed.headers.len() > MAX_SECTIONS {
        return false;
    }
    x.listed.sizes.len() == x.listed.headers.len()
}

/// Gives what is not loaded its places after the tail, where there is one. It fails with `TooLarge`
/// exactly where one of these places is above the limit of the class, and `Memory`; more headers
/// than sections may be, or other numbers of sizes, which no image has, count as out of memory. It
/// reads nothing.
///
/// Source: gABI chapter 4, "Section Header", sh_offset and sh_addralign.
pub(crate) fn arrange_again(alloc: Global, x: Arranged) -> Result<Arranged, ElfError>
    ensures { PlacesAgain x result }
{
    if !is_listable(&x) {
        return Err(ElfError::Memory);
    }
    let tail = x.tail;
    match arrange_to(alloc, x.listed, tail) {
        Ok(listed) => Ok(Arranged {
            listed,
            ranges: x.ranges,
            kinds: x.kinds,
            held: x.held,
            tail,
        }),
        Err(e) => Err(e),
    }
}
