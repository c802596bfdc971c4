//! The home of a section of the debug half, as a range after the bytes of the stripped half.

ghost use Rattle.std.specs.Prelude.{◌≡◌, ◌<◌, ◌++◌, length, IfSome};
ghost use Rattle.rebuild_join.specs.Ranges.{IsUnchanged, moved_range, FindsRaw};

use elf_outside::Source;
use elf_types::{ElfError, ScnId};
use rebuild_keep::prelude::Elf;
use rebuild_plan::home_range;
use rebuild_plan::prelude::ByteRange;

/// A range after so many other bytes. None where its place would pass 2^64 - 1.
fn move_behind(range: ByteRange, len: u64) -> Option<ByteRange>
    ensures { IfSome result (λ moved. moved ≡ moved_range len range) }
{
    match range.at.checked_add(len) {
        Some(at) => Some(ByteRange {
            held: range.held,
            at,
            len: range.len,
        }),
        None => None,
    }
}

/// The range of the home of a section that is there, of the bytes of the stripped half followed by
/// those of the debug half. It fails with `OutOfFile` alone; a place past 2^64 - 1, which no image
/// has, counts as out of memory. It reads nothing and takes no memory.
///
/// Source: gABI chapter 4, "Section Header", sh_offset and sh_size.
pub(crate) fn range_behind<S: Source, T: Source>(
    stripped: &Elf<S>,
    debug: &Elf<T>,
    s: ScnId,
) -> Result<ByteRange, ElfError>
    requires there { s.0 < length debug.now.o.sections }
    requires debug { IsUnchanged debug.now }
    ensures { FindsRaw debug.now.told (stripped.now.o.base ++ debug.now.o.base) debug.now.o s.0
        result }
{
    match home_range(debug, s) {
        Ok(range) => match move_behind(range, stripped.base_len()) {
            Some(moved) => Ok(moved),
            None => Err(ElfError::Memory),
        },
        Err(e) => Err(e),
    }
}
