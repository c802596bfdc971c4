//! The home of a section as a range of the base.

ghost use Rattle.std.specs.Prelude.{◌≡◌, ◌<◌, length};
ghost use Rattle.rebuild_plan.specs.Ranges.{base_place, FindsHome};

use elf_outside::Source;
use elf_types::{ElfError, ScnId};
use rebuild_tables::prelude::{ByteRange, Elf};
use rebuild_tables::{extent, is_home_out};

/// The place of the range of a home: an empty home may lie anywhere, and has the place 0.
fn base_place(at: u64, len: u64) -> u64
    ensures { result ≡ base_place at len }
{
    if len == 0 { 0 } else { at }
}

/// The range of the base that is the home of a section that is there. It fails with `OutOfFile`
/// alone, reads nothing and takes no memory.
///
/// Source: gABI chapter 4, "Section Header", sh_offset and sh_size.
pub fn home_range<S: Source>(elf: &Elf<S>, s: ScnId) -> Result<ByteRange, ElfError>
    requires { s.0 < length elf.now.o.sections }
    ensures { FindsHome elf.now.o s.0 result }
{
    if is_home_out(elf, s) {
        return Err(ElfError::OutOfFile { section: s.0 });
    }
    let (at, len) = extent(elf, s);
    Ok(ByteRange {
        held: false,
        at: base_place(at, len),
        len,
    })
}
