//! Where the bytes of a section of the debug half are.

ghost use Rattle.std.specs.Prelude.{◌≡◌, ◌<◌, length, false, IsTrue};
ghost use Rattle.elf_object.specs.Object.{is_dirty};
ghost use Rattle.elf_object.specs.Valid.{IsObject, IsTied};
ghost use Rattle.rebuild_debug.specs.Ranges.{FindsHalf};

use crate::loaded::is_loaded_from_file;
use elf_outside::Source;
use elf_types::{ElfError, ScnId};
use rebuild_object::prelude::{ByteRange, Elf, home_range};

/// The range of the bytes that a section that is there has in the debug half: of none where it is
/// loaded of the file, and else its home. It fails with `OutOfFile` alone, of one that keeps its
/// bytes, reads nothing and takes no memory.
pub(crate) fn half_range<S: Source>(elf: &Elf<S>, s: ScnId) -> Result<ByteRange, ElfError>
    requires there { s.0 < length elf.now.o.sections }
    requires object { IsObject elf.now.o }
    requires clean { is_dirty elf.now.o ≡ false }
    requires tied { IsTrue elf.now.told → IsTied elf.now.o }
    ensures { FindsHalf elf.now s.0 result }
{
    if is_loaded_from_file(&elf.section_header(s)) {
        return Ok(ByteRange {
            held: true,
            at: 0,
            len: 0,
        });
    }
    home_range(elf, s)
}
