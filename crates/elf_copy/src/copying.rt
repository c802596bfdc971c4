//! The object with changes.

ghost use Rattle.std.specs.Prelude.{◌≡◌, false};
ghost use Rattle.elf_object.specs.Object.{is_dirty};
ghost use Rattle.rebuild_changes.specs.Stated.{HasPlainNames, stated_changes};
ghost use Rattle.elf_copy.specs.Copies.{Copies};

use elf_outside::Source;
use rebuild_changes::{ChangeLists, CopyFault};
use rebuild_copy::arrange_copied;
use rebuild_object::object_of;
use rebuild_object::prelude::{Elf, Rebuilt};
use std::alloc::Global;

/// The object with changes, rebuilt as `rebuild` makes it: without the sections of some names and
/// what goes with them; then with other bytes, other names, other flags and new sections, each kind
/// in turn; and where a name changed with a new table of all names. Nothing of the object is dirty,
/// and no name that a section gets holds a NUL byte. It fails as `arrange_copied` does: as
/// `rebuild` does, and then as bytes, names, flags, new sections, the table of the names and the
/// places are rejected, in this order; and besides `Memory` and `Read`. Over a source that does not
/// tell its bytes it may reject `NoSection` of the string index that was made. It marks nothing of
/// the object dirty, and keeps a copy of the bytes of the changes. It reads at most the names, and
/// what `rebuild` reads.
///
/// Source: objcopy(1) of the development tools.
pub fn copy_of<S: Source>(
    alloc: Global,
    elf: &mut Elf<S>,
    changes: &ChangeLists,
) -> Result<Rebuilt, CopyFault>
    requires clean { is_dirty elf.old.o ≡ false }
    requires plain { HasPlainNames changes.now }
    ensures { Copies S.Source (stated_changes changes.now) result elf.old elf.new }
{
    let x = match arrange_copied(alloc, elf, changes) {
        Ok(x) => x,
        Err(fault) => return Err(fault),
    };
    match object_of(alloc, elf, &x) {
        Ok(made) => Ok(Rebuilt {
            elf: made,
            tail: x.tail,
        }),
        Err(e) => Err(CopyFault::Strip(e)),
    }
}
