//! Theorems over the definitions. Each is the contract of a function that does nothing: what it
//! ensures holds of every image and of all changes, and is proved.

ghost use Rattle.rebuild_model.specs.KeepingLaws.{CopyLaw};
ghost use Rattle.law_rebuild.specs.Copy.CopyOpens.{CopyOpens};

use law_object::laws::reopen_law;
use law_object::prelude::encodes_as_decoded;

/// What copy writes of an image, for changes in their ranges, opens again.
pub fn copy_opens()
    ensures { CopyOpens }
{
    reopen_law();
}

/// What copy writes, opened again. Without `-R` each section from 1 on that no option chooses, and
/// that is not the table of the names, keeps its number, its header but for `sh_name` and
/// `sh_offset`, and its bytes; and its name, where no `-u` gives the table of the names other bytes
/// (a name that is none becomes the empty one where that table is rebuilt). A section of `-u` that
/// is not that table has the bytes of the last option that chooses it, and a section of `-a` has
/// its own.
pub fn copy_law()
    ensures { CopyLaw }
{
    reopen_law();
    encodes_as_decoded();
}
