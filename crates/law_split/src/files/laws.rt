//! The theorem is the contract of a function that does nothing: what it ensures holds, and is
//! proved.

ghost use Rattle.law_split.specs.Files.SplitFiles.{SplitFilesRejoin};

use crate::laws::{alike_images_answer_alike, halves_combine, split_law};
use law_object::laws::reopen_law;

/// Where strip -f ends with 0 on a FILE whose section 0 is all zero but for size, link and info,
/// unstrip of the two files that it wrote says that a place is too large, or makes OUT, and OUT,
/// opened again, answers each getter as FILE does, but for places and derived values.
pub fn split_files_rejoin()
    ensures { SplitFilesRejoin }
{
    reopen_law();
    halves_combine();
    split_law();
    alike_images_answer_alike();
}
