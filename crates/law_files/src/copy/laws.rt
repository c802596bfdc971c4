//! Theorems on a command. Each is the contract of a function that does nothing: what it ensures
//! holds, and is proved.

ghost use Rattle.law_files.specs.Copy.CopiedFiles.{CopiedFilesKeep, CopyGivesFile};

use law_rebuild::copy::laws::{copy_law, copy_opens};

/// Where copy ends with status 0 it writes OUT.
pub fn copy_gives_file()
    ensures { CopyGivesFile }
{}

/// Where copy writes OUT, that is the image of what copy makes of FILE with the changes of the
/// arguments. OUT opens again, and has of FILE and of the files of `-u` and `-a` what the theorem
/// on copy says.
pub fn copied_files_keep()
    ensures { CopiedFilesKeep }
{
    copy_law();
    copy_opens();
}
