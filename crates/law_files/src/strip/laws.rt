//! The theorem is the contract of a function that does nothing: what it ensures holds, and is
//! proved.

ghost use Rattle.law_files.specs.Strip.LoadedFiles.{LoadedFilesStay};

use law_rebuild::strip::laws::loadable_bytes_stay;

/// Where strip, with `-f` or without, writes OUT of a FILE with a usual header, each byte of FILE
/// that is loaded is the same in OUT, but for `e_shoff`, `e_shnum` and `e_shstrndx`.
pub fn loaded_files_stay()
    ensures { LoadedFilesStay }
{
    loadable_bytes_stay();
}
