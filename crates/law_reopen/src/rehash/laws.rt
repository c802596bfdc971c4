//! Theorems on a command. Each is the contract of a function that does nothing: what it ensures
//! holds, and is proved.

ghost use Rattle.law_reopen.specs.Rehash.RehashedFiles.{RehashFilesKeep, RehashGivesFile};

use crate::laws::rehash_opens;
use law_hash::find::laws::built_have_no_finding;
use law_hash::laws::{built_are_found, rehash_rebuilds, rehash_writes};

/// Where rehash ends with status 0 it writes OUT.
pub fn rehash_gives_file()
    ensures { RehashGivesFile }
{}

/// Where rehash writes OUT, that is the image of what rehash makes of FILE, and it opens again.
/// Where the table of dynamic symbols is not section 0, lookups and relocations there find what
/// they found in FILE, elflint finds nothing by its rules 31 and 32 at the hash sections that were
/// rebuilt, and a lookup by them finds what a search among all symbols finds.
pub fn rehash_files_keep()
    ensures { RehashFilesKeep }
{
    rehash_opens();
    rehash_writes();
    rehash_rebuilds();
    built_have_no_finding();
    built_are_found();
}
