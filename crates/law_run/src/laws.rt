//! Theorems on runs. Each is the contract of a function that does nothing: what it ensures holds,
//! and is proved. A run is told by what `elfkit_run::run` delivers over files that tell their
//! bytes.

ghost use Rattle.law_run.specs.Copied.{RunKeepsCopied};
ghost use Rattle.law_run.specs.Loaded.{RunKeepsLoaded};
ghost use Rattle.law_run.specs.Opened.{RunChangesToImages};
ghost use Rattle.law_run.specs.Rehashed.{RunKeepsRehashed};
ghost use Rattle.law_run.specs.Rejoined.{RunsRejoin};

use law_files::copy::laws::{copied_files_keep, copy_gives_file};
use law_files::strip::laws::loaded_files_stay;
use law_reopen::laws::{calls_reopen, debug_opens, rehash_opens, strip_opens, unstrip_opens};
use law_reopen::rehash::laws::{rehash_files_keep, rehash_gives_file};
use law_split::files::laws::split_files_rejoin;

/// Where the arguments ask for strip, with `-f` or without, the run ends with `Done`, and FILE
/// holds an image with a usual header, each loaded byte of FILE is the same in OUT after the run,
/// but for `e_shoff`, `e_shnum` and `e_shstrndx`.
pub fn run_keeps_loaded()
    ensures { RunKeepsLoaded }
{
    loaded_files_stay();
}

/// Where the arguments ask for copy, and the run ends with `Done`, OUT holds the image of what copy
/// makes of FILE. It opens again, and keeps of FILE, and of the files of `-u` and `-a`, what the
/// theorem on copy says. The arguments and the files are bytes, as they always are.
pub fn run_keeps_copied()
    ensures { RunKeepsCopied }
{
    copied_files_keep();
    copy_gives_file();
}

/// Where the arguments ask for rehash, and the run ends with `Done`, OUT holds the image of what
/// rehash makes of FILE, and opens again. Where the table of dynamic symbols is not section 0,
/// lookups and relocations find there what they found in FILE; and where its names are no strings
/// of section 0, elflint finds nothing by its rules 31 and 32 at the hash sections that were
/// rebuilt, and a lookup by them finds what a search among all symbols finds. FILE holds bytes, as
/// it always does.
pub fn run_keeps_rehashed()
    ensures { RunKeepsRehashed }
{
    rehash_files_keep();
    rehash_gives_file();
}

/// Of two runs: the arguments of the first ask for `strip -f` of a FILE whose section 0 is all zero
/// but for size, link and info, and it ends with `Done`; the arguments of the second ask for
/// unstrip of the two files that it makes, which stay meanwhile.
///
/// - Where the second run ends with `Done` too, OUT opens again, is the same as FILE but for places
///   and derived values, and answers each getter as FILE does.
/// - Where it ends with `Refused`, a place is too large, and that message is all that it wrote.
pub fn runs_rejoin()
    ensures { RunsRejoin }
{
    split_files_rejoin();
}

/// Where a run ends with `Done` or `Refused`, each file that holds something else afterwards holds
/// an image that opens, whatever the command. The arguments and the files are bytes.
pub fn run_changes_to_images()
    ensures { RunChangesToImages }
{
    strip_opens();
    debug_opens();
    copied_files_keep();
    rehash_opens();
    unstrip_opens();
    calls_reopen();
}
