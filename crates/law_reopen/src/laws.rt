//! Theorems over the definitions. Each is the contract of a function that does nothing: what it
//! ensures holds of every image, and is proved.

ghost use Rattle.law_reopen.specs.Kept.{DebugImageKeeps, RehashedImageKeeps, SplitImagesCombine, SplitImagesMatch, SplitImagesOpen, StrippedImageKeeps};
ghost use Rattle.law_reopen.specs.Phdrs.{EveryStepKeepsPhdrs};
ghost use Rattle.law_reopen.specs.Scripts.{CallsKeepReopenable, CallsReopen, OpenedIsReopenable, ScriptsAreInRange};
ghost use Rattle.law_reopen.specs.Written.{CopyReopens, DebugOpens, RehashOpens, StripOpens, UnstripOpens};

use law_hash::laws::rehash_law;
use law_object::laws::reopen_law;
use law_split::laws::{
    debug_half_keeps, halves_combine, halves_match, split_law, stripped_half_keeps,
};

/// Every edit keeps the program headers of an object in the ranges of their types, where one that
/// is handed in is, and a change keeps one so.
#[tactic(auto, using(crate::proofs::PhdrLaws::every_step_keeps_phdrs))]
pub fn every_step_keeps_phdrs()
    ensures { EveryStepKeepsPhdrs }
{}

/// In each call that a script says, the numbers for headers and the fill byte are in the ranges of
/// their fields.
#[tactic(auto, using(crate::proofs::ScriptLaws::scripts_are_in_range))]
pub fn scripts_are_in_range()
    ensures { ScriptsAreInRange }
{}

/// An image of bytes, opened, gives what `reopen_law` reads: an object, program headers in the
/// ranges of their types, and an object of its base where nothing is dirty.
pub fn opened_is_reopenable()
    ensures { OpenedIsReopenable }
{}

/// Calls whose numbers are in their ranges keep that of an object, one after another.
#[tactic(auto, using(crate::proofs::CallsLaws::calls_keep_reopenable))]
pub fn calls_keep_reopenable()
    ensures { CallsKeepReopenable }
{}

/// What the calls of a script leave of an image, written with `-o` or `-i`, opens again as what
/// they leave settled.
pub fn calls_reopen()
    ensures { CallsReopen }
{
    reopen_law();
}

/// What strip writes of an image opens again, as what it made settled.
pub fn strip_opens()
    ensures { StripOpens }
{
    reopen_law();
}

/// The debug file that strip -f writes opens again, as what it made settled.
pub fn debug_opens()
    ensures { DebugOpens }
{
    reopen_law();
}

/// What copy writes, for changes in their ranges, opens again, as what it made settled.
pub fn copy_reopens()
    ensures { CopyReopens }
{
    reopen_law();
}

/// What rehash writes opens again, as what it made settled.
pub fn rehash_opens()
    ensures { RehashOpens }
{
    reopen_law();
}

/// What unstrip writes of any two images that it combines opens again, as what it made settled.
pub fn unstrip_opens()
    ensures { UnstripOpens }
{
    reopen_law();
}

/// What rehash writes of an image opens again, and keeps of it what `rehash_law` says.
pub fn rehashed_image_keeps()
    ensures { RehashedImageKeeps }
{
    rehash_opens();
    rehash_law();
}

/// The debug file of an image opens again, and keeps of it what `debug_half_keeps` says.
pub fn debug_image_keeps()
    ensures { DebugImageKeeps }
{
    debug_opens();
    debug_half_keeps();
}

/// What is made of an image without some sections, of which section 0 is none, opens again once it
/// is written, and keeps of it what `stripped_half_keeps` says.
pub fn stripped_image_keeps()
    ensures { StrippedImageKeeps }
{
    reopen_law();
    stripped_half_keeps();
}

/// The two files that an image is split into open again.
pub fn split_images_open()
    ensures { SplitImagesOpen }
{
    reopen_law();
}

/// The two files that an image is split into match, and combine to what behaves as the image, as
/// `halves_match` and `halves_combine` say.
pub fn split_images_match()
    ensures { SplitImagesMatch }
{
    split_images_open();
    halves_match();
    halves_combine();
}

/// The two files that strip -f makes of an image combine again, as `split_law` says.
pub fn split_images_combine()
    ensures { SplitImagesCombine }
{
    split_images_open();
    split_law();
}
