//! Theorems over the definitions. Each is the contract of a function that does nothing: what it
//! ensures holds of every image, and is proved.

ghost use Rattle.rebuild_model.specs.KeepingLaws.{SplitLaw};
ghost use Rattle.law_split.specs.Getters.{AlikeImagesAnswerAlike};
ghost use Rattle.law_split.specs.Halves.{DebugHalfKeeps, HalvesCombine, HalvesMatch, StrippedHalfKeeps};

use law_rebuild::prelude::reopen_law;

/// The debug half of an image, written and opened again, has the image's header and program headers
/// but for places and derived values, and each section under its number: the header but for its
/// place, where what is loaded of the file is of type `SHT_NOBITS`, and the bytes of all others.
pub fn debug_half_keeps()
    ensures { DebugHalfKeeps }
{
    reopen_law();
}

/// What is made of an image without some sections, written and opened again, has the image's header
/// and program headers but for places and derived values, each kept section in its order with its
/// flags, and of what is allocated the header but for its name, links and place, and the bytes. In
/// a program that is in its place.
pub fn stripped_half_keeps()
    ensures { StrippedHalfKeeps }
{
    reopen_law();
}

/// The two halves of an image match, as unstrip asks of two files, where section 0 stays and
/// nothing that is allocated is removed.
pub fn halves_match()
    ensures { HalvesMatch }
{
    debug_half_keeps();
    stripped_half_keeps();
}

/// Combining the two halves is rejected at most as `TooLarge`, and what is written of it, opened
/// again, answers each getter as the image does, but for places and derived values. In a program
/// the program headers and what is allocated keep their places.
pub fn halves_combine()
    ensures { HalvesCombine }
{
    reopen_law();
    debug_half_keeps();
    stripped_half_keeps();
}

/// What strip splits an image into combines again: combining is rejected at most as `TooLarge`, and
/// so is the update that writes it, whose file, opened again, answers each getter as the image
/// does, but for places and derived values.
pub fn split_law()
    ensures { SplitLaw }
{
    reopen_law();
    debug_half_keeps();
    stripped_half_keeps();
    halves_combine();
}

/// Two images that are the same but for places and derived values, and whose section 0 is all zero
/// but for size, link and info, answer each getter alike that tells neither, of every section, and
/// each lookup of a name.
pub fn alike_images_answer_alike()
    ensures { AlikeImagesAnswerAlike }
{}
