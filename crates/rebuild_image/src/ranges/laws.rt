//! Theorems on images whose parts are ranges of bytes.

ghost use Rattle.rebuild_image.specs.Ranges.Images.{RangesMakeImage, RangesAreReady};

/// Ranges that have the pieces of an object's plan, over its base, make its image.
pub fn ranges_make_image()
    ensures { RangesMakeImage }
{}

/// Ranges that make an object's image are ready to be written, where each lies in the bytes that it
/// is a range of.
pub fn ranges_are_ready()
    ensures { RangesAreReady }
{}
