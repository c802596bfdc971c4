//! Theorems on what an image that is rebuilt stores.

ghost use Rattle.rebuild_image.specs.Fronts.{HeldBytesStay};
ghost use Rattle.rebuild_image.specs.Holding.{HeldFrontsAreStored};
ghost use Rattle.rebuild_image.specs.Streaming.{StreamedPartsAreRanges};
ghost use Rattle.rebuild_image.specs.Homes.{HomesStand, HomesAreStored};

/// What is held stays in its range, whatever is held after it.
pub fn held_bytes_stay()
    ensures { HeldBytesStay }
{}

/// The bytes of a home are in the base of an object in which nothing is dirty.
///
/// Source: gABI chapter 4, "Section Header", sh_offset and sh_size.
pub fn homes_stand()
    ensures { HomesStand }
{}

/// A section that is made with the bytes of such a home is stored as that range of the base.
pub fn homes_are_stored()
    ensures { HomesAreStored }
{}

/// The front that is held of listed headers is that of the object that has them.
pub fn held_fronts_are_stored()
    ensures { HeldFrontsAreStored }
{}

/// Ranges of the parts of an object that is rebuilt make its image, where its front is held and
/// each of its sections that has bytes in the file is a range of the base or of what is held.
pub fn streamed_parts_are_ranges()
    ensures { StreamedPartsAreRanges }
{}
