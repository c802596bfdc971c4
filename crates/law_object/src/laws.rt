//! Theorems over the definitions. Each is the contract of a function that does nothing: what it
//! ensures holds of every object, and is proved.

ghost use Rattle.law_object.specs.Laws.{BegunFits, BeginningsAre, BeginningsAreTied, CleanStays, EveryStepKeeps, EveryStepKeepsTied, PartsDoNotMeet, PartsMayBeCapped, PartsStand, PlacedStays, RefusedStays, ReopenLaw, SettlingKeepsItems, SizesAreLengths, TornLaw, UpdatesKeep, UpdatesTie};
ghost use Rattle.elf_object.specs.Object.{Object};

use elf_object::prelude::{decodes_as_encoded, ehdr_both_ways, phdr_both_ways, shdr_both_ways};

/// With nothing dirty the image is the base, and storing places and settling leave the object.
#[tactic(auto, using(crate::proofs::LawsHold::clean_stays))]
pub fn clean_stays()
    ensures { CleanStays }
{}

/// A rejected call leaves the object, whatever it would have answered.
pub fn refused_stays<T>()
    ensures { RefusedStays T }
{}

/// An object begun over a front that has the shape of one is an object, whatever bytes of that
/// length it is over: a file on disk, which does not tell its bytes, counts as zeros.
#[tactic(auto, using(crate::proofs::OpenLaws::begun_fits))]
pub fn begun_fits()
    ensures { BegunFits }
{}

/// An image of bytes that is opened gives an object, whose program headers are in the range of
/// their types, and so does creating one.
#[tactic(auto, using(crate::proofs::LawsHold::beginnings_are))]
pub fn beginnings_are()
    ensures { BeginningsAre }
{}

/// Every edit keeps what makes an object: headers that fit, the limits of its lists, and the pieces
/// that fit their homes. A borrower may leave any items.
#[tactic(auto, using(crate::proofs::LawsHold::every_step_keeps))]
pub fn every_step_keeps()
    ensures { EveryStepKeeps }
{}

/// Every edit keeps that an object in which nothing is dirty is that of its base: it marks what it
/// changes, or it changes only `ELF_F_LAYOUT` and the fill byte.
#[tactic(auto, using(crate::proofs::TiedLaws::every_step_keeps_tied))]
pub fn every_step_keeps_tied()
    ensures { EveryStepKeepsTied }
{}

/// An object is that of its base as it is opened or created.
#[tactic(auto, using(crate::proofs::TiedLaws::beginnings_are_tied))]
pub fn beginnings_are_tied()
    ensures { BeginningsAreTied }
{}

/// A section's bytes end with its last piece, and where something is dirty its stored `sh_size` is
/// their number. An image is as long as said.
#[tactic(auto, using(crate::proofs::LawsHold::sizes_are_lengths))]
pub fn sizes_are_lengths()
    ensures { SizesAreLengths }
{}

/// Without `ELF_F_LAYOUT` no two parts of an image share a byte.
#[tactic(auto, using(crate::proofs::LawsHold::parts_do_not_meet))]
pub fn parts_do_not_meet()
    ensures { PartsDoNotMeet }
{}

/// The parts of an object may be told with lengths of at most 2^64 - 1 where a section's bytes are
/// more: they are rejected and placed as they are.
pub fn parts_may_be_capped()
    ensures { PartsMayBeCapped }
{}

/// Where something is dirty and an update is not rejected, each part is in the image, at the place
/// that its header says, with all of its bytes.
#[tactic(auto, using(crate::proofs::LawsHold::parts_stand))]
pub fn parts_stand()
    ensures { (o : Object) → PartsStand o }
{}

/// Where an update is not rejected, places that are stored stay where they are stored again, that
/// update is not rejected either, and neither changes the image.
pub fn placed_stays()
    ensures { (o : Object) → PlacedStays o }
{}

/// Where something is dirty and an update is not rejected, an object whose base was torn by a
/// failed write is not rejected and has the same image.
pub fn torn_law()
    ensures { (o : Object) → TornLaw o }
{}

/// Where an update is not rejected, the image of an object whose program headers are in the range
/// of their types, opened again, is that object settled, but for `ELF_F_LAYOUT` and the fill byte,
/// which are clear and 0 in an image that is opened.
pub fn reopen_law()
    ensures { (o : Object) → ReopenLaw o }
{
    ehdr_both_ways();
    phdr_both_ways();
    shdr_both_ways();
}

/// Where an update is not rejected, the image is made of bytes, an update in place leaves what
/// makes an object, and so does one that failed and left bytes.
pub fn updates_keep()
    ensures { (o : Object) → UpdatesKeep o }
{}

/// Where it is not rejected, an update in place leaves an object that is that of its base. One that
/// failed always does, since it leaves marks.
pub fn updates_tie()
    ensures { (o : Object) → UpdatesTie o }
{
    reopen_law();
}

/// Where an update is not rejected, and an own piece is alone in a section from 1 on, has items in
/// the range of their types and is of the kind of the section's present header, which has items,
/// settling keeps them.
pub fn settling_keeps_items()
    ensures { (o : Object) → SettlingKeepsItems o }
{
    decodes_as_encoded();
}
