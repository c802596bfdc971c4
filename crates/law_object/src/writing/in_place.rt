//! What an update in place writes, and what it may leave alone. Each theorem is the contract of a
//! function that does nothing.

ghost use Rattle.elf_object.specs.Object.{Object};
ghost use Rattle.law_object.specs.Writing.Writing.{DisturbedByWrites, InPlace, LeftStands, MeetsBySums, WrittenByPlan, WrittenStands};

/// Where something is dirty, an update is not rejected, and what is not marked is in the base, a
/// place of the image in no part that changes and no gap that is filled has the base's byte.
pub fn left_stands()
    ensures { (o : Object) → LeftStands o }
{}

/// The parts that change and the fill are in the image, and are as many bytes as said.
#[tactic(auto, using(crate::proofs::writing::WriteLaws::written_stands))]
pub fn written_stands()
    ensures { (o : Object) → WrittenStands o }
{}

/// A device that begins with the base is the image, once it has the image's length and the parts
/// that change and the fill are written over it, in whatever order.
#[tactic(auto, using(crate::proofs::writing::WriteLaws::in_place))]
pub fn in_place()
    ensures { (o : Object) → InPlace o }
{}

/// A home is disturbed where it shares a place with a part that changes or with the fill of a gap,
/// or passes the new end.
#[tactic(auto, using(crate::proofs::writing::DisturbedLaws::disturbed_by_writes))]
pub fn disturbed_by_writes()
    ensures { (o : Object) → DisturbedByWrites o }
{}

/// A home meets some blocks where more of their bytes are below its end than below its place. So
/// which sections move is found by running sums, and not by each home against each block.
#[tactic(auto, using(crate::proofs::writing::BelowLaws::meets_by_sums))]
pub fn meets_by_sums()
    ensures { MeetsBySums }
{}

/// What an update in place writes below a place is summed over the plan, and over the fill.
#[tactic(auto, using(crate::proofs::writing::BelowLaws::written_by_plan))]
pub fn written_by_plan()
    ensures { (o : Object) → WrittenByPlan o }
{}
