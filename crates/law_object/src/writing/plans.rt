//! The order in which an image is written: its parts by their places, and the gaps between them.
//! Each theorem is the contract of a function that does nothing.

ghost use Rattle.elf_object.specs.Object.{Object};
ghost use Rattle.law_object.specs.Writing.Writing.{GapBytes, GapsAreFill, PartsAreApart, PiecesInLine, PlanByRank, PlanDue, PlanIsImage};

/// Where something is dirty and an update is not rejected, no place is a byte of two parts, and
/// each part that is not empty ends within the image.
#[tactic(auto, using(crate::proofs::writing::PlanLaws::parts_are_apart))]
pub fn parts_are_apart()
    ensures { (o : Object) → PartsAreApart o }
{}

/// There the parts that are not empty are in a line by their places, and the image is their bytes,
/// one after the other, with base bytes or the fill byte between them.
#[tactic(auto, using(crate::proofs::writing::PlanLaws::plan_is_image))]
pub fn plan_is_image()
    ensures { (o : Object) → PlanIsImage o }
{}

/// There the plan is the parts by the ranks that elf_layout sorts: by position, and then in the
/// order of the parts.
#[tactic(auto, using(crate::proofs::writing::RankLaws::plan_by_rank))]
pub fn plan_by_rank()
    ensures { (o : Object) → PlanByRank o }
{}

/// There a writer that asks part by part, in the order of the plan, is due what the clean homes are
/// due in the order of their numbers: an empty part is due nothing.
#[tactic(auto, using(crate::proofs::writing::DueLaws::plan_due))]
pub fn plan_due()
    ensures { (o : Object) → PlanDue o }
{}

/// There the fill places are those between the parts from the base bytes that count on, and the
/// base bytes between the parts are as many as an update to a sink is due.
#[tactic(auto, using(crate::proofs::writing::PlanLaws::gaps_are_fill))]
pub fn gaps_are_fill()
    ensures { (o : Object) → GapsAreFill o }
{}

/// A gap has the base's bytes below the end of those that count, and then the fill byte.
#[tactic(auto, using(crate::proofs::writing::PieceLaws::gap_bytes))]
pub fn gap_bytes()
    ensures { (o : Object) → GapBytes o }
{}

/// The pieces of a section are in a line, and the section's bytes in the file are theirs, with the
/// fill byte between them.
#[tactic(auto, using(crate::proofs::writing::PieceLaws::pieces_in_line))]
pub fn pieces_in_line()
    ensures { (o : Object) → PiecesInLine o }
{}
