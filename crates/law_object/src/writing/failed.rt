//! What an update in place that failed leaves, and that it can be done again. Each theorem is the
//! contract of a function that does nothing.

ghost use Rattle.elf_object.specs.Object.{Object};
ghost use Rattle.law_object.specs.Writing.Writing.{MarksAreTorn, SettlesAlike, TornDevice, UndisturbedStays};

/// A device that has at each place the old byte or the image's, and the old length or the image's,
/// holds below the length of the base what a torn object has.
#[tactic(auto, using(crate::proofs::writing::WriteLaws::torn_device))]
pub fn torn_device()
    ensures { (o : Object) → TornDevice o }
{}

/// A home that lies in the base and is not disturbed has the same bytes after a write that failed.
#[tactic(auto, using(crate::proofs::writing::AfterLaws::undisturbed_stays))]
pub fn undisturbed_stays()
    ensures { (o : Object) → UndisturbedStays o }
{}

/// An object whose places are stored, and one whose write failed, settle as the object itself.
#[tactic(auto, using(crate::proofs::writing::AlikeLaws::settles_alike))]
pub fn settles_alike()
    ensures { (o : Object) → SettlesAlike o }
{}

/// An object in which something is dirty, whose places are stored, and which is marked as a whole
/// and on each piece of each section that moves, is torn over its own base: what an update in place
/// leaves that fails before it writes a byte.
#[tactic(auto, using(crate::proofs::writing::MarkLaws::marks_are_torn))]
pub fn marks_are_torn()
    ensures { (o : Object) → MarksAreTorn o }
{}
