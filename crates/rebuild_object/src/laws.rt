//! Theorems about the object of a plan.

ghost use Rattle.rebuild_object.specs.Planned.{PlansMakeObjects};
ghost use Rattle.rebuild_object.specs.Halves.{HalvesAreCreated};
ghost use Rattle.rebuild_object.specs.Rebuilding.{RebuiltAreCreated};

/// The object that is made of a plan is the one that the plan was stated of, where that one was
/// created and filled.
pub fn plans_make_objects()
    ensures { PlansMakeObjects }
{}

/// The debug half of an object was created, and each of its sections filled with bytes.
pub fn halves_are_created()
    ensures { HalvesAreCreated }
{}

/// The object without some sections was created, and each of its sections filled with items of the
/// kind that is planned for it.
pub fn rebuilt_are_created()
    ensures { RebuiltAreCreated }
{}
