//! Theorems over the definitions. Each is the contract of a function that does nothing: what it
//! ensures holds of every object, and is proved.

ghost use Rattle.rebuild_model.specs.Laws.{LoadableBytesStay, MadeAreObjects};
ghost use Rattle.law_rebuild.specs.Strip.Made.{BegunFitsClass, FirstStays, HalvesAreWritable, RebuiltIsWritable};

use law_object::writing::based::beginnings_are_based;

/// What strip, copy, rehash and unstrip make of objects, and the debug half of one, are objects,
/// whether the sources of those tell their bytes or not.
#[tactic(auto, using(crate::proofs::strip::MadeLaws::made_are_objects))]
pub fn made_are_objects()
    ensures { MadeAreObjects }
{}

/// Where section 0 stays, and program headers and items of an object fit its class, what is made of
/// it without some sections has something to write, and an update rejects it for its places alone.
pub fn rebuilt_is_writable()
    ensures { RebuiltIsWritable }
{}

/// Program headers and items of an object that was begun over a front that has the shape of one fit
/// its class, whether its source tells its bytes or not.
pub fn begun_fits_class()
    ensures { BegunFitsClass }
{}

/// Neither strip nor copy removes section 0.
#[tactic(auto, using(crate::proofs::strip::KeptLaws::first_stays))]
pub fn first_stays()
    ensures { FirstStays }
{}

/// Where the program headers fit the class, the debug half of an object and what two halves are
/// combined to have something to write, and an update rejects them for their places alone.
#[tactic(auto, using(crate::proofs::strip::HalfLaws::halves_are_writable))]
pub fn halves_are_writable()
    ensures { HalvesAreWritable }
{}

/// Each byte that is loaded is the same in what strip writes, but for `e_shoff`, `e_shnum` and
/// `e_shstrndx`, where the header is a usual one.
pub fn loadable_bytes_stay()
    ensures { LoadableBytesStay }
{
    beginnings_are_based();
}
