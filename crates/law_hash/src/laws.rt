//! Theorems on hash sections. Each is the contract of a function that does nothing: what it ensures
//! holds, and is proved.

ghost use Rattle.law_hash.specs.Built.{BuiltAreFound};
ghost use Rattle.law_hash.specs.Rehash.{RehashedKeepsLookup, RehashRebuilds, RehashWrites};
ghost use Rattle.rebuild_model.specs.Laws.{BuiltHashesAreWhole, RehashLaw};

use law_rebuild::prelude::{reopen_law, settling_keeps_items};

/// The hash sections that are built for a symbol table are whole: each listed symbol is on the
/// chain of its bucket, and every chain ends.
#[tactic(auto, using(crate::proofs::BuiltHold::built_are_whole))]
pub fn built_are_whole()
    ensures { BuiltHashesAreWhole }
{}

/// In a section that holds what is built for the symbol table to which it links, each name finds
/// what it finds among all symbols of that table, or is not found as there.
#[tactic(auto, using(crate::proofs::BuiltHold::built_are_found))]
pub fn built_are_found()
    ensures { BuiltAreFound }
{}

/// In what rehash makes of an object, a lookup of a name among the dynamic symbols finds a symbol
/// equal in all fields to the one that it found before, or none as before, and each relocation that
/// named a symbol names an equal one.
#[tactic(auto, using(crate::proofs::RehashHold::rehash_keeps_lookup))]
pub fn rehash_keeps_lookup()
    ensures { RehashedKeepsLookup }
{}

/// What `rehash_keeps_lookup` says holds of an image and of what rehash writes of it, opened again,
/// where the table of dynamic symbols is not section 0, which is written without bytes, whatever it
/// holds: lookups, where the names are no strings of section 0, and the relocations of each section
/// from 1 on.
pub fn rehash_writes()
    ensures { RehashWrites }
{
    reopen_law();
    settling_keeps_items();
}

/// What `rehash_writes` says holds of an image whose section 0 is of type `SHT_NULL`, as it has to
/// be (gABI chapter 4, "Sections"): each lookup and each relocation.
pub fn rehash_law()
    ensures { RehashLaw }
{
    rehash_writes();
}

/// In the image that rehash writes, opened again, the hash sections are under their numbers, and
/// hold what is built for the symbols to which they link: where the table is not section 0, and its
/// names are no strings of section 0.
pub fn rehash_rebuilds()
    ensures { RehashRebuilds }
{
    reopen_law();
    settling_keeps_items();
}
