//! What is not marked is in the base: of the beginnings of an object, kept by every step, and after
//! an update. Each theorem is the contract of a function that does nothing.

ghost use Rattle.elf_object.specs.Object.{Object};
ghost use Rattle.law_object.specs.Writing.Based.{BeginningsAreBased, EveryStepKeepsBased, UpdatesKeepBased};

use elf_object::prelude::{ehdr_both_ways, phdr_both_ways, shdr_both_ways};

/// In an image of bytes that is opened, and in an object that is created over any base, what is not
/// marked is in the base.
pub fn beginnings_are_based()
    ensures { BeginningsAreBased }
{
    ehdr_both_ways();
    phdr_both_ways();
    shdr_both_ways();
}

/// Every step keeps that what is not marked is in the base.
#[tactic(auto, using(crate::proofs::writing::BasedSteps::every_step_keeps_based))]
pub fn every_step_keeps_based()
    ensures { EveryStepKeepsBased }
{}

/// Where it is not rejected, an update in place keeps that what is not marked is in the base, and
/// so does one that failed and left at each place the old byte or the image's.
#[tactic(auto, using(crate::proofs::writing::AfterLaws::updates_keep_based))]
pub fn updates_keep_based()
    ensures { (o : Object) → UpdatesKeepBased o }
{}
