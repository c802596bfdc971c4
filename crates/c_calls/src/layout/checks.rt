//! What is rejected by the headers alone, before anything is placed.

ghost use Rattle.std.specs.Prelude.{◌≡◌};
ghost use Rattle.elf_types.specs.Answers.{answered};
ghost use Rattle.c_calls.specs.Layout.Listed.{first_occupies, counts_refusal, segments_refusal};

use crate::editing::{phdr_from, shdr_from};
use c_records::{PhdrRecord, ShdrRecord};
use elf_object::occupies_file;
use elf_types::constants::{MAX_SECTIONS, MAX_SEGMENTS, PN_XNUM, SHN_LORESERVE};
use elf_types::{Class, ElfError, Part};
use elf_xlate::phdr_fits;

/// Whether the first section occupies space in the file, where there is one.
fn first_occupies(shdrs: &[ShdrRecord]) -> bool
    ensures { result ≡ first_occupies shdrs.now }
{
    match shdrs.first() {
        Some(h) => occupies_file(&shdr_from(h)),
        None => false,
    }
}

/// Whether there are at most as many headers as an object has, and their counts can be told in the
/// header or in section 0; else `TooMany`.
#[tactic(auto, unfolding(crate::specs::Layout::Listed::counts_refusal))]
pub(crate) fn check_counts(phdrs: &[PhdrRecord], shdrs: &[ShdrRecord]) -> Result<(), ElfError>
    ensures { result ≡ answered (counts_refusal phdrs.now shdrs.now) tt }
{
    let segments = phdrs.len() as u64;
    let sections = shdrs.len() as u64;
    if segments > MAX_SEGMENTS || sections > MAX_SECTIONS {
        return Err(ElfError::TooMany);
    }
    if segments >= PN_XNUM as u64 && sections == 0 {
        return Err(ElfError::TooMany);
    }
    if sections >= SHN_LORESERVE as u64 && first_occupies(shdrs) {
        return Err(ElfError::TooMany);
    }
    Ok(())
}

/// Whether each program header fits the class; else `Unfit` with the first that does not.
pub(crate) fn check_segments(class: Class, phdrs: &[PhdrRecord]) -> Result<(), ElfError>
    ensures { result ≡ answered (segments_refusal class phdrs.now) tt }
{
    for i in 0..phdrs.len() {
        if !phdr_fits(&phdr_from(&phdrs[i]), class) {
            return Err(ElfError::Unfit {
                part: Part::Segments,
                index: i as u64,
            });
        }
    }
    Ok(())
}
