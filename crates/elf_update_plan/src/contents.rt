//! Why an update is rejected by what the object has: the first cause in this order. Nothing is
//! read.

ghost use Rattle.std.specs.Prelude.{◌≡◌, ◌<◌, length};
ghost use Rattle.elf_types.specs.Answers.{answered};
ghost use Rattle.elf_descriptor.specs.elf_object.Object.{section_at, piece_at};
ghost use Rattle.elf_descriptor.specs.elf_object.Answers.{piece_count};
ghost use Rattle.elf_update_plan.specs.Contents.{segment_fits_at};
ghost use Rattle.elf_descriptor.specs.elf_object.Refusal.{too_many, unfit_segment, unfit_in_piece, unfit_in_section, unfit_item, missing_in_section, missing_home, content_refusal};

use crate::sections::{count_pieces, has_file_bytes, home_is_clean, section_occupies_file};
use elf_descriptor::prelude::{Source, phdr_fits, unfit};
use elf_descriptor::{Elf, Held};
use elf_types::constants::{PN_XNUM, SHN_LORESERVE};
use elf_types::{DataId, ElfError, Part, ScnId};

/// Whether the counts can be told in the header or in section 0; else `TooMany`.
#[tactic(auto, unfolding(elf_descriptor::specs::Passed::too_many))]
fn check_counts<S: Source>(elf: &Elf<S>) -> Result<(), ElfError>
    ensures { result ≡ answered (too_many elf.now.o) tt }
{
    let count = elf.shnum();
    if elf.phnum() >= PN_XNUM && count == 0 {
        return Err(ElfError::TooMany);
    }
    if count >= SHN_LORESERVE && section_occupies_file(elf, ScnId(0)) {
        return Err(ElfError::TooMany);
    }
    Ok(())
}

/// Whether a program header that is there fits the class.
fn segment_fits<S: Source>(elf: &Elf<S>, i: u32) -> bool
    requires { i < length elf.now.o.phdrs }
    ensures { result ≡ segment_fits_at elf.now.o i }
{
    let class = elf.ehdr().class;
    phdr_fits(&elf.phdr_at(i), class)
}

/// Whether each program header fits the class; else `Unfit` with the first that does not.
fn check_segments<S: Source>(elf: &Elf<S>) -> Result<(), ElfError>
    ensures { result ≡ answered (unfit_segment elf.now.o) tt }
{
    for i in 0..elf.phnum() {
        if !segment_fits(elf, i) {
            return Err(ElfError::Unfit {
                part: Part::Segments,
                index: i as u64,
            });
        }
    }
    Ok(())
}

/// Whether the items of a piece that is there fit the class; else `Unfit` with the first that does
/// not.
#[tactic(auto, unfolding(elf_descriptor::specs::Passed::unfit_in_piece, elf_descriptor::specs::Passed::piece_refusal, elf_descriptor::specs::Passed::piece_count))]
fn check_piece<S: Source>(elf: &Elf<S>, s: u32, p: u32) -> Result<(), ElfError>
    requires section { s < length elf.now.o.sections }
    requires piece { p < piece_count elf.now.o s }
    ensures { result ≡ answered
        (unfit_in_piece elf.now.o.header.class s p (piece_at elf.now.o s p)) tt }
{
    let class = elf.ehdr().class;
    match elf.held(DataId {
        section: s,
        piece: p,
    }) {
        Ok(Held::Edited(items)) => match unfit(items, class) {
            Some(index) => Err(ElfError::Unfit {
                part: Part::Piece(s, p),
                index,
            }),
            None => Ok(()),
        },
        Ok(Held::Raw(_)) => Ok(()),
        Ok(Held::Unread) => Ok(()),
        Err(_) => unreachable!(),
    }
}

/// Whether the items of a section that is there and has bytes in the file fit the class; else
/// `Unfit` with the first that does not.
fn check_pieces<S: Source>(elf: &Elf<S>, s: u32) -> Result<(), ElfError>
    requires { s < length elf.now.o.sections }
    ensures { result ≡ answered
        (unfit_in_section elf.now.o.header.class s (section_at elf.now.o s)) tt }
{
    if !has_file_bytes(elf, ScnId(s)) {
        return Ok(());
    }
    for p in 0..count_pieces(elf, ScnId(s)) {
        if let Err(e) = check_piece(elf, s, p) {
            return Err(e);
        }
    }
    Ok(())
}

/// Whether the items of each section that has bytes in the file fit the class; else `Unfit` with
/// the first that does not, by section, piece and index.
fn check_items<S: Source>(elf: &Elf<S>) -> Result<(), ElfError>
    ensures { result ≡ answered (unfit_item elf.now.o) tt }
{
    for s in 0..elf.shnum() {
        if let Err(e) = check_pieces(elf, s) {
            return Err(e);
        }
    }
    Ok(())
}

/// Whether the home of a section is in the file, where its bytes must be written; else `OutOfFile`.
#[tactic(auto, unfolding(elf_descriptor::specs::Passed::missing_in_section, elf_descriptor::specs::Homes::out_answer))]
fn check_home<S: Source>(elf: &Elf<S>, s: u32) -> Result<(), ElfError>
    requires { s < length elf.now.o.sections }
    ensures { result ≡ answered (missing_in_section s (section_at elf.now.o s)) tt }
{
    if !has_file_bytes(elf, ScnId(s)) || !home_is_clean(elf, ScnId(s)) {
        return Ok(());
    }
    match elf.is_out_of_file(ScnId(s)) {
        Ok(true) => Err(ElfError::OutOfFile { section: s }),
        Ok(false) => Ok(()),
        Err(_) => unreachable!(),
    }
}

/// Whether each home that must be written is in the file; else `OutOfFile` with the first section
/// whose home is not.
fn check_homes<S: Source>(elf: &Elf<S>) -> Result<(), ElfError>
    ensures { result ≡ answered (missing_home elf.now.o) tt }
{
    for s in 0..elf.shnum() {
        if let Err(e) = check_home(elf, s) {
            return Err(e);
        }
    }
    Ok(())
}

/// Whether an update is rejected before places are worked out: `TooMany`, `Unfit` and `OutOfFile`,
/// in this order. It reads nothing and takes no memory.
#[tactic(auto, unfolding(elf_descriptor::specs::Passed::content_refusal))]
pub(crate) fn check_contents<S: Source>(elf: &Elf<S>) -> Result<(), ElfError>
    ensures { result ≡ answered (content_refusal elf.now.o) tt }
{
    check_counts(elf)?;
    check_segments(elf)?;
    check_items(elf)?;
    check_homes(elf)
}
