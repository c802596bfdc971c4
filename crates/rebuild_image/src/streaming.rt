//! What an image is written from, where its headers are listed and the bytes of its sections are
//! ranges.

ghost use Rattle.std.specs.Prelude.{◌≡◌, ◌⊎◌, ◌≤◌, ◌+◌, ◌-◌, ℕ, true, false, length, All, IsTrue, IfOk, IfErr};
ghost use Rattle.elf_types.specs.declared.constants.TheConstants.{MAX_SECTIONS};
ghost use Rattle.elf_types.specs.declared.errors.ElfError.TheVariants.{Memory};
ghost use Rattle.elf_outside.specs.Asks.{ReadRose};
ghost use Rattle.elf_xlate.specs.Headers.{ehdr_fits, phdr_fits, shdr_fits};
ghost use Rattle.rebuild_model.specs.elf_object.Object.{Object, is_dirty};
ghost use Rattle.rebuild_model.specs.elf_object.Valid.{IsObject};
ghost use Rattle.elf_update_to.specs.law_object.Writing.Ready.{IsReady};
ghost use Rattle.elf_update_to.specs.elf_update_plan.Placing.{IsRefused};
ghost use Rattle.elf_update_to.specs.Updates.{IsPlanned};
ghost use Rattle.rebuild_image.specs.Listed.Listing.{IsHeaderListing};
ghost use Rattle.rebuild_image.specs.Planning.{IsLaidOut};
ghost use Rattle.rebuild_image.specs.Holding.{HoldsFront};
ghost use Rattle.rebuild_image.specs.Streams.{IsStreamed, IsNoFront};

use crate::holding::{FrontRanges, hold_front};
use crate::listed::{HeaderListing, store_places};
use crate::planning::plan_listed;
use elf_types::{Class, ElfError, Part, Phdr};
use elf_update_to::PlannedParts;
use elf_xlate::{ehdr_fits, phdr_fits, shdr_fits};
use std::alloc::Global;
use strtab_shared::bytes::SharedBytes;

/// Whether the headers of the sections fit the class.
fn headers_fit(x: &HeaderListing) -> bool
    ensures fit { result ≡ true
        → All (λ h. IsTrue (shdr_fits x.now.header.class h)) x.now.headers }
    ensures other { result ≡ false → (o : Object) → IsObject o → IsHeaderListing o x.now → ⊥ }
{
    for h in x.headers.as_slice() {
        if !shdr_fits(h, x.header.class) {
            return false;
        }
    }
    true
}

/// Whether the program headers do.
fn segments_fit(class: Class, phdrs: &[Phdr]) -> bool
    ensures fit { result ≡ true → All (λ p. IsTrue (phdr_fits class p)) phdrs.now }
    ensures other { result ≡ false → (o : Object) → IsReady o → class ≡ o.header.class
        → phdrs.now ≡ o.phdrs → ⊥ }
{
    for p in phdrs {
        if !phdr_fits(p, class) {
            return false;
        }
    }
    true
}

/// Holds the front of an image of which the headers are listed with their places. Headers that do
/// not fit their class, which no object has, are rejected as `Unfit`.
fn hold_stored(
    held: &mut SharedBytes,
    x: &HeaderListing,
    pad: [u8; 7],
    phdrs: &[Phdr],
) -> Result<FrontRanges, ElfError>
    ensures ok { IfOk result (HoldsFront x.now pad phdrs.now held.old held.new) }
    ensures err { IfErr result (λ e. (e ≡ Memory) ⊎ IsNoFront x.now phdrs.now) }
    ensures unread { (a b : ℕ) → ReadRose result a b }
{
    if !ehdr_fits(&x.header) {
        return Err(ElfError::Unfit {
            part: Part::Table,
            index: 0,
        });
    }
    if !headers_fit(x) {
        return Err(ElfError::Unfit {
            part: Part::Table,
            index: 0,
        });
    }
    if !segments_fit(x.header.class, phdrs) {
        return Err(ElfError::Unfit {
            part: Part::Table,
            index: 0,
        });
    }
    match hold_front(held, x, pad, phdrs) {
        Ok(front) => Ok(front),
        Err(e) => Err(e),
    }
}

/// The plan of an image, and the ranges of its front.
#[derive(Drop)]
pub struct Streamed {
    /// The plan.
    pub planned: PlannedParts,
    /// The ranges of the ELF header and of the tables.
    pub front: FrontRanges,
}

/// The plan of an image of which the headers are listed, with a place for each part. It fails as
/// `plan_listed` does.
fn plan_with_places(
    alloc: Global,
    x: &HeaderListing,
    layout: bool,
    base: u64,
) -> Result<PlannedParts, ElfError>
    requires few { length x.now.headers ≤ MAX_SECTIONS }
    requires sizes { length x.now.sizes ≡ length x.now.headers }
    ensures ok { IfOk result (λ planned. (o : Object) → IsLaidOut o x.now layout base
        → IsPlanned o planned) }
    ensures places { IfOk result (λ planned.
        length x.now.headers - 1 + 3 ≤ length planned.places.at) }
    ensures err { IfErr result (λ e. (o : Object) → IsLaidOut o x.now layout base
        → IsRefused o e) }
    ensures unread { (a b : ℕ) → ReadRose result a b }
{
    match plan_listed(alloc, x, layout, base) {
        Ok(planned) => {
            let places = planned.places.at.len();
            let parts = x.headers.len().saturating_sub(1) + 3;
            if places < parts {
                return Err(ElfError::TooMany);
            }
            Ok(planned)
        }
        Err(e) => Err(e),
    }
}

/// Stores the places of a plan in listed headers, and holds the front of its image. It fails with
/// `Memory`, and with `Unfit` where headers do not fit their class.
fn hold_placed(
    alloc: Global,
    x: HeaderListing,
    planned: &PlannedParts,
    pad: [u8; 7],
    phdrs: &[Phdr],
    held: &mut SharedBytes,
) -> Result<FrontRanges, ElfError>
    requires sizes { length x.sizes ≡ length x.headers }
    requires places { length x.headers - 1 + 3 ≤ length planned.now.places.at }
    ensures ok { IfOk result (λ front. (o : Object) → IsHeaderListing o x → is_dirty o ≡ true
        → IsPlanned o planned.now → pad ≡ o.pad → phdrs.now ≡ o.phdrs
        → IsStreamed o held.old held.new (record { planned = planned.now; front = front })) }
    ensures err { IfErr result (λ e. (o : Object) → IsHeaderListing o x → is_dirty o ≡ true
        → IsPlanned o planned.now → phdrs.now ≡ o.phdrs → IsRefused o e) }
    ensures unread { (a b : ℕ) → ReadRose result a b }
{
    let next = match store_places(alloc, x, &planned.places) {
        Ok(next) => next,
        Err(e) => return Err(e),
    };
    match hold_stored(held, &next, pad, phdrs) {
        Ok(front) => Ok(front),
        Err(e) => Err(e),
    }
}

/// Works out where the parts of an image are of which the headers are listed, and holds its front
/// after what is held. It fails as an update of an object does that has these headers: `Overlap`,
/// `TooLarge`; and `Memory`. Headers that do not fit their class, which no object has, are `Unfit`.
/// It reads nothing.
///
/// Source: gABI chapter 4, "ELF Header" and "Section Header"; elf_update of elf(3E).
pub fn stream_listed(
    alloc: Global,
    x: HeaderListing,
    pad: [u8; 7],
    phdrs: &[Phdr],
    layout: bool,
    base: u64,
    held: &mut SharedBytes,
) -> Result<Streamed, ElfError>
    requires few { length x.headers ≤ MAX_SECTIONS }
    requires sizes { length x.sizes ≡ length x.headers }
    ensures ok { IfOk result (λ streamed. (o : Object) → IsLaidOut o x layout base → pad ≡ o.pad
        → phdrs.now ≡ o.phdrs → IsStreamed o held.old held.new streamed) }
    ensures err { IfErr result (λ e. (o : Object) → IsLaidOut o x layout base
        → phdrs.now ≡ o.phdrs → IsRefused o e) }
    ensures unread { (a b : ℕ) → ReadRose result a b }
{
    match plan_with_places(alloc, &x, layout, base) {
        Ok(planned) => match hold_placed(alloc, x, &planned, pad, phdrs, held) {
            Ok(front) => Ok(Streamed { planned, front }),
            Err(e) => Err(e),
        },
        Err(e) => Err(e),
    }
}
