//! The chains of version sections, whichever kind they are of: entries one after the other, each
//! with a list of names. A walk over either ends by itself: each further entry follows the one
//! before, and an entry tells how many names it has.

ghost use Rattle.std.specs.Prelude.{◌≡◌, ◌<◌, ◌^◌, [], ℕ, Result as TheResult, IsTrue, IfOk, IfSome, OnOk};
ghost use Rattle.elf_types.specs.declared.errors.ElfError.{ElfError as TheElfError};
ghost use Rattle.elf_descriptor.specs.elf_object.Object.{Object};
ghost use Rattle.elf_descriptor.specs.elf_object.Answers.{count_at};
ghost use Rattle.elf_descriptor.specs.Reads.{Queries};
ghost use Rattle.gelf_view.specs.declared.aux.AuxPlace.{AuxPlace as TheAuxPlace};
ghost use Rattle.gelf_view.specs.Calls.{bytes_reader, verdaux_answer, verdef_answer, vernaux_answer, verneed_answer};
ghost use Rattle.gelf_view.specs.Chains.{Chain, aux_then, entry_then, next_place, verdauxs, verdefs, vernauxs, verneeds, IsLedBy};

use crate::aux::AuxPlace;
use crate::aux_calls::{next_verdaux, next_vernaux};
use crate::version_calls::{verdef, verneed};
use crate::versions::{Verdaux, Verdef, Vernaux, Verneed};
use elf_descriptor::Elf;
use elf_descriptor::prelude::Source;
use elf_types::{DataId, ElfError};

/// A name in the list of an entry: `Verdaux` of a definition, `Vernaux` of needs.
///
/// - `names` are those of a piece from a place on.
/// - `found` is what a call returns that reads one, by the section, the piece and the place.
pub trait VersionName: Copy + Drop {
    ghost names: { Object → ℕ → ℕ → TheAuxPlace → Chain Self };

    ghost found: { Object → ℕ → ℕ → ℕ → TheResult Self TheElfError };

    /// The next of the list, whose place goes on after it, or None where none is left. It fails as
    /// `next_verdaux` does.
    fn next_of<S: Source>(
        elf: &mut Elf<S>,
        d: DataId,
        place: &mut AuxPlace,
    ) -> Result<Option<Self>, ElfError>
        ensures chain { IsTrue elf.old.told → IsLedBy result
            (aux_then (names elf.old.o d.section d.piece place.new))
            (names elf.old.o d.section d.piece place.old) }
        ensures fewer { IfOk result (λ found. IfSome found
            (λ _. place.new.left < place.old.left)) }
        ensures queries { Queries S.Source
            (bytes_reader d.section d.piece (λ o. found o d.section d.piece place.old.at)) []
            result elf.old elf.new };
}

/// An entry of a version section: `Verdef` or `Verneed`.
///
/// - `entries` are those of a piece from a place on, each with its place.
/// - `behind` is how many bytes there are to the next one.
/// - `found` is what a call returns that reads one, by the section, the piece and the place.
pub trait VersionEntry: Copy + Drop {
    ghost entries: { Object → ℕ → ℕ → ℕ → Chain (ℕ × Self) };

    ghost behind: { Self → ℕ };

    ghost found: { Object → ℕ → ℕ → ℕ → TheResult Self TheElfError };

    /// The entry at a place. It fails as `verdef` does.
    fn entry_at<S: Source>(elf: &mut Elf<S>, d: DataId, at: u64) -> Result<Self, ElfError>
        ensures chain { IsTrue elf.old.told → IsLedBy result
            (λ x. entry_then at x (behind x) (entries elf.old.o d.section d.piece))
            (entries elf.old.o d.section d.piece at) }
        ensures within { OnOk result ((at < count_at elf.old.o d.section d.piece) × (at < 2 ^ 63)) }
        ensures queries { Queries S.Source
            (bytes_reader d.section d.piece (λ o. found o d.section d.piece at)) []
            result elf.old elf.new };

    /// The place of the entry after the one at a place, or None after the last.
    fn place_behind(&self, at: u64) -> Option<u64>
        requires { at < 2 ^ 63 }
        ensures { result ≡ next_place at (behind self.now) };
}

impl VersionName for Verdaux {
    ghost names = { verdauxs };

    ghost found = { verdaux_answer };

    fn next_of<S: Source>(
        elf: &mut Elf<S>,
        d: DataId,
        place: &mut AuxPlace,
    ) -> Result<Option<Verdaux>, ElfError> {
        next_verdaux(elf, d, place)
    }
}

impl VersionName for Vernaux {
    ghost names = { vernauxs };

    ghost found = { vernaux_answer };

    fn next_of<S: Source>(
        elf: &mut Elf<S>,
        d: DataId,
        place: &mut AuxPlace,
    ) -> Result<Option<Vernaux>, ElfError> {
        next_vernaux(elf, d, place)
    }
}

impl VersionEntry for Verdef {
    ghost entries = { verdefs };

    ghost behind = { λ x. x.next };

    ghost found = { verdef_answer };

    fn entry_at<S: Source>(elf: &mut Elf<S>, d: DataId, at: u64) -> Result<Verdef, ElfError> {
        verdef(elf, d, at)
    }

    fn place_behind(&self, at: u64) -> Option<u64> {
        self.next_place(at)
    }
}

impl VersionEntry for Verneed {
    ghost entries = { verneeds };

    ghost behind = { λ x. x.next };

    ghost found = { verneed_answer };

    fn entry_at<S: Source>(elf: &mut Elf<S>, d: DataId, at: u64) -> Result<Verneed, ElfError> {
        verneed(elf, d, at)
    }

    fn place_behind(&self, at: u64) -> Option<u64> {
        self.next_place(at)
    }
}
