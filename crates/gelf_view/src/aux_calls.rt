//! The auxiliary records of an entry of a version section, read one after another.

ghost use Rattle.std.specs.Prelude.{◌≡◌, [], ℕ, IsTrue};
ghost use Rattle.elf_descriptor.specs.elf_object.Words.{Answers};
ghost use Rattle.elf_descriptor.specs.Reads.{Queries, wanted};
ghost use Rattle.gelf_view.specs.Calls as calls;
ghost use Rattle.gelf_view.specs.Calls.{record_call, verdaux_answer, vernaux_answer};
ghost use Rattle.gelf_view.specs.Chains.{aux_answer, aux_from, aux_then, verdauxs, vernauxs, IsBehindRecord, IsLedBy};

use crate::aux::AuxPlace;
use crate::records::Record;
use crate::version_calls::read_record;
use crate::versions::{Verdaux, Vernaux};
use elf_descriptor::Elf;
use elf_descriptor::prelude::Source;
use elf_types::{DataId, ElfError};

/// A record that tells how far the next one of its list is.
trait Aux: Record + Copy {
    // How many bytes there are to the next one.
    ghost next_of: { Self → ℕ };

    /// How many bytes there are to the next one.
    fn next(&self) -> u32
        ensures { result ≡ next_of self.now };
}

impl Aux for Verdaux {
    ghost next_of = { λ x. x.next };

    fn next(&self) -> u32 {
        self.next
    }
}

impl Aux for Vernaux {
    ghost next_of = { λ x. x.next };

    fn next(&self) -> u32 {
        self.next
    }
}

/// Reads the record at a place, and moves the place after it. It gives None where none of the
/// entry's records is left. It fails with `BadChain` with the place where the record before said
/// that it is the last one, and else as `read_record` does; the place stays then.
fn read_next_aux<S: Source, R: Aux>(
    elf: &mut Elf<S>,
    d: DataId,
    place: &mut AuxPlace,
) -> Result<Option<R>, ElfError>
    ensures answer { Answers elf.old.told
        (wanted (record_call R.size R.of d.section d.piece place.old.at) elf.old) result
        (aux_answer (λ at. (record_call R.size R.of d.section d.piece at).answer elf.old.o)
        place.old) }
    ensures behind { IsBehindRecord result R.next_of place.old place.new }
    ensures queries { Queries S.Source (record_call R.size R.of d.section d.piece place.old.at) []
        result elf.old elf.new }
{
    if place.left == 0 {
        return Ok(None);
    }
    if place.last {
        return Err(ElfError::BadChain { at: place.at });
    }
    match read_record::<S, R>(elf, d, place.at) {
        Ok(found) => {
            *place = place.behind(found.next());
            Ok(Some(found))
        }
        Err(e) => Err(e),
    }
}

/// The next name of a version definition, in the byte order of the image, or None exactly where
/// none is left; the place goes on after it, and stays where nothing is given. It fails with, in
/// this order: `BadChain` with the place where the name before said that it is the last one; as a
/// lend of bytes, `NoSection`, `NoData`, `WrongKind`, and for the clean home piece `OutOfFile`;
/// then `Memory` or `Read` where its home is not loaded, and `BadChain` with the place where the
/// record does not lie in the piece. It marks nothing dirty.
///
/// Source: gelf_getverdaux of gelf(3E).
#[tactic(auto, unfolding(crate::specs::Calls::verdaux_answer, crate::specs::Versions::verdaux_at))]
pub fn next_verdaux<S: Source>(
    elf: &mut Elf<S>,
    d: DataId,
    place: &mut AuxPlace,
) -> Result<Option<Verdaux>, ElfError>
    ensures answer { Answers elf.old.told
        (wanted (calls.verdaux d.section d.piece place.old.at) elf.old) result
        (aux_answer (verdaux_answer elf.old.o d.section d.piece) place.old) }
    ensures behind { IsBehindRecord result (λ x. x.next) place.old place.new }
    ensures chain { IsTrue elf.old.told → IsLedBy result
        (aux_then (verdauxs elf.old.o d.section d.piece place.new))
        (verdauxs elf.old.o d.section d.piece place.old) }
    ensures queries { Queries S.Source (calls.verdaux d.section d.piece place.old.at) [] result
        elf.old elf.new }
{
    read_next_aux::<S, Verdaux>(elf, d, place)
}

/// The next version that is needed of a file, in the byte order of the image, or None exactly where
/// none is left; the place goes on after it, and stays where nothing is given. It fails as
/// `next_verdaux` does. It marks nothing dirty.
///
/// Source: gelf_getvernaux of gelf(3E).
#[tactic(auto, unfolding(crate::specs::Calls::vernaux_answer, crate::specs::Versions::vernaux_at))]
pub fn next_vernaux<S: Source>(
    elf: &mut Elf<S>,
    d: DataId,
    place: &mut AuxPlace,
) -> Result<Option<Vernaux>, ElfError>
    ensures answer { Answers elf.old.told
        (wanted (calls.vernaux d.section d.piece place.old.at) elf.old) result
        (aux_answer (vernaux_answer elf.old.o d.section d.piece) place.old) }
    ensures behind { IsBehindRecord result (λ x. x.next) place.old place.new }
    ensures chain { IsTrue elf.old.told → IsLedBy result
        (aux_then (vernauxs elf.old.o d.section d.piece place.new))
        (vernauxs elf.old.o d.section d.piece place.old) }
    ensures queries { Queries S.Source (calls.vernaux d.section d.piece place.old.at) [] result
        elf.old elf.new }
{
    read_next_aux::<S, Vernaux>(elf, d, place)
}
