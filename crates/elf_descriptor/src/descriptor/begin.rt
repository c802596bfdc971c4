//! How a descriptor begins.

ghost use Rattle.std.specs.Prelude.{◌≡◌, ◌+◌, ◌≤◌, Ok, IfOk, IfErr, IfSome};
ghost use Rattle.elf_types.specs.declared.constants.TheConstants.{MAX_IMAGE};
ghost use Rattle.elf_types.specs.declared.errors.ElfError.TheVariants.{Memory};
ghost use Rattle.elf_types.specs.Answers.{Follows};
ghost use Rattle.section_table.specs.elf_outside.Asks.{Asks};
ghost use Rattle.section_table.specs.elf_ident.Front.{front_bytes, most_front_bytes};
ghost use Rattle.section_table.specs.elf_ident.Reading.{IsFittingFront, IsCounted, IsFrontRefusal};
ghost use Rattle.section_table.specs.elf_object.Open.{begun, opened};
ghost use Rattle.elf_descriptor.specs.Begun.{BegunIsSound};

use crate::body::Body;
use crate::descriptor::Elf;
use elf_types::ElfError;
use law_object::prelude::{beginnings_are_tied, begun_fits};
use law_object::writing::based::beginnings_are_based;
use section_table::prelude::{Front, Source, read_front};
use std::alloc::Global;

/// What a front begins is an object; over bytes that are told, and that have this front, what is
/// not dirty is in them.
fn begun_is_sound()
    ensures { BegunIsSound }
{
    begun_fits();
    beginnings_are_tied();
    beginnings_are_based();
}

impl<S: Source> Elf<S> {
    ghost use Rattle.elf_descriptor.specs.Begun.{IsBegun, begun_answer, begun_state, source_after};

    /// Begins over a source whose front was read by `read_front` of elf_ident: nothing is read.
    /// Where the source does not tell its bytes, they count as zeros in the object that contracts
    /// speak of. It fails with `Memory` alone, and then hands the source back.
    ///
    /// Source: elf_begin of elf(3E).
    pub fn begin_with(alloc: Global, src: S, front: Front) -> Result<Elf<S>, (S, ElfError)>
        requires fitting { IsFittingFront front }
        requires counted { IsCounted front }
        requires small { S.size src ≤ MAX_IMAGE }
        requires told { IfSome (S.holds src) (λ image. opened image ≡ Ok (begun front image)) }
        ensures state { IfOk result (λ e. e ≡ begun_state S.Source front src) }
        ensures back { IfErr result (λ r. (r.0 ≡ src) × (r.1 ≡ Memory)) }
    {
        begun_is_sound();
        let size = src.len();
        match Body::opened(alloc, front, size) {
            Ok(body) => Ok(Elf { alloc, src, body }),
            Err(e) => Err((src, e)),
        }
    }

    /// Begins over a source: it reads the headers, and nothing of a section. Where the source does
    /// not tell its bytes, they count as zeros in the object that contracts speak of.
    ///
    /// It fails as `read_front` does, in its order: `Short`, `Magic`, `Class`, `Order`, `Version`,
    /// `TooLarge`, `ShTable`, `PhTable`, `TooMany`. `Read` may come at each read, and `Memory`
    /// where none of these comes. With a refusal it hands the source back.
    ///
    /// It reads at most one header and one section header, and the two tables where nothing is
    /// rejected, in at most five reads, and one more for each 1,024 section headers after the first
    /// 1,024.
    ///
    /// Source: elf_begin of elf(3E).
    pub fn begin(alloc: Global, mut src: S) -> Result<Elf<S>, (S, ElfError)>
        ensures answer { IfSome (S.holds src) (λ image.
            Follows (begun_answer result) (opened image)) }
        ensures begun { IfOk result (IsBegun S.Source src) }
        ensures asks { Asks S.Source (begun_answer result) src (source_after result)
            most_front_bytes }
        ensures bound { IfSome (S.holds src) (λ image.
            S.taken (source_after result) ≤ S.taken src + front_bytes image) }
        ensures err { IfErr result (λ back. IsFrontRefusal (S.size src) back.1) }
    {
        match read_front(alloc, &mut src) {
            Ok(front) => Elf::begin_with(alloc, src, front),
            Err(refusal) => Err((src, refusal)),
        }
    }
}
