//! What lookups take of an object: its form, and the words of a hash section.

ghost use Rattle.std.specs.Prelude.{◌≡◌, ◌<◌, ◌^◌, IsTrue, None};
ghost use Rattle.elf_types.specs.Answers.{Follows};
ghost use Rattle.elf_types.specs.declared.records.Kind.TheVariants as kinds;
ghost use Rattle.hash_model.specs.elf_object.Answers.{items_at, lend_refusal, words_of};
ghost use Rattle.symbol_lookup.specs.Walks as walks;
ghost use Rattle.symbol_lookup.specs.Lookups.{or_bad, Needs};
ghost use Rattle.symbol_lookup.specs.Searches.{HasWords, Searches, ObjectStays};

use elf_types::{Class, DataId, ElfError, Order, ScnId};
use gelf_view::prelude::Elf;
use gelf_view::word;
use hash_model::prelude::Source;

/// The class and the byte order of an object.
#[tactic(auto, unfolding(hash_model::specs::Passed::header_of))]
pub fn form<S: Source>(elf: &Elf<S>) -> (Class, Order)
    ensures class { result.0 ≡ elf.now.o.header.class }
    ensures order { result.1 ≡ elf.now.o.header.order }
{
    let header = elf.ehdr();
    (header.class, header.order)
}

/// What a step meets in place of a word: a bad chain at its place, or out of memory, or a failed
/// read.
#[tactic(auto, unfolding(crate::specs::Lookups::or_bad))]
fn or_bad(e: ElfError, at: u64) -> ElfError
    ensures { result ≡ or_bad at e }
{
    match e {
        ElfError::Memory => ElfError::Memory,
        ElfError::Read => ElfError::Read,
        _ => ElfError::BadChain { at },
    }
}

/// The word at an index of a section of words; else a bad chain at its place.
pub fn hash_word<S: Source>(elf: &mut Elf<S>, h: ScnId, index: u64) -> Result<u32, ElfError>
    requires passed { lend_refusal elf.old.o kinds.Word h.0 0 ≡ None }
    requires index { index < 2 ^ 62 }
    ensures follows { IsTrue elf.old.told
        → Follows result (walks.hash_word (words_of (items_at elf.old.o h.0 0)) index) }
    ensures stays { ObjectStays elf.old elf.new }
    ensures searches { (n : Needs) → HasWords n elf.old.o h.0
        → Searches S.Source n result elf.old elf.new }
{
    let d = DataId {
        section: h.0,
        piece: 0,
    };
    match word(elf, d, index) {
        Ok(found) => Ok(found),
        Err(e) => Err(or_bad(e, 4 * index)),
    }
}
