//! The rules 31 and 32: hash sections that are not whole.

ghost use Rattle.std.specs.Prelude.{◌≡◌};
ghost use Rattle.elf_types.specs.declared.records.Kind.TheVariants as kinds;
ghost use Rattle.hash_model.specs.elf_object.Object.{section_at};
ghost use Rattle.hash_model.specs.elf_object.Answers.{same_kind};
ghost use Rattle.hash_model.specs.elf_object.Sections.{is_of};
ghost use Rattle.elf_lint_findings.specs.Steps.{FindsOver};
ghost use Rattle.elf_lint_hashes.specs.Hashes as rule;

use crate::listed::linked_symbols;
use crate::{gnu_sections, sysv};
use elf_lint_findings::{SectionRule, each_section_by, is_plain, is_plain_of, object_class};
use elf_outside::{Sink, Source};
use elf_types::constants::{SHT_GNU_HASH, SHT_HASH};
use elf_types::{Class, Kind, ScnId, Shdr, kind_of};
use tool_objects::prelude::{Elf, section_header};
use tool_output::{FileName, Outputs, Stop};

/// Whether items are words.
#[tactic(auto, unfolding(hash_model::specs::Passed::kind_code))]
fn are_words(kind: Kind) -> bool
    ensures { result ≡ same_kind kind kinds.Word }
{
    matches!(kind, Kind::Word)
}

/// Whether a section is of type `SHT_HASH`, with words as its items.
#[tactic(auto, unfolding(hash_model::specs::Passed::is_of))]
fn is_hash_of_words(class: Class, h: &Shdr) -> bool
    ensures { result ≡ is_of SHT_HASH kinds.Word h.now }
{
    h.stype == SHT_HASH && are_words(kind_of(class, h))
}

/// Hash sections of words that are not whole.
#[derive(Clone, Copy)]
struct Hashes;

impl SectionRule for Hashes {
    ghost finds = { rule.is_broken_hash };

    #[tactic(auto, unfolding(crate::specs::Hashes::is_broken_hash, crate::specs::Hashes::has_words_of_symbols))]
    fn finds<S: Source>(&self, elf: &mut Elf<S>, s: ScnId) -> Result<bool, Stop> {
        if !is_hash_of_words(object_class(elf), &section_header(elf, s)) || !is_plain(elf, s) {
            return Ok(false);
        }
        let Some(l) = linked_symbols(elf, s) else {
            return Ok(false);
        };
        match sysv::is_whole(elf, s, l) {
            Ok(whole) => Ok(!whole),
            Err(stop) => Err(stop),
        }
    }
}

/// Rule 31, at each hash section of words that links to a symbol table whose symbols can be told:
/// it is not whole.
///
/// Source: gABI chapter 5, "Hash Table".
#[tactic(auto, unfolding(crate::specs::Hashes::hashes_not_whole))]
pub fn hashes_not_whole<S: Source, O: Sink, E: Sink>(
    name: &FileName<'_>,
    elf: &mut Elf<S>,
    outputs: &mut Outputs<'_, O, E>,
) -> Result<bool, Stop>
    ensures { FindsOver S.Source O.Sink E.Sink 1 rule.hashes_not_whole name.now
        result elf.old elf.new outputs.old outputs.new }
{
    each_section_by(&Hashes, 31, "hash is not whole", name, elf, outputs)
}

/// GNU's hash sections that are not whole.
#[derive(Clone, Copy)]
struct GnuHashes;

impl SectionRule for GnuHashes {
    ghost finds = { rule.is_broken_gnu_hash };

    #[tactic(auto, unfolding(crate::specs::Hashes::is_broken_gnu_hash, crate::specs::Hashes::has_bytes_of_symbols))]
    fn finds<S: Source>(&self, elf: &mut Elf<S>, s: ScnId) -> Result<bool, Stop> {
        if !is_plain_of(elf, s, SHT_GNU_HASH) {
            return Ok(false);
        }
        let Some(l) = linked_symbols(elf, s) else {
            return Ok(false);
        };
        match gnu_sections::is_whole(elf, s, l) {
            Ok(whole) => Ok(!whole),
            Err(stop) => Err(stop),
        }
    }
}

/// Rule 32, at each hash section of GNU's that links to a symbol table whose symbols can be told:
/// it is not whole.
///
/// Source: GNU's hash section, which is no part of the gABI.
#[tactic(auto, unfolding(crate::specs::Hashes::gnu_hashes_not_whole))]
pub fn gnu_hashes_not_whole<S: Source, O: Sink, E: Sink>(
    name: &FileName<'_>,
    elf: &mut Elf<S>,
    outputs: &mut Outputs<'_, O, E>,
) -> Result<bool, Stop>
    ensures { FindsOver S.Source O.Sink E.Sink 1 rule.gnu_hashes_not_whole name.now
        result elf.old elf.new outputs.old outputs.new }
{
    each_section_by(&GnuHashes, 32, "hash is not whole", name, elf, outputs)
}
