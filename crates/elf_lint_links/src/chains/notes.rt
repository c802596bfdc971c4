//! The rule 29: the notes of each section.

ghost use Rattle.std.specs.Prelude.{◌≡◌};
ghost use Rattle.elf_lint_findings.specs.gelf_view.Chains.{notes};
ghost use Rattle.elf_lint_findings.specs.tool_objects.Steps.{Learns};
ghost use Rattle.elf_lint_findings.specs.Steps.{FindsOver};
ghost use Rattle.elf_lint_links.specs.Chains.Chains as rule;
ghost use Rattle.elf_lint_links.specs.Chains.Chains.{bad_place};

use crate::chains::by_chain::{ChainRule, each_bad_chain, met};
use elf_lint_findings::is_plain_of;
use elf_lint_findings::prelude::{Elf, note};
use elf_outside::{Sink, Source};
use elf_types::constants::SHT_NOTE;
use elf_types::{DataId, ScnId};
use tool_output::{FileName, Outputs, Stop};

/// The place of the bad chain that the walk over the notes of a section meets. It ends, since each
/// note follows the one before. It stops by `Read` where a read of the source failed, and by
/// `Memory`.
fn walk_notes<S: Source>(elf: &mut Elf<S>, s: ScnId) -> Result<Option<u64>, Stop>
    ensures { Learns S.Source (λ o. bad_place (notes o s.0 0 0).bad) result elf.old elf.new }
{
    let d = DataId {
        section: s.0,
        piece: 0,
    };
    let mut at = 0;
    'notes: loop {
        match note(elf, d, at) {
            Ok(Some(found)) => at = found.next,
            Ok(None) => return Ok(None),
            Err(e) => return met(e),
        }
    }
}

/// Notes that are in a bad chain.
#[derive(Clone, Copy)]
struct Notes;

impl ChainRule for Notes {
    ghost bad = { rule.note_bad };

    fn find_bad<S: Source>(&self, elf: &mut Elf<S>, s: ScnId) -> Result<Option<u64>, Stop> {
        if is_plain_of(elf, s, SHT_NOTE) {
            walk_notes(elf, s)
        } else {
            Ok(None)
        }
    }
}

/// Rule 29, at each section of notes: its walk meets a bad chain.
///
/// Source: gABI chapter 5, "Note Section".
#[tactic(auto, unfolding(crate::specs::Chains::Chains::bad_notes))]
pub fn bad_notes<S: Source, O: Sink, E: Sink>(
    name: &FileName<'_>,
    elf: &mut Elf<S>,
    outputs: &mut Outputs<'_, O, E>,
) -> Result<bool, Stop>
    ensures { FindsOver S.Source O.Sink E.Sink 1 rule.bad_notes name.now
        result elf.old elf.new outputs.old outputs.new }
{
    each_bad_chain(&Notes, 29, name, elf, outputs)
}
