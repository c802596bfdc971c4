//! The rule 30: the version definitions and needs of each section.

ghost use Rattle.elf_lint_findings.specs.Steps.{FindsOver};
ghost use Rattle.elf_lint_links.specs.Chains.Chains as rule;
ghost use Rattle.elf_lint_links.specs.Chains.Chains.{verdef_names_bad, verneed_names_bad};
ghost use Rattle.elf_lint_links.specs.Chains.Reach.{verdaux_next, vernaux_next};

use crate::chains::by_chain::{ChainRule, each_bad_chain};
use crate::chains::entries::{CheckedVersionEntry, bad_names, walk_entries};
use elf_lint_findings::is_plain_of;
use elf_lint_findings::prelude::{Elf, Verdaux, Verdef, Vernaux, Verneed, verdaux_in, vernaux_in};
use elf_outside::{Sink, Source};
use elf_types::constants::{SHT_GNU_VERDEF, SHT_GNU_VERNEED};
use elf_types::{Halves, Order, ScnId};
use tool_output::{FileName, Outputs, Stop};

impl CheckedVersionEntry for Verdef {
    ghost names_bad = { verdef_names_bad };

    ghost next_in = { verdaux_next };

    fn next_name_in(bytes: &[u8], at: u64, order: Order) -> Option<u32> {
        match verdaux_in(bytes, at, order) {
            Ok(name) => Some(name.next),
            Err(_) => None,
        }
    }

    #[tactic(auto, unfolding(crate::specs::Chains::Chains::verdef_names_bad))]
    fn find_bad_name<S: Source>(
        &self,
        elf: &mut Elf<S>,
        s: ScnId,
        at: u64,
        reach: &Halves,
    ) -> Result<Option<u64>, Stop> {
        bad_names::<Verdaux, S>(elf, s, self.first_aux(at), reach)
    }
}

impl CheckedVersionEntry for Verneed {
    ghost names_bad = { verneed_names_bad };

    ghost next_in = { vernaux_next };

    fn next_name_in(bytes: &[u8], at: u64, order: Order) -> Option<u32> {
        match vernaux_in(bytes, at, order) {
            Ok(name) => Some(name.next),
            Err(_) => None,
        }
    }

    #[tactic(auto, unfolding(crate::specs::Chains::Chains::verneed_names_bad))]
    fn find_bad_name<S: Source>(
        &self,
        elf: &mut Elf<S>,
        s: ScnId,
        at: u64,
        reach: &Halves,
    ) -> Result<Option<u64>, Stop> {
        bad_names::<Vernaux, S>(elf, s, self.first_aux(at), reach)
    }
}

/// Version definitions and needs that are in a bad chain.
#[derive(Clone, Copy)]
struct Versions;

impl ChainRule for Versions {
    ghost bad = { rule.version_bad };

    fn find_bad<S: Source>(&self, elf: &mut Elf<S>, s: ScnId) -> Result<Option<u64>, Stop> {
        if is_plain_of(elf, s, SHT_GNU_VERDEF) {
            return walk_entries::<Verdef, S>(elf, s);
        }
        if is_plain_of(elf, s, SHT_GNU_VERNEED) {
            return walk_entries::<Verneed, S>(elf, s);
        }
        Ok(None)
    }
}

/// Rule 30, at each section of version definitions or needs: its walk meets a bad chain. The names
/// of an entry come before the next entry.
///
/// Source: GNU's version sections, which are no part of the gABI.
#[tactic(auto, unfolding(crate::specs::Chains::Chains::bad_versions))]
pub fn bad_versions<S: Source, O: Sink, E: Sink>(
    name: &FileName<'_>,
    elf: &mut Elf<S>,
    outputs: &mut Outputs<'_, O, E>,
) -> Result<bool, Stop>
    ensures { FindsOver S.Source O.Sink E.Sink 1 rule.bad_versions name.now
        result elf.old elf.new outputs.old outputs.new }
{
    each_bad_chain(&Versions, 30, name, elf, outputs)
}
