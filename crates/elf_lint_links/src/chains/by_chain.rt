//! Rules that look for the first bad chain of each section.

ghost use Rattle.std.specs.Prelude.{◌≡◌, ◌<◌, ℕ, Option as TheOption, Some, Ok, Err, IfSome, IfNone, length};
ghost use Rattle.elf_lint_findings.specs.elf_object.Object.{Object};
ghost use Rattle.elf_lint_findings.specs.elf_object.Due.{all_sections};
ghost use Rattle.tool_output.specs.Stops.{stop_of};
ghost use Rattle.elf_lint_findings.specs.tool_objects.Steps.{Learns};
ghost use Rattle.elf_lint_findings.specs.Findings.{findings_shown};
ghost use Rattle.elf_lint_findings.specs.Steps.{FindsOver};
ghost use Rattle.elf_lint_links.specs.Chains.Chains.{at_bad_chains, bad_place, chain_found};

use elf_lint_findings::prelude::{Elf, SectionTool, each_section};
use elf_lint_findings::{Place, find};
use elf_outside::{Sink, Source};
use elf_types::{ElfError, ScnId};
use tool_output::{FileName, Outputs, Stop};

/// A rule that looks for the first bad chain of a section.
///
/// - `bad` is the place of that chain, by the object and the section's number.
pub trait ChainRule {
    ghost bad: { Object → ℕ → TheOption ℕ };

    /// The place of the first bad chain of a section that is there. It stops by `Read` where a read
    /// of the source failed, and by `Memory`.
    fn find_bad<S: Source>(&self, elf: &mut Elf<S>, s: ScnId) -> Result<Option<u64>, Stop>
        requires { s.0 < length elf.old.o.sections }
        ensures { Learns S.Source (λ o. bad o s.0) result elf.old elf.new };
}

/// The place of a bad chain, where the error tells one.
fn bad_place(e: ElfError) -> Option<u64>
    ensures { result ≡ bad_place (Some e) }
{
    match e {
        ElfError::BadChain { at } => Some(at),
        _ => None,
    }
}

/// What a walk returns that met an error: it stops by it, or this is where its chain goes bad.
pub fn met(e: ElfError) -> Result<Option<u64>, Stop>
    ensures stops { IfSome (stop_of e) (λ stop. result ≡ Err stop) }
    ensures bad { IfNone (stop_of e) (result ≡ Ok (bad_place (Some e))) }
{
    match Stop::of(&e) {
        Some(stop) => Err(stop),
        None => Ok(bad_place(e)),
    }
}

/// A rule under the name of a file.
#[derive(Drop)]
struct ByChain<'a, R> {
    /// The rule.
    rule: &'a R,
    /// Its number.
    number: u32,
    /// The file.
    name: &'a FileName<'a>,
}

impl<R: ChainRule> SectionTool for ByChain<'_, R> {
    ghost report = { λ t o s. findings_shown t.name.now (chain_found t.number s (R.bad o s)) };

    fn show<S: Source, O: Sink, E: Sink>(
        &self,
        elf: &mut Elf<S>,
        s: ScnId,
        outputs: &mut Outputs<'_, O, E>,
    ) -> Result<bool, Stop> {
        let rule = self.rule;
        match rule.find_bad(elf, s) {
            Ok(Some(at)) => {
                let text = ElfError::BadChain { at };
                find(self.name, self.number, Place::Section(s.0), text, outputs)
            }
            Ok(None) => Ok(false),
            Err(stop) => Err(stop),
        }
    }
}

/// Says what a rule of that number finds in each section, by number.
pub fn each_bad_chain<R: ChainRule, S: Source, O: Sink, E: Sink>(
    rule: &R,
    number: u32,
    name: &FileName<'_>,
    elf: &mut Elf<S>,
    outputs: &mut Outputs<'_, O, E>,
) -> Result<bool, Stop>
    ensures { FindsOver S.Source O.Sink E.Sink 1
        (λ o. at_bad_chains number (R.bad o) (all_sections o)) name.now
        result elf.old elf.new outputs.old outputs.new }
{
    let tool = ByChain { rule, number, name };
    each_section(&tool, elf, outputs)
}
