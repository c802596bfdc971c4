//! The rule 27: the symbols of relocations.

ghost use Rattle.elf_lint_findings.specs.Findings.{findings_shown};
ghost use Rattle.elf_lint_symbols.specs.Relocations as rule;
ghost use Rattle.elf_lint_symbols.specs.Relocations.{AreRelocations};
ghost use Rattle.elf_lint_findings.specs.Steps.{FindsElf, FindsOver};

use crate::by_relocation::{ByNoSymbol, Relocations, each_relocation, relocations_of};
use elf_outside::{Sink, Source};
use elf_types::constants::SHT_RELA;
use elf_types::{Rel, Rela, ScnId};
use tool_objects::prelude::{Elf, SectionTool, each_section, section_header};
use tool_output::{FileName, Outputs, Stop};

/// Says what the rule finds at the relocations of a section.
fn show_relocations<S: Source, O: Sink, E: Sink>(
    by: &ByNoSymbol<'_>,
    elf: &mut Elf<S>,
    r: Relocations,
    outputs: &mut Outputs<'_, O, E>,
) -> Result<bool, Stop>
    requires { AreRelocations elf.old.o r }
    ensures { FindsElf S.Source O.Sink E.Sink
        (λ o. rule.relocations_at by.now.number by.now.text.now o r.section.0) by.now.name.now
        result elf.old elf.new outputs.old outputs.new }
{
    let stype = section_header(elf, r.section).stype;
    if stype == SHT_RELA {
        each_relocation::<Rela, S, O, E>(by, elf, r, outputs)
    } else {
        each_relocation::<Rel, S, O, E>(by, elf, r, outputs)
    }
}

impl SectionTool for ByNoSymbol<'_> {
    ghost report = { λ t o s. findings_shown t.name.now
        (rule.relocations_at t.number t.text.now o s) };

    fn show<S: Source, O: Sink, E: Sink>(
        &self,
        elf: &mut Elf<S>,
        s: ScnId,
        outputs: &mut Outputs<'_, O, E>,
    ) -> Result<bool, Stop> {
        match relocations_of(elf, s) {
            Some(r) => show_relocations(self, elf, r, outputs),
            None => Ok(false),
        }
    }
}

/// Rule 27, at each relocation: its symbol is not below the number of those of the symbol table to
/// which its section links; with no link it names one at all.
///
/// Source: gABI chapter 4, "Relocation".
pub fn relocations_by_no_symbol<S: Source, O: Sink, E: Sink>(
    name: &FileName<'_>,
    elf: &mut Elf<S>,
    outputs: &mut Outputs<'_, O, E>,
) -> Result<bool, Stop>
    ensures { FindsOver S.Source O.Sink E.Sink 1 rule.relocations_by_no_symbol name.now
        result elf.old elf.new outputs.old outputs.new }
{
    let tool = ByNoSymbol {
        number: 27,
        text: "relocation by no symbol",
        name,
    };
    each_section(&tool, elf, outputs)
}
