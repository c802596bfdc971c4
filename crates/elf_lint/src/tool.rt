//! The tool of the command elflint.

ghost use Rattle.std.specs.Prelude.{◌≡◌, codes};
ghost use Rattle.tool_output.specs.Names.{file_name};
ghost use Rattle.elf_lint_findings.specs.tool_objects.Looks.{looks_over};
ghost use Rattle.elf_lint_findings.specs.tool_objects.Shows.{ShowsOver};
ghost use Rattle.elf_lint.specs.Rules.{lint_passes, lint_report};

use crate::rules::look_by_all_rules;
use elf_lint_findings::NoFindings;
use elf_lint_findings::prelude::{ObjectTool, show_object};
use elf_outside::{Sink, Source};
use std::alloc::Global;
use symbol_lookup::prelude::Elf;
use tool_output::{FileName, Outputs, Stop};

/// The tool of the command elflint.
#[derive(Clone, Copy)]
pub struct LintTool;

impl ObjectTool for LintTool {
    ghost command = { λ _. codes "elflint" };

    ghost report = { λ _. lint_report };

    ghost looks = { λ _. looks_over lint_passes };

    fn command(&self) -> &'static str {
        "elflint"
    }

    fn show<S: Source, O: Sink, E: Sink>(
        &self,
        elf: &mut Elf<S>,
        name: &FileName<'_>,
        outputs: &mut Outputs<'_, O, E>,
    ) -> Result<bool, Stop> {
        let found = look_by_all_rules(name, elf, outputs)?;
        if found {
            return Ok(true);
        }
        outputs.show(&NoFindings { name })
    }
}

/// Shows what the rules find in an object, as the command elflint does, on two outputs: a line for
/// each finding, or one that says that there are none. The lines name the object by `name`. It
/// returns whether something was found. It stops by `Read` where a read of the source failed, by
/// `Write` where a put failed, and by `Memory`. Each section is read once, whatever the number of
/// rules that look at it; where sections overlap, once more for each rule at most, and each is
/// freed after it.
///
/// Source: gABI chapters 4 and 5.
pub fn elflint<S: Source, O: Sink, E: Sink>(
    alloc: Global,
    elf: &mut Elf<S>,
    name: &[u8],
    out: &mut O,
    err: &mut E,
) -> Result<bool, Stop>
    ensures { ShowsOver S.Source O.Sink E.Sink lint_passes (lint_report (file_name name.now))
        result elf.old elf.new out.old out.new err.old err.new }
{
    show_object(alloc, &LintTool, elf, &FileName::of(name), out, err)
}
