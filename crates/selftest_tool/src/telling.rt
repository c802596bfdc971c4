//! What is told of an image that a file holds.

ghost use Rattle.std.specs.Prelude.{◌≡◌, ◌≤◌, ◌+◌, length, codes, None};
ghost use Rattle.elf_types.specs.declared.records.Kind.TheVariants as kinds;
ghost use Rattle.elf_object.specs.Answers.{lend_refusal};
ghost use Rattle.rebuild_model.specs.Generated.{numbered_name};
ghost use Rattle.tool_output.specs.Reports.{shown_report};
ghost use Rattle.elfkit_outcomes.specs.tool_objects.Looks.{looks_over};
ghost use Rattle.elfkit_outcomes.specs.tool_objects.Steps.{Learns, ReportsElf};
ghost use Rattle.selftest_tool.specs.Told.{value_sum, symbols_told, first_named, lines_text, told_report, told_outcome};

use crate::lines::FiveLines;
use crate::values::sum_values;
use elf_calls_generate::numbered_name;
use elf_calls_generate::prelude::Elf;
use elf_outside::{Files, Sink, Source};
use elf_types::{DataId, ScnId, Sym};
use elfkit_outcomes::prelude::{ObjectTool, stop_for};
use std::alloc::Global;
use symbol_lookup::find_linear;
use symbol_lookup::prelude::item_count;
use tool_files::FileEdit;
use tool_output::{FileName, Message, Outputs, Stop};

/// The first symbol with a name, among those of section `n + 1`, which are there. It stops by
/// `Read` where a read of the source failed, and by `Memory`.
fn find_first<S: Source>(elf: &mut Elf<S>, n: u32, name: &[u8]) -> Result<Option<u64>, Stop>
    requires small { n ≤ 65535 }
    requires passed { lend_refusal elf.old.o kinds.Sym (n + 1) 0 ≡ None }
    ensures { Learns S.Source (λ o. first_named n name.now o) result elf.old elf.new }
{
    match find_linear(elf, ScnId(n + 1), name) {
        Ok(found) => Ok(found),
        Err(e) => Err(stop_for(e)),
    }
}

/// The lines of an image, by what was learned of its symbols.
fn lines_of<S: Source>(elf: &Elf<S>, symbols: u64, sum: u128, found: Option<u64>) -> FiveLines
    ensures sections { result.sections ≡ length elf.now.o.sections }
    ensures bytes { result.bytes ≡ length elf.now.o.base }
    ensures learned { (result.symbols ≡ symbols) × (result.sum ≡ sum) × (result.found ≡ found) }
{
    FiveLines {
        sections: elf.shnum(),
        symbols,
        bytes: elf.base_len(),
        sum,
        found,
    }
}

/// Shows the lines of an image whose symbols, of which there are so many, are in section `n + 1`.
fn show_lines<S: Source, O: Sink, E: Sink>(
    elf: &mut Elf<S>,
    n: u32,
    last: &[u8],
    symbols: u64,
    outputs: &mut Outputs<'_, O, E>,
) -> Result<bool, Stop>
    requires small { n ≤ 65535 }
    requires passed { lend_refusal elf.old.o kinds.Sym (n + 1) 0 ≡ None }
    requires count { symbols ≡ length (symbols_told n elf.old.o) }
    ensures { ReportsElf S.Source O.Sink E.Sink
        (λ o. shown_report (lines_text (length o.sections) symbols (length o.base)
        (value_sum (symbols_told n o)) (first_named n last.now o)))
        result elf.old elf.new outputs.old outputs.new }
{
    let found = find_first(elf, n, last)?;
    let d = DataId {
        section: n + 1,
        piece: 0,
    };
    let sum = sum_values(elf, d, symbols)?;
    let lines = lines_of(elf, symbols, sum, found);
    outputs.show(&lines)
}

/// Tells of an image by its five lines, or gives the message that its symbols are rejected.
fn show_told<S: Source, O: Sink, E: Sink>(
    elf: &mut Elf<S>,
    n: u32,
    last: &[u8],
    name: &FileName<'_>,
    outputs: &mut Outputs<'_, O, E>,
) -> Result<bool, Stop>
    requires small { n ≤ 65535 }
    requires last { last.now ≡ numbered_name (codes "y") n }
    ensures { ReportsElf S.Source O.Sink E.Sink (told_report n name.now)
        result elf.old elf.new outputs.old outputs.new }
{
    let d = DataId {
        section: n + 1,
        piece: 0,
    };
    match item_count::<S, Sym>(elf, d) {
        Ok(symbols) => show_lines(elf, n, last, symbols, outputs),
        Err(e) => outputs.refuse(&Message {
            command: "selftest",
            name,
            text: e,
        }),
    }
}

/// What is told of the image of a self test with so many sections, each with a symbol.
#[derive(Clone, Copy)]
pub(crate) struct Told {
    /// How many.
    pub(crate) count: u16,
}

/// Of an object the five lines, or the message that its symbols are rejected. The last of them is
/// looked up by its name.
impl ObjectTool for Told {
    ghost command = { λ _. codes "selftest" };

    ghost report = { λ t name o. told_report t.count name o };

    ghost looks = { λ _. looks_over 0 };

    fn command(&self) -> &'static str {
        "selftest"
    }

    fn show<S: Source, O: Sink, E: Sink>(
        &self,
        elf: &mut Elf<S>,
        name: &FileName<'_>,
        outputs: &mut Outputs<'_, O, E>,
    ) -> Result<bool, Stop> {
        match numbered_name(elf.alloc(), "y", u32::from(self.count)) {
            Ok(last) => show_told(elf, u32::from(self.count), last.as_slice(), name, outputs),
            Err(e) => Err(Stop::want_of(e)),
        }
    }
}

/// Of a file what is told of the object that it holds, or the message that it holds none. No file
/// is made of it.
impl FileEdit for Told {
    ghost command = { λ _. codes "selftest" };

    ghost outcome = { λ t file bytes. told_outcome t.count file bytes };

    fn command(&self) -> &'static str {
        "selftest"
    }

    fn edit<S: Source, F: Files, O: Sink, E: Sink>(
        &self,
        alloc: Global,
        src: S,
        name: &[u8],
        _files: &mut F,
        outputs: &mut Outputs<'_, O, E>,
    ) -> (S, Result<bool, Stop>) {
        self.show_source(alloc, src, &FileName::of(name), outputs)
    }
}
