//! The rules 1, 2 and 26: the ELF header and the program headers. Nothing is read.

ghost use Rattle.std.specs.Prelude.{◌≡◌};
ghost use Rattle.elf_lint_headers.specs.Headers as rule;
ghost use Rattle.elf_lint_findings.specs.Steps.{FindsElf};

use elf_lint_findings::{Place, SegmentRule, each_segment, find_if};
use elf_outside::{Sink, Source};
use elf_types::Phdr;
use elf_types::constants::PT_LOAD;
use elf_xlate::ehdr_size;
use tool_objects::prelude::Elf;
use tool_output::{FileName, Outputs, Stop};

/// Whether `e_ehsize` is not the size of the class's header.
#[tactic(auto, unfolding(tool_objects::specs::AtHand::Passed::header_of))]
fn has_wrong_size<S: Source>(elf: &Elf<S>) -> bool
    ensures { result ≡ rule.has_wrong_size elf.now.o }
{
    let header = elf.ehdr();
    usize::from(header.ehsize) != ehdr_size(header.class)
}

/// Rule 1, at the ELF header: `e_ehsize` is not the size of the class's header.
///
/// Source: gABI chapter 4, "ELF Header", e_ehsize.
pub fn wrong_header_size<S: Source, O: Sink, E: Sink>(
    name: &FileName<'_>,
    elf: &mut Elf<S>,
    outputs: &mut Outputs<'_, O, E>,
) -> Result<bool, Stop>
    ensures { FindsElf S.Source O.Sink E.Sink rule.wrong_header_size name.now
        result elf.old elf.new outputs.old outputs.new }
{
    let wrong = has_wrong_size(elf);
    find_if(wrong, name, 1, Place::Header, "wrong header size", outputs)
}

/// Bytes past the end of the file.
#[derive(Clone, Copy)]
struct OutsideTheFile;

impl SegmentRule for OutsideTheFile {
    ghost finds = { rule.ends_outside };

    #[tactic(auto, unfolding(crate::specs::Headers::ends_outside))]
    fn finds<S: Source>(&self, elf: &Elf<S>, p: &Phdr) -> bool {
        // The distance never overflows, where an end may lie past 2^64.
        let left = elf.base_len().saturating_sub(p.offset);
        p.filesz > 0 && p.filesz > left
    }
}

/// Rule 2, at each program header: the segment has bytes in the file, and they pass its end.
///
/// Source: gABI chapter 5, "Program Header", p_offset and p_filesz.
#[tactic(auto, unfolding(crate::specs::Headers::segments_outside_the_file))]
pub fn segments_outside_the_file<S: Source, O: Sink, E: Sink>(
    name: &FileName<'_>,
    elf: &mut Elf<S>,
    outputs: &mut Outputs<'_, O, E>,
) -> Result<bool, Stop>
    ensures { FindsElf S.Source O.Sink E.Sink rule.segments_outside_the_file name.now
        result elf.old elf.new outputs.old outputs.new }
{
    each_segment(&OutsideTheFile, 2, "outside the file", name, elf, outputs)
}

/// Segments that have more bytes in the file than in memory.
#[derive(Clone, Copy)]
struct LargerThanMemory;

impl SegmentRule for LargerThanMemory {
    ghost finds = { rule.is_larger_in_file };

    #[tactic(auto, unfolding(crate::specs::Headers::is_larger_in_file))]
    fn finds<S: Source>(&self, _elf: &Elf<S>, p: &Phdr) -> bool {
        p.ptype == PT_LOAD && p.filesz > p.memsz
    }
}

/// Rule 26, at each loadable segment: it has more bytes in the file than in memory.
///
/// Source: gABI chapter 5, "Program Header", PT_LOAD.
#[tactic(auto, unfolding(crate::specs::Headers::segments_larger_than_memory))]
pub fn segments_larger_than_memory<S: Source, O: Sink, E: Sink>(
    name: &FileName<'_>,
    elf: &mut Elf<S>,
    outputs: &mut Outputs<'_, O, E>,
) -> Result<bool, Stop>
    ensures { FindsElf S.Source O.Sink E.Sink rule.segments_larger_than_memory name.now
        result elf.old elf.new outputs.old outputs.new }
{
    each_segment(
        &LargerThanMemory,
        26,
        "file size is greater than memory size",
        name,
        elf,
        outputs,
    )
}
