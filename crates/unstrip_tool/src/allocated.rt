//! A section that is removed and would be in neither half.

ghost use Rattle.std.specs.Prelude.{◌≡◌, ◌<◌, length, codes};
ghost use Rattle.rebuild_model.specs.Split.{removed_allocated};
ghost use Rattle.rebuild_files.specs.elfkit_outcomes.Strip.{allocated_text};
ghost use Rattle.rebuild_join.specs.rebuild_select.Steps.{IsRemovable};
ghost use Rattle.tool_output.specs.Names.{file_name};
ghost use Rattle.tool_output.specs.Reports.{Reports, refusal_report};
ghost use Rattle.tool_output.specs.Steps.{LeavesOutputs};
ghost use Rattle.unstrip_tool.specs.Allocated.{is_lost};

use elf_outside::{Sink, Source};
use elf_types::{ElfError, Octets, ScnId, put_numbered};
use rebuild_join::prelude::{Elf, SectionSet, is_header_allocated};
use tool_output::{FileName, Line, Message, Outputs, Stop};

/// Whether a section that is there is removed and allocated.
#[tactic(auto, unfolding(crate::specs::Allocated::is_lost))]
fn is_lost<S: Source>(elf: &Elf<S>, removed: &SectionSet, s: ScnId) -> bool
    requires { s.0 < length elf.now.o.sections }
    ensures { result ≡ is_lost elf.now.o removed.now s.0 }
{
    removed.contains(s.0) && is_header_allocated(&elf.section_header(s))
}

/// The first section that is removed and allocated, of those that may be removed. It looks at each
/// header once, and takes no memory.
pub(crate) fn first_allocated<S: Source>(elf: &Elf<S>, removed: &SectionSet) -> Option<u32>
    requires { IsRemovable elf.now.o removed.now }
    ensures { result ≡ removed_allocated elf.now.o removed.now }
{
    for s in 0..elf.shnum() {
        if is_lost(elf, removed, ScnId(s)) {
            return Some(s);
        }
    }
    None
}

/// `section S is allocated`.
#[derive(Clone, Copy)]
struct AllocatedSection {
    /// The section.
    section: u32,
}

impl Line for AllocatedSection {
    ghost text = { λ a. allocated_text a.section };

    fn put(&self, page: &mut Octets) -> Result<(), ElfError> {
        put_numbered(page, "section ", u64::from(self.section), " is allocated")
    }
}

/// Rejects a file of which a section is removed that is allocated.
pub(crate) fn refuse_allocated<O: Sink, E: Sink>(
    file: &[u8],
    section: u32,
    outputs: &mut Outputs<'_, O, E>,
) -> Result<bool, Stop>
    ensures reports { Reports O.Sink E.Sink result outputs.old outputs.new
        (refusal_report (codes "strip") (file_name file.now) (allocated_text section)) }
    ensures leaves { LeavesOutputs O.Sink E.Sink ⊥ result outputs.old outputs.new }
{
    outputs.refuse(&Message {
        command: "strip",
        name: &FileName::of(file),
        text: AllocatedSection { section },
    })
}
