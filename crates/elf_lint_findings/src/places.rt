//! Where a finding is.

ghost use Rattle.std.specs.Prelude.{◌≡◌, ◌++◌};
ghost use Rattle.elf_lint_findings.specs.Findings.{finding_place_text};

use elf_types::{ElfError, Octets, put_numbered, put_numbered_twice, put_text};
use tool_objects::prelude::Line;

/// The place of a finding.
#[derive(Clone, Copy)]
pub enum Place {
    /// The ELF header.
    Header,
    /// The file as a whole.
    File,
    /// The program header with that number.
    Segment(u32),
    /// The section with that number.
    Section(u32),
    /// An item of a section's data: the section's number, then the item's index.
    Item(u32, u64),
}

impl Line for Place {
    ghost text = { finding_place_text };

    #[tactic(auto, unfolding(crate::specs::Findings::finding_place_text))]
    fn put(&self, page: &mut Octets) -> Result<(), ElfError> {
        match *self {
            Place::Header => put_text(page, "header"),
            Place::File => put_text(page, "file"),
            Place::Segment(i) => put_numbered(page, "segment ", u64::from(i), ""),
            Place::Section(s) => put_numbered(page, "section ", u64::from(s), ""),
            Place::Item(s, i) => put_numbered_twice(page, "section ", u64::from(s), " item ", i),
        }
    }
}
