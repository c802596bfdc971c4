//! Sets of sections.

ghost use Rattle.std.specs.Prelude.{◌≡◌, []};
ghost use Rattle.rebuild_model.specs.elf_object.Sections.{is_among};

use elf_types::List;
use std::alloc::Global;
use std::marker::Model;

/// A set of sections of an object, which contracts see as the list of their numbers, ascending. It
/// keeps a mark for each section.
#[derive(Drop)]
pub struct SectionSet {
    marks: List<bool>,
}

impl Model for SectionSet {
    ghost use Rattle.std.specs.Prelude.{List as Seq, ℕ};
    ghost use Rattle.rebuild_select.specs.Sets.{marked_numbers};

    ghost Value = { Seq ℕ };

    ghost view = { λ s. marked_numbers s.marks };
}

impl SectionSet {
    ghost use Rattle.rebuild_select.specs.Sets.{marked_numbers};

    /// No section. It takes no memory.
    #[tactic(auto, unfolding(crate::specs::Sets::marked_numbers))]
    pub fn none(alloc: Global) -> SectionSet
        ensures { result ≡ [] }
    {
        SectionSet {
            marks: List::new(alloc),
        }
    }

    /// The sections that are marked. It takes no memory.
    pub(crate) fn from_marks(marks: List<bool>) -> SectionSet
        ensures { result ≡ marked_numbers marks }
    {
        SectionSet { marks }
    }

    /// Whether the section with a number is one of them. It takes no memory.
    #[tactic(auto, using(crate::proofs::SetLaws::among_numbers))]
    pub fn contains(&self, s: u32) -> bool
        ensures { result ≡ is_among self.now s }
    {
        self.marks.get(u64::from(s)).unwrap_or(false)
    }
}
