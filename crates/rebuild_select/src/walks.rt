//! The walk of a step over the sections of an object.

ghost use Rattle.std.specs.Prelude.{◌≡◌, ◌<◌, length, map, OnOk, IfOk, IfErr, Ok, []};
ghost use Rattle.elf_types.specs.declared.errors.ElfError.TheVariants.{Memory};
ghost use Rattle.rebuild_model.specs.elf_object.Calls as calls;
ghost use Rattle.rebuild_model.specs.elf_object.Due.{all_sections};
ghost use Rattle.rebuild_model.specs.Removed.{with_found};
ghost use Rattle.rebuild_select.specs.Steps.{may_go, goes};

use crate::sets::SectionSet;
use elf_types::{ElfError, List, ScnId};
use gelf_view::prelude::Elf;
use rebuild_model::prelude::Source;
use std::alloc::Global;

/// A test of a section by its header.
///
/// - `passes` tells which sections of an object pass.
pub trait SectionTest {
    ghost use Rattle.std.specs.Prelude.{ℕ, Bool};
    ghost use Rattle.rebuild_model.specs.elf_object.Object.{Object};

    ghost passes: { Self → Object → ℕ → Bool };

    /// Whether a section that is there passes. It takes no memory.
    fn passes<S: Source>(&self, elf: &Elf<S>, s: ScnId) -> bool
        requires { s.0 < length elf.now.o.sections }
        ensures { result ≡ passes self.now elf.now.o s.0 };
}

/// Whether a section may be removed: it is neither section 0 nor the section of the names.
#[tactic(auto, unfolding(crate::specs::Steps::may_go))]
pub fn may_go<S: Source>(elf: &Elf<S>, s: ScnId) -> bool
    ensures { result ≡ may_go elf.now.o s.0 }
{
    s.0 != 0 && s.0 != elf.shstrndx()
}

/// Whether a step removes a section that is there: it was removed, or the step finds it.
#[tactic(auto, unfolding(crate::specs::Steps::goes))]
fn goes<T: SectionTest, S: Source>(step: &T, elf: &Elf<S>, removed: &SectionSet, s: ScnId) -> bool
    requires { s.0 < length elf.now.o.sections }
    ensures { result ≡ goes elf.now.o (T.passes step.now elf.now.o) removed.now s.0 }
{
    may_go(elf, s) && (removed.contains(s.0) || step.passes(elf, s))
}

/// Marks of the sections that a step removes. It fails with `Memory` alone.
fn fill_marks<T: SectionTest, S: Source>(
    step: &T,
    elf: &Elf<S>,
    removed: &SectionSet,
    marks: &mut List<bool>,
) -> Result<(), ElfError>
    requires { marks.old ≡ [] }
    ensures ok { OnOk result (marks.new
        ≡ map (goes elf.now.o (T.passes step.now elf.now.o) removed.now) (all_sections elf.now.o)) }
    ensures err { IfErr result (λ e. e ≡ Memory) }
{
    for s in 0..elf.shnum() {
        marks.push(goes(step, elf, removed, ScnId(s)))?;
    }
    Ok(())
}

/// What was removed, and what a step finds besides among the sections that may be removed. It fails
/// with `Memory` alone.
pub fn with_found<T: SectionTest, S: Source>(
    alloc: Global,
    step: &T,
    elf: &Elf<S>,
    removed: &SectionSet,
) -> Result<SectionSet, ElfError>
    ensures ok { IfOk result (λ set. set
        ≡ with_found elf.now.o (λ before. T.passes step.now elf.now.o) removed.now) }
    ensures err { IfErr result (λ e. e ≡ Memory) }
{
    let mut marks = List::new(alloc);
    match fill_marks(step, elf, removed, &mut marks) {
        Ok(()) => Ok(SectionSet::from_marks(marks)),
        Err(e) => Err(e),
    }
}
