//! Which sections are linked to.

ghost use Rattle.std.specs.Prelude.{◌≡◌, ◌<◌, ◌==◌, ◌&&◌, not, length, IfOk, IfErr};
ghost use Rattle.elf_types.specs.declared.errors.ElfError.TheVariants.{Memory};
ghost use Rattle.rebuild_select.specs.Steps.{linked_by};
ghost use Rattle.rebuild_select.specs.Marking.{with_section_marked, no_marks, AreLinked};

use crate::sets::SectionSet;
use crate::walks::SectionTest;
use elf_types::{ElfError, List, ScnId};
use gelf_view::prelude::Elf;
use rebuild_model::prelude::Source;
use std::alloc::Global;

/// Marks a section, where there is a mark for it.
#[tactic(auto, unfolding(crate::specs::Marking::with_section_marked))]
fn mark(marks: &mut List<bool>, s: u32)
    ensures { marks.new ≡ with_section_marked marks.old s }
{
    if u64::from(s) < marks.len() {
        marks.as_mut_slice()[s as usize] = true;
    }
}

/// As many marks as there are sections, none of which is set. It fails with `Memory` alone.
fn no_marks(alloc: Global, count: u32) -> Result<List<bool>, ElfError>
    ensures ok { IfOk result (λ marks. marks ≡ no_marks count) }
    ensures err { IfErr result (λ e. e ≡ Memory) }
{
    let marks = vec![in alloc; false; count as usize]?;
    Ok(List::from_vec(marks))
}

/// Whether a section that is there counts: it is not section 0, and passes a test.
fn counts<T: SectionTest, S: Source>(test: &T, elf: &Elf<S>, s: ScnId) -> bool
    requires { s.0 < length elf.now.o.sections }
    ensures { result ≡ (not (s.0 == 0) && T.passes test.now elf.now.o s.0) }
{
    s.0 != 0 && test.passes(elf, s)
}

/// Marks each section to which one links that passes a test.
fn mark_linked<T: SectionTest, S: Source>(test: &T, elf: &Elf<S>, marks: &mut List<bool>)
    requires { marks.old ≡ no_marks (length elf.now.o.sections) }
    ensures { AreLinked elf.now.o (T.passes test.now elf.now.o) marks.new
        (length elf.now.o.sections) }
{
    for s in 0..elf.shnum() {
        if counts(test, elf, ScnId(s)) {
            mark(marks, elf.section_header(ScnId(s)).link);
        }
    }
}

/// The sections to which a section from 1 on links that passes a test. It looks at each section
/// once. It fails with `Memory` alone and reads nothing.
pub fn linked_by<T: SectionTest, S: Source>(
    alloc: Global,
    test: &T,
    elf: &Elf<S>,
) -> Result<SectionSet, ElfError>
    ensures ok { IfOk result (λ set. set ≡ linked_by elf.now.o (T.passes test.now elf.now.o)) }
    ensures err { IfErr result (λ e. e ≡ Memory) }
{
    match no_marks(alloc, elf.shnum()) {
        Ok(mut marks) => {
            mark_linked(test, elf, &mut marks);
            Ok(SectionSet::from_marks(marks))
        }
        Err(e) => Err(e),
    }
}
