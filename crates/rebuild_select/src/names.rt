//! Step 1: sections by their names.

ghost use Rattle.std.specs.Prelude.{◌≡◌, ◌<◌, ◌≤◌, ◌+◌, ◌++◌, ◌∷◌, ◌&&◌, not, ℕ, List, [], codes, length, map, true, IsTrue, OnOk, IfOk, IfErr};
ghost use Rattle.std.specs.Option.{option_copied};
ghost use Rattle.elf_types.specs.declared.errors.ElfError.TheVariants.{Memory};
ghost use Rattle.rebuild_model.specs.elf_object.Due.{all_sections};
ghost use Rattle.rebuild_model.specs.elf_object.Sections.{is_allocated, header_at};
ghost use Rattle.rebuild_model.specs.Removed as rules;
ghost use Rattle.rebuild_select.specs.Steps.{IsRemovable, AreMarksRemovable, goes, goes_by_name, may_go};
ghost use Rattle.rebuild_model.specs.elf_object.Words.{Answers};
ghost use Rattle.gelf_view.specs.elf_descriptor.Reads.{Queries, wanted};
ghost use Rattle.rebuild_select.specs.Calls.{ReadsNames, found_by_name, found_by};
ghost use Rattle.rebuild_select.specs.Sought.Names.{is_sought, AreUpTo};

use crate::headers::is_header_allocated;
use crate::sets::SectionSet;
use crate::sought::NameSet;
use crate::walks::may_go;
use elf_types::{ElfError, List, ScnId};
use gelf_view::prelude::Elf;
use gelf_view::section_name_front;
use rebuild_model::prelude::Source;
use std::alloc::Global;
use tool_text::{Args, Text};

/// The length of `.gdb_index`, the longest of the names and beginnings of names that tell a section
/// of debug data.
const LONGEST_DEBUG_NAME: usize = 10;

/// Whether a name is one of those that compilers give sections of debug data.
#[tactic(auto, unfolding(rebuild_model::specs::Removed::is_debug_name))]
fn is_debug_name(name: &[u8]) -> bool
    ensures { result ≡ rules.is_debug_name name.now }
{
    name.starts_with(b".debug")
        || name.starts_with(b".zdebug")
        || name.starts_with(b".stab")
        || name == b".line".as_slice()
        || name == b".gdb_index".as_slice()
}

/// Adds names to those that are looked for, of which there are none. It fails with `Memory` alone.
fn add_names<'a>(sought: &mut NameSet<'a>, names: &'a [Text]) -> Result<(), ElfError>
    requires { sought.old ≡ [] }
    ensures ok { OnOk result ((q : List ℕ) → is_sought sought.new q ≡ is_sought names.now q) }
    ensures err { IfErr result (λ e. e ≡ Memory) }
{
    for name in names {
        match sought.add(name.as_bytes()) {
            Ok(()) => {}
            Err(e) => return Err(e),
        }
    }
    Ok(())
}

/// The names that are looked for: each is found in as many steps as their number has digits. It
/// fails with `Memory` alone.
fn sought_of(alloc: Global, names: &Args) -> Result<NameSet<'_>, ElfError>
    ensures ok { IfOk result (λ sought. (q : List ℕ)
        → is_sought sought q ≡ is_sought names.now q) }
    ensures err { IfErr result (λ e. e ≡ Memory) }
{
    let mut sought = NameSet::new(alloc);
    match add_names(&mut sought, names.as_slice()) {
        Ok(()) => Ok(sought),
        Err(e) => Err(e),
    }
}

/// Whether a section that is there may be one of debug data: such a one has no `SHF_ALLOC`.
fn may_be_debug<S: Source>(elf: &Elf<S>, s: ScnId, debug_too: bool) -> bool
    requires { s.0 < length elf.now.o.sections }
    ensures { result ≡ (debug_too && not (is_allocated (header_at elf.now.o s.0))) }
{
    debug_too && !is_header_allocated(&elf.section_header(s))
}

/// Whether a name is one of these, or that of debug data where it may be; one that is none is
/// neither.
fn is_found_by(name: Option<&[u8]>, names: &NameSet<'_>, debug: bool) -> bool
    ensures { result ≡ found_by names.now debug (option_copied name.entry) }
{
    match name {
        Some(name) => names.has(name) || (debug && is_debug_name(name)),
        None => false,
    }
}

/// A length that none of these names passes, and nothing by which a name is that of debug data.
fn longest_of(names: &NameSet<'_>) -> usize
    ensures names { AreUpTo result names.now }
    ensures debug { length (codes ".gdb_index") ≤ result }
{
    names.longest().max(LONGEST_DEBUG_NAME)
}

/// Whether a section that is there is found by its name: that is one of these, or of debug data
/// where it may be. A longer name is none of them, and begins as its first bytes do, so that no
/// more of it is looked at.
fn is_found<S: Source>(
    elf: &mut Elf<S>,
    s: ScnId,
    names: &NameSet<'_>,
    debug: bool,
) -> Result<bool, ElfError>
    requires { s.0 < length elf.old.o.sections }
    ensures answer { Answers elf.old.told
        (wanted (found_by_name names.now debug s.0) elf.old) result
        ((found_by_name names.now debug s.0).answer elf.old.o) }
    ensures queries { Queries S.Source (found_by_name names.now debug s.0) [] result elf.old elf.new }
{
    let longest = longest_of(names);
    match section_name_front(elf, s, longest) {
        Ok(front) => Ok(is_found_by(front, names, debug)),
        Err(e) => Err(e),
    }
}

/// Whether a section that is there is found by its name, as one of these or, with `debug_too`, of
/// debug data.
fn is_found_too<S: Source>(
    elf: &mut Elf<S>,
    s: ScnId,
    names: &NameSet<'_>,
    debug_too: bool,
) -> Result<bool, ElfError>
    requires { s.0 < length elf.old.o.sections }
    ensures told { IsTrue elf.old.told
        → IfOk result (λ found. found ≡ goes_by_name debug_too names.now elf.old.o s.0) }
    ensures reads { ReadsNames S.Source result elf.old elf.new }
{
    let debug = may_be_debug(elf, s, debug_too);
    is_found(elf, s, names, debug)
}

/// Whether a section that is there goes: it may be removed, and is found by its name.
fn goes_by_name<S: Source>(
    elf: &mut Elf<S>,
    s: ScnId,
    names: &NameSet<'_>,
    debug_too: bool,
) -> Result<bool, ElfError>
    requires { s.0 < length elf.old.o.sections }
    ensures told { IsTrue elf.old.told → IfOk result (λ found. found
        ≡ goes elf.old.o (goes_by_name debug_too names.now elf.old.o) [] s.0) }
    ensures apart { IfOk result (λ found. found ≡ true → may_go elf.old.o s.0 ≡ true) }
    ensures reads { ReadsNames S.Source result elf.old elf.new }
{
    if may_go(elf, s) {
        return is_found_too(elf, s, names, debug_too);
    }
    Ok(false)
}

/// Appends a section's mark, whether it goes by its name, to those of the sections before it.
fn mark_by_name<S: Source>(
    elf: &mut Elf<S>,
    s: ScnId,
    names: &NameSet<'_>,
    debug_too: bool,
    marks: &mut List<bool>,
) -> Result<(), ElfError>
    requires { s.0 < length elf.old.o.sections }
    ensures told { IsTrue elf.old.told → OnOk result (marks.new ≡ marks.old
        ++ goes elf.old.o (goes_by_name debug_too names.now elf.old.o) [] s.0 ∷ []) }
    ensures apart { AreMarksRemovable elf.old.o marks.old s.0
        → OnOk result (AreMarksRemovable elf.old.o marks.new (s.0 + 1)) }
    ensures reads { ReadsNames S.Source result elf.old elf.new }
{
    match goes_by_name(elf, s, names, debug_too) {
        Ok(found) => marks.push(found),
        Err(e) => Err(e),
    }
}

/// Marks of the sections that go by their names.
fn fill_marks<S: Source>(
    elf: &mut Elf<S>,
    names: &NameSet<'_>,
    debug_too: bool,
    marks: &mut List<bool>,
) -> Result<(), ElfError>
    requires { marks.old ≡ [] }
    ensures told { IsTrue elf.old.told → OnOk result (marks.new ≡ map
        (goes elf.old.o (goes_by_name debug_too names.now elf.old.o) [])
        (all_sections elf.old.o)) }
    ensures apart { OnOk result (AreMarksRemovable elf.old.o marks.new
        (length elf.old.o.sections)) }
    ensures reads { ReadsNames S.Source result elf.old elf.new }
{
    for s in 0..elf.shnum() {
        match mark_by_name(elf, ScnId(s), names, debug_too, marks) {
            Ok(()) => {}
            Err(e) => return Err(e),
        }
    }
    Ok(())
}

/// The sections of these names, and those of debug data where they go too, that may be removed. It
/// fails with `Memory`, and `Read` where the names are not loaded. It reads the home of the names
/// at the first use, and marks nothing dirty.
///
/// Source: gABI chapter 4, "Section Header", sh_name.
pub fn with_named<S: Source>(
    alloc: Global,
    elf: &mut Elf<S>,
    names: &Args,
    debug_too: bool,
) -> Result<SectionSet, ElfError>
    ensures told { IsTrue elf.old.told → IfOk result (λ set. set ≡ rules.with_found elf.old.o
        (λ before. goes_by_name debug_too names.now elf.old.o) []) }
    ensures removable { IfOk result (IsRemovable elf.old.o) }
    ensures reads { ReadsNames S.Source result elf.old elf.new }
{
    let sought = match sought_of(alloc, names) {
        Ok(sought) => sought,
        Err(e) => return Err(e),
    };
    let mut marks = List::new(alloc);
    match fill_marks(elf, &sought, debug_too, &mut marks) {
        Ok(()) => Ok(SectionSet::from_marks(marks)),
        Err(e) => Err(e),
    }
}
