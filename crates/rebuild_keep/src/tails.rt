//! What a program's base reaches to.

ghost use Rattle.std.specs.Prelude.{◌≡◌, ◌<◌, ◌+◌, ◌*◌, length, map, max};
ghost use Rattle.rebuild_names.specs.elf_xlate.Headers.{phdr_size};
ghost use Rattle.rebuild_making.specs.elf_object.Object.{section_at};
ghost use Rattle.rebuild_making.specs.rebuild_model.Arranged.{segment_end, loaded_end};
ghost use Rattle.rebuild_making.specs.elf_object.Sections.{greatest};
ghost use Rattle.rebuild_making.specs.rebuild_model.Followed.{kept_sections};
ghost use Rattle.rebuild_making.specs.rebuild_model.Rebuilt.{rebuilt_tail};
ghost use Rattle.rebuild_keep.specs.Ends.{at_most_word, is_bare, home_end, kept_end};

use elf_types::constants::PT_NULL;
use elf_types::{Phdr, ScnId, Shdr};
use elf_update_plan::prelude::Elf;
use rebuild_making::prelude::Source;
use rebuild_names::prelude::{ehdr_size, phdr_size};
use rebuild_numbers::prelude::{SectionSet, is_header_allocated};

/// Whether a segment has no bytes in the file.
fn is_bare(p: &Phdr) -> bool
    ensures { result ≡ is_bare p.now }
{
    p.ptype == PT_NULL || p.filesz == 0
}

/// The end of a segment that has bytes in the file, and 2^64 - 1 where it is more.
fn segment_end(p: &Phdr) -> u64
    ensures { result ≡ at_most_word (segment_end p.now) }
{
    if is_bare(p) {
        return 0;
    }
    p.offset.saturating_add(p.filesz)
}

/// The end of a home with a header, where that is allocated and the home is not empty, and 2^64 - 1
/// where it is more.
fn home_end(h: &Shdr, at: u64, len: u64) -> u64
    ensures { result ≡ at_most_word (home_end h.now at len) }
{
    if is_header_allocated(h) && len != 0 {
        return at.saturating_add(len);
    }
    0
}

/// The end of the home of a section that is there, where that is allocated and not empty, and
/// 2^64 - 1 where it is more.
fn loaded_end<S: Source>(elf: &Elf<S>, s: ScnId) -> u64
    requires { s.0 < length elf.now.o.sections }
    ensures { result ≡ at_most_word (loaded_end (section_at elf.now.o s.0)) }
{
    match elf.home(s) {
        Ok((at, len)) => home_end(&elf.section_header(s), at, len),
        Err(_) => unreachable!(),
    }
}

/// The end of the home of a section, as `loaded_end` tells it, where the section is kept, and else
/// 0.
fn kept_end<S: Source>(elf: &Elf<S>, removed: &SectionSet, s: ScnId) -> u64
    requires { s.0 < length elf.now.o.sections }
    ensures { result ≡ at_most_word (kept_end elf.now.o removed.now s.0) }
{
    if removed.contains(s.0) {
        return 0;
    }
    loaded_end(elf, s)
}

/// The end of the program headers, and 2^64 - 1 where it is more.
fn table_end<S: Source>(elf: &Elf<S>) -> u64
    ensures { result ≡ at_most_word (elf.now.o.header.phoff
        + length elf.now.o.phdrs * phdr_size elf.now.o.header.class) }
{
    let header = elf.ehdr();
    let len = u64::from(elf.phnum()) * phdr_size(header.class) as u64;
    header.phoff.saturating_add(len)
}

/// What the segments reach to, and at least an end.
fn with_segments<S: Source>(elf: &Elf<S>, end: u64) -> u64
    ensures { result
        ≡ at_most_word (max end (greatest (map segment_end elf.now.o.phdrs))) }
{
    let mut reached = end;
    for i in 0..elf.phnum() {
        reached = reached.max(segment_end(&elf.phdr_at(i)));
    }
    reached
}

/// What the homes of the sections that are kept reach to, and at least an end.
fn with_homes<S: Source>(elf: &Elf<S>, removed: &SectionSet, end: u64) -> u64
    ensures { result ≡ at_most_word (max end (greatest (map loaded_end
        (map (section_at elf.now.o) (kept_sections elf.now.o removed.now))))) }
{
    let mut reached = end;
    for s in 0..elf.shnum() {
        reached = reached.max(kept_end(elf, removed, ScnId(s)));
    }
    reached
}

/// Where the base of a program without the removed sections ends, in bytes: at what its header, its
/// program headers, its segments and its loaded sections reach to, and at most at the image's end.
/// None of an object without program headers. It looks at each segment and each section once, reads
/// nothing and takes no memory.
///
/// Source: gABI chapter 5, "Program Header", p_offset and p_filesz.
pub fn tail_of<S: Source>(elf: &Elf<S>, removed: &SectionSet) -> Option<u64>
    ensures { result ≡ rebuilt_tail elf.now.o removed.now }
{
    if elf.phnum() == 0 {
        return None;
    }
    let front = (ehdr_size(elf.ehdr().class) as u64).max(table_end(elf));
    let end = with_homes(elf, removed, with_segments(elf, front));
    Some(end.min(elf.base_len()))
}
