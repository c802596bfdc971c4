//! Edits of headers, flags and counts.

use super::told::changed;
use super::{Change, DescriptorStep};
use elf_descriptor::Elf;
use elf_outside::Source;
use elf_types::{Ehdr, ElfError, Phdr, ScnId};
use test_kit_rows::same;

/// Stores the header with another string index and entry point.
fn store_header<S: Source>(elf: &mut Elf<S>, shstrndx: u32, entry: u64) -> Result<(), ElfError> {
    let header = elf.ehdr();
    elf.update_ehdr(&Ehdr {
        shstrndx,
        entry,
        ..header
    })
}

/// Stores the first program header, with another offset, as one with a number.
fn store_segment<S: Source>(elf: &mut Elf<S>, i: u32, offset: u64) -> Result<(), ElfError> {
    let first = elf.phdr(0)?;
    elf.update_phdr(i, &Phdr { offset, ..first })
}

/// Stores an offset in the second of two program headers that are lent.
fn put_offset<S: Source>(elf: &mut Elf<S>, offset: u64) -> bool {
    match elf.phdrs_mut().get_mut(1) {
        Some(second) => {
            second.offset = offset;
            true
        }
        None => false,
    }
}

/// Whether so many sections are added.
fn are_added<S: Source>(rt: &HostRuntime, elf: &mut Elf<S>, count: u64) -> bool {
    for _ in 0..count {
        if elf.newscn().is_err() {
            return false;
        }
    }
    true
}

/// Stores the header of a section, with another number in a field, as that of another one.
fn store_section<S: Source>(
    elf: &mut Elf<S>,
    from: ScnId,
    to: ScnId,
    change: Change,
) -> Result<(), ElfError> {
    let header = elf.shdr(from)?;
    elf.update_shdr(to, &changed(header, change))
}

/// Whether a step that edits headers, flags or counts is answered so.
pub fn edit_step_holds<S: Source>(
    rt: &HostRuntime,
    elf: &mut Elf<S>,
    step: &DescriptorStep,
) -> bool {
    match step {
        DescriptorStep::Flag(part, set, bits, told) => same(
            rt,
            &elf.flag(*part, *set, *bits),
            told,
        ),
        DescriptorStep::SetFill(fill) => {
            elf.set_fill(*fill);
            true
        }
        DescriptorStep::StoreHeader(names, entry, told) => same(
            rt,
            &store_header(elf, *names, *entry),
            told,
        ),
        DescriptorStep::StoreSegment(i, offset, told) => same(
            rt,
            &store_segment(elf, *i, *offset),
            told,
        ),
        DescriptorStep::PutOffset(offset) => put_offset(elf, *offset),
        DescriptorStep::Newphdr(n, told) => same(rt, &elf.newphdr(*n), told),
        DescriptorStep::Newscn(told) => same(rt, &elf.newscn(), told),
        DescriptorStep::Sections(count) => are_added(rt, elf, *count),
        DescriptorStep::Newnull(told) => same(rt, &elf.newnull(), told),
        DescriptorStep::Put(s, header) => same(rt, &elf.update_shdr(ScnId(*s), header), &Ok(())),
        DescriptorStep::Store(from, to, change, told) => {
            same(
                rt,
                &store_section(elf, ScnId(*from), ScnId(*to), *change),
                told,
            )
        }
        _ => false,
    }
}
