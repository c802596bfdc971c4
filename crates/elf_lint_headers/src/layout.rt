//! The rule 20: parts of the file that overlap. Nothing is read.

ghost use Rattle.std.specs.Prelude.{◌≡◌, ◌<◌, ◌++◌, true, length, map, IfOk, IfErr, OnOk};
ghost use Rattle.elf_types.specs.declared.errors.ElfError.TheVariants.{Memory};
ghost use Rattle.elf_layout.specs.Meeting.{overlap_of};
ghost use Rattle.tool_objects.specs.elf_object.Layout as stated;
ghost use Rattle.tool_objects.specs.elf_object.Object.{section_at};
ghost use Rattle.elf_lint_headers.specs.Layout as rule;
ghost use Rattle.elf_lint_findings.specs.Steps.{FindsElf};

use elf_layout::{PartAt, Parts, overlap};
use elf_lint_findings::{Place, find};
use elf_outside::{Sink, Source};
use elf_types::{Class, ElfError, Octets, Part, ScnId, put_part, put_text};
use elf_xlate::{ehdr_size, phdr_size, shdr_size};
use std::alloc::Global;
use tool_objects::prelude::{Elf, is_out};
use tool_output::{FileName, Line, Outputs, Stop};

/// `PART and PART overlap`.
#[derive(Clone, Copy)]
struct Overlapping {
    /// The first part.
    a: Part,
    /// The part that meets it.
    b: Part,
}

impl Line for Overlapping {
    ghost text = { λ t. rule.overlapping_text t.a t.b };

    #[tactic(auto, using(elf_types::proofs::Writers::kept), unfolding(crate::specs::Layout::overlapping_text))]
    fn put(&self, page: &mut Octets) -> Result<(), ElfError> {
        put_part(page, self.a)?;
        put_text(page, " and ")?;
        put_part(page, self.b)?;
        put_text(page, " overlap")
    }
}

/// A part of the front: the ELF header or one of the two tables.
fn front_part(part: Part, at: u64, len: u64, align: u64) -> PartAt
    ensures { result ≡ record { part = part; at = at; len = len; align = align; filled = true } }
{
    PartAt {
        part,
        at,
        len,
        align,
        filled: true,
    }
}

/// The ELF header as a part.
#[tactic(auto, unfolding(tool_objects::specs::AtHand::Passed::header_of))]
fn header_part<S: Source>(elf: &Elf<S>) -> PartAt
    ensures { result ≡ stated.header_part elf.now.o }
{
    front_part(Part::Header, 0, ehdr_size(elf.ehdr().class) as u64, 1)
}

/// The program header table as a part.
#[tactic(auto, unfolding(tool_objects::specs::AtHand::Passed::header_of))]
fn segments_part<S: Source>(elf: &Elf<S>) -> PartAt
    ensures { result ≡ stated.segments_part elf.now.o }
{
    let header = elf.ehdr();
    let len = u64::from(elf.phnum()) * phdr_size(header.class) as u64;
    front_part(Part::Segments, header.phoff, len, 1)
}

/// The section header table as a part.
#[tactic(auto, unfolding(tool_objects::specs::AtHand::Passed::header_of))]
fn table_part<S: Source>(elf: &Elf<S>) -> PartAt
    ensures { result ≡ stated.table_part elf.now.o }
{
    let header = elf.ehdr();
    let len = u64::from(elf.shnum()) * shdr_size(header.class) as u64;
    let align = match header.class {
        Class::C32 => 4,
        Class::C64 => 8,
    };
    front_part(Part::Table, header.shoff, len, align)
}

/// The place and the length of the home of a section that is there.
#[tactic(auto, unfolding(tool_objects::specs::AtHand::Passed::home_answer))]
fn home<S: Source>(elf: &Elf<S>, s: ScnId) -> (u64, u64)
    requires { s.0 < length elf.now.o.sections }
    ensures at { result.0 ≡ (section_at elf.now.o s.0).home.at }
    ensures len { result.1 ≡ (section_at elf.now.o s.0).home.len }
{
    match elf.home(s) {
        Ok(home) => home,
        Err(_) => unreachable!(),
    }
}

/// A section that is there as a part, where its home is; one that is out of the file is empty.
#[tactic(auto, unfolding(crate::specs::Layout::home_part))]
fn home_part<S: Source>(elf: &Elf<S>, s: ScnId) -> PartAt
    requires { s.0 < length elf.now.o.sections }
    ensures { result ≡ rule.home_part elf.now.o s.0 }
{
    let (at, len) = home(elf, s);
    let len = if is_out(elf, s) { 0 } else { len };
    front_part(Part::Section(s.0), at, len, 1)
}

/// Appends the sections from 1 on. It fails with `Memory` alone.
fn push_homes<S: Source>(elf: &Elf<S>, parts: &mut Parts) -> Result<(), ElfError>
    ensures ok { OnOk result (parts.new
        ≡ parts.old ++ map (rule.home_part elf.now.o) (stated.section_numbers elf.now.o)) }
    ensures err { IfErr result (λ e. e ≡ Memory) }
{
    for s in 1..elf.shnum() {
        parts.push(home_part(elf, ScnId(s)))?;
    }
    Ok(())
}

/// The parts of an object where its image has them. It fails with `Memory` alone.
#[tactic(auto, unfolding(crate::specs::Layout::standing_parts))]
fn standing_parts<S: Source>(alloc: Global, elf: &Elf<S>) -> Result<Parts, ElfError>
    ensures ok { IfOk result (λ parts. parts ≡ rule.standing_parts elf.now.o) }
    ensures err { IfErr result (λ e. e ≡ Memory) }
{
    let mut parts = Parts::with_capacity(alloc, u64::from(elf.shnum()) + 3)?;
    parts.push(header_part(elf))?;
    parts.push(segments_part(elf))?;
    push_homes(elf, &mut parts)?;
    parts.push(table_part(elf))?;
    Ok(parts)
}

/// The first part that a later one meets, and the one next after it, by position. It fails with
/// `Memory` alone.
fn first_overlap<S: Source>(elf: &Elf<S>) -> Result<Option<(Part, Part)>, ElfError>
    ensures ok { IfOk result (λ pair. pair ≡ overlap_of (rule.standing_parts elf.now.o)) }
    ensures err { IfErr result (λ e. e ≡ Memory) }
{
    let alloc = elf.alloc();
    let parts = standing_parts(alloc, elf)?;
    overlap(alloc, parts.as_slice())
}

/// Rule 20, at the file: two parts share a byte. Sections out of the file are left out, and the
/// pair is the one that an update rejects. It takes a list of the parts, once.
///
/// Source: gABI chapter 4, "Sections" and "ELF Header".
#[tactic(auto, unfolding(crate::specs::Layout::overlapping_parts, elf_lint_findings::specs::Findings::findings_shown))]
pub fn overlapping_parts<S: Source, O: Sink, E: Sink>(
    name: &FileName<'_>,
    elf: &mut Elf<S>,
    outputs: &mut Outputs<'_, O, E>,
) -> Result<bool, Stop>
    ensures { FindsElf S.Source O.Sink E.Sink rule.overlapping_parts name.now
        result elf.old elf.new outputs.old outputs.new }
{
    match first_overlap(elf) {
        Ok(Some((a, b))) => find(name, 20, Place::File, Overlapping { a, b }, outputs),
        Ok(None) => Ok(false),
        Err(e) => Err(Stop::want_of(e)),
    }
}
