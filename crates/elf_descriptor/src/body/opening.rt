//! The object that the front of an image begins.

ghost use Rattle.std.specs.Prelude.{◌≡◌, IfOk, IfErr};
ghost use Rattle.elf_types.specs.declared.errors.ElfError.TheVariants.{Memory};
ghost use Rattle.section_table.specs.elf_xlate.Headers.{HasNarrowCounts};
ghost use Rattle.section_table.specs.elf_ident.Reading.{IsCounted};
ghost use Rattle.section_table.specs.elf_object.Open.{standing_header};
ghost use Rattle.elf_descriptor.specs.Begun.{IsOpened, begun_body, standing_front};

use crate::body::{Base, Body, Written};
use elf_types::{Ehdr, ElfError, List, Phdrs};
use section_table::prelude::Front;
use section_table::{HeaderTable, Sections};
use std::alloc::Global;

/// The header with its counts and its string index as they are in the image.
#[tactic(auto, unfolding(section_table::specs::Passed::standing_header))]
fn as_written(front: &Front) -> Ehdr
    ensures value { result ≡ standing_header front.now }
    ensures narrow { HasNarrowCounts (standing_header front.now) }
{
    Ehdr {
        phnum: u32::from(front.written[0]),
        shnum: u32::from(front.written[1]),
        shstrndx: u32::from(front.written[2]),
        ..front.ehdr
    }
}

/// A front as it is in the image, and its section headers for the sections. It fails with `Memory`
/// alone.
fn standing(alloc: Global, front: Front) -> Result<(Written, HeaderTable), ElfError>
    ensures front { IfOk result (λ p. p.0 ≡ standing_front front) }
    ensures table { IfOk result (λ p. p.1 ≡ front.shdrs) }
    ensures narrow { HasNarrowCounts (standing_header front) }
    ensures err { IfErr result (λ e. e ≡ Memory) }
{
    let header = as_written(&front);
    let pad = front.pad;
    let phdrs = front.phdrs;
    let (shdrs, table) = HeaderTable::shared(alloc, front.shdrs)?;
    let written = Written {
        header,
        pad,
        phdrs,
        shdrs,
    };
    Ok((written, table))
}

/// The object with these parts over a source of `size` bytes; nothing of it is marked.
fn with_parts(header: Ehdr, written: Written, phdrs: Phdrs, sections: Sections, size: u64) -> Body
    ensures { result ≡ begun_body size header written phdrs sections }
{
    Body {
        header,
        pad: written.pad,
        phdrs,
        sections,
        base: Base::Source(size),
        written: Some(written),
        spare: None,
        layout: false,
        fill: 0,
        marked: false,
        header_marked: false,
        segments_marked: false,
        ready: false,
    }
}

impl Body {
    /// The object that a front begins over a source of `size` bytes: nothing is read of a section,
    /// and nothing is marked. The section headers are held once, by the front that is in the image
    /// and by the sections together. It fails with `Memory` alone.
    pub fn opened(alloc: Global, front: Front, size: u64) -> Result<Body, ElfError>
        requires { IsCounted front }
        ensures opened { IfOk result (IsOpened front size) }
        ensures err { IfErr result (λ e. e ≡ Memory) }
    {
        let header = front.ehdr;
        let (written, table) = standing(alloc, front)?;
        let phdrs = List::from_slice(alloc, written.phdrs.as_slice())?;
        let sections = Sections::opened(alloc, header.class, table, size)?;
        Ok(with_parts(header, written, phdrs, sections, size))
    }
}
