//! The places of what was kept, and the plan of the new image.

ghost use Rattle.std.specs.Prelude.{◌≡◌, ◌≤◌, length};
ghost use Rattle.elf_types.specs.declared.constants.TheConstants.{MAX_SECTIONS};
ghost use Rattle.rebuild_plan.specs.Plans.{new_header, plan_of, IsListable, ArrangesContents, PlansCopied};

use crate::arranged::Arranged;
use crate::arranging::arrange_to;
use crate::contents::Contents;
use crate::plans::RangedPlan;
use crate::segments::list_segments;
use elf_outside::Source;
use elf_types::constants::EV_CURRENT;
use elf_types::{Ehdr, ElfError, List};
use rebuild_tables::prelude::{
    ByteRange, Elf, HeaderListing, PartRanges, SharedBytes, Streamed, stream_listed,
};
use std::alloc::Global;

/// The header of the new image: the stored fields of the old one, with a string index and so many
/// sections.
fn new_header<S: Source>(elf: &Elf<S>, index: u32, count: u32) -> Ehdr
    ensures { result ≡ new_header elf.now.o index count }
{
    let old = elf.ehdr();
    Ehdr {
        version: EV_CURRENT,
        ehsize: 0,
        phentsize: 0,
        shentsize: 0,
        shnum: count,
        shstrndx: index,
        ..old
    }
}

/// The plan of what was planned and held of listed headers, and of the ranges of the sections.
fn plan_of(held: SharedBytes, ranges: List<ByteRange>, kept: u64, streamed: Streamed) -> RangedPlan
    ensures { result ≡ plan_of held ranges kept streamed }
{
    let front = streamed.front;
    let planned = streamed.planned;
    RangedPlan {
        held,
        ranges: PartRanges {
            header: front.header,
            segments: front.segments,
            table: front.table,
            sections: ranges,
        },
        kept,
        plan: planned.parts,
        end: planned.places.end,
    }
}

/// The plan of an image of which the headers are listed, with the places of what follows the tail,
/// and the ranges of the sections.
fn plan_copied<S: Source>(
    alloc: Global,
    elf: &Elf<S>,
    x: HeaderListing,
    ranges: List<ByteRange>,
    held: SharedBytes,
    tail: Option<u64>,
) -> Result<RangedPlan, ElfError>
    requires few { length x.headers ≤ MAX_SECTIONS }
    requires sizes { length x.sizes ≡ length x.headers }
    ensures { PlansCopied elf.now.o.phdrs x ranges held tail result }
{
    let mut held = held;
    let phdrs = match list_segments(alloc, elf) {
        Ok(phdrs) => phdrs,
        Err(e) => return Err(e),
    };
    let layout = tail.is_some();
    let kept = tail.unwrap_or(0);
    match stream_listed(alloc, x, [0; 7], phdrs.as_slice(), layout, kept, &mut held) {
        Ok(streamed) => Ok(plan_of(held, ranges, kept, streamed)),
        Err(e) => Err(e),
    }
}

/// What was kept, with a string index, over a base up to a tail: what follows that has its place,
/// and the header that of an object and these sections. It fails with `TooLarge` exactly where one
/// of these places is above the limit of the class, and `Memory`. It reads nothing.
///
/// Source: gABI chapter 4, "ELF Header" and "Section Header".
pub fn arrange_contents<S: Source>(
    alloc: Global,
    elf: &Elf<S>,
    contents: Contents,
    index: u32,
    tail: Option<u64>,
) -> Result<Arranged, ElfError>
    requires few { length contents.headers ≤ MAX_SECTIONS }
    requires sizes { length contents.sizes ≡ length contents.headers }
    ensures { ArrangesContents elf.now.o index contents tail result }
{
    let count = contents.headers.len() as u32;
    let x = HeaderListing {
        header: new_header(elf, index, count),
        headers: contents.headers,
        sizes: contents.sizes,
    };
    match arrange_to(alloc, x, tail) {
        Ok(listed) => Ok(Arranged {
            listed,
            ranges: contents.ranges,
            kinds: contents.kinds,
            held: contents.held,
            tail,
        }),
        Err(e) => Err(e),
    }
}

/// The plan of the image of what was arranged, with the program headers of an object: where each
/// part is, and where its bytes are. It fails as an update of the object that is made does:
/// `Overlap`, `TooLarge`; and `Memory`. It reads nothing.
///
/// Source: gABI chapter 4, "ELF Header" and "Section Header"; elf_update of elf(3E).
pub fn plan_arranged<S: Source>(
    alloc: Global,
    elf: &Elf<S>,
    x: Arranged,
) -> Result<RangedPlan, ElfError>
    requires { IsListable x }
    ensures { PlansCopied elf.now.o.phdrs x.listed x.ranges x.held x.tail result }
{
    plan_copied(alloc, elf, x.listed, x.ranges, x.held, x.tail)
}
