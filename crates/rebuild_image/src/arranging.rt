//! Listed headers with the places of what follows the base of a program.

ghost use Rattle.std.specs.Prelude.{◌≡◌, ◌<◌, ◌⊎◌, length, IfOk, IfErr};
ghost use Rattle.elf_types.specs.declared.errors.ElfError.TheVariants.{Memory, TooLarge};
ghost use Rattle.elf_layout.specs.Layout.{limit_of};
ghost use Rattle.rebuild_model.specs.elf_object.Object.{Object};
ghost use Rattle.rebuild_model.specs.elf_object.Layout as stated;
ghost use Rattle.rebuild_image.specs.Listed.Listing.{IsHeaderListing};
ghost use Rattle.rebuild_image.specs.Arranging.{ArePlacedBehind, IsAbove, IsArrangedBehind, IsRefusedBehind};

use crate::listed::HeaderListing;
use crate::places::place_behind;
use elf_layout::rounded_within;
use elf_types::{Class, Ehdr, ElfError, Shdrs};
use std::alloc::Global;

/// The greatest place of a class.
#[tactic(auto, unfolding(elf_layout::specs::Layout::limit_of))]
fn greatest_place(class: Class) -> u64
    ensures { result ≡ limit_of class }
{
    match class {
        Class::C32 => u32::MAX as u64,
        Class::C64 => 1 << 40,
    }
}

/// The alignment of the section header table.
fn table_alignment(class: Class) -> u64
    ensures { result ≡ stated.table_alignment class }
{
    match class {
        Class::C32 => 4,
        Class::C64 => 8,
    }
}

/// The headers of sections, and an end.
#[derive(Drop)]
struct Behind {
    /// The headers, by number from 0 on.
    headers: Shdrs,
    /// The end after those that were placed.
    end: u64,
}

/// The headers of the sections, of which those that must be placed follow a tail. It fails with
/// `TooLarge` where a place or an end is above the limit, and `Memory`.
fn place_sections(
    alloc: Global,
    x: &HeaderListing,
    tail: u64,
    limit: u64,
) -> Result<Behind, ElfError>
    requires some { 0 < length x.now.headers }
    requires sizes { length x.now.sizes ≡ length x.now.headers }
    ensures ok { IfOk result (λ behind. (o : Object) → IsHeaderListing o x.now
        → limit ≡ limit_of o.header.class
        → ArePlacedBehind o tail limit (length o.sections) behind.headers behind.end) }
    ensures count { IfOk result (λ behind. length behind.headers ≡ length x.now.headers) }
    ensures err { IfErr result (λ e. (e ≡ Memory) ⊎ IsAbove x.now tail limit e) }
{
    let listed = x.headers.as_slice();
    let sizes = x.sizes.as_slice();
    let mut headers = Shdrs::with_capacity(alloc, x.headers.len())?;
    headers.push(listed[0])?;
    let mut end = tail;
    for s in 1..listed.len() {
        match place_behind(&listed[s], sizes[s], end, limit) {
            Some((h, after)) => {
                headers.push(h)?;
                end = after;
            }
            None => return Err(ElfError::TooLarge),
        }
    }
    Ok(Behind { headers, end })
}

/// Gives the sections of a program that are not loaded, and then the section header table, their
/// places in its listed headers: one after the other, each at a multiple of its alignment, from the
/// tail on. `SHT_NULL` and allocated sections keep theirs. There are sections. It fails with
/// `TooLarge` exactly where one of these places is above 2^40 (class 64) or 2^32 - 1 (class 32),
/// and `Memory`. It looks at each section once.
///
/// Source: gABI chapter 4, "Section Header", sh_offset and sh_addralign.
pub fn arrange_listed(alloc: Global, x: HeaderListing, tail: u64) -> Result<HeaderListing, ElfError>
    requires some { 0 < length x.headers }
    requires sizes { length x.sizes ≡ length x.headers }
    ensures ok { IfOk result (λ next. (o : Object) → IsHeaderListing o x
        → IsArrangedBehind o tail next) }
    ensures count { IfOk result (λ next. length next.headers ≡ length x.headers) }
    ensures sizes { IfOk result (λ next. next.sizes ≡ x.sizes) }
    ensures err { IfErr result (λ e. (e ≡ Memory) ⊎ IsRefusedBehind x tail e) }
{
    let limit = greatest_place(x.header.class);
    let behind = match place_sections(alloc, &x, tail, limit) {
        Ok(behind) => behind,
        Err(e) => return Err(e),
    };
    match rounded_within(behind.end, table_alignment(x.header.class), limit) {
        Some(place) => Ok(HeaderListing {
            header: Ehdr {
                shoff: place,
                ..x.header
            },
            headers: behind.headers,
            sizes: x.sizes,
        }),
        None => Err(ElfError::TooLarge),
    }
}
