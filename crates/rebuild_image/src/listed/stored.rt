//! The headers of an image with the places of its parts.

ghost use Rattle.std.specs.Prelude.{◌≡◌, ◌-◌, ◌+◌, ◌<◌, true, length, IfOk, IfErr};
ghost use Rattle.elf_types.specs.declared.errors.ElfError.TheVariants.{Memory};
ghost use Rattle.elf_update_plan.specs.elf_object.Object.{Object, section_at, is_dirty};
ghost use Rattle.elf_update_plan.specs.elf_object.Layout as stated;
ghost use Rattle.rebuild_image.specs.Listed.Listing.{IsHeaderListing, AreStored, shdr_stored};

use crate::listed::listed::HeaderListing;
use elf_layout::Places;
use elf_types::constants::SHT_NULL;
use elf_types::{Ehdr, ElfError, Shdr, Shdrs};
use elf_update_plan::prelude::{derived_header, numbered_shdr, occupies_file};
use std::alloc::Global;

/// The header with the places of the two tables, and what follows from its counts.
fn placed_header(x: &HeaderListing, places: &Places) -> Ehdr
    requires { length x.now.headers - 1 + 2 < length places.now.at }
    ensures { (o : Object) → IsHeaderListing o x.now → result ≡ stated.placed_header places.now o }
{
    let at = places.at.as_slice();
    let count = x.headers.len();
    let last = count.saturating_sub(1) as usize;
    derived_header(at[1], at[last + 2], &x.header)
}

/// A section's header with its place and its size in the file; that of `SHT_NULL` stays.
fn with_place(h: &Shdr, place: u64, size: u64) -> Shdr
    ensures { result ≡ shdr_stored h.now place size }
{
    if h.stype == SHT_NULL {
        return *h;
    }
    if occupies_file(h) {
        return Shdr {
            offset: place,
            size,
            ..*h
        };
    }
    Shdr {
        offset: place,
        ..*h
    }
}

/// The header of a section that is there, with its place and its size; that of section 0 has the
/// numbers that the header does not hold.
fn placed_shdr(x: &HeaderListing, places: &Places, header: &Ehdr, s: usize) -> Shdr
    requires header { s < length x.now.headers }
    requires size { s < length x.now.sizes }
    requires place { s + 1 < length places.now.at }
    ensures { (o : Object) → IsHeaderListing o x.now → header.now ≡ stated.placed_header places.now
        o
        → result ≡ stated.placed_shdr places.now o s (section_at o s).header }
{
    let headers = x.headers.as_slice();
    let sizes = x.sizes.as_slice();
    let at = places.at.as_slice();
    if s == 0 {
        return numbered_shdr(header, &headers[s]);
    }
    with_place(&headers[s], at[s + 1], sizes[s])
}

/// The headers of the sections, with their places.
fn placed_shdrs(
    alloc: Global,
    x: &HeaderListing,
    places: &Places,
    header: &Ehdr,
) -> Result<Shdrs, ElfError>
    requires sizes { length x.now.sizes ≡ length x.now.headers }
    requires places { length x.now.headers + 1 < length places.now.at }
    ensures ok { IfOk result (λ headers. (o : Object) → IsHeaderListing o x.now
        → header.now ≡ stated.placed_header places.now o → AreStored places.now o headers) }
    ensures err { IfErr result (λ e. e ≡ Memory) }
{
    let mut headers = Shdrs::with_capacity(alloc, x.headers.len())?;
    for s in 0..x.headers.len() as usize {
        headers.push(placed_shdr(x, places, header, s))?;
    }
    Ok(headers)
}

/// Stores the places of the parts in the headers, the sizes of the sections, and what follows from
/// the counts. It fails with `Memory` alone.
///
/// Source: gABI chapter 4, "ELF Header" and "Section Header"; elf_update with ELF_C_NULL of elf(3E).
pub fn store_places(
    alloc: Global,
    x: HeaderListing,
    places: &Places,
) -> Result<HeaderListing, ElfError>
    requires sizes { length x.sizes ≡ length x.headers }
    requires tables { length x.headers - 1 + 2 < length places.now.at }
    requires places { length x.headers + 1 < length places.now.at }
    ensures ok { IfOk result (λ next. (o : Object) → IsHeaderListing o x → is_dirty o ≡ true
        → places.now ≡ stated.places_of o → IsHeaderListing (stated.placed o) next) }
    ensures err { IfErr result (λ e. e ≡ Memory) }
{
    let header = placed_header(&x, places);
    match placed_shdrs(alloc, &x, places, &header) {
        Ok(headers) => Ok(HeaderListing {
            header,
            headers,
            sizes: x.sizes,
        }),
        Err(e) => Err(e),
    }
}
