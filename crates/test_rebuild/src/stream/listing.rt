//! Headers that are listed, and the parts of their image.

use elf_layout::{Places, place};
use elf_types::constants::{SHF_ALLOC, SHT_NOBITS, SHT_PROGBITS};
use elf_types::{Addrs, Class, Ehdr, ElfError, Order, Shdr, Shdrs};
use rebuild_image::listed::{HeaderListing, list_parts, store_places};
use std::alloc::Global;
use test_kit_images::header_of;
use test_kit_rows::{failed, in_row, same};

/// The header of section 0.
const FIRST: Shdr = Shdr {
    name: 0,
    stype: 0,
    flags: 0,
    addr: 0,
    offset: 0,
    size: 0,
    link: 0,
    info: 0,
    addralign: 0,
    entsize: 0,
};

/// A section that is loaded.
const LOADED: Shdr = Shdr {
    stype: SHT_PROGBITS,
    flags: SHF_ALLOC,
    offset: 80,
    addralign: 16,
    ..FIRST
};

/// One that has no bytes in the file.
const BARE: Shdr = Shdr {
    stype: SHT_NOBITS,
    addralign: 32,
    size: 1000,
    ..FIRST
};

/// Two that are not loaded.
const PLAIN: Shdr = Shdr {
    stype: SHT_PROGBITS,
    addralign: 1,
    ..FIRST
};

const WORDS: Shdr = Shdr {
    stype: SHT_PROGBITS,
    addralign: 8,
    ..FIRST
};

/// The five sections, and how many bytes each has.
const ROWS: [(Shdr, u64); 5] = [(FIRST, 0), (LOADED, 20), (PLAIN, 3), (BARE, 0), (WORDS, 10)];

/// Puts the five sections and their sizes into lists.
fn fill(headers: &mut Shdrs, sizes: &mut Addrs) -> Result<(), ElfError> {
    for row in ROWS.iter() {
        headers.push(row.0)?;
        sizes.push(row.1)?;
    }
    Ok(())
}

/// These headers of class 64, with these sizes.
fn listing_of(headers: Shdrs, sizes: Addrs) -> HeaderListing {
    HeaderListing {
        header: Ehdr {
            shoff: 7,
            shnum: 5,
            ..header_of(Class::C64, Order::Least)
        },
        headers,
        sizes,
    }
}

/// The five sections as listed headers of class 64.
pub fn listed(alloc: Global) -> Result<HeaderListing, ElfError> {
    let mut headers = Shdrs::new(alloc);
    let mut sizes = Addrs::new(alloc);
    match fill(&mut headers, &mut sizes) {
        Ok(()) => Ok(listing_of(headers, sizes)),
        Err(e) => Err(e),
    }
}

/// Whether sections have these places and these sizes, and the section header table has that one.
pub fn is_listed_at(rt: &HostRuntime, x: &HeaderListing, rows: &[(u64, u64)], table: u64) -> bool {
    let listed = same(rt, &x.header.shoff, &table)
        && same(rt, &x.headers.len(), &(rows.len() as u64));
    if !listed {
        return false;
    }
    for (n, (h, row)) in x.headers.as_slice().iter().zip(rows.iter()).enumerate() {
        if !in_row(rt, n, same(rt, &(h.offset, h.size), row)) {
            return false;
        }
    }
    true
}

/// The places of an image whose parts are one after the other.
fn places_of(alloc: Global, x: &HeaderListing) -> Result<Places, ElfError> {
    if x.headers.len() > 1 << 20 || x.headers.len() != x.sizes.len() {
        return Err(ElfError::TooMany);
    }
    let parts = list_parts(alloc, x)?;
    place(alloc, &parts, false, 0, Class::C64)
}

/// The headers with these places.
fn stored_at(alloc: Global, x: HeaderListing, places: &Places) -> Result<HeaderListing, ElfError> {
    if x.headers.len() > 1 << 20 || x.headers.len() != x.sizes.len() {
        return Err(ElfError::TooMany);
    }
    if x.headers.is_empty() || places.at.len() < x.headers.len() + 2 {
        return Err(ElfError::TooMany);
    }
    store_places(alloc, x, places)
}

/// The headers with the places of an image whose parts are one after the other.
fn stored(alloc: Global) -> Result<HeaderListing, ElfError> {
    let x = listed(alloc)?;
    match places_of(alloc, &x) {
        Ok(places) => stored_at(alloc, x, &places),
        Err(e) => Err(e),
    }
}

/// Whether the parts are one after the other, at these places.
fn stands_in_order(rt: &HostRuntime, rows: &[(u64, u64)], table: u64) -> bool {
    match stored(rt.alloc()) {
        Ok(next) => is_listed_at(rt, &next, rows, table),
        Err(e) => failed(rt, e),
    }
}

#[test]
fn parts_stand_one_after_the_other(rt: HostRuntime) {
    assert!(rt; stands_in_order(&rt, &[(0, 0), (64, 20), (84, 3), (96, 1000), (88, 10)], 104));
}
