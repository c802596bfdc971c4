//! Places, sizes and derived values are stored in the headers.

ghost use Rattle.std.specs.Prelude.{◌≡◌, ◌+◌, ◌<◌, length, slice_set, slice_index};
ghost use Rattle.section_table.specs.elf_object.Layout.{section_place};
ghost use Rattle.elf_descriptor.specs.Views.{HasCounts, scn_at};
ghost use Rattle.elf_descriptor.specs.Places.{HasPlaces, StoresHeaders, StoresPlaces, shdr_to_store, size_to_store, stored_header, stored_scn, stored_shdr, stored_size};

use crate::body::Body;
use elf_types::constants::SHT_NULL;
use elf_types::{Class, Ehdr, Shdr};
use section_table::prelude::{Cell, Places, derived_header, numbered_shdr, occupies_file};

/// The place of the part with a rank, which is there.
pub(super) fn place_of(places: &Places, rank: u64) -> u64
    requires { rank < length places.now.at }
    ensures { result ≡ slice_index places.now.at rank }
{
    places.at.as_slice()[rank as usize]
}

/// The size that is stored in the header of a section of that class: where its last piece ends, or
/// the caller's where it has no file bytes.
fn size_to_store(header: &Shdr, cell: &Cell, class: Class) -> u64
    ensures { result ≡ size_to_store class header.now cell.now }
{
    if occupies_file(header) {
        cell.size(class)
    } else {
        header.size
    }
}

/// The header of a section with a number, which is at a place and has so many bytes.
fn shdr_to_store(h: &Ehdr, s: u32, at: u64, size: u64, header: &Shdr) -> Shdr
    ensures { result ≡ shdr_to_store h.now s at size header.now }
{
    if s == 0 {
        return numbered_shdr(h, header);
    }
    if header.stype == SHT_NULL {
        return *header;
    }
    Shdr {
        offset: at,
        size,
        ..*header
    }
}

impl Body {
    /// The size that is stored in the header of the section with a number.
    fn stored_size(&self, s: u32, class: Class) -> u64
        requires { s < length self.now.sections }
        ensures { result ≡ stored_size class (scn_at self.now s) }
    {
        let at = self.cell_at(s);
        size_to_store(self.header_at(s), at.cell(), class)
    }

    /// The header of the section with a number, which is at a place.
    pub(super) fn stored_shdr(&self, h: &Ehdr, s: u32, at: u64) -> Shdr
        requires { s < length self.now.sections }
        ensures { result ≡ stored_shdr h.now s at (scn_at self.now s) }
    {
        let size = self.stored_size(s, h.class);
        shdr_to_store(h, s, at, size, self.header_at(s))
    }

    /// Stores its place and its size in a section's header.
    fn store_place(&mut self, places: &Places, h: &Ehdr, s: u32)
        requires there { s < length self.old.sections }
        requires places { s + 1 < length places.now.at }
        ensures rest { self.new ≡ record self.old { sections = self.new.sections } }
        ensures sections { self.new.sections ≡ slice_set self.old.sections s
            (stored_scn places.now h.now s (scn_at self.old s)) }
    {
        let at = place_of(places, u64::from(s) + 1);
        let header = self.stored_shdr(h, s, at);
        self.sections.set_header(s, header);
    }

    /// Stores the places and the sizes of the sections in their headers.
    fn store_headers(&mut self, places: &Places, h: &Ehdr)
        requires counts { HasCounts self.old }
        requires places { HasPlaces places.now (length self.old.sections) }
        ensures { StoresHeaders places.now h.now self.old self.new }
    {
        let count = self.header.shnum;
        for s in 0..count {
            self.store_place(places, h, s);
        }
    }

    /// The ELF header with the places of the tables.
    pub(super) fn stored_header(&self, places: &Places) -> Ehdr
        requires counts { HasCounts self.now }
        requires places { HasPlaces places.now (length self.now.sections) }
        ensures { result ≡ stored_header places.now self.now }
    {
        let count = u64::from(self.header.shnum);
        let table = place_of(places, count.saturating_sub(1) + 2);
        derived_header(place_of(places, 1), table, &self.header)
    }

    /// Stores places, sizes and derived values in the headers.
    pub fn store_places(&mut self, places: &Places)
        requires counts { HasCounts self.old }
        requires places { HasPlaces places.now (length self.old.sections) }
        ensures { StoresPlaces places.now self.old self.new }
    {
        let h = self.stored_header(places);
        self.store_headers(places, &h);
        self.header = h;
    }
}
