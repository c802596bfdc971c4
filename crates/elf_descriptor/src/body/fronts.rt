//! Whether a part of the front is the one that is in the image.

ghost use Rattle.std.specs.Prelude.{◌≡◌, ◌↔◌, ◌+◌, ◌<◌, ℕ, List, Option, None, not, true, length, slice_get, Some, IsTrue};
ghost use Rattle.section_table.specs.elf_layout.declared.parts.Places.{Places as ThePlaces};
ghost use Rattle.section_table.specs.elf_xlate.Headers.{HasNarrowCounts, IsEhdr, IsPhdr, IsShdr};
ghost use Rattle.section_table.specs.elf_object.Blocks.{same_extent};
ghost use Rattle.section_table.specs.elf_object.Changed.{front_differs};
ghost use Rattle.section_table.specs.elf_object.Layout.{section_place};
ghost use Rattle.section_table.specs.elf_object.Refusal.{content_refusal};
ghost use Rattle.elf_descriptor.specs.Fronts.{Compares, IsOfFront, TellsHeader, TellsSegments, TellsTable, stored_shdrs};
ghost use Rattle.elf_descriptor.specs.Places.{HasPlaces, PartsFitAt, stored_shdr};
ghost use Rattle.elf_descriptor.specs.Sound.{IsElf};
ghost use Rattle.elf_descriptor.specs.Views.{HasCounts, object_of, scn_at};

use crate::body::places::place_of;
use crate::body::{Body, Written};
use elf_types::{Ehdr, Part, Phdr, Shdr};
use law_object::prelude::sizes_are_lengths;
use section_table::prelude::{
    Places, ehdr_both_ways, phdr_both_ways, shdr_both_ways, written_header,
};

/// Whether two ELF headers are the same. The first is in the range of its type.
fn same_ehdr(one: Ehdr, other: Ehdr) -> bool
    ensures same { IsTrue result ↔ (one ≡ other) }
    ensures ranged { IsEhdr one }
{
    one == other
}

/// Whether two program headers are the same. The first is in the range of its type.
fn same_phdr(one: Phdr, other: Phdr) -> bool
    ensures same { IsTrue result ↔ (one ≡ other) }
    ensures ranged { IsPhdr one }
{
    one == other
}

/// Whether two section headers are the same. The first is in the range of its type.
fn same_shdr(one: Shdr, other: Shdr) -> bool
    ensures same { IsTrue result ↔ (one ≡ other) }
    ensures ranged { IsShdr one }
{
    one == other
}

/// Whether two extents are alike: empty ones are, wherever they are.
#[tactic(auto, unfolding(section_table::specs::Passed::same_extent))]
fn same_extent(a: u64, m: u64, b: u64, n: u64) -> bool
    ensures value { result ≡ same_extent a m b n }
    ensures alike { result ≡ true → m ≡ n }
{
    a == b && m == n || m == 0 && n == 0
}

/// Whether two rests of an identification are the same.
fn same_pad(one: [u8; 7], other: [u8; 7]) -> bool
    ensures { IsTrue result ↔ (one ≡ other) }
{
    one == other
}

/// The program header at an index of a table.
fn phdr_at(table: &[Phdr], i: usize) -> Phdr
    requires { i < length table.now }
    ensures { slice_get table.now i ≡ Some result }
{
    table[i]
}

/// The section header at an index of a table.
fn shdr_at(table: &[Shdr], i: usize) -> Shdr
    requires { i < length table.now }
    ensures { slice_get table.now i ≡ Some result }
{
    table[i]
}

/// Whether two tables of as many program headers are the same.
fn same_phdrs(ones: &[Phdr], others: &[Phdr]) -> bool
    requires { length ones.now ≡ length others.now }
    ensures { Compares IsPhdr result ones.now others.now }
{
    for i in 0..ones.len() {
        let one = phdr_at(ones, i);
        let other = phdr_at(others, i);
        if !same_phdr(one, other) {
            return false;
        }
    }
    true
}

impl Body {
    /// Whether the ELF header, as it is written, is the one that is in the image.
    fn same_header(&self, front: &Written, h: &Ehdr) -> bool
        requires { HasNarrowCounts h.now }
        ensures { TellsHeader result h.now self.now.pad front.now }
    {
        ehdr_both_ways();
        let same = same_ehdr(*h, front.header);
        let alike = same_pad(self.pad, front.pad);
        same && alike
    }

    /// Whether the program header table, with that place, is the one that is in the image.
    fn same_segments(&self, front: &Written, at: u64) -> bool
        ensures { TellsSegments result at self.now.phdrs front.now }
    {
        phdr_both_ways();
        if !same_extent(at, self.phdrs.len(), front.header.phoff, front.phdrs.len()) {
            return false;
        }
        same_phdrs(self.phdrs.as_slice(), front.phdrs.as_slice())
    }

    /// Whether a section's header, with its place and its size stored, is the one with its number
    /// in a table.
    fn same_at(&self, places: &Places, h: &Ehdr, table: &[Shdr], s: u32) -> bool
        requires there { s < length self.now.sections }
        requires places { s + 1 < length places.now.at }
        requires table { s < length table.now }
        ensures same { IsTrue result ↔ (slice_get table.now s
            ≡ Some (stored_shdr h.now s (section_place places.now s) (scn_at self.now s))) }
        ensures ranged { IsShdr
            (stored_shdr h.now s (section_place places.now s) (scn_at self.now s)) }
    {
        let at = place_of(places, u64::from(s) + 1);
        same_shdr(self.stored_shdr(h, s, at), shdr_at(table, s as usize))
    }

    /// Whether the section headers, with places and sizes stored in them, are those of a table.
    fn same_shdrs(&self, places: &Places, h: &Ehdr, table: &[Shdr]) -> bool
        requires counts { HasCounts self.now }
        requires places { HasPlaces places.now (length self.now.sections) }
        requires count { length self.now.sections ≡ length table.now }
        ensures { Compares IsShdr result (stored_shdrs places.now h.now self.now) table.now }
    {
        let count = self.header.shnum;
        for s in 0..count {
            if !self.same_at(places, h, table, s) {
                return false;
            }
        }
        true
    }

    /// Whether the section header table, with the place that an ELF header gives it, is the one
    /// that is in the image.
    fn same_table(&self, front: &Written, places: &Places, h: &Ehdr) -> bool
        requires counts { HasCounts self.now }
        requires places { HasPlaces places.now (length self.now.sections) }
        ensures { TellsTable result h.now.shoff (stored_shdrs places.now h.now self.now)
            front.now }
    {
        shdr_both_ways();
        let count = u64::from(self.header.shnum);
        if !same_extent(h.shoff, count, front.header.shoff, front.shdrs.len()) {
            return false;
        }
        self.same_shdrs(places, h, front.shdrs.as_slice())
    }

    /// Whether a part of the front, with places and sizes stored, is the one that is in the image.
    fn same_front(&self, front: &Written, part: Part, places: &Places) -> bool
        requires counts { HasCounts self.now }
        requires places { HasPlaces places.now (length self.now.sections) }
        requires part { IsOfFront part }
        ensures { (image : Option (List ℕ)) (size : ℕ) → IsElf image size self.now
            → self.now.written ≡ Some front.now
            → content_refusal (object_of image size self.now) ≡ None
            → PartsFitAt (object_of image size self.now) places.now
            → not result ≡ front_differs places.now (object_of image size self.now) part }
    {
        sizes_are_lengths();
        let h = self.stored_header(places);
        match part {
            Part::Segments => self.same_segments(front, h.phoff),
            Part::Table => self.same_table(front, places, &h),
            Part::Header => self.same_header(front, &written_header(&h)),
            _ => unreachable!(),
        }
    }

    /// Whether a part of the front has bytes.
    fn has_bytes(&self, part: Part) -> bool
        requires counts { HasCounts self.now }
        requires part { IsOfFront part }
        ensures { (image : Option (List ℕ)) (size : ℕ) (places : ThePlaces)
            → self.now.written ≡ None → IsElf image size self.now
            → result ≡ front_differs places (object_of image size self.now) part }
    {
        match part {
            Part::Segments => self.header.phnum != 0,
            Part::Table => self.header.shnum != 0,
            Part::Header => true,
            _ => unreachable!(),
        }
    }

    /// Whether a part of the front, with places and sizes stored, has another place or other bytes
    /// than in the image as opened or last settled. It goes over the part's records once.
    pub fn front_differs(&self, part: Part, places: &Places) -> bool
        requires counts { HasCounts self.now }
        requires places { HasPlaces places.now (length self.now.sections) }
        requires part { IsOfFront part }
        ensures { (image : Option (List ℕ)) (size : ℕ) → IsElf image size self.now
            → content_refusal (object_of image size self.now) ≡ None
            → PartsFitAt (object_of image size self.now) places.now
            → result ≡ front_differs places.now (object_of image size self.now) part }
    {
        match &self.written {
            Some(front) => !self.same_front(front, part, places),
            None => self.has_bytes(part),
        }
    }
}
