//! An object becomes that of the image that was written.

ghost use Rattle.std.specs.Prelude.{◌≡◌, ◌<◌, All, IsTrue, Some, length, map, slice_set};
ghost use Rattle.section_table.specs.elf_xlate.Headers.{IsPhdr};
ghost use Rattle.section_table.specs.Sections.{AreNumbered};
ghost use Rattle.elf_descriptor.specs.Settling.{SettlesBody, front_as_written};
ghost use Rattle.elf_descriptor.specs.Views.{ready_of};

use crate::body::{Base, Body, Spare, Written};
use elf_types::{Phdr, Shdr};
use section_table::prelude::written_header;
use section_table::{HeaderTable, Sections};
use std::mem;

/// A program header, whose fields are in the range of their types.
fn ranged_phdr(p: Phdr) -> Phdr
    ensures value { result ≡ p }
    ensures ranged { IsPhdr result }
{
    p
}

/// Copies program headers over as many others.
fn copy_phdrs(to: &mut [Phdr], from: &[Phdr])
    requires { length to.old ≡ length from.now }
    ensures copied { to.new ≡ from.now }
    ensures ranged { All IsPhdr from.now }
{
    for i in 0..from.len() {
        to[i] = ranged_phdr(from[i]);
    }
}

/// Copies the headers of sections over as many others.
fn copy_shdrs(to: &mut [Shdr], from: &Sections)
    requires { length to.old ≡ length from.now }
    ensures { to.new ≡ map (λ s. s.header) from.now }
{
    for i in 0..from.count() {
        to[i as usize] = *from.header(i);
    }
}

impl Body {
    /// The front as it is written, in the memory of tables that are as long.
    fn front_over(&self, spare: Spare) -> Written
        requires phdrs { length spare.phdrs ≡ length self.now.phdrs }
        requires shdrs { length spare.shdrs ≡ length self.now.sections }
        ensures value { result ≡ front_as_written self.now }
        ensures ranged { All IsPhdr self.now.phdrs }
    {
        let mut phdrs = spare.phdrs;
        let mut shdrs = spare.shdrs;
        copy_phdrs(phdrs.as_mut_slice(), self.phdrs.as_slice());
        copy_shdrs(shdrs.as_mut_slice(), &self.sections);
        Written {
            header: written_header(&self.header),
            pad: self.pad,
            phdrs,
            shdrs: HeaderTable::of(shdrs),
        }
    }

    /// Makes the front as it is written the present one, in the spare memory.
    fn write_front(&mut self)
        requires { IsTrue (ready_of self.old) }
        ensures rest { self.new
            ≡ record self.old {
              written = Some (front_as_written self.old);
              spare = self.new.spare;
            } }
        ensures ranged { All IsPhdr self.old.phdrs }
    {
        let Some(spare) = mem::replace(&mut self.spare, None) else {
            unreachable!()
        };
        let front = self.front_over(spare);
        self.written = Some(front);
    }

    /// Makes an object whose places are stored that of the image of `size` bytes that was written:
    /// nothing is held or marked.
    pub fn settle(&mut self, size: u64)
        requires numbered { AreNumbered self.old.sections }
        requires ready { IsTrue (ready_of self.old) }
        ensures { SettlesBody size self.old self.new }
    {
        self.write_front();
        self.sections.reopen(size);
        self.base = Base::Source(size);
        self.marked = false;
        self.header_marked = false;
        self.segments_marked = false;
        self.ready = false;
    }
}
