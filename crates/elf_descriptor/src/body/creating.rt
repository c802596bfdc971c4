//! An object without sections and program headers.

ghost use Rattle.std.specs.Prelude.{◌≡◌};
ghost use Rattle.section_table.specs.elf_object.Open.{new_ehdr};
ghost use Rattle.elf_descriptor.specs.Created.{IsCreatedBody};

use crate::body::{Base, Body};
use elf_types::{Class, Ehdr, Octets, Order, Phdrs};
use section_table::Sections;
use std::alloc::Global;

/// The header of a new object: version 1, and 0 in every other field.
fn new_ehdr(class: Class, order: Order) -> Ehdr
    ensures { result ≡ new_ehdr class order }
{
    Ehdr {
        class,
        order,
        osabi: 0,
        abiversion: 0,
        etype: 0,
        machine: 0,
        version: 1,
        entry: 0,
        phoff: 0,
        shoff: 0,
        flags: 0,
        ehsize: 0,
        phentsize: 0,
        phnum: 0,
        shentsize: 0,
        shnum: 0,
        shstrndx: 0,
    }
}

impl Body {
    /// An object without sections and program headers over these base bytes.
    pub fn created(alloc: Global, class: Class, order: Order, base: Octets) -> Body
        ensures { IsCreatedBody class order base result }
    {
        Body {
            header: new_ehdr(class, order),
            pad: [0; 7],
            phdrs: Phdrs::new(alloc),
            sections: Sections::new(alloc, class),
            base: Base::Own(base),
            written: None,
            spare: None,
            layout: false,
            fill: 0,
            marked: false,
            header_marked: true,
            segments_marked: false,
            ready: false,
        }
    }
}
