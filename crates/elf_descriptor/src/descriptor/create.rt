//! How a descriptor is created over nothing that was read.

ghost use Rattle.std.specs.Prelude.{[]};
ghost use Rattle.law_object.specs.Laws.{BeginningsAre, BeginningsAreTied};
ghost use Rattle.law_object.specs.Writing.Based.{BeginningsAreBased};

use crate::body::Body;
use crate::descriptor::Elf;
use elf_types::{Class, Octets, Order, bytes_are_ranged};
use law_object::prelude::{beginnings_are, beginnings_are_tied};
use law_object::writing::based::beginnings_are_based;
use section_table::prelude::NoSource;
use std::alloc::Global;

/// What is created is an object, of which what is not dirty is in its base.
fn creating_is_sound()
    ensures object { BeginningsAre }
    ensures tied { BeginningsAreTied }
    ensures based { BeginningsAreBased }
{
    beginnings_are();
    beginnings_are_tied();
    beginnings_are_based();
}

impl Elf<NoSource> {
    ghost use Rattle.elf_descriptor.specs.Created.{IsCreated};

    /// An object of that class and order: its header has version 1 and 0 in every other field, it
    /// has no program headers, no sections and no base bytes, and its header is dirty. It rejects
    /// nothing and takes no memory.
    ///
    /// Source: elf_begin with ELF_C_WRITE, and gelf_newehdr, of elf(3E) and gelf(3E).
    pub fn create(alloc: Global, class: Class, order: Order) -> Elf<NoSource>
        ensures { IsCreated class order [] result }
    {
        Elf::create_over(alloc, class, order, Octets::new(alloc))
    }

    /// An object as `create` makes it, over these base bytes, which count with `LAYOUT` alone. It
    /// rejects nothing and takes no memory.
    ///
    /// Source: elf_begin with ELF_C_WRITE, and gelf_newehdr, of elf(3E) and gelf(3E).
    pub fn create_over(alloc: Global, class: Class, order: Order, base: Octets) -> Elf<NoSource>
        ensures { IsCreated class order base result }
    {
        creating_is_sound();
        bytes_are_ranged(base.as_slice());
        Elf {
            alloc,
            src: NoSource,
            body: Body::created(alloc, class, order, base),
        }
    }
}
