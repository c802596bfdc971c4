//! What the rows of symbols want of an object besides the symbols: its class, and the headers of
//! its sections.

ghost use Rattle.std.specs.Prelude.{◌≡◌, List, map, slice_get};
ghost use Rattle.elf_types.specs.declared.records.Class.{Class as TheClass};
ghost use Rattle.elf_types.specs.declared.records.Shdr.{Shdr as Header};

use elf_ident::Front;
use elf_outside::Source;
use elf_types::{Class, ScnId, Shdr};
use tool_objects::prelude::Elf;

/// What tells the class of an object and the headers of its sections: a descriptor, or the headers
/// of an image that no descriptor is over.
pub trait ObjectHeaders {
    // The class.
    ghost class: { Self → TheClass };

    // The present headers.
    ghost headers: { Self → List Header };

    /// The class.
    fn class(&self) -> Class
        ensures { result ≡ class self.now };

    /// The header of a section by its number, or None where there is none.
    fn header(&self, n: u32) -> Option<Shdr>
        ensures { result ≡ slice_get (headers self.now) n };
}

impl<S: Source> ObjectHeaders for Elf<S> {
    ghost class = { λ e. e.o.header.class };

    ghost headers = { λ e. map (λ s. s.header) e.o.sections };

    #[tactic(auto, unfolding(elf_object::specs::Object::header_of))]
    fn class(&self) -> Class {
        self.ehdr().class
    }

    fn header(&self, n: u32) -> Option<Shdr> {
        match self.shdr(ScnId(n)) {
            Ok(header) => Some(header),
            Err(_) => None,
        }
    }
}

impl ObjectHeaders for Front {
    ghost class = { λ f. f.ehdr.class };

    ghost headers = { λ f. f.shdrs };

    fn class(&self) -> Class {
        self.ehdr.class
    }

    fn header(&self, n: u32) -> Option<Shdr> {
        match self.shdrs.as_slice().get(n as usize) {
            Some(header) => Some(*header),
            None => None,
        }
    }
}
