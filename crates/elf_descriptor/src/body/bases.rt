//! The part of the source that is an object's base.

ghost use Rattle.std.specs.Prelude.{◌≡◌};
ghost use Rattle.elf_descriptor.specs.Views.{cut_at};

use crate::body::{Base, Body};

impl Body {
    /// Cuts the base at the end of a source of so many bytes.
    pub fn cut_base(&mut self, size: u64)
        ensures rest { self.new ≡ record self.old { base = self.new.base } }
        ensures base { self.new.base ≡ cut_at size self.old.base }
    {
        if let Base::Source(n) = &mut self.base {
            *n = (*n).min(size);
        }
    }
}
