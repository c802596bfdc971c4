//! The descriptor.

ghost use Rattle.std.specs.Prelude.{◌≡◌};

use crate::body::Body;
use section_table::prelude::Source;
use std::alloc::Global;
use std::marker::Model;

mod base;
mod begin;
mod create;
mod device;
mod edits;
mod entries;
mod fronts;
mod getters;
mod homes;
mod lends;
mod pieces;
mod places;
mod reading;
mod rooms;
mod settling;
mod stores;
mod there;

/// An object over a source. Contracts see it as a [`State`]: the plain object, what is held of it,
/// and the source.
#[derive(Drop)]
pub struct Elf<S: Source> {
    alloc: Global,
    src: S,
    body: Body,
}

impl<S: Source> Model for Elf<S> {
    ghost use Rattle.elf_descriptor.specs.State.{State};
    ghost use Rattle.elf_descriptor.specs.Views.{state_of};
    ghost use Rattle.elf_descriptor.specs.Sound.{IsElf};

    ghost Value = { State S };

    ghost view = { λ e. state_of S.Source e.src e.body };

    ghost invariant = { λ e. IsElf (S.holds e.src) (S.size e.src) e.body };
}

impl<S: Source> Elf<S> {
    /// Gives the source back. It rejects nothing and takes no memory.
    ///
    /// Source: elf_end of elf(3E).
    pub fn end(self) -> S
        ensures { result ≡ self.source }
    {
        self.src
    }
}
