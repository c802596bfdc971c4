//! Memory for the front that an update writes.

ghost use Rattle.std.specs.Prelude.{◌≡◌, true, length, IfOk, IfErr, OnOk, OnErr};
ghost use Rattle.elf_types.specs.declared.errors.ElfError.TheVariants.{Memory};
ghost use Rattle.elf_descriptor.specs.Views.{HasCounts, is_of_source};
ghost use Rattle.elf_descriptor.specs.Fronts.{IsReserved};

use crate::body::{Base, Body, Spare};
use elf_types::{ElfError, List, NULL_SECTION, Shdrs};
use std::alloc::Global;

/// A list of so many section headers; their values mean nothing.
fn spare_shdrs(alloc: Global, count: u32) -> Result<Shdrs, ElfError>
    ensures ok { IfOk result (λ l. length l ≡ count) }
    ensures err { IfErr result (λ e. e ≡ Memory) }
{
    let mut shdrs = List::with_capacity(alloc, u64::from(count))?;
    for i in 0..count {
        shdrs.push(NULL_SECTION)?;
    }
    Ok(shdrs)
}

impl Body {
    /// Whether the base is the source's.
    fn is_over_source(&self) -> bool
        ensures { result ≡ is_of_source self.now.base }
    {
        match &self.base {
            Base::Own(_bytes) => false,
            Base::Source(_n) => true,
        }
    }

    /// Makes spare memory for a front, as long as the object's lists, over a source. It fails with
    /// `Memory` alone.
    fn make_spare(&mut self, alloc: Global) -> Result<(), ElfError>
        requires counts { HasCounts self.old }
        requires over { is_of_source self.old.base ≡ true }
        ensures ok { OnOk result (IsReserved self.old self.new) }
        ensures same { OnErr result (self.new ≡ self.old) }
        ensures err { IfErr result (λ e. e ≡ Memory) }
    {
        let phdrs = List::from_slice(alloc, self.phdrs.as_slice())?;
        let shdrs = spare_shdrs(alloc, self.header.shnum)?;
        self.spare = Some(Spare { phdrs, shdrs });
        self.ready = true;
        Ok(())
    }

    /// Makes spare memory for a front, as long as the object's lists. It fails with `Memory` alone,
    /// and of an object whose base is its own it always does.
    pub fn reserve(&mut self, alloc: Global) -> Result<(), ElfError>
        requires { HasCounts self.old }
        ensures ok { OnOk result (IsReserved self.old self.new) }
        ensures same { OnErr result (self.new ≡ self.old) }
        ensures err { IfErr result (λ e. e ≡ Memory) }
    {
        if self.is_over_source() {
            self.make_spare(alloc)
        } else {
            Err(ElfError::Memory)
        }
    }
}
