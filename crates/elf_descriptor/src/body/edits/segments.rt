//! The program headers: another number of them, and their loan for writing.

ghost use Rattle.std.specs.Prelude.{◌≡◌, ℕ, List, Option, false, OnOk, OnErr, IfOk, IfErr};
ghost use Rattle.std.specs.Borrow.{sem};
ghost use Rattle.std.proofs.Math.ListN.{replicate};
ghost use Rattle.elf_types.specs.Answers.{answered, IsRefusal};
ghost use Rattle.elf_types.specs.declared.errors.ElfError.TheVariants.{Memory};
ghost use Rattle.section_table.specs.elf_object.Object.{no_phdr};
ghost use Rattle.section_table.specs.elf_object.Calls.{newphdr_refusal};
ghost use Rattle.section_table.specs.elf_object.Calls as calls;
ghost use Rattle.elf_descriptor.specs.Views.{object_of, ready_of};
ghost use Rattle.elf_descriptor.specs.Edits.{IsStated, IsStepped};

use crate::body::Body;
use elf_types::constants::PN_XNUM;
use elf_types::{ElfError, Phdr, Phdrs};
use std::alloc::Global;

/// So many program headers of zeros. It fails with `Memory` alone.
fn zeroed(alloc: Global, n: u32) -> Result<Phdrs, ElfError>
    ensures ok { IfOk result (λ l. l ≡ replicate n no_phdr) }
    ensures err { IfErr result (λ e. e ≡ Memory) }
{
    let zeros = Phdr {
        ptype: 0,
        flags: 0,
        offset: 0,
        vaddr: 0,
        paddr: 0,
        filesz: 0,
        memsz: 0,
        align: 0,
    };
    let phdrs = vec![in alloc; zeros; n as usize]?;
    Ok(Phdrs::from_vec(phdrs))
}

/// Whether there can be so many program headers, by what `e_phnum` holds; else `TooMany`.
fn check_count(n: u32) -> Result<(), ElfError>
    ensures answer { result ≡ answered (newphdr_refusal n) tt }
    ensures err { IfErr result IsRefusal }
{
    if n >= PN_XNUM {
        return Err(ElfError::TooMany);
    }
    Ok(())
}

impl Body {
    ghost use Rattle.elf_descriptor.specs.LentSegments.{LendsBodySegments};

    /// Gives the object other program headers.
    fn set_phdrs(&mut self, phdrs: Phdrs, n: u32)
        requires { phdrs ≡ replicate n no_phdr }
        ensures { IsStepped (calls.newphdr n).after false self.old self.new }
    {
        self.header.phnum = n;
        self.phdrs = phdrs;
        self.segments_marked = true;
        self.ready = false;
    }

    /// Gives the object so many program headers of zeros. It fails with `Memory` alone.
    fn zero_phdrs(&mut self, alloc: Global, n: u32) -> Result<(), ElfError>
        ensures step { OnOk result (IsStepped (calls.newphdr n).after false self.old self.new) }
        ensures unchanged { OnErr result (self.new ≡ self.old) }
        ensures err { IfErr result (λ e. e ≡ Memory) }
    {
        match zeroed(alloc, n) {
            Ok(phdrs) => {
                self.set_phdrs(phdrs, n);
                Ok(())
            }
            Err(e) => Err(e),
        }
    }

    /// Gives the object so many program headers of zeros; else `TooMany`, then `Memory`.
    pub fn newphdr(&mut self, alloc: Global, n: u32) -> Result<(), ElfError>
        ensures answer { (image : Option (List ℕ)) (size : ℕ)
            → IsStated result ((calls.newphdr n).answer (object_of image size self.old)) }
        ensures step { OnOk result (IsStepped (calls.newphdr n).after false self.old self.new) }
        ensures unchanged { OnErr result (IsStepped (λ o. o) (ready_of self.old) self.old self.new) }
    {
        if let Err(e) = check_count(n) {
            return Err(e);
        }
        self.zero_phdrs(alloc, n)
    }

    /// The program headers, lent for writing; they are marked dirty.
    pub fn phdrs_mut(&mut self) -> &mut [Phdr]
        ensures* lends { sem 𝓛 (LendsBodySegments self.entry result) }
        ensures value { result.now ≡ self.old.phdrs }
    {
        self.segments_marked = true;
        self.ready = false;
        self.phdrs.as_mut_slice()
    }
}
