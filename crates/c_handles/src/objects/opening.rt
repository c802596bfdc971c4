//! How an object is opened over lent bytes, and closed.

ghost use Rattle.std.specs.Prelude.{◌≡◌, true, IfOk, IfErr};
ghost use Rattle.elf_types.specs.declared.errors.ElfError.TheVariants.{Memory};
ghost use Rattle.elf_object.specs.Open.{opened};
ghost use Rattle.c_handles.specs.Objects.Objects.{OpensAsStated, IsLoanOf, IsLentAs, IsBack};

use crate::lent::{Lent, LentImage, Loan};
use crate::objects::opened::OpenObject;
use elf_descriptor::Elf;
use elf_types::ElfError;
use std::alloc::{AllocFailed, Global};

/// The box of an object that has begun. It fails with `Memory` alone, and then hands the bytes
/// back.
fn box_object(alloc: Global, elf: Elf<LentImage>) -> Result<Box<OpenObject>, (Lent, ElfError)>
    requires { elf.told ≡ true }
    ensures object { IfOk result (λ object. object.value.elf ≡ elf) }
    ensures back { IfErr result (λ back. IsLoanOf elf.source.loan back.0 × (back.1 ≡ Memory)) }
{
    match Box::new(alloc, OpenObject { elf }) {
        Ok(object) => Ok(object),
        Err(AllocFailed { value }) => {
            let OpenObject { elf } = value;
            Err((elf.end().into_loan().back(), ElfError::Memory))
        }
    }
}

/// Opens an object over lent bytes: it reads the headers, and nothing of a section. It fails as
/// `Elf::begin` does, in its order: `Short`, `Magic`, `Class`, `Order`, `Version`, `TooLarge`,
/// `ShTable`, `PhTable`, `TooMany`; and `Memory`. With a refusal it hands the bytes back.
///
/// Source: elf_begin and elf_memory of elf(3E).
pub fn open_object(alloc: Global, image: Lent) -> Result<Box<OpenObject>, (Lent, ElfError)>
    requires { image.lent ≡ true }
    ensures opens { OpensAsStated (opened image.bytes) result }
    ensures lent { IfOk result (λ object. IsLentAs image object.value.elf.source) }
    ensures back { IfErr result (λ back. IsBack image back.0) }
{
    match Elf::begin(alloc, LentImage::new(alloc, Loan::of(image))) {
        Ok(elf) => box_object(alloc, elf),
        Err((image, e)) => Err((image.into_loan().back(), e)),
    }
}

/// Closes an object, and hands the bytes back. It rejects nothing and takes no memory.
///
/// Source: elf_end of elf(3E).
pub fn close_object(object: Box<OpenObject>) -> Lent
    ensures { IsLoanOf object.value.elf.source.loan result }
{
    let OpenObject { elf } = Box::into_inner(object);
    elf.end().into_loan().back()
}
