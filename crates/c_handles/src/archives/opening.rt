//! How an archive is opened over lent bytes, and closed.

ghost use Rattle.std.specs.Prelude.{◌≡◌, true, IfOk, IfErr};
ghost use Rattle.elf_types.specs.declared.errors.ElfError.TheVariants.{Memory};
ghost use Rattle.ar_members.specs.Archives.{begun_walk};
ghost use Rattle.c_handles.specs.Objects.Objects.{IsLoanOf, IsLentAs, IsBack};
ghost use Rattle.c_handles.specs.Archives.Opening.{OpensArchive};

use crate::archives::opened::OpenArchive;
use crate::lent::{Lent, LentImage, Loan};
use ar_members::{Ar, ArSyms};
use elf_types::{ElfError, Octets};
use std::alloc::{AllocFailed, Global};

/// The box of an archive that has begun. It fails with `Memory` alone, and then hands the bytes
/// back.
fn box_archive(alloc: Global, ar: Ar<LentImage>) -> Result<Box<OpenArchive>, (Lent, ElfError)>
    ensures archive { IfOk result (λ archive. archive.value.ar ≡ ar) }
    ensures back { IfErr result (λ back. IsLoanOf ar.source.loan back.0 × (back.1 ≡ Memory)) }
{
    let archive = OpenArchive {
        ar,
        name: Octets::new(alloc),
        symbols: ArSyms::new(alloc),
    };
    match Box::new(alloc, archive) {
        Ok(archive) => Ok(archive),
        Err(AllocFailed { value }) => {
            let OpenArchive {
                ar,
                name: _name,
                symbols: _symbols,
            } = value;
            Err((ar.end().into_loan().back(), ElfError::Memory))
        }
    }
}

/// Opens an archive over lent bytes: it reads the first line. It fails as `Ar::begin` does, in its
/// order: `Short`, `Magic`, `TooLarge`; and `Memory`. With a refusal it hands the bytes back.
///
/// Source: ar.h; elf_begin of elf(3E).
pub fn open_archive(alloc: Global, image: Lent) -> Result<Box<OpenArchive>, (Lent, ElfError)>
    requires { image.lent ≡ true }
    ensures opens { OpensArchive (begun_walk image.bytes) result }
    ensures lent { IfOk result (λ archive. IsLentAs image archive.value.ar.source) }
    ensures back { IfErr result (λ back. IsBack image back.0) }
{
    match Ar::begin(alloc, LentImage::new(alloc, Loan::of(image))) {
        Ok(ar) => box_archive(alloc, ar),
        Err((image, e)) => Err((image.into_loan().back(), e)),
    }
}

/// Closes an archive, and hands the bytes back. It rejects nothing and takes no memory.
///
/// Source: elf_end of elf(3E).
pub fn close_archive(archive: Box<OpenArchive>) -> Lent
    ensures { IsLoanOf archive.value.ar.source.loan result }
{
    let OpenArchive {
        ar,
        name: _name,
        symbols: _symbols,
    } = Box::into_inner(archive);
    ar.end().into_loan().back()
}
