//! The front of an image of which the headers are listed, in its file form.

ghost use Rattle.std.specs.Prelude.{◌≡◌, All, IsTrue, IfOk, IfErr};
ghost use Rattle.elf_types.specs.declared.errors.ElfError.TheVariants.{Memory};
ghost use Rattle.elf_xlate.specs.Headers.{ehdr_fits, phdr_fits, shdr_fits};
ghost use Rattle.rebuild_image.specs.Holding.{HoldsFront};

use crate::fronts::{hold_header, hold_sections, hold_segments};
use crate::listed::HeaderListing;
use crate::ranges::ByteRange;
use elf_types::{ElfError, Phdr};
use rebuild_model::prelude::written_header;
use strtab_shared::bytes::SharedBytes;

/// The ranges of the ELF header and of the two tables.
#[derive(Clone, Copy, Debug, PartialEq, Eq)]
pub struct FrontRanges {
    /// The range of the ELF header.
    pub header: ByteRange,
    /// The range of the program header table.
    pub segments: ByteRange,
    /// The range of the section header table.
    pub table: ByteRange,
}

/// Appends the ELF header, as it is written, and the two tables in their file form, of an image of
/// which the headers are listed with their places, and returns their ranges. It fails with `Memory`
/// alone.
///
/// Source: gABI chapter 4, "ELF Header" and "Section Header"; chapter 5, "Program Header".
pub fn hold_front(
    held: &mut SharedBytes,
    x: &HeaderListing,
    pad: [u8; 7],
    phdrs: &[Phdr],
) -> Result<FrontRanges, ElfError>
    requires header { IsTrue (ehdr_fits x.now.header) }
    requires segments { All (λ p. IsTrue (phdr_fits x.now.header.class p)) phdrs.now }
    requires sections { All (λ h. IsTrue (shdr_fits x.now.header.class h)) x.now.headers }
    ensures ok { IfOk result (HoldsFront x.now pad phdrs.now held.old held.new) }
    ensures err { IfErr result (λ e. e ≡ Memory) }
{
    let written = written_header(&x.header);
    let header = match hold_header(held, &written, pad) {
        Ok(range) => range,
        Err(e) => return Err(e),
    };
    let segments = match hold_segments(held, x.header.class, x.header.order, phdrs) {
        Ok(range) => range,
        Err(e) => return Err(e),
    };
    match hold_sections(held, x.header.class, x.header.order, x.headers.as_slice()) {
        Ok(table) => Ok(FrontRanges {
            header,
            segments,
            table,
        }),
        Err(e) => Err(e),
    }
}
