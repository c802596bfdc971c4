//! The ELF header and the two tables in their file form, after bytes that are held.

ghost use Rattle.std.specs.Prelude.{◌≡◌, ◌≤◌, ◌-◌, true, ◌++◌, length, All, IsTrue, IfOk, IfErr, OnOk};
ghost use Rattle.elf_types.specs.declared.errors.ElfError.TheVariants.{Memory};
ghost use Rattle.elf_xlate.specs.Headers.{ehdr_size, phdr_size, shdr_size, ehdr_fits, phdr_fits, shdr_fits, ehdr_bytes, phdr_bytes, shdr_bytes, HasNarrowCounts};
ghost use Rattle.rebuild_model.specs.elf_object.Open.{phdrs_bytes, shdrs_bytes};
ghost use Rattle.rebuild_image.specs.Fronts.{HoldsAppended};

use crate::ranges::ByteRange;
use elf_types::{Class, Ehdr, ElfError, Order, Phdr, Shdr};
use elf_xlate::{ehdr_size, phdr_size, put_ehdr, put_phdr, put_shdr, shdr_size};
use strtab_shared::bytes::SharedBytes;

/// The range of what was appended to bytes that are held, which were so many.
pub(crate) fn range_behind(held: &SharedBytes, at: u64) -> ByteRange
    requires { at ≤ length held.now }
    ensures held { result.held ≡ true }
    ensures at { result.at ≡ at }
    ensures len { result.len ≡ length held.now - at }
{
    ByteRange {
        held: true,
        at,
        len: held.len() - at,
    }
}

/// Appends an ELF header. `out` has just as many bytes as it has.
fn append_header(
    held: &mut SharedBytes,
    h: &Ehdr,
    pad: [u8; 7],
    out: &mut [u8],
) -> Result<(), ElfError>
    requires size { length out.old ≡ ehdr_size h.now.class }
    requires fits { IsTrue (ehdr_fits h.now) }
    requires counts { HasNarrowCounts h.now }
    ensures ok { OnOk result (held.new ≡ held.old ++ ehdr_bytes h.now pad) }
    ensures err { IfErr result (λ e. e ≡ Memory) }
{
    put_ehdr(h, pad, out);
    held.extend(out)
}

/// Appends the ELF header, as it is written, in its file form, and returns its range. It fails with
/// `Memory` alone.
///
/// Source: gABI chapter 4, "ELF Header".
pub fn hold_header(held: &mut SharedBytes, h: &Ehdr, pad: [u8; 7]) -> Result<ByteRange, ElfError>
    requires fits { IsTrue (ehdr_fits h.now) }
    requires counts { HasNarrowCounts h.now }
    ensures ok { IfOk result (HoldsAppended (ehdr_bytes h.now pad) held.old held.new) }
    ensures err { IfErr result (λ e. e ≡ Memory) }
{
    let at = held.len();
    let mut room = [0; 64];
    match append_header(held, h, pad, &mut room[..ehdr_size(h.class)]) {
        Ok(()) => Ok(range_behind(held, at)),
        Err(e) => Err(e),
    }
}

/// Appends a program header. `out` has just as many bytes as it has.
fn append_segment(
    held: &mut SharedBytes,
    class: Class,
    order: Order,
    p: &Phdr,
    out: &mut [u8],
) -> Result<(), ElfError>
    requires size { length out.old ≡ phdr_size class }
    requires fits { IsTrue (phdr_fits class p.now) }
    ensures ok { OnOk result (held.new ≡ held.old ++ phdr_bytes class order p.now) }
    ensures err { IfErr result (λ e. e ≡ Memory) }
{
    put_phdr(class, order, p, out);
    held.extend(out)
}

/// Holds a program header in its file form, in memory of its own.
fn hold_segment(
    held: &mut SharedBytes,
    class: Class,
    order: Order,
    p: &Phdr,
) -> Result<(), ElfError>
    requires { IsTrue (phdr_fits class p.now) }
    ensures ok { OnOk result (held.new ≡ held.old ++ phdr_bytes class order p.now) }
    ensures err { IfErr result (λ e. e ≡ Memory) }
{
    let mut room = [0; 64];
    append_segment(held, class, order, p, &mut room[..phdr_size(class)])
}

/// Appends the program headers in their file form, and returns their range. It fails with `Memory`
/// alone.
///
/// Source: gABI chapter 5, "Program Header".
pub fn hold_segments(
    held: &mut SharedBytes,
    class: Class,
    order: Order,
    phdrs: &[Phdr],
) -> Result<ByteRange, ElfError>
    requires { All (λ p. IsTrue (phdr_fits class p)) phdrs.now }
    ensures ok { IfOk result (HoldsAppended (phdrs_bytes class order phdrs.now) held.old held.new) }
    ensures err { IfErr result (λ e. e ≡ Memory) }
{
    let at = held.len();
    for p in phdrs {
        match hold_segment(held, class, order, p) {
            Ok(()) => {}
            Err(e) => return Err(e),
        }
    }
    Ok(range_behind(held, at))
}

/// Appends a section header. `out` has just as many bytes as it has.
fn append_section(
    held: &mut SharedBytes,
    class: Class,
    order: Order,
    h: &Shdr,
    out: &mut [u8],
) -> Result<(), ElfError>
    requires size { length out.old ≡ shdr_size class }
    requires fits { IsTrue (shdr_fits class h.now) }
    ensures ok { OnOk result (held.new ≡ held.old ++ shdr_bytes class order h.now) }
    ensures err { IfErr result (λ e. e ≡ Memory) }
{
    put_shdr(class, order, h, out);
    held.extend(out)
}

/// Holds a section header in its file form, in memory of its own.
fn hold_section(
    held: &mut SharedBytes,
    class: Class,
    order: Order,
    h: &Shdr,
) -> Result<(), ElfError>
    requires { IsTrue (shdr_fits class h.now) }
    ensures ok { OnOk result (held.new ≡ held.old ++ shdr_bytes class order h.now) }
    ensures err { IfErr result (λ e. e ≡ Memory) }
{
    let mut room = [0; 64];
    append_section(held, class, order, h, &mut room[..shdr_size(class)])
}

/// Appends the section headers in their file form, and returns their range. It fails with `Memory`
/// alone.
///
/// Source: gABI chapter 4, "Section Header".
pub fn hold_sections(
    held: &mut SharedBytes,
    class: Class,
    order: Order,
    headers: &[Shdr],
) -> Result<ByteRange, ElfError>
    requires { All (λ h. IsTrue (shdr_fits class h)) headers.now }
    ensures ok { IfOk result
        (HoldsAppended (shdrs_bytes class order headers.now) held.old held.new) }
    ensures err { IfErr result (λ e. e ≡ Memory) }
{
    let at = held.len();
    for h in headers {
        match hold_section(held, class, order, h) {
            Ok(()) => {}
            Err(e) => return Err(e),
        }
    }
    Ok(range_behind(held, at))
}
