//! The layout of an image by its headers.

ghost use Rattle.std.specs.Prelude.{◌≡◌, [], None, length, IfOk, IfErr, IsErrOf};
ghost use Rattle.elf_types.specs.declared.errors.ElfError.TheVariants.{Memory, TooMany};
ghost use Rattle.elf_object.specs.Object.{Object};
ghost use Rattle.rebuild_image.specs.Streams.{IsStreamed};
ghost use Rattle.c_calls.specs.Translation.Numbers.{class_from};
ghost use Rattle.c_calls.specs.Layout.Listed.{counts_refusal, segments_refusal};
ghost use Rattle.c_calls.specs.Layout.Images.{IsLayoutOf};
ghost use Rattle.c_calls.specs.Layout.Plans.{IsLayoutFor, IsRefusalFor, LaysOutHeaders, AreTooMany};

use crate::layout::checks::{check_counts, check_segments};
use crate::layout::headers::{list_headers, list_segments};
use crate::translation::class_from;
use c_handles::layout::PlannedLayout;
use c_records::{EhdrRecord, PhdrRecord, ShdrRecord};
use elf_types::ElfError;
use rebuild_image::prelude::{ByteRange, SharedBytes};
use rebuild_image::{Streamed, stream_listed};
use std::alloc::{AllocFailed, Global};

/// The bytes of the identification from `EI_PAD` on.
fn pad_of(pad: &[u8]) -> [u8; 7]
    requires { length pad.now ≡ 7 }
    ensures { result ≡ pad.now }
{
    let mut own = [0; 7];
    own.copy_from_slice(pad);
    own
}

/// The layout of an image whose plan and front are there, of which the bytes are copied. It fails
/// with `Memory` alone.
fn layout_of(
    alloc: Global,
    held: &SharedBytes,
    streamed: Streamed,
) -> Result<PlannedLayout, ElfError>
    ensures ok { IfOk result (λ l. (o : Object) → IsStreamed o [] held.now streamed
        → IsLayoutOf o l) }
    ensures err { IfErr result (λ e. e ≡ Memory) }
{
    let Streamed { planned, front } = streamed;
    let header = held.octets_at(alloc, front.header.at, front.header.len)?;
    let segments = held.octets_at(alloc, front.segments.at, front.segments.len)?;
    let table = held.octets_at(alloc, front.table.at, front.table.len)?;
    Ok(PlannedLayout {
        parts: planned.parts,
        end: planned.places.end,
        header,
        segments,
        table,
    })
}

/// The layout of an image by headers whose counts are no more than an object has, and of which the
/// program headers fit their class.
fn plan_headers(
    alloc: Global,
    ehdr: &EhdrRecord,
    pad: &[u8],
    phdrs: &[PhdrRecord],
    shdrs: &[ShdrRecord],
    base: u64,
) -> Result<PlannedLayout, ElfError>
    requires pad { length pad.now ≡ 7 }
    requires counts { counts_refusal phdrs.now shdrs.now ≡ None }
    requires segments { segments_refusal (class_from ehdr.now.class) phdrs.now ≡ None }
    ensures ok { IfOk result (IsLayoutFor ehdr.now pad.now phdrs.now shdrs.now base) }
    ensures err { IfErr result (IsRefusalFor ehdr.now pad.now phdrs.now shdrs.now base) }
{
    let segments = match list_segments(alloc, phdrs) {
        Ok(segments) => segments,
        Err(e) => return Err(e),
    };
    let x = match list_headers(alloc, ehdr, phdrs.len() as u32, shdrs) {
        Ok(x) => x,
        Err(e) => return Err(e),
    };
    let mut held = SharedBytes::new(alloc);
    let pad = pad_of(pad);
    match stream_listed(alloc, x, pad, segments.as_slice(), true, base, &mut held) {
        Ok(streamed) => layout_of(alloc, &held, streamed),
        Err(e) => Err(e),
    }
}

/// The layout of the image that an update writes of an object with these headers, to which a
/// program gives their places (`ELF_F_LAYOUT`), over a base of so many bytes: where its parts are,
/// and the bytes of the ELF header and of the two tables. Each section that occupies space in the
/// file has as many bytes as its header says, and no byte of it is looked at. The counts are the
/// lengths of the slices; more than 2^20 headers of either kind are `TooMany`. It fails with, in
/// this order: `TooMany`, `Unfit` of a program header, `Overlap`, `TooLarge`; and `Memory` in place
/// of a value and of the last two.
///
/// Source: gABI chapter 4, "ELF Header" and "Section Header"; elf_update and ELF_F_LAYOUT of
/// elf(3E).
pub fn lay_out(
    alloc: Global,
    ehdr: &EhdrRecord,
    pad: &[u8],
    phdrs: &[PhdrRecord],
    shdrs: &[ShdrRecord],
    base: u64,
) -> Result<Box<PlannedLayout>, ElfError>
    requires { length pad.now ≡ 7 }
    ensures lays_out { LaysOutHeaders ehdr.now pad.now phdrs.now shdrs.now base result }
    ensures many { AreTooMany phdrs.now shdrs.now → IsErrOf result TooMany }
{
    if let Err(e) = check_counts(phdrs, shdrs) {
        return Err(e);
    }
    if let Err(e) = check_segments(class_from(ehdr.class as u32), phdrs) {
        return Err(e);
    }
    let layout = match plan_headers(alloc, ehdr, pad, phdrs, shdrs, base) {
        Ok(layout) => layout,
        Err(e) => return Err(e),
    };
    match Box::new(alloc, layout) {
        Ok(layout) => Ok(layout),
        Err(AllocFailed { value: _value }) => Err(ElfError::Memory),
    }
}
