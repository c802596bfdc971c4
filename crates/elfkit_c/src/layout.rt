//! The layout of an image that C writes itself.

ghost use Rattle.std.specs.Prelude.{◌≡◌, true, false, length, IfSome};
ghost use Rattle.elf_types.specs.declared.errors.ElfError.TheVariants.{TooMany};
ghost use Rattle.c_records.specs.Codes.{code};
ghost use Rattle.c_records.specs.Gives.{GivesInCForm};
ghost use Rattle.c_calls.specs.Layout.Parts.{part_record, part_at, front_at};
ghost use Rattle.c_calls.specs.Layout.Plans.{AreTooMany};
ghost use Rattle.elfkit_c.specs.Layout.{LaysOut, KeepsLayout};

use c_calls::layout::{PartRecord, give_part, give_part_bytes, lay_out};
use c_handles::layout::LayoutHandle;
use c_records::{EhdrRecord, PhdrRecord, ShdrRecord, code_of};
use std::alloc::Global;

/// Lays out the image that an update writes of an object with these headers, to which a program
/// gives their places (`ELF_F_LAYOUT`), over a base of so many bytes. Each section that occupies
/// space in the file has as many bytes as its header says; C writes them at the places that the
/// parts tell, so none is handed over or looked at. The counts of `ehdr` are not looked at: the
/// lengths of the slices are the counts; more than 2^20 headers of either kind are `TooMany`. A
/// class that is not 1 stands for class 64, an order that is not 2 for the least byte first. It
/// fails with, in this order: `TooMany`, `Unfit` of a program header, `Overlap`, `TooLarge`; and
/// `Memory` in place of a value and of the last two.
///
/// Besides C's usual part: the handle is empty, and `pad` has the seven bytes of `e_ident` from
/// `EI_PAD` on.
///
/// Source: gABI chapter 4, "ELF Header" and "Section Header"; elf_update and ELF_F_LAYOUT of
/// elf(3E).
#[unsafe(no_mangle)]
pub extern "C" fn elfkit_lay_out(
    alloc: Global,
    ehdr: &EhdrRecord,
    pad: &[u8],
    phdrs: &[PhdrRecord],
    shdrs: &[ShdrRecord],
    base: u64,
    out: &mut LayoutHandle,
) -> u32
    requires empty { out.old.full ≡ false }
    requires pad { length pad.now ≡ 7 }
    ensures lays_out { LaysOut ehdr.now pad.now phdrs.now shdrs.now base result out.new }
    ensures many { AreTooMany phdrs.now shdrs.now → result ≡ code TooMany }
{
    match lay_out(alloc, ehdr, pad, phdrs, shdrs, base) {
        Ok(layout) => {
            out.put(layout);
            0
        }
        Err(e) => code_of(e),
    }
}

/// The length of the image in bytes.
///
/// Besides C's usual part: the handle holds a layout.
///
/// Source: elf_update of elf(3E).
#[unsafe(no_mangle)]
pub extern "C" fn elfkit_layout_length(alloc: Global, l: &mut LayoutHandle) -> u64
    requires { l.old.full ≡ true }
    ensures length { result ≡ l.old.held.end }
    ensures keeps { KeepsLayout l.old l.new }
{
    let layout = l.take(alloc);
    let length = layout.as_ref().end;
    l.put(layout);
    length
}

/// The part at an index, by their places: where it is, how long, and the number of the section
/// whose bytes it is, or 0 for the ELF header and the two tables. It fails with `NoEntry`.
///
/// Besides C's usual part: the handle holds a layout.
///
/// Source: elf_update with ELF_C_WRITE of elf(3E).
#[unsafe(no_mangle)]
pub extern "C" fn elfkit_layout_part(
    alloc: Global,
    l: &mut LayoutHandle,
    i: u64,
    out: &mut PartRecord,
) -> u32
    requires { l.old.full ≡ true }
    ensures gives { GivesInCForm (part_record l.old.held) (part_at l.old.held.parts i) result
        out.old out.new }
    ensures keeps { KeepsLayout l.old l.new }
{
    let layout = l.take(alloc);
    let number = give_part(layout.as_ref(), i, out);
    l.put(layout);
    number
}

/// The bytes of the part at an index, where it is the ELF header or a table; nothing of another
/// part, and nothing where there is none.
///
/// Besides C's usual part: the handle holds a layout, and where the part is one of these three, the
/// buffer is as long as its bytes, which is `len` of its record.
///
/// Source: elf_update with ELF_C_WRITE of elf(3E).
#[unsafe(no_mangle)]
pub extern "C" fn elfkit_layout_bytes(alloc: Global, l: &mut LayoutHandle, i: u64, out: &mut [u8])
    requires full { l.old.full ≡ true }
    requires room { IfSome (front_at l.old.held i) (λ bytes. length out.old ≡ length bytes) }
    ensures bytes { IfSome (front_at l.old.held i) (λ bytes. out.new ≡ bytes) }
    ensures keeps { KeepsLayout l.old l.new }
{
    let layout = l.take(alloc);
    give_part_bytes(layout.as_ref(), i, out);
    l.put(layout);
}

/// Frees a layout: the handle is empty.
///
/// Besides C's usual part: the handle holds a layout.
///
/// Source: elf_update of elf(3E).
#[unsafe(no_mangle)]
pub extern "C" fn elfkit_layout_end(alloc: Global, l: &mut LayoutHandle)
    requires { l.old.full ≡ true }
    ensures { l.new.full ≡ false }
{
    let _layout = l.take(alloc);
}
