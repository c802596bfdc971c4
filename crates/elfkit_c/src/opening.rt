//! Opening and closing.

ghost use Rattle.std.specs.Prelude.{◌≡◌, true, false};
ghost use Rattle.elf_object.specs.Open.{opened};
ghost use Rattle.c_handles.specs.Objects.Objects.{IsLoanOf};
ghost use Rattle.elfkit_c.specs.Handles.{BeginsHandle, ComesBack};

use c_handles::lent::Lent;
use c_handles::objects::{Handle, close_object, open_object};
use c_records::code_of;
use std::alloc::Global;
use std::mem::replace;

/// Opens an object over bytes that C lends: it reads the headers, and nothing of a section. The
/// number is 0, or that of what `Elf::begin` fails with, in its order: `Short`, `Magic`, `Class`,
/// `Order`, `Version`, `TooLarge`, `ShTable`, `PhTable`, `TooMany`; or of `Memory`. The bytes come
/// back with a refusal, and else when the object is closed.
///
/// Besides C's usual part: the bytes are there, at most 2^63 - 1 of them at a place that is not
/// null, also where there are none, and nobody writes them until they are back; and the handle is
/// empty.
///
/// Source: elf_begin and elf_memory of elf(3E).
#[unsafe(no_mangle)]
pub extern "C" fn elfkit_begin(alloc: Global, image: Lent, h: &mut Handle, back: &mut Lent) -> u32
    requires lent { image.lent ≡ true }
    requires empty { h.old.full ≡ false }
    ensures begins { BeginsHandle image (opened image.bytes) result h.new }
    ensures back { ComesBack image result back.old back.new }
{
    match open_object(alloc, image) {
        Ok(object) => {
            h.put(object);
            0
        }
        Err((image, e)) => {
            let _before = replace(back, image);
            code_of(e)
        }
    }
}

/// Closes an object: the bytes that were lent come back, and the handle is empty.
///
/// Besides C's usual part: the handle holds an object.
///
/// Source: elf_end of elf(3E).
#[unsafe(no_mangle)]
pub extern "C" fn elfkit_end(alloc: Global, h: &mut Handle, back: &mut Lent)
    requires { h.old.full ≡ true }
    ensures empty { h.new.full ≡ false }
    ensures back { IsLoanOf h.old.held.elf.source.loan back.new }
{
    let object = h.take(alloc);
    let _before = replace(back, close_object(object));
}
