//! Items in their file form, and bytes that are shared, after bytes that are held.

ghost use Rattle.std.specs.Prelude.{◌≡◌, None, IfOk, IfErr};
ghost use Rattle.elf_types.specs.declared.errors.ElfError.TheVariants.{Memory};
ghost use Rattle.elf_xlate.specs.Translation.{encoded, first_unfit};
ghost use Rattle.rebuild_image.specs.Fronts.{HoldsAppended};

use crate::fronts::range_behind;
use crate::ranges::ByteRange;
use elf_types::{Class, ElfError, Order};
use elf_xlate::Items;
use strtab_shared::bytes::SharedBytes;

/// Appends items that fit the class in their file form, and returns their range. It fails with
/// `Memory` alone.
///
/// Source: gelf_xlatetof of gelf(3E).
pub fn hold_items(
    held: &mut SharedBytes,
    class: Class,
    order: Order,
    items: &Items,
) -> Result<ByteRange, ElfError>
    requires { first_unfit class items.now ≡ None }
    ensures ok { IfOk result (HoldsAppended (encoded class order items.now) held.old held.new) }
    ensures err { IfErr result (λ e. e ≡ Memory) }
{
    let at = held.len();
    match held.append_items(class, order, items) {
        Ok(()) => Ok(range_behind(held, at)),
        Err(e) => Err(e),
    }
}

/// Appends bytes that are shared, and returns their range: their text is held, and not what comes
/// of it. It fails with `Memory` alone; what a refusal leaves of what is held is not stated.
pub fn hold_shared(held: &mut SharedBytes, bytes: &SharedBytes) -> Result<ByteRange, ElfError>
    ensures ok { IfOk result (HoldsAppended bytes.now held.old held.new) }
    ensures err { IfErr result (λ e. e ≡ Memory) }
{
    let at = held.len();
    match held.append_shared(bytes) {
        Ok(()) => Ok(range_behind(held, at)),
        Err(e) => Err(e),
    }
}
