//! Translation between the two byte orders.

ghost use Rattle.elf_xlate.specs.Translation.{decoded};
ghost use Rattle.c_calls.specs.Translation.Numbers.{kind_from, class_from, order_from};
ghost use Rattle.c_calls.specs.Translation.Translations.{Translates};

use c_calls::translation::{class_from, kind_from, order_from, translate};

/// Reads bytes as items of a kind in one byte order, and puts them in their place in another. The
/// numbers are those of `elfkit_kind`, of `e_ident[EI_CLASS]` and of `e_ident[EI_DATA]`; a kind
/// that is none of 2 to 8 stands for bytes, a class that is not 1 for class 64, an order that is
/// not 2 for the least byte first. It fails with `Ragged` where the size of an item does not divide
/// the number of bytes; the bytes stay then. It takes no memory.
///
/// Source: gABI chapter 4, "Data Representation"; gelf_xlatetom and gelf_xlatetof of gelf(3E).
#[unsafe(no_mangle)]
pub extern "C" fn elfkit_translate(
    kind: u32,
    class: u32,
    from: u32,
    to: u32,
    bytes: &mut [u8],
) -> u32
    ensures { Translates (class_from class) (order_from to)
        (decoded (kind_from kind) (class_from class) (order_from from) bytes.old) result
        bytes.old bytes.new }
{
    let kind = kind_from(kind);
    let class = class_from(class);
    let from = order_from(from);
    let to = order_from(to);
    translate(kind, class, from, to, bytes)
}
