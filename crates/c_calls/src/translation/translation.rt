//! Translation of items.

ghost use Rattle.std.specs.Prelude.{◌≢◌};
ghost use Rattle.elf_types.specs.declared.records.Kind.TheVariants as kinds;
ghost use Rattle.elf_xlate.specs.Translation.{decoded};
ghost use Rattle.c_calls.specs.Translation.Translations.{Translates};

use c_records::code_of;
use elf_types::{Class, ElfError, Kind, Order};
use elf_xlate::translate_in_place;

/// Reads bytes as items of a kind in the order `from`, and puts them in their place in the order
/// `to`. It fails with `Ragged` where the size of an item does not divide the number of bytes; the
/// bytes stay then. It takes no memory.
///
/// Source: gABI chapter 4, "Data Representation"; gelf_xlatetom and gelf_xlatetof of gelf(3E).
pub fn translate(kind: Kind, class: Class, from: Order, to: Order, bytes: &mut [u8]) -> u32
    requires { kind ≢ kinds.Empty }
    ensures { Translates class to (decoded kind class from bytes.old) result bytes.old bytes.new }
{
    match translate_in_place(kind, class, from, to, bytes) {
        Ok(()) => 0,
        Err(_) => code_of(ElfError::Ragged { section: 0 }),
    }
}
