//! Strings.

ghost use Rattle.std.specs.Prelude.{◌≡◌, true, ℕ, List, length};
ghost use Rattle.elf_object.specs.Strings as strings;
ghost use Rattle.elf_descriptor.specs.Reads.{wanted};
ghost use Rattle.c_records.specs.Gives.{GivesRead};
ghost use Rattle.elfkit_c.specs.Handles.{Holds};

use c_calls::reading::give_string;
use c_handles::objects::Handle;
use elf_types::ScnId;
use std::alloc::Global;

/// The number of bytes of the string at an offset of a section, without its NUL. It fails with, in
/// this order: `NoSection`, `NotStrings`, `OutOfFile`, `NoString`; then `Memory`, and `Unended`.
///
/// Besides C's usual part: the handle holds an object.
///
/// Source: gABI chapter 4, "String Table"; elf_strptr of elf(3E).
#[unsafe(no_mangle)]
pub extern "C" fn elfkit_string(
    alloc: Global,
    h: &mut Handle,
    section: u32,
    offset: u64,
    out: &mut u64,
) -> u32
    requires { h.old.full ≡ true }
    ensures gives { GivesRead (λ (text : List ℕ). length text)
        (wanted (strings.strptr section offset) h.old.held.elf)
        ((strings.strptr section offset).answer h.old.held.elf.o) result out.old out.new }
    ensures holds { Holds h.old h.new }
{
    let mut object = h.take(alloc);
    let number = give_string(object.as_mut(), ScnId(section), offset, out);
    h.put(object);
    number
}
