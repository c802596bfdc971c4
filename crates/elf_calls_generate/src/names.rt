//! Names that are used, one after another, and their places in the table of all of them.

ghost use Rattle.std.specs.Prelude.{◌≡◌, ◌≢◌, ◌≤◌, All, IfOk, IfErr};
ghost use Rattle.rebuild_model.specs.Generated.{numbered_name};
ghost use Rattle.elf_calls_generate.specs.Uses.{UsesName};

use elf_types::{ElfError, Octets, put_decimal, put_text};
use std::alloc::Global;
use strtab_build::Strings;

/// Letters and a number after them. It fails with `Memory` alone.
pub fn numbered_name(alloc: Global, letters: &str, i: u32) -> Result<Octets, ElfError>
    ensures ok { IfOk result (λ name. name ≡ numbered_name letters.now i) }
    ensures err { IfErr result (λ e. e ≡ ElfError.Memory) }
{
    let mut name = Octets::new(alloc);
    if let Err(e) = put_text(&mut name, letters) {
        return Err(e);
    }
    if let Err(e) = put_decimal(&mut name, u64::from(i)) {
        return Err(e);
    }
    Ok(name)
}

/// Uses a name, and returns its place in the table. It fails with `TooLarge` where the table would
/// be too large for four bytes, and `Memory`.
fn use_name(names: &mut Strings, name: &[u8]) -> Result<u32, ElfError>
    requires { All (λ b. b ≢ 0) name.now }
    ensures { UsesName name.now result names.old names.new }
{
    names.add(name)
}

/// Uses a text as `use_name` does.
pub(crate) fn use_text(names: &mut Strings, name: &str) -> Result<u32, ElfError>
    requires { All (λ b. b ≢ 0) name.now }
    ensures { UsesName name.now result names.old names.new }
{
    use_name(names, name.as_bytes())
}

/// Uses letters and a number after them as `use_name` does.
pub(crate) fn use_numbered(
    alloc: Global,
    names: &mut Strings,
    letters: &str,
    i: u32,
) -> Result<u32, ElfError>
    requires whole { All (λ b. b ≢ 0) letters.now }
    requires small { i ≤ 60000 }
    ensures { UsesName (numbered_name letters.now i) result names.old names.new }
{
    match numbered_name(alloc, letters, i) {
        Ok(name) => use_name(names, name.as_slice()),
        Err(e) => Err(e),
    }
}
