//! A name that is added to a table in the making, and its place.

ghost use Rattle.std.specs.Prelude.{◌≡◌, ◌≢◌, ◌∷◌, ◌++◌, [], true, false, None, All, IfOk, IfErr};
ghost use Rattle.elf_types.specs.declared.errors.ElfError.TheVariants.{Memory};
ghost use Rattle.rebuild_names.specs.Names.{is_too_large_error, IsAdded};

use elf_types::{ElfError, Words};
use strtab_shared::SharedStrings;

/// Whether an error says that a table is too large.
fn is_too_large(e: &ElfError) -> bool
    ensures { result ≡ is_too_large_error e.now }
{
    matches!(e, ElfError::TooLarge)
}

/// No place where an error says that a table is too large, and else the error.
fn none_if_too_large(e: ElfError) -> Result<Option<u32>, ElfError>
    ensures none { IfOk result (λ place. (place ≡ None) × (is_too_large_error e ≡ true)) }
    ensures err { IfErr result (λ other. (other ≡ e) × (is_too_large_error e ≡ false)) }
{
    if is_too_large(&e) {
        return Ok(None);
    }
    Err(e)
}

/// Adds a name to a table, which may be at a place of the text that it holds, and returns its place
/// in the table, or None where the table would be too large. It fails with `Memory` alone.
pub(crate) fn add_name(
    strings: &mut SharedStrings,
    name: &[u8],
    near: u64,
) -> Result<Option<u32>, ElfError>
    requires { All (λ b. b ≢ 0) name.now }
    ensures added { IfOk result (IsAdded strings.old strings.new name.now) }
    ensures err { IfErr result (λ e. e ≡ Memory) }
{
    match strings.add(name, near) {
        Ok(place) => Ok(Some(place)),
        Err(e) => none_if_too_large(e),
    }
}
