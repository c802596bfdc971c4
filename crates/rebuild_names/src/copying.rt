//! A section's name, copied.

ghost use Rattle.std.specs.Prelude.{◌≡◌, ◌≢◌, ◌<◌, ◌==◌, [], length, All, IsTrue, OnOk, IfErr};
ghost use Rattle.std.specs.Option.{option_copied};
ghost use Rattle.std.specs.List.{list_any};
ghost use Rattle.elf_types.specs.declared.errors.ElfError.TheVariants.{Memory};
ghost use Rattle.rebuild_numbers.specs.elf_object.Strings as strings;
ghost use Rattle.rebuild_numbers.specs.rebuild_select.Calls.{ReadsNames};
ghost use Rattle.rebuild_names.specs.Names.{without_nul, found_name};

use elf_types::{ElfError, Octets, ScnId};
use rebuild_numbers::prelude::{Elf, Source, gelf_view_section_name as section_name};

/// Whether there is a NUL in bytes.
fn has_nul(bytes: &[u8]) -> bool
    ensures { result ≡ list_any (λ b. b == 0) bytes.now }
{
    bytes.iter().any(|b| *b == 0)
}

/// Copies a name, and nothing where there is a NUL in it.
fn copy_bytes(name: &[u8], copy: &mut Octets) -> Result<(), ElfError>
    requires { copy.old ≡ [] }
    ensures ok { OnOk result (copy.new ≡ without_nul name.now) }
    ensures err { IfErr result (λ e. e ≡ Memory) }
{
    if has_nul(name) {
        return Ok(());
    }
    copy.extend(name)
}

/// Copies a name that was found, and nothing where there is none.
fn copy_found(name: Option<&[u8]>, copy: &mut Octets) -> Result<(), ElfError>
    requires { copy.old ≡ [] }
    ensures ok { OnOk result (copy.new ≡ found_name (option_copied name.entry)) }
    ensures err { IfErr result (λ e. e ≡ Memory) }
{
    match name {
        Some(name) => copy_bytes(name, copy),
        None => Ok(()),
    }
}

/// Copies the name of a section that is there, and nothing where it has none that can be read. It
/// fails with `Memory`, and `Read` where the names are not loaded. There is no NUL in what is
/// copied.
pub(crate) fn copy_name<S: Source>(
    elf: &mut Elf<S>,
    s: ScnId,
    copy: &mut Octets,
) -> Result<(), ElfError>
    requires there { s.0 < length elf.old.o.sections }
    requires empty { copy.old ≡ [] }
    ensures told { IsTrue elf.old.told → OnOk result
        (copy.new ≡ strings.or_empty_name (strings.section_name elf.old.o s.0)) }
    ensures plain { OnOk result (All (λ b. b ≢ 0) copy.new) }
    ensures reads { ReadsNames S.Source result elf.old elf.new }
{
    match section_name(elf, s) {
        Ok(name) => copy_found(name, copy),
        Err(e) => Err(e),
    }
}
