//! Changes, of which no name that a section gets holds a NUL byte.

ghost use Rattle.std.specs.Prelude.{◌≡◌, ◌∷◌, [], OnOk, IfOk};
ghost use Rattle.rebuild_changes.specs.Stated.{HasPlainNames};

use elf_copy::{ChangeLists, NameBits, NameBytes};
use elf_types::{ElfError, List, Octets};
use std::alloc::Global;
use tool_text::Args;

/// No changes.
fn no_changes(alloc: Global) -> ChangeLists
    ensures update { result.update ≡ [] }
    ensures rename { result.rename ≡ [] }
    ensures add { result.add ≡ [] }
{
    ChangeLists {
        remove: Args::new(alloc),
        update: List::new(alloc),
        rename: List::new(alloc),
        flags: List::new(alloc),
        add: List::new(alloc),
    }
}

/// Puts a name and bytes alone into a list. It fails with `Memory`.
fn put_alone(
    list: &mut List<NameBytes>,
    alloc: Global,
    name: &[u8],
    bytes: &[u8],
) -> Result<(), ElfError>
    requires { list.old ≡ [] }
    ensures { OnOk result (list.new ≡ (record { name = name.now; bytes = bytes.now } ∷ [])) }
{
    let name = Octets::from_slice(alloc, name)?;
    let bytes = Octets::from_slice(alloc, bytes)?;
    list.push(NameBytes { name, bytes })?;
    Ok(())
}

/// Puts the flags of a section into a list. It fails with `Memory`.
fn put_flags(
    list: &mut List<NameBits>,
    alloc: Global,
    name: &[u8],
    bits: u64,
) -> Result<(), ElfError> {
    match Octets::from_slice(alloc, name) {
        Ok(name) => list.push(NameBits { name, bits }),
        Err(e) => Err(e),
    }
}

/// Puts other bytes for one section, and other flags for one.
fn put_both(
    changes: &mut ChangeLists,
    alloc: Global,
    update: (&[u8], &[u8]),
    flags: (&[u8], u64),
) -> Result<(), ElfError>
    requires { changes.old.update ≡ [] }
    ensures rename { changes.new.rename ≡ changes.old.rename }
    ensures add { changes.new.add ≡ changes.old.add }
{
    put_alone(&mut changes.update, alloc, update.0, update.1)?;
    put_flags(&mut changes.flags, alloc, flags.0, flags.1)
}

/// Other bytes for one section, and other flags for one. It fails with `Memory`.
pub fn bytes_and_flags(
    alloc: Global,
    update: (&[u8], &[u8]),
    flags: (&[u8], u64),
) -> Result<ChangeLists, ElfError>
    ensures { IfOk result HasPlainNames }
{
    let mut changes = no_changes(alloc);
    match put_both(&mut changes, alloc, update, flags) {
        Ok(()) => Ok(changes),
        Err(e) => Err(e),
    }
}

/// Puts a change of each kind.
#[tactic(auto, unfolding(rebuild_changes::specs::Names::is_section_name))]
fn put_each_kind(changes: &mut ChangeLists, alloc: Global) -> Result<(), ElfError>
    requires update { changes.old.update ≡ [] }
    requires rename { changes.old.rename ≡ [] }
    requires add { changes.old.add ≡ [] }
    ensures { OnOk result (HasPlainNames changes.new) }
{
    changes.remove.add(".bss")?;
    put_alone(&mut changes.update, alloc, b".data", b"other")?;
    put_alone(&mut changes.rename, alloc, b".text", b".code")?;
    put_flags(&mut changes.flags, alloc, b".data", 3)?;
    put_alone(&mut changes.add, alloc, b".note", b"added")?;
    Ok(())
}

/// A change of each kind: `.bss` goes, `.data` gets other bytes and flags, `.text` becomes `.code`,
/// and `.note` is added. It fails with `Memory`.
pub fn of_each_kind(alloc: Global) -> Result<ChangeLists, ElfError>
    ensures { IfOk result HasPlainNames }
{
    let mut changes = no_changes(alloc);
    match put_each_kind(&mut changes, alloc) {
        Ok(()) => Ok(changes),
        Err(e) => Err(e),
    }
}
