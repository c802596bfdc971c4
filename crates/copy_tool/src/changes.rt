//! The changes that arguments ask for, as the library takes them.

ghost use Rattle.std.specs.Prelude.{◌≡◌, map, IfOk, IfErr};
ghost use Rattle.elf_types.specs.declared.errors.ElfError.TheVariants.{Memory};
ghost use Rattle.rebuild_changes.specs.Names.{HasNames};
ghost use Rattle.rebuild_files.specs.elfkit_outcomes.Copy.{changes_with};
ghost use Rattle.rebuild_changes.specs.Stated.{bits_pair, stated_changes, HasPlainNames};
ghost use Rattle.copy_tool.specs.Files.{named_bytes, pairs, byte_names, file_names};
ghost use Rattle.copy_tool.specs.Words.{named_flags};

use elf_types::{ElfError, List, Octets};
use rebuild_changes::{ChangeLists, CopyChanges, NameBits, NameBytes, NamedBits, Renaming};
use std::alloc::Global;
use tool_text::{Args, Text};

/// A copy of names. It fails with `Memory` alone.
fn copied_names(alloc: Global, names: &[Text]) -> Result<Args, ElfError>
    ensures ok { IfOk result (λ copy. copy ≡ names.now) }
    ensures err { IfErr result (λ e. e ≡ Memory) }
{
    let mut copy = Args::new(alloc);
    for name in names {
        copy.add(name.as_str())?;
    }
    Ok(copy)
}

/// A new name of a section. It fails with `Memory` alone.
fn renaming(alloc: Global, each: &Renaming) -> Result<NameBytes, ElfError>
    ensures ok { IfOk result (λ n. n ≡ named_bytes each.now.old each.now.new) }
    ensures err { IfErr result (λ e. e ≡ Memory) }
{
    let name = Octets::from_slice(alloc, each.old.as_bytes())?;
    let bytes = Octets::from_slice(alloc, each.new.as_bytes())?;
    Ok(NameBytes { name, bytes })
}

/// The new names of sections. It fails with `Memory` alone.
fn renamings(alloc: Global, each: &[Renaming]) -> Result<List<NameBytes>, ElfError>
    ensures ok { IfOk result (λ list. pairs list ≡ map (λ r. (r.old, r.new)) each.now) }
    ensures err { IfErr result (λ e. e ≡ Memory) }
{
    let mut list = List::new(alloc);
    for one in each {
        let item = renaming(alloc, one)?;
        list.push(item)?;
    }
    Ok(list)
}

/// New flags of a section. It fails with `Memory` alone.
fn flags_of(alloc: Global, each: &NamedBits) -> Result<NameBits, ElfError>
    ensures ok { IfOk result (λ n. n ≡ named_flags each.now.name each.now.bits) }
    ensures err { IfErr result (λ e. e ≡ Memory) }
{
    let name = Octets::from_slice(alloc, each.name.as_bytes())?;
    Ok(NameBits {
        name,
        bits: each.bits,
    })
}

/// The new flags of sections. It fails with `Memory` alone.
fn flags_of_each(alloc: Global, each: &[NamedBits]) -> Result<List<NameBits>, ElfError>
    ensures ok { IfOk result (λ list.
        map bits_pair list ≡ map (λ f. (f.name, f.bits)) each.now) }
    ensures err { IfErr result (λ e. e ≡ Memory) }
{
    let mut list = List::new(alloc);
    for one in each {
        let item = flags_of(alloc, one)?;
        list.push(item)?;
    }
    Ok(list)
}

/// The changes of the arguments, with the bytes of the files of `-u` and of `-a`, each under the
/// name of its section. It fails with `Memory` alone.
pub(crate) fn changes_of(
    alloc: Global,
    words: &CopyChanges,
    update: List<NameBytes>,
    add: List<NameBytes>,
) -> Result<ChangeLists, ElfError>
    requires names { HasNames words.now }
    requires added { byte_names add ≡ file_names words.now.add }
    ensures ok { IfOk result (λ changes.
        stated_changes changes ≡ changes_with words.now (pairs update) (pairs add)) }
    ensures plain { IfOk result HasPlainNames }
    ensures err { IfErr result (λ e. e ≡ Memory) }
{
    let remove = copied_names(alloc, words.remove.as_slice())?;
    let rename = renamings(alloc, words.rename.as_slice())?;
    let flags = flags_of_each(alloc, words.flags.as_slice())?;
    Ok(ChangeLists {
        remove,
        update,
        rename,
        flags,
        add,
    })
}
