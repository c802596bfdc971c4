//! Sections get other flags.

ghost use Rattle.std.specs.Prelude.{◌≡◌, ◌==◌, ◌&&◌, not, ℕ, List, All, map, true};
ghost use Rattle.elf_object.specs.Object.{Object};
ghost use Rattle.elf_object.specs.Calls as calls;
ghost use Rattle.elf_object.specs.Sections.{is_allocated, header_at, edited, in_turn};
ghost use Rattle.rebuild_model.specs.Copied.{or_strip, differ, with_bits, flags_fault, with_section_flags};
ghost use Rattle.rebuild_select.specs.Sought.Names.{is_sought};
ghost use Rattle.rebuild_changes.specs.declared.changes.NameBytes.{NameBytes};
ghost use Rattle.rebuild_changes.specs.Stated.{bits_pair};
ghost use Rattle.rebuild_edits.specs.Edits.Names.{names_now};
ghost use Rattle.rebuild_edits.specs.Edits.Edits.{flagged_at};
ghost use Rattle.rebuild_edits.specs.Edits.Steps.{IsPresentSection, IsFaultIf};
ghost use Rattle.rebuild_copy.specs.Rows.{Origin, IsContents, gathered_header};
ghost use Rattle.rebuild_copy.specs.Steps.{always_holds, AltersContents, AltersAt, IsFaultUnread};
ghost use Rattle.rebuild_copy.specs.Indexes.{IsIndexOf};

use crate::edits::set_header;
use crate::finding::find_named;
use crate::rows::header_of;
use elf_types::{ElfError, Part, Shdr};
use elf_xlate::shdr_fits;
use rebuild_changes::{CopyFault, NameBits, fault_fixed};
use rebuild_edits::changes_allocation;
use rebuild_plan::Arranged;
use rebuild_select::sought::NameIndex;
use std::alloc::Global;

/// Whether other flags would load a section of a program, or load it no more.
fn changes_loading(x: &Arranged, s: u32, bits: u64) -> bool
    ensures { result ≡ (not (x.now.listed.header.phnum == 0)
        && differ (is_allocated (gathered_header x.now s))
        (is_allocated (with_bits bits (gathered_header x.now s)))) }
{
    x.listed.header.phnum != 0 && changes_allocation(header_of(x, s), bits)
}

/// Why a section that is there does not get other flags, if it does not.
fn flags_fault(alloc: Global, x: &Arranged, s: u32, change: &NameBits) -> Option<CopyFault>
    ensures fault { (o : Origin) (p : Object) → IsContents o p x.now → IsPresentSection p s
        → IsFaultIf (flags_fault p s change.now.name change.now.bits) result }
    ensures unread { IsFaultUnread result }
{
    if changes_loading(x, s, change.bits) {
        return Some(fault_fixed(alloc, &change.name));
    }
    None
}

/// Stores other flags of a section that is there.
fn put_flags(x: &mut Arranged, s: u32, bits: u64) -> Result<(), CopyFault>
    ensures { AltersAt s always_holds
        (λ p. or_strip (edited (calls.update_shdr s (with_bits bits (header_at p s))) p))
        result x.old x.new }
{
    let h = Shdr {
        flags: bits,
        ..header_of(x, s)
    };
    if !shdr_fits(&h, x.listed.header.class) {
        return Err(CopyFault::Strip(ElfError::Unfit {
            part: Part::Section(s),
            index: 0,
        }));
    }
    set_header(&mut x.listed.headers, s, h);
    Ok(())
}

/// Gives a section that is there other flags.
fn flag_at(alloc: Global, x: &mut Arranged, s: u32, change: &NameBits) -> Result<(), CopyFault>
    ensures { AltersAt s always_holds (λ p. flagged_at p s change.now.name change.now.bits)
        result x.old x.new }
{
    match flags_fault(alloc, x, s, change) {
        None => put_flags(x, s, change.bits),
        Some(fault) => Err(fault),
    }
}

/// Gives the first section of a name other flags.
fn flag_section<'a>(
    alloc: Global,
    x: &mut Arranged,
    index: &NameIndex<'a>,
    change: &'a NameBits,
) -> Result<(), CopyFault>
    requires { is_sought index.now.sought change.now.name ≡ true }
    ensures { (marks : List ℕ) (renames : List NameBytes)
        → AltersContents (λ p. IsIndexOf index.now (names_now p marks renames))
        (λ p. with_section_flags (names_now p marks renames) p (bits_pair change.now))
        result x.old x.new }
{
    match find_named(alloc, index, &change.name) {
        Ok(s) => flag_at(alloc, x, s, change),
        Err(fault) => Err(fault),
    }
}

/// Gives the first section of each name, in turn, the flags that are beside it; names are those by
/// which the index has the sections. It fails with, for each, in this order: `NoSection`, `Fixed`,
/// `Unfit`; and where memory runs out. What a refusal leaves is not stated.
///
/// Source: objcopy(1) of the development tools, `--set-section-flags`.
pub(crate) fn flag_sections<'a>(
    alloc: Global,
    x: &mut Arranged,
    index: &NameIndex<'a>,
    changes: &'a [NameBits],
) -> Result<(), CopyFault>
    requires { All (λ n. is_sought index.now.sought n.name ≡ true) changes.now }
    ensures { (marks : List ℕ) (renames : List NameBytes)
        → AltersContents (λ p. IsIndexOf index.now (names_now p marks renames))
        (λ p. in_turn (with_section_flags (names_now p marks renames)) p
        (map bits_pair changes.now)) result x.old x.new }
{
    for change in changes {
        match flag_section(alloc, x, index, change) {
            Ok(()) => {}
            Err(fault) => return Err(fault),
        }
    }
    Ok(())
}
