//! The members of a group.

ghost use Rattle.std.specs.Prelude.{◌≡◌, ◌++◌, [], true, OnOk, IfOk, IfErr};
ghost use Rattle.elf_types.specs.declared.errors.ElfError.TheVariants.{Memory};
ghost use Rattle.rebuild_select.specs.rebuild_model.Followed as rules;
ghost use Rattle.rebuild_select.specs.rebuild_model.Followed.{is_section_number};
ghost use Rattle.rebuild_numbers.specs.Rows.{renumbered_members, added_word};

use crate::numbering::Numbering;
use elf_types::{ElfError, List, Words};
use std::alloc::Global;

/// Appends the member that a section's number becomes, if its section stays.
fn add_renumbered(numbering: &Numbering, n: u32, members: &mut Words) -> Result<(), ElfError>
    requires { is_section_number numbering.now n ≡ true }
    ensures ok { OnOk result (members.new
        ≡ members.old ++ renumbered_members (rules.renumbered numbering.now n)) }
    ensures err { IfErr result (λ e. e ≡ Memory) }
{
    match numbering.renumbered(n) {
        Some(number) => members.push(number),
        None => Ok(()),
    }
}

/// Appends the member that a member becomes: that of a removed section goes out.
fn add_member(numbering: &Numbering, n: u32, members: &mut Words) -> Result<(), ElfError>
    ensures ok { OnOk result (members.new
        ≡ members.old ++ rules.followed_member numbering.now n) }
    ensures err { IfErr result (λ e. e ≡ Memory) }
{
    if numbering.is_section_number(n) {
        return add_renumbered(numbering, n, members);
    }
    members.push(n)
}

/// Appends what a word of a group becomes: the first one are its flags.
fn add_word(numbering: &Numbering, i: usize, word: u32, members: &mut Words) -> Result<(), ElfError>
    ensures ok { OnOk result (members.new ≡ members.old ++ added_word numbering.now i word) }
    ensures err { IfErr result (λ e. e ≡ Memory) }
{
    if i == 0 {
        return members.push(word);
    }
    add_member(numbering, word, members)
}

/// Appends the words of a group: its flags, and the members that are left.
fn fill_group(numbering: &Numbering, words: &[u32], members: &mut Words) -> Result<(), ElfError>
    requires { members.old ≡ [] }
    ensures ok { OnOk result (members.new ≡ rules.followed_group numbering.now words.now) }
    ensures err { IfErr result (λ e. e ≡ Memory) }
{
    for (i, word) in words.iter().enumerate() {
        add_word(numbering, i, *word, members)?;
    }
    Ok(())
}

/// The words of a group, its flags and then its members, which follow the new numbers; one of a
/// removed section goes out. It fails with `Memory` alone.
///
/// Source: gABI chapter 4, "Section Groups".
pub fn followed_group(
    alloc: Global,
    numbering: &Numbering,
    words: &[u32],
) -> Result<Words, ElfError>
    ensures ok { IfOk result (λ members. members
        ≡ rules.followed_group numbering.now words.now) }
    ensures err { IfErr result (λ e. e ≡ Memory) }
{
    let mut members = List::with_capacity(alloc, words.len() as u64)?;
    fill_group(numbering, words, &mut members)?;
    Ok(members)
}
