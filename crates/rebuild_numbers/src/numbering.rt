//! The map from old section numbers to new ones.

ghost use Rattle.std.specs.Prelude.{◌≡◌, ◌+◌, ◌^◌, ◌<◌, ◌≤◌, false, true, IfOk, IfErr, IfSome, OnOk, [], length, slice_index, if◌then◌else◌};
ghost use Rattle.elf_types.specs.declared.errors.ElfError.TheVariants.{Memory};
ghost use Rattle.rebuild_select.specs.elf_object.Sections.{is_among, number_or_0};
ghost use Rattle.rebuild_select.specs.rebuild_model.Followed.{is_section_number, renumbered, followed};
ghost use Rattle.rebuild_numbers.specs.Numbers.{IsNumbering, numbering_of, numbering_without, numbers_without};

use elf_types::{ElfError, List, Words};
use rebuild_select::SectionSet;
use std::alloc::Global;
use std::marker::Model;

/// The map from old section numbers to new ones, which contracts see as the numbers that are kept.
/// It has a number for each old section, and 0 for one that is removed.
#[derive(Drop)]
pub struct Numbering {
    numbers: Words,
}

impl Model for Numbering {
    ghost use Rattle.rebuild_select.specs.rebuild_model.Followed.{Renumbering};

    ghost Value = { Renumbering };

    ghost use Rattle.rebuild_numbers.specs.Numbers.{numbering_of, IsNumbering};

    ghost view = { λ n. numbering_of n.numbers };

    ghost invariant = { λ n. IsNumbering n.numbers };
}

/// The map of these numbers. It takes no memory.
fn from_numbers(numbers: Words) -> Numbering
    requires { IsNumbering numbers }
    ensures { result ≡ numbering_of numbers }
{
    Numbering { numbers }
}

impl Numbering {
    /// The map of so many sections without the removed ones; section 0 stays. It fails with
    /// `Memory` alone.
    pub fn without(alloc: Global, count: u32, removed: &SectionSet) -> Result<Numbering, ElfError>
        requires { is_among removed.now 0 ≡ false }
        ensures ok { IfOk result (λ m. m ≡ numbering_without count removed.now) }
        ensures err { IfErr result (λ e. e ≡ Memory) }
    {
        let mut numbers = List::new(alloc);
        match fill_numbers(count, removed, &mut numbers) {
            Ok(()) => Ok(from_numbers(numbers)),
            Err(e) => Err(e),
        }
    }

    /// Whether a number is that of an old section from 1 on. It takes no memory.
    pub fn is_section_number(&self, n: u32) -> bool
        ensures { result ≡ is_section_number self.now n }
    {
        is_numbered(&self.numbers, n)
    }

    /// The new number of an old section from 1 on, or None where that is removed. It takes no
    /// memory.
    pub fn renumbered(&self, n: u32) -> Option<u32>
        requires { is_section_number self.now n ≡ true }
        ensures value { result ≡ renumbered self.now n }
        ensures below { IfSome result (λ number. number ≤ n) }
    {
        new_number(&self.numbers, n)
    }

    /// The new number of an old section from 1 on, or 0 where that is removed.
    fn number_or_0(&self, n: u32) -> u32
        requires { is_section_number self.now n ≡ true }
        ensures { result ≡ number_or_0 (renumbered self.now n) }
    {
        match self.renumbered(n) {
            Some(number) => number,
            None => 0,
        }
    }

    /// The number that an old number becomes: that of a removed section 0, and one that is no
    /// section's stays. It takes no memory.
    pub fn followed(&self, n: u32) -> u32
        ensures { result ≡ followed self.now n }
    {
        if self.is_section_number(n) {
            return self.number_or_0(n);
        }
        n
    }
}

/// The number at an index that is there.
fn number_at(numbers: &Words, n: u32) -> u32
    requires { n < length numbers.now }
    ensures { result ≡ slice_index numbers.now n }
{
    numbers.as_slice()[n as usize]
}

/// Whether a number is that of a section from 1 on.
#[tactic(auto, unfolding(rebuild_select::specs::Passed::is_section_number, crate::specs::Numbers::numbering_of))]
fn is_numbered(numbers: &Words, n: u32) -> bool
    ensures { result ≡ is_section_number (numbering_of numbers.now) n }
{
    n != 0 && u64::from(n) < numbers.len()
}

/// The new number of a section from 1 on, or None where that is removed.
fn new_number(numbers: &Words, n: u32) -> Option<u32>
    requires numbering { IsNumbering numbers.now }
    requires section { is_section_number (numbering_of numbers.now) n ≡ true }
    ensures value { result ≡ renumbered (numbering_of numbers.now) n }
    ensures below { IfSome result (λ number. number ≤ n) }
{
    let number = number_at(numbers, n);
    if number == 0 {
        return None;
    }
    Some(number)
}

/// The number that a section gets: 0 where it goes, and else the next one.
fn number_unless(gone: bool, next: u32) -> u32
    ensures { result ≡ if gone then 0 else next }
{
    if gone { 0 } else { next }
}

/// The next number after a section, which goes or gets the next number itself.
fn next_unless(gone: bool, next: u32) -> u32
    requires { next + 1 < 2 ^ 32 }
    ensures { result ≡ if gone then next else next + 1 }
{
    if gone { next } else { next + 1 }
}

/// The new number of each of so many sections. It fails with `Memory` alone.
fn fill_numbers(count: u32, removed: &SectionSet, numbers: &mut Words) -> Result<(), ElfError>
    requires { numbers.old ≡ [] }
    ensures ok { OnOk result (numbers.new ≡ numbers_without removed.now count) }
    ensures err { IfErr result (λ e. e ≡ Memory) }
{
    let mut next = 0;
    for s in 0..count {
        let gone = removed.contains(s);
        numbers.push(number_unless(gone, next))?;
        next = next_unless(gone, next);
    }
    Ok(())
}
