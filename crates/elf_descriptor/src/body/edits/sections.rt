//! Sections that are added.

ghost use Rattle.std.specs.Prelude.{◌≡◌, ◌≢◌, ◌<◌, ◌≤◌, ℕ, List, Option, length, nat_le, OnOk, OnErr, IfOk, IfErr};
ghost use Rattle.elf_types.specs.Answers.{answered, refused_if, IsRefusal};
ghost use Rattle.elf_types.specs.declared.constants.TheConstants.{MAX_SECTIONS};
ghost use Rattle.elf_types.specs.declared.errors.ElfError.TheVariants.{Memory, TooMany};
ghost use Rattle.section_table.specs.elf_object.Steps.{new_number};
ghost use Rattle.section_table.specs.elf_object.Words.{result_map};
ghost use Rattle.section_table.specs.elf_object.Calls as calls;
ghost use Rattle.elf_descriptor.specs.Views.{HasCounts, object_of, ready_of};
ghost use Rattle.elf_descriptor.specs.Edits.{IsGrown, IsStated, IsStepped, new_scns, section_number, with_added};

use crate::body::Body;
use elf_types::constants::MAX_SECTIONS;
use elf_types::{Class, ElfError, ScnId};
use section_table::Sections;
use std::alloc::Global;

/// So many new sections, numbered from 0 on. It fails with `Memory` alone.
fn first_scns(alloc: Global, class: Class, count: u32) -> Result<Sections, ElfError>
    requires { count ≤ MAX_SECTIONS }
    ensures ok { IfOk result (λ l. l ≡ new_scns 0 count) }
    ensures err { IfErr result (λ e. e ≡ Memory) }
{
    let mut sections = Sections::new(alloc, class);
    for number in 0..count {
        sections.push_new()?;
    }
    Ok(sections)
}

impl Body {
    /// Gives an object without sections these.
    fn set_sections(&mut self, sections: Sections, count: u32)
        requires counts { HasCounts self.old }
        requires none { length self.old.sections ≡ 0 }
        requires made { sections ≡ new_scns 0 count }
        ensures { IsGrown (with_added count) self.old self.new }
    {
        self.header.shnum = count;
        self.sections = sections;
        self.ready = false;
    }

    /// Gives an object without sections so many. It fails with `Memory` alone.
    fn begin_sections(&mut self, alloc: Global, count: u32) -> Result<(), ElfError>
        requires counts { HasCounts self.old }
        requires none { length self.old.sections ≡ 0 }
        requires few { count ≤ MAX_SECTIONS }
        ensures grown { OnOk result (IsGrown (with_added count) self.old self.new) }
        ensures unchanged { OnErr result (self.new ≡ self.old) }
        ensures err { IfErr result (λ e. e ≡ Memory) }
    {
        match first_scns(alloc, self.header.class, count) {
            Ok(sections) => {
                self.set_sections(sections, count);
                Ok(())
            }
            Err(e) => Err(e),
        }
    }

    /// Adds a new section at the end. It fails with `Memory` alone.
    fn add_section(&mut self) -> Result<(), ElfError>
        requires counts { HasCounts self.old }
        requires room { length self.old.sections < MAX_SECTIONS }
        ensures grown { OnOk result (IsGrown (with_added 1) self.old self.new) }
        ensures unchanged { OnErr result (IsStepped (λ o. o) (ready_of self.old) self.old self.new) }
        ensures err { IfErr result (λ e. e ≡ Memory) }
    {
        if let Err(e) = self.sections.push_new() {
            return Err(e);
        }
        self.header.shnum += 1;
        self.ready = false;
        Ok(())
    }

    /// Whether there is room for a section more; else `TooMany`.
    fn check_room(&self) -> Result<(), ElfError>
        requires { HasCounts self.now }
        ensures answer { result ≡ answered (refused_if
            (nat_le MAX_SECTIONS (length self.now.sections)) TooMany) tt }
        ensures room { OnOk result (length self.now.sections < MAX_SECTIONS) }
        ensures err { IfErr result IsRefusal }
    {
        if u64::from(self.header.shnum) >= MAX_SECTIONS {
            return Err(ElfError::TooMany);
        }
        Ok(())
    }

    /// Adds sections 0 and 1 to an object without sections, and returns 1. It fails with `Memory`
    /// alone.
    fn newscn_first(&mut self, alloc: Global) -> Result<u32, ElfError>
        requires counts { HasCounts self.old }
        requires none { length self.old.sections ≡ 0 }
        ensures value { IfOk result (λ s. s ≡ 1) }
        ensures grown { OnOk result (IsGrown (with_added 2) self.old self.new) }
        ensures unchanged { OnErr result (IsStepped (λ o. o) (ready_of self.old) self.old self.new) }
        ensures err { IfErr result (λ e. e ≡ Memory) }
    {
        match self.begin_sections(alloc, 2) {
            Ok(()) => Ok(1),
            Err(e) => Err(e),
        }
    }

    /// Adds a section at the end, and returns its number. It fails with `Memory` alone.
    fn newscn_next(&mut self) -> Result<u32, ElfError>
        requires counts { HasCounts self.old }
        requires room { length self.old.sections < MAX_SECTIONS }
        ensures value { IfOk result (λ s. s ≡ length self.old.sections) }
        ensures grown { OnOk result (IsGrown (with_added 1) self.old self.new) }
        ensures unchanged { OnErr result (IsStepped (λ o. o) (ready_of self.old) self.old self.new) }
        ensures err { IfErr result (λ e. e ≡ Memory) }
    {
        let number = self.header.shnum;
        match self.add_section() {
            Ok(()) => Ok(number),
            Err(e) => Err(e),
        }
    }

    /// Adds a section at the end, and section 0 before it where there is none; it returns the
    /// section's number. It fails with `Memory` alone.
    #[tactic(auto, using(crate::proofs::EditSections::first_or_next))]
    fn newscn_there(&mut self, alloc: Global) -> Result<u32, ElfError>
        requires counts { HasCounts self.old }
        requires room { length self.old.sections < MAX_SECTIONS }
        ensures value { (image : Option (List ℕ)) (size : ℕ)
            → IfOk result (λ s. s ≡ new_number (object_of image size self.old)) }
        ensures grown { OnOk result (IsGrown calls.newscn.after self.old self.new) }
        ensures unchanged { OnErr result (IsStepped (λ o. o) (ready_of self.old) self.old self.new) }
        ensures err { IfErr result (λ e. e ≡ Memory) }
    {
        if self.header.shnum == 0 {
            self.newscn_first(alloc)
        } else {
            self.newscn_next()
        }
    }

    /// Adds a section; else `TooMany`, then `Memory`.
    pub fn newscn(&mut self, alloc: Global) -> Result<ScnId, ElfError>
        requires { HasCounts self.old }
        ensures answer { (image : Option (List ℕ)) (size : ℕ)
            → IsStated (result_map section_number result)
            (calls.newscn.answer (object_of image size self.old)) }
        ensures grown { OnOk result (IsGrown calls.newscn.after self.old self.new) }
        ensures unchanged { OnErr result (IsStepped (λ o. o) (ready_of self.old) self.old self.new) }
    {
        if let Err(e) = self.check_room() {
            return Err(e);
        }
        match self.newscn_there(alloc) {
            Ok(s) => Ok(ScnId(s)),
            Err(e) => Err(e),
        }
    }

    /// Adds section 0 to an object without sections; another stays as it is. It fails with `Memory`
    /// alone.
    pub fn newnull(&mut self, alloc: Global) -> Result<(), ElfError>
        requires { HasCounts self.old }
        ensures first { length self.old.sections ≡ 0
            → OnOk result (IsGrown (with_added 1) self.old self.new) }
        ensures same { length self.old.sections ≢ 0 → self.new ≡ self.old }
        ensures unchanged { OnErr result (self.new ≡ self.old) }
        ensures wants { OnErr result (length self.old.sections ≡ 0) }
        ensures err { IfErr result (λ e. e ≡ Memory) }
    {
        if self.header.shnum != 0 {
            return Ok(());
        }
        self.begin_sections(alloc, 1)
    }
}
