//! Sections by their names.

ghost use Rattle.std.specs.Prelude.{◌≡◌, ◌&&◌, ◌||◌, ◌==◌, not, ℕ, List, false, true, OnOk, IfErr};
ghost use Rattle.std.specs.Str.{bytes_eq};
ghost use Rattle.elf_types.specs.declared.errors.ElfError.TheVariants.{Memory};
ghost use Rattle.rebuild_select.specs.Sought.Names.{is_sought};
ghost use Rattle.rebuild_select.specs.Sought.Rows.{stands_under, IsFirstUnderName};

use crate::sought::names::NameSet;
use elf_types::ElfError;
use std::alloc::Global;
use std::collections::BTreeSet;

/// A section under a name.
#[derive(Clone, Copy, PartialEq, Eq, PartialOrd, Ord)]
pub struct NamedSection<'a> {
    /// The name.
    pub name: &'a [u8],
    /// The section's number.
    pub section: u32,
}

/// Sections by their names, of which some are looked for: the others are not kept.
#[derive(Drop)]
pub struct NameIndex<'a> {
    sought: NameSet<'a>,
    rows: BTreeSet<NamedSection<'a>>,
}

impl<'a> NameIndex<'a> {
    /// No sections, and the names that are looked for. It takes no memory.
    pub fn new(alloc: Global, sought: NameSet<'a>) -> NameIndex<'a>
        ensures sought { result.sought ≡ sought.entry }
        ensures none { (q : List ℕ) (t : ℕ) → stands_under result q t ≡ false }
    {
        let rows = BTreeSet::new(alloc);
        NameIndex { sought, rows }
    }

    /// Puts a section under one of the names that are looked for.
    fn insert(&mut self, name: &'a [u8], s: u32) -> Result<(), ElfError>
        ensures sought { self.new.sought ≡ self.old.sought }
        ensures ok { OnOk result ((q : List ℕ) (t : ℕ) → stands_under self.new q t
            ≡ ((bytes_eq name.now q && s == t) || stands_under self.old q t)) }
        ensures err { IfErr result (λ e. e ≡ Memory) }
    {
        self.rows.insert(NamedSection { name, section: s })?;
        Ok(())
    }

    /// Puts a section under its name, where that is looked for. It fails with `Memory` alone.
    pub fn put(&mut self, name: &[u8], s: u32) -> Result<(), ElfError>
        ensures sought { self.new.sought ≡ self.old.sought }
        ensures ok { OnOk result ((q : List ℕ) (t : ℕ) → is_sought self.old.sought q ≡ true
            → stands_under self.new q t
            ≡ ((bytes_eq name.now q && s == t) || stands_under self.old q t)) }
        ensures err { IfErr result (λ e. e ≡ Memory) }
    {
        match self.sought.find(name) {
            Some(one) => self.insert(one, s),
            None => Ok(()),
        }
    }

    /// Takes a section from under a name. It takes no memory.
    pub fn remove(&mut self, name: &'a [u8], s: u32)
        ensures sought { self.new.sought ≡ self.old.sought }
        ensures removed { (q : List ℕ) (t : ℕ) → stands_under self.new q t
            ≡ (not (bytes_eq name.now q && s == t) && stands_under self.old q t) }
    {
        self.rows.remove(&NamedSection { name, section: s });
    }

    /// Takes all sections from under their names. What is looked for stays. It takes no memory.
    pub fn clear(&mut self)
        ensures sought { self.new.sought ≡ self.old.sought }
        ensures none { (q : List ℕ) (t : ℕ) → stands_under self.new q t ≡ false }
    {
        self.rows.clear();
    }

    /// The first section under a name. It takes no memory.
    pub fn find(&self, name: &'a [u8]) -> Option<u32>
        ensures { IsFirstUnderName self.now name.now result }
    {
        let from = NamedSection { name, section: 0 };
        match self.rows.range(from..).next() {
            Some(row) => {
                if row.name == name {
                    return Some(row.section);
                }
                None
            }
            None => None,
        }
    }
}
