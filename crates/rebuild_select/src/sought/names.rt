//! Names that are looked for.

ghost use Rattle.std.specs.Prelude.{◌≡◌, ◌||◌, ℕ, List, [], is_some, OnOk, IfErr, IfSome};
ghost use Rattle.std.specs.Str.{bytes_eq};
ghost use Rattle.elf_types.specs.declared.errors.ElfError.TheVariants.{Memory};
ghost use Rattle.rebuild_select.specs.Sought.Names.{is_sought, AreUpTo};

use elf_types::ElfError;
use std::alloc::Global;
use std::collections::BTreeSet;
use std::marker::Model;

/// Names that are looked for, where they are: each once, by its bytes.
#[derive(Drop)]
pub struct NameSet<'a> {
    names: BTreeSet<&'a [u8]>,
    /// None of them is longer.
    longest: usize,
}

impl<'a> Model for NameSet<'a> {
    ghost use Rattle.std.specs.Prelude.{List, ℕ};
    ghost use Rattle.rebuild_select.specs.Sought.Names.{lent_names, AreUpTo};

    ghost Value = { List (List ℕ) };

    ghost view = { λ s. lent_names s.names.keys };

    ghost invariant = { λ s. AreUpTo s.longest (lent_names s.names.keys) };
}

impl<'a> NameSet<'a> {
    /// No names. It takes no memory.
    pub fn new(alloc: Global) -> NameSet<'a>
        ensures { result ≡ [] }
    {
        let names = BTreeSet::new(alloc);
        NameSet { names, longest: 0 }
    }

    /// Adds a name, which may be one of them. It fails with `Memory` alone.
    pub fn add(&mut self, name: &'a [u8]) -> Result<(), ElfError>
        ensures ok { OnOk result ((q : List ℕ) → is_sought self.new q
            ≡ (bytes_eq name.now q || is_sought self.old q)) }
        ensures err { IfErr result (λ e. e ≡ Memory) }
    {
        self.names.insert(name)?;
        self.longest = self.longest.max(name.len());
        Ok(())
    }

    /// Whether a name is one of them. It takes no memory.
    pub fn has(&self, name: &[u8]) -> bool
        ensures { result ≡ is_sought self.now name.now }
    {
        self.names.contains(name)
    }

    /// The one of them that is this name, if one is. It takes no memory.
    pub fn find(&self, name: &[u8]) -> Option<&'a [u8]>
        ensures found { is_some result ≡ is_sought self.now name.now }
        ensures same { IfSome result (λ one. one.now ≡ name.now) }
    {
        match self.names.get(name) {
            Some(one) => Some(*one),
            None => None,
        }
    }

    /// A length that none of them passes. It takes no memory.
    pub fn longest(&self) -> usize
        ensures { AreUpTo result self.now }
    {
        self.longest
    }
}
