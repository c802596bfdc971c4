//! Names that were added before, by where they are in an older table.

ghost use Rattle.std.specs.Prelude.{◌≡◌, ◌<◌, ◌∷◌, ◌++◌, ℕ, [], true, None, length, IfOk, OnOk, IfErr};
ghost use Rattle.elf_types.specs.declared.errors.ElfError.TheVariants.{Memory};
ghost use Rattle.rebuild_numbers.specs.elf_object.Object.{section_at};
ghost use Rattle.rebuild_names.specs.Known.{known_at, KnowsMore};

use elf_types::{ElfError, ScnId, Words};
use rebuild_numbers::prelude::{Elf, Source};
use std::alloc::Global;
use std::collections::BTreeMap;

/// Where names are in a table in the making, by where they are in an older one: a name that many
/// sections share is then looked at once. A place is found in as many steps as their number has
/// digits, whichever they are.
#[derive(Drop)]
pub struct KnownPlaces {
    places: BTreeMap<u32, u32>,
}

impl KnownPlaces {
    /// No places. It takes no memory.
    pub fn new(alloc: Global) -> KnownPlaces
        ensures { (at : ℕ) → known_at result at ≡ None }
    {
        KnownPlaces {
            places: BTreeMap::new(alloc),
        }
    }

    /// The place in the table in the making of the name at a place of the older one, if it is
    /// noted. It takes no memory.
    pub fn find(&self, at: u32) -> Option<u32>
        ensures { result ≡ known_at self.now at }
    {
        self.places.get(&at).copied()
    }

    /// Notes the place in the table in the making of the name at a place of the older one. It fails
    /// with `Memory` alone.
    pub fn note(&mut self, at: u32, place: u32) -> Result<(), ElfError>
        ensures ok { OnOk result (KnowsMore self.old self.new at place) }
        ensures err { IfErr result (λ e. e ≡ Memory) }
    {
        self.places.insert(at, place)?;
        Ok(())
    }
}

/// Appends a place. It fails with `Memory` alone.
pub fn push_place(places: &mut Words, place: u32) -> Result<bool, ElfError>
    ensures pushed { IfOk result (λ fits.
        (fits ≡ true) × (places.new ≡ places.old ++ place ∷ [])) }
    ensures err { IfErr result (λ e. e ≡ Memory) }
{
    match places.push(place) {
        Ok(()) => Ok(true),
        Err(e) => Err(e),
    }
}

/// Appends the place of a name in a table in the making, and notes it under that at which the name
/// is in an older one. It fails with `Memory` alone.
pub fn note_place(
    places: &mut Words,
    known: &mut KnownPlaces,
    at: u32,
    place: u32,
) -> Result<bool, ElfError>
    ensures pushed { IfOk result (λ fits.
        (fits ≡ true) × (places.new ≡ places.old ++ place ∷ [])) }
    ensures noted { OnOk result (KnowsMore known.old known.new at place) }
    ensures err { IfErr result (λ e. e ≡ Memory) }
{
    match known.note(at, place) {
        Ok(()) => push_place(places, place),
        Err(e) => Err(e),
    }
}

/// Where the name of a section that is there is in the table of the names, by its header.
///
/// Source: gABI chapter 4, "Section Header", sh_name.
pub fn name_field<S: Source>(elf: &Elf<S>, s: ScnId) -> u32
    requires { s.0 < length elf.now.o.sections }
    ensures { result ≡ (section_at elf.now.o s.0).header.name }
{
    elf.section_header(s).name
}
