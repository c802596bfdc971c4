//! Step 5: string tables of removed sections alone.

ghost use Rattle.std.specs.Prelude.{◌≡◌, true, not, IfOk, IfErr};
ghost use Rattle.elf_types.specs.declared.errors.ElfError.TheVariants.{Memory};
ghost use Rattle.rebuild_model.specs.Removed as rules;
ghost use Rattle.rebuild_model.specs.elf_object.Sections.{is_among};
ghost use Rattle.rebuild_select.specs.Users.{is_left_by, AreUsers};

use crate::headers::is_header_allocated;
use crate::links::linked_by;
use crate::sets::SectionSet;
use crate::walks::{SectionTest, with_found};
use elf_types::constants::SHT_STRTAB;
use elf_types::{ElfError, ScnId};
use gelf_view::prelude::Elf;
use rebuild_model::prelude::Source;
use std::alloc::Global;

/// Any section.
#[derive(Clone, Copy)]
struct Any;

impl SectionTest for Any {
    ghost passes = { λ t o s. true };

    fn passes<S: Source>(&self, _elf: &Elf<S>, _s: ScnId) -> bool {
        true
    }
}

/// Sections that are left.
#[derive(Clone, Copy)]
struct IsLeft<'a> {
    /// What was removed.
    removed: &'a SectionSet,
}

impl SectionTest for IsLeft<'_> {
    ghost passes = { λ t o s. not (is_among t.removed.now s) };

    fn passes<S: Source>(&self, _elf: &Elf<S>, s: ScnId) -> bool {
        !self.removed.contains(s.0)
    }
}

/// The sections to which others link.
#[derive(Drop)]
struct Users {
    /// The sections to which any section links.
    any: SectionSet,
    /// The sections to which one links that is left.
    left: SectionSet,
}

/// String tables without `SHF_ALLOC` to which sections link, none of which is left.
#[derive(Clone, Copy)]
struct HasRemovedUsers<'a> {
    /// The sections to which others link.
    users: &'a Users,
}

impl SectionTest for HasRemovedUsers<'_> {
    ghost passes = { λ t o s. is_left_by t.users.now.any t.users.now.left o s };

    #[tactic(auto, unfolding(crate::specs::Users::is_left_by))]
    fn passes<S: Source>(&self, elf: &Elf<S>, s: ScnId) -> bool {
        let h = elf.section_header(s);
        h.stype == SHT_STRTAB
            && !is_header_allocated(&h)
            && self.users.any.contains(s.0)
            && !self.users.left.contains(s.0)
    }
}

/// The sections to which others link. It fails with `Memory` alone and reads nothing.
fn find_users<S: Source>(
    alloc: Global,
    elf: &Elf<S>,
    removed: &SectionSet,
) -> Result<Users, ElfError>
    ensures ok { IfOk result (λ u. AreUsers elf.now.o removed.now u.any u.left) }
    ensures err { IfErr result (λ e. e ≡ Memory) }
{
    let any = match linked_by(alloc, &Any, elf) {
        Ok(any) => any,
        Err(e) => return Err(e),
    };
    match linked_by(alloc, &IsLeft { removed }, elf) {
        Ok(left) => Ok(Users { any, left }),
        Err(e) => Err(e),
    }
}

/// What was removed, and the string tables without `SHF_ALLOC` to which at least one section links,
/// and only sections that were removed. It fails with `Memory` alone and reads nothing.
///
/// Source: gABI chapter 4, "Sections", sh_link.
pub fn with_string_tables<S: Source>(
    alloc: Global,
    elf: &Elf<S>,
    removed: &SectionSet,
) -> Result<SectionSet, ElfError>
    ensures ok { IfOk result (λ set. set
        ≡ rules.with_found elf.now.o (rules.has_removed_users elf.now.o) removed.now) }
    ensures err { IfErr result (λ e. e ≡ Memory) }
{
    match find_users(alloc, elf, removed) {
        Ok(users) => with_found(alloc, &HasRemovedUsers { users: &users }, elf, removed),
        Err(e) => Err(e),
    }
}
