//! What is made of each section that is kept.

ghost use Rattle.std.specs.Prelude.{◌≡◌, ◌==◌, ◌<◌, ◌∷◌, [], length, slice_index, None, IfSome};
ghost use Rattle.rebuild_names.specs.elf_xlate.declared.content.Items.TheVariants as items;
ghost use Rattle.rebuild_making.specs.elf_object.Answers.{syms_of};
ghost use Rattle.rebuild_making.specs.elf_object.Sections.{header_at};
ghost use Rattle.rebuild_making.specs.rebuild_model.Followed.{followed_syms, followed_words};
ghost use Rattle.rebuild_keep.specs.Homes.{items_at_home, home_refusal, syms_found};
ghost use Rattle.rebuild_keep.specs.Makes.{MakesStated, FitsAs};
ghost use Rattle.rebuild_keep.specs.Keepers.{header_by, items_by, kept_items_by, symbol_items_by, group_by, words_by, indexes_by, serves, name_by, items_or_names, follows_by, is_renewed, makes_by, kind_by, kept_refusal_by, refusal_or_none, refusal_by, reads_by, IsNewNameTable, HasNewNameTable};

use crate::homes::{bytes_at_home, copy_shared, home_syms, home_words, own_syms, own_words};
use crate::making::{group_items, index_items, symbol_items};
use crate::naming::Names;
use elf_types::{ElfError, Kind, ScnId, Shdr, Words};
use elf_update_plan::prelude::Elf;
use rebuild_making::prelude::Source;
use rebuild_names::NewNames;
use rebuild_names::prelude::{Items, SharedBytes, is_group, is_kept, is_symbol_table};
use rebuild_numbers::prelude::SectionSet;
use rebuild_numbers::{Numbering, followed_header};

/// What makes the sections that are kept, by what was worked out before.
#[derive(Drop)]
pub struct Keeper<'a> {
    /// What is removed.
    pub removed: &'a SectionSet,
    /// The map of the numbers.
    pub numbering: Numbering,
    /// Of each section the number of its extended indexes, and 0 where it has none.
    pub tables: Words,
    /// The names.
    pub names: Names,
}

/// The number at an index, and 0 where there is none.
fn number_at(numbers: &Words, i: u32) -> u32
    ensures { result ≡ slice_index numbers.now i }
{
    numbers.get(u64::from(i)).unwrap_or(0)
}

/// The name field of a section's header: the place of its name where the names are rebuilt.
fn name_of(names: &Names, s: ScnId, name: u32) -> u32
    ensures { result ≡ name_by names.now s.0 name }
{
    match names {
        Names::Anew(names) => number_at(&names.places, s.0),
        Names::Stay => name,
        Names::TooLarge => name,
    }
}

/// The table of the names that are rebuilt, where a section is the one that holds them.
fn table_of(names: &Names, is_names: bool) -> Option<&SharedBytes>
    ensures { IfSome result (λ table. IsNewNameTable names.now is_names table.now) }
{
    match names {
        Names::Anew(names) => {
            if is_names {
                return Some(&names.table);
            }
            None
        }
        Names::Stay => None,
        Names::TooLarge => None,
    }
}

/// Whether the names are rebuilt, where a section is the one that holds them.
fn is_renewed(names: &Names, is_names: bool) -> bool
    ensures { result ≡ is_renewed names.now is_names }
{
    match names {
        Names::Anew(_) => is_names,
        Names::Stay => false,
        Names::TooLarge => false,
    }
}

impl Keeper<'_> {
    /// The header that a section that is there has in the new image: its links follow, and its name
    /// has its place. It reads nothing and takes no memory.
    pub fn header<S: Source>(&self, elf: &Elf<S>, s: ScnId) -> Shdr
        requires { s.0 < length elf.now.o.sections }
        ensures { result ≡ header_by self.now elf.now.o s.0 }
    {
        let h = elf.section_header(s);
        Shdr {
            name: name_of(&self.names, s, h.name),
            ..followed_header(&self.numbering, &h)
        }
    }

    /// Whether a table that is there is one of symbols that follow, whose extended indexes a
    /// section holds.
    #[tactic(auto, unfolding(rebuild_making::specs::Passed::symbols_follow))]
    fn serves<S: Source>(&self, elf: &Elf<S>, s: ScnId, table: ScnId) -> bool
        requires { table.0 < length elf.now.o.sections }
        ensures { result ≡ serves self.now elf.now.o s.0 table.0 }
    {
        is_symbol_table(&elf.section_header(table)) && number_at(&self.tables, table.0) == s.0
    }

    /// Whether a section that is there holds the extended indexes of the symbols to which it links,
    /// and both are kept.
    fn holds_indexes<S: Source>(&self, elf: &Elf<S>, s: ScnId, link: u32) -> bool
        requires { link ≡ (header_at elf.now.o s.0).link }
        ensures { result ≡ indexes_by self.now elf.now.o s.0 }
    {
        if is_kept(elf, self.removed, link) {
            return self.serves(elf, s, ScnId(link));
        }
        false
    }

    /// Whether the items of a section that is there follow.
    #[tactic(auto, unfolding(rebuild_making::specs::Passed::symbols_follow, rebuild_making::specs::Passed::members_follow))]
    fn follows<S: Source>(&self, elf: &Elf<S>, s: ScnId) -> bool
        requires { s.0 < length elf.now.o.sections }
        ensures { result ≡ follows_by self.now elf.now.o s.0 }
    {
        let h = elf.section_header(s);
        if is_symbol_table(&h) {
            return true;
        }
        if is_group(&h) {
            return true;
        }
        self.holds_indexes(elf, s, h.link)
    }

    /// Whether what a section that is there has in the new image is made: its items follow, or it
    /// holds the names that are rebuilt. Else its bytes are taken as they are. It reads nothing and
    /// takes no memory.
    pub fn makes<S: Source>(&self, elf: &Elf<S>, s: ScnId) -> bool
        requires { s.0 < length elf.now.o.sections }
        ensures { result ≡ makes_by self.now elf.now.o s.0 }
    {
        if is_renewed(&self.names, s.0 == elf.shstrndx()) {
            return true;
        }
        self.follows(elf, s)
    }

    /// The kind of the items that a section that is there has in the new image. It reads nothing and
    /// takes no memory.
    #[tactic(auto, unfolding(rebuild_making::specs::Passed::symbols_follow))]
    pub fn kind<S: Source>(&self, elf: &Elf<S>, s: ScnId) -> Kind
        requires { s.0 < length elf.now.o.sections }
        ensures { result ≡ kind_by self.now elf.now.o s.0 }
    {
        if is_renewed(&self.names, s.0 == elf.shstrndx()) {
            return Kind::Bytes;
        }
        let h = elf.section_header(s);
        if is_symbol_table(&h) {
            return Kind::Sym;
        }
        if self.follows(elf, s) {
            return Kind::Word;
        }
        Kind::Bytes
    }

    /// The table of the names that are rebuilt, where a section is the one that holds them: what is
    /// made of that section. It reads nothing and takes no memory.
    pub fn new_table<S: Source>(&self, elf: &Elf<S>, s: ScnId) -> Option<&SharedBytes>
        ensures { IfSome result (λ table. HasNewNameTable self.now elf.now.o s.0 table.now) }
    {
        table_of(&self.names, s.0 == elf.shstrndx())
    }

    /// The symbols of a table that is there, with the words of their extended indexes.
    fn symbols_with<S: Source>(
        &self,
        elf: &mut Elf<S>,
        s: ScnId,
        words: &[u32],
    ) -> Result<Items, ElfError>
        requires { s.0 < length elf.old.o.sections }
        ensures { MakesStated S.Source (λ o. items.Sym
            (followed_syms self.now.numbering words.now (syms_of (items_at_home o s.0))))
            FitsAs (λ o. home_refusal o s.0) (λ o. s.0 ∷ []) result elf.old elf.new }
    {
        let alloc = elf.alloc();
        match own_syms(elf, s) {
            Ok(syms) => symbol_items(alloc, &self.numbering, words, syms.as_slice()),
            Err(e) => Err(e),
        }
    }

    /// The symbols of a table that is there.
    fn symbols<S: Source>(&self, elf: &mut Elf<S>, s: ScnId) -> Result<Items, ElfError>
        requires { s.0 < length elf.old.o.sections }
        ensures { MakesStated S.Source (λ o. symbol_items_by self.now o s.0) FitsAs
            (λ o. home_refusal o s.0) (λ o. slice_index self.now.tables s.0 ∷ s.0 ∷ [])
            result elf.old elf.new }
    {
        match home_words(elf, number_at(&self.tables, s.0)) {
            Ok(words) => self.symbols_with(elf, s, words.as_slice()),
            Err(e) => Err(e),
        }
    }

    /// The words of a group that is there.
    fn group<S: Source>(&self, elf: &mut Elf<S>, s: ScnId) -> Result<Items, ElfError>
        requires { s.0 < length elf.old.o.sections }
        ensures { MakesStated S.Source (λ o. group_by self.now o s.0) FitsAs
            (λ o. home_refusal o s.0) (λ o. s.0 ∷ []) result elf.old elf.new }
    {
        let alloc = elf.alloc();
        match own_words(elf, s) {
            Ok(words) => group_items(alloc, &self.numbering, words.as_slice()),
            Err(e) => Err(e),
        }
    }

    /// Extended indexes, with the symbols of the section to which they link.
    fn indexes_with<S: Source>(
        &self,
        elf: &mut Elf<S>,
        link: u32,
        words: &[u32],
    ) -> Result<Items, ElfError>
        ensures { MakesStated S.Source (λ o. items.Word
            (followed_words self.now.numbering (syms_found o link) words.now))
            FitsAs (λ o. None) (λ o. link ∷ []) result elf.old elf.new }
    {
        let alloc = elf.alloc();
        match home_syms(elf, link) {
            Ok(syms) => index_items(alloc, &self.numbering, syms.as_slice(), words),
            Err(e) => Err(e),
        }
    }

    /// The extended indexes of the symbols to which a section links that is there.
    fn indexes<S: Source>(&self, elf: &mut Elf<S>, s: ScnId, link: u32) -> Result<Items, ElfError>
        requires there { s.0 < length elf.old.o.sections }
        requires link { link ≡ (header_at elf.old.o s.0).link }
        ensures { MakesStated S.Source (λ o. words_by self.now o s.0) FitsAs
            (λ o. home_refusal o s.0) (λ o. s.0 ∷ (header_at o s.0).link ∷ [])
            result elf.old elf.new }
    {
        match own_words(elf, s) {
            Ok(words) => self.indexes_with(elf, link, words.as_slice()),
            Err(e) => Err(e),
        }
    }

    /// The items of a section that is there and is not the table of the names where that is
    /// rebuilt.
    #[tactic(auto, unfolding(rebuild_making::specs::Passed::symbols_follow, rebuild_making::specs::Passed::members_follow))]
    fn kept<S: Source>(&self, elf: &mut Elf<S>, s: ScnId) -> Result<Items, ElfError>
        requires { s.0 < length elf.old.o.sections }
        ensures { MakesStated S.Source (λ o. kept_items_by self.now o s.0) FitsAs
            (λ o. kept_refusal_by self.now o s.0) (λ o. reads_by self.now o s.0)
            result elf.old elf.new }
    {
        let h = elf.section_header(s);
        if is_symbol_table(&h) {
            return self.symbols(elf, s);
        }
        if is_group(&h) {
            return self.group(elf, s);
        }
        if self.holds_indexes(elf, s, h.link) {
            return self.indexes(elf, s, h.link);
        }
        bytes_at_home(elf, s)
    }

    /// The table of the names for their section, and else the items of a section that is there.
    fn names_or_kept<S: Source>(
        &self,
        elf: &mut Elf<S>,
        s: ScnId,
        names: &NewNames,
    ) -> Result<Items, ElfError>
        requires { s.0 < length elf.old.o.sections }
        ensures { MakesStated S.Source
            (λ o. items_or_names (Names.Anew names.now) (s.0 == o.header.shstrndx)
            (kept_items_by self.now o s.0))
            FitsAs
            (λ o. refusal_or_none (Names.Anew names.now) (s.0 == o.header.shstrndx)
            (kept_refusal_by self.now o s.0))
            (λ o. reads_by self.now o s.0) result elf.old elf.new }
    {
        if s.0 == elf.shstrndx() {
            return copy_shared(elf.alloc(), &names.table);
        }
        self.kept(elf, s)
    }

    /// The items that a section that is there has in the new image; they fit the class. It refuses
    /// in this order: `OutOfFile`, and where its items follow `NoData` and `Ragged`; and `Memory`
    /// and `Read`. It leaves the object, and reads each home that it looks at at the first use.
    pub fn items<S: Source>(&self, elf: &mut Elf<S>, s: ScnId) -> Result<Items, ElfError>
        requires { s.0 < length elf.old.o.sections }
        ensures { MakesStated S.Source (λ o. items_by self.now o s.0) FitsAs
            (λ o. refusal_by self.now o s.0) (λ o. reads_by self.now o s.0)
            result elf.old elf.new }
    {
        match &self.names {
            Names::Anew(names) => self.names_or_kept(elf, s, names),
            Names::Stay => self.kept(elf, s),
            Names::TooLarge => self.kept(elf, s),
        }
    }
}
