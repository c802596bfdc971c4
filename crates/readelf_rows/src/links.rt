//! The sections that the rows of a table name, looked for once a table.

ghost use Rattle.std.specs.Prelude.{◌≡◌, ◌<◌, length};
ghost use Rattle.tool_objects.specs.elf_object.Object.{section_at};
ghost use Rattle.readelf_rows.specs.Links.{AreSectionLinks};

use elf_types::ScnId;
use tool_objects::prelude::{Elf, Source};
use tool_objects::section_header;

/// The sections that the rows of a table name.
#[derive(Clone, Copy)]
pub struct SectionLinks {
    /// The section to which that of the table links.
    pub linked: ScnId,
    /// The section to which that one links in turn.
    pub strings: ScnId,
    /// The table of extended indexes, where the rows are symbols that have one.
    pub indexes: Option<ScnId>,
}

/// A section that is there and whose items can be told.
#[derive(Clone, Copy)]
pub struct ItemTable {
    /// The section.
    pub section: ScnId,
    /// How many items it has.
    pub count: u64,
    /// Its links.
    pub links: SectionLinks,
}

/// The section to which a section links, or 0 where it is not there.
#[tactic(auto, unfolding(tool_objects::specs::Passed::shdr_answer))]
fn link_of<S: Source>(elf: &Elf<S>, s: ScnId) -> u32
    ensures { result ≡ (section_at elf.now.o s.0).header.link }
{
    match elf.shdr(s) {
        Ok(header) => header.link,
        Err(_) => 0,
    }
}

/// The links of a section that is there.
pub fn links_of<S: Source>(elf: &Elf<S>, s: ScnId) -> SectionLinks
    requires { s.0 < length elf.now.o.sections }
    ensures { AreSectionLinks elf.now.o s.0 result }
{
    let linked = ScnId(section_header(elf, s).link);
    SectionLinks {
        linked,
        strings: ScnId(link_of(elf, linked)),
        indexes: None,
    }
}
