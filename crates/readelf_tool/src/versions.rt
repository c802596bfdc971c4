//! The version sections, whichever of three types they have: the version index of each symbol, the
//! definitions, and the needs.

ghost use Rattle.std.specs.Prelude.{◌<◌};
ghost use Rattle.tool_objects.specs.Steps.{ReportsOver};
ghost use Rattle.readelf_tool.specs.Versions.{versions_of_section, holds_versions, versions_report};

use elf_outside::{Sink, Source};
use elf_types::ScnId;
use elf_types::constants::{SHT_GNU_VERDEF, SHT_GNU_VERNEED, SHT_GNU_VERSYM};
use readelf_chains::{show_definitions, show_needs};
use readelf_rows::{SectionPart, each_plain, is_of_type};
use readelf_tables::show_indexes;
use tool_objects::prelude::Elf;
use tool_output::{FileName, Outputs, Stop};

/// The part of the version sections.
#[derive(Clone, Copy)]
struct Versions;

impl SectionPart for Versions {
    ghost has = { holds_versions };

    ghost report = { versions_of_section };

    fn has(&self, stype: u32) -> bool {
        stype == SHT_GNU_VERSYM || stype == SHT_GNU_VERDEF || stype == SHT_GNU_VERNEED
    }

    fn show<S: Source, O: Sink, E: Sink>(
        &self,
        name: &FileName<'_>,
        elf: &mut Elf<S>,
        s: ScnId,
        outputs: &mut Outputs<'_, O, E>,
    ) -> Result<bool, Stop> {
        let indexes = is_of_type(elf, s, SHT_GNU_VERSYM);
        if indexes {
            return show_indexes(name, elf, s, outputs);
        }
        let definitions = is_of_type(elf, s, SHT_GNU_VERDEF);
        if definitions {
            return show_definitions(name, elf, s, outputs);
        }
        show_needs(name, elf, s, outputs)
    }
}

/// Shows the version sections, by number, whichever of the types `SHT_GNU_VERSYM`, `SHT_GNU_VERDEF`
/// and `SHT_GNU_VERNEED` they have.
#[tactic(auto, unfolding(crate::specs::Versions::versions_report))]
pub fn show_versions<S: Source, O: Sink, E: Sink>(
    name: &FileName<'_>,
    elf: &mut Elf<S>,
    outputs: &mut Outputs<'_, O, E>,
) -> Result<bool, Stop>
    ensures { ReportsOver S.Source O.Sink E.Sink 1 (versions_report name.now)
        result elf.old elf.new outputs.old outputs.new }
{
    each_plain(&Versions, name, elf, outputs)
}
