//! The rules 13 and 14: string tables.

ghost use Rattle.std.specs.Prelude.{◌≡◌};
ghost use Rattle.elf_lint_findings.specs.tool_objects.Steps.{Learns};
ghost use Rattle.elf_lint_findings.specs.Looking.{data_bytes};
ghost use Rattle.elf_lint_links.specs.StringTables as rule;
ghost use Rattle.elf_lint_findings.specs.Steps.{FindsOver};

use elf_lint_findings::prelude::{Elf, bytes};
use elf_lint_findings::{SectionRule, each_section_by, is_plain_of};
use elf_outside::{Sink, Source};
use elf_types::constants::SHT_STRTAB;
use elf_types::{DataId, ScnId};
use tool_output::{FileName, Outputs, Stop};

/// One of the two ends of a list.
#[derive(Clone, Copy)]
pub enum End {
    /// Where it begins.
    First,
    /// Where it ends.
    Last,
}

/// The byte at an end, where there is any.
fn byte_at_end(bytes: &[u8], end: End) -> Option<u8>
    ensures { result ≡ rule.byte_at_end end bytes.now }
{
    match end {
        End::First => bytes.first().copied(),
        End::Last => bytes.last().copied(),
    }
}

/// The byte at an end of a section that is there, where it has any that can be told. It stops by
/// `Read` where a read of the source failed, and by `Memory`.
fn end_byte<S: Source>(elf: &mut Elf<S>, s: ScnId, end: End) -> Result<Option<u8>, Stop>
    ensures { Learns S.Source (λ o. rule.byte_at_end end (data_bytes o s.0)) result elf.old elf.new }
{
    let d = DataId {
        section: s.0,
        piece: 0,
    };
    match bytes(elf, d) {
        Ok(bytes) => Ok(byte_at_end(bytes, end)),
        Err(e) => match Stop::of(&e) {
            Some(stop) => Err(stop),
            None => Ok(None),
        },
    }
}

/// Whether there is a byte, and it is no NUL.
fn is_other_byte(byte: Option<u8>) -> bool
    ensures { result ≡ rule.is_other_byte byte }
{
    match byte {
        Some(b) => b != 0,
        None => false,
    }
}

/// First bytes of string tables.
#[derive(Clone, Copy)]
struct FirstBytes;

impl SectionRule for FirstBytes {
    ghost finds = { rule.lacks_first_nul };

    #[tactic(auto, unfolding(crate::specs::StringTables::lacks_first_nul, crate::specs::StringTables::is_plain_string_table))]
    fn finds<S: Source>(&self, elf: &mut Elf<S>, s: ScnId) -> Result<bool, Stop> {
        if !is_plain_of(elf, s, SHT_STRTAB) {
            return Ok(false);
        }
        match end_byte(elf, s, End::First) {
            Ok(byte) => Ok(is_other_byte(byte)),
            Err(stop) => Err(stop),
        }
    }
}

/// Rule 13, at each string table that is not empty: it begins with another byte than NUL.
///
/// Source: gABI chapter 4, "String Table".
#[tactic(auto, unfolding(crate::specs::StringTables::tables_without_first_nul))]
pub fn tables_without_first_nul<S: Source, O: Sink, E: Sink>(
    name: &FileName<'_>,
    elf: &mut Elf<S>,
    outputs: &mut Outputs<'_, O, E>,
) -> Result<bool, Stop>
    ensures { FindsOver S.Source O.Sink E.Sink 1 rule.tables_without_first_nul name.now
        result elf.old elf.new outputs.old outputs.new }
{
    each_section_by(&FirstBytes, 13, "no NUL at the start", name, elf, outputs)
}

/// Last bytes of string tables.
#[derive(Clone, Copy)]
struct LastBytes;

impl SectionRule for LastBytes {
    ghost finds = { rule.lacks_last_nul };

    #[tactic(auto, unfolding(crate::specs::StringTables::lacks_last_nul, crate::specs::StringTables::is_plain_string_table))]
    fn finds<S: Source>(&self, elf: &mut Elf<S>, s: ScnId) -> Result<bool, Stop> {
        if !is_plain_of(elf, s, SHT_STRTAB) {
            return Ok(false);
        }
        match end_byte(elf, s, End::Last) {
            Ok(byte) => Ok(is_other_byte(byte)),
            Err(stop) => Err(stop),
        }
    }
}

/// Rule 14, at each string table that is not empty: it ends with another byte than NUL.
///
/// Source: gABI chapter 4, "String Table".
#[tactic(auto, unfolding(crate::specs::StringTables::tables_without_last_nul))]
pub fn tables_without_last_nul<S: Source, O: Sink, E: Sink>(
    name: &FileName<'_>,
    elf: &mut Elf<S>,
    outputs: &mut Outputs<'_, O, E>,
) -> Result<bool, Stop>
    ensures { FindsOver S.Source O.Sink E.Sink 1 rule.tables_without_last_nul name.now
        result elf.old elf.new outputs.old outputs.new }
{
    each_section_by(&LastBytes, 14, "no NUL at the end", name, elf, outputs)
}
