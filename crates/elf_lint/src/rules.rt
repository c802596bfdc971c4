//! The rules, one after another in their order.

ghost use Rattle.std.specs.Prelude.{◌≡◌, ◌&&◌, length, IfOk};
ghost use Rattle.std.specs.List.{flat_map};
ghost use Rattle.elf_lint.specs.Rules.{finds, finds_by_header, finds_by_section, finds_by_link, finds_by_symbol, findings, lint_passes};
ghost use Rattle.elf_lint_findings.specs.tool_objects.Steps.{ReadsElf};
ghost use Rattle.elf_lint_findings.specs.Steps.{FindsOver};
ghost use Rattle.elf_lint.specs.Survey as stated;
ghost use Rattle.elf_lint.specs.Survey.{ClearsRules};

use crate::survey::{Survey, survey_sections};
use elf_lint_hashes::{gnu_hashes_not_whole, hashes_not_whole};
use elf_lint_headers::{
    infos_of_no_section, links_to_no_section, missing_name_table, odd_alignments,
    overlapping_parts, ragged_sections, section_0_in_use, sections_outside_the_file,
    segments_larger_than_memory, segments_outside_the_file, unaligned_addresses,
    unallocated_thread_storage, unreadable_section_names, wrong_entry_sizes, wrong_header_size,
};
use elf_lint_links::chains::{bad_notes, bad_versions};
use elf_lint_links::{
    dynamic_without_end, dynamic_without_strings, hashes_without_symbols,
    relocations_without_symbols, symbols_without_strings, tables_without_first_nul,
    tables_without_last_nul,
};
use elf_lint_symbols::{
    all_symbols_sound, local_symbols_among_the_others, other_symbols_among_the_local,
    relocations_by_no_symbol, symbol_0_in_use, symbols_of_no_section, unreadable_symbol_names,
};
use elf_outside::{Sink, Source};
use symbol_lookup::prelude::Elf;
use tool_output::{FileName, Outputs, Stop};

/// A rule on the headers and on the parts of the file.
#[derive(Clone, Copy)]
pub enum RuleOnHeaders {
    /// 1: the size of the ELF header.
    WrongHeaderSize,
    /// 2: segments that pass the end of the file.
    SegmentsOutsideTheFile,
    /// 3: the table of the names of sections.
    MissingNameTable,
    /// 5: the names of sections.
    UnreadableSectionNames,
    /// 20: parts of the file that overlap.
    OverlappingParts,
    /// 26: segments with more bytes in the file than in memory.
    SegmentsLargerThanMemory,
}

/// A rule on the headers of sections.
#[derive(Clone, Copy)]
pub enum RuleOnSections {
    /// 4: the fields of section 0.
    Section0InUse,
    /// 6: sections that pass the end of the file.
    SectionsOutsideTheFile,
    /// 7: sizes that are no whole items.
    RaggedSections,
    /// 8: alignments that are no powers of two.
    OddAlignments,
    /// 9: addresses that are not aligned.
    UnalignedAddresses,
    /// 10: links to sections that are not there.
    LinksToNoSection,
    /// 11: `sh_info` of sections that are not there.
    InfosOfNoSection,
    /// 12: entry sizes that are not those of the items.
    WrongEntrySizes,
    /// 19: thread-local storage that is not allocated.
    UnallocatedThreadStorage,
}

/// A rule on tables and on what they link to.
#[derive(Clone, Copy)]
pub enum RuleOnLinks {
    /// 13: the first bytes of string tables.
    TablesWithoutFirstNul,
    /// 14: the last bytes of string tables.
    TablesWithoutLastNul,
    /// 15: links of symbol tables.
    SymbolsWithoutStrings,
    /// 16: links of relocations.
    RelocationsWithoutSymbols,
    /// 17: links of hash sections and of version indexes.
    HashesWithoutSymbols,
    /// 18: links of dynamic sections.
    DynamicWithoutStrings,
    /// 28: dynamic sections without an end.
    DynamicWithoutEnd,
    /// 29: chains of notes.
    BadNotes,
    /// 30: chains of version definitions and needs.
    BadVersions,
}

/// A rule on symbols, and on what names or finds them.
#[derive(Clone, Copy)]
pub enum RuleOnSymbols {
    /// 21: the fields of symbol 0.
    Symbol0InUse,
    /// 22: the names of symbols.
    UnreadableSymbolNames,
    /// 23: local symbols after the first other one.
    LocalSymbolsAmongTheOthers,
    /// 24: other symbols before the first other one.
    OtherSymbolsAmongTheLocal,
    /// 25: sections of symbols that are not there.
    SymbolsOfNoSection,
    /// 27: symbols of relocations that are not there.
    RelocationsByNoSymbol,
    /// 31: hash sections.
    HashesNotWhole,
    /// 32: GNU's hash sections.
    GnuHashesNotWhole,
}

/// A rule.
#[derive(Clone, Copy)]
pub enum LintRule {
    /// One on headers.
    Header(RuleOnHeaders),
    /// One on sections.
    Section(RuleOnSections),
    /// One on links.
    Link(RuleOnLinks),
    /// One on symbols.
    Symbol(RuleOnSymbols),
}

/// All rules, in their order.
const RULES: [LintRule; 32] = [
    LintRule::Header(RuleOnHeaders::WrongHeaderSize),
    LintRule::Header(RuleOnHeaders::SegmentsOutsideTheFile),
    LintRule::Header(RuleOnHeaders::MissingNameTable),
    LintRule::Section(RuleOnSections::Section0InUse),
    LintRule::Header(RuleOnHeaders::UnreadableSectionNames),
    LintRule::Section(RuleOnSections::SectionsOutsideTheFile),
    LintRule::Section(RuleOnSections::RaggedSections),
    LintRule::Section(RuleOnSections::OddAlignments),
    LintRule::Section(RuleOnSections::UnalignedAddresses),
    LintRule::Section(RuleOnSections::LinksToNoSection),
    LintRule::Section(RuleOnSections::InfosOfNoSection),
    LintRule::Section(RuleOnSections::WrongEntrySizes),
    LintRule::Link(RuleOnLinks::TablesWithoutFirstNul),
    LintRule::Link(RuleOnLinks::TablesWithoutLastNul),
    LintRule::Link(RuleOnLinks::SymbolsWithoutStrings),
    LintRule::Link(RuleOnLinks::RelocationsWithoutSymbols),
    LintRule::Link(RuleOnLinks::HashesWithoutSymbols),
    LintRule::Link(RuleOnLinks::DynamicWithoutStrings),
    LintRule::Section(RuleOnSections::UnallocatedThreadStorage),
    LintRule::Header(RuleOnHeaders::OverlappingParts),
    LintRule::Symbol(RuleOnSymbols::Symbol0InUse),
    LintRule::Symbol(RuleOnSymbols::UnreadableSymbolNames),
    LintRule::Symbol(RuleOnSymbols::LocalSymbolsAmongTheOthers),
    LintRule::Symbol(RuleOnSymbols::OtherSymbolsAmongTheLocal),
    LintRule::Symbol(RuleOnSymbols::SymbolsOfNoSection),
    LintRule::Header(RuleOnHeaders::SegmentsLargerThanMemory),
    LintRule::Symbol(RuleOnSymbols::RelocationsByNoSymbol),
    LintRule::Link(RuleOnLinks::DynamicWithoutEnd),
    LintRule::Link(RuleOnLinks::BadNotes),
    LintRule::Link(RuleOnLinks::BadVersions),
    LintRule::Symbol(RuleOnSymbols::HashesNotWhole),
    LintRule::Symbol(RuleOnSymbols::GnuHashesNotWhole),
];

/// Says what a rule on headers finds. It goes over the sections at most once.
fn look_by_header_rule<S: Source, O: Sink, E: Sink>(
    rule: RuleOnHeaders,
    name: &FileName<'_>,
    elf: &mut Elf<S>,
    outputs: &mut Outputs<'_, O, E>,
) -> Result<bool, Stop>
    ensures { FindsOver S.Source O.Sink E.Sink 1 (finds_by_header rule) name.now
        result elf.old elf.new outputs.old outputs.new }
{
    match rule {
        RuleOnHeaders::WrongHeaderSize => wrong_header_size(name, elf, outputs),
        RuleOnHeaders::SegmentsOutsideTheFile => segments_outside_the_file(name, elf, outputs),
        RuleOnHeaders::MissingNameTable => missing_name_table(name, elf, outputs),
        RuleOnHeaders::UnreadableSectionNames => unreadable_section_names(name, elf, outputs),
        RuleOnHeaders::OverlappingParts => overlapping_parts(name, elf, outputs),
        RuleOnHeaders::SegmentsLargerThanMemory => segments_larger_than_memory(name, elf, outputs),
    }
}

/// Says what a rule on sections finds. It goes over them at most once.
fn look_by_section_rule<S: Source, O: Sink, E: Sink>(
    rule: RuleOnSections,
    name: &FileName<'_>,
    elf: &mut Elf<S>,
    outputs: &mut Outputs<'_, O, E>,
) -> Result<bool, Stop>
    ensures { FindsOver S.Source O.Sink E.Sink 1 (finds_by_section rule) name.now
        result elf.old elf.new outputs.old outputs.new }
{
    match rule {
        RuleOnSections::Section0InUse => section_0_in_use(name, elf, outputs),
        RuleOnSections::SectionsOutsideTheFile => sections_outside_the_file(name, elf, outputs),
        RuleOnSections::RaggedSections => ragged_sections(name, elf, outputs),
        RuleOnSections::OddAlignments => odd_alignments(name, elf, outputs),
        RuleOnSections::UnalignedAddresses => unaligned_addresses(name, elf, outputs),
        RuleOnSections::LinksToNoSection => links_to_no_section(name, elf, outputs),
        RuleOnSections::InfosOfNoSection => infos_of_no_section(name, elf, outputs),
        RuleOnSections::WrongEntrySizes => wrong_entry_sizes(name, elf, outputs),
        RuleOnSections::UnallocatedThreadStorage => unallocated_thread_storage(name, elf, outputs),
    }
}

/// Says what a rule on links finds. It goes over the sections at most once.
fn look_by_link_rule<S: Source, O: Sink, E: Sink>(
    rule: RuleOnLinks,
    name: &FileName<'_>,
    elf: &mut Elf<S>,
    outputs: &mut Outputs<'_, O, E>,
) -> Result<bool, Stop>
    ensures { FindsOver S.Source O.Sink E.Sink 1 (finds_by_link rule) name.now
        result elf.old elf.new outputs.old outputs.new }
{
    match rule {
        RuleOnLinks::TablesWithoutFirstNul => tables_without_first_nul(name, elf, outputs),
        RuleOnLinks::TablesWithoutLastNul => tables_without_last_nul(name, elf, outputs),
        RuleOnLinks::SymbolsWithoutStrings => symbols_without_strings(name, elf, outputs),
        RuleOnLinks::RelocationsWithoutSymbols => relocations_without_symbols(name, elf, outputs),
        RuleOnLinks::HashesWithoutSymbols => hashes_without_symbols(name, elf, outputs),
        RuleOnLinks::DynamicWithoutStrings => dynamic_without_strings(name, elf, outputs),
        RuleOnLinks::DynamicWithoutEnd => dynamic_without_end(name, elf, outputs),
        RuleOnLinks::BadNotes => bad_notes(name, elf, outputs),
        RuleOnLinks::BadVersions => bad_versions(name, elf, outputs),
    }
}

/// Says what a rule on symbols finds. It goes over the sections at most once.
fn look_by_symbol_rule<S: Source, O: Sink, E: Sink>(
    rule: RuleOnSymbols,
    name: &FileName<'_>,
    elf: &mut Elf<S>,
    outputs: &mut Outputs<'_, O, E>,
) -> Result<bool, Stop>
    ensures { FindsOver S.Source O.Sink E.Sink 1 (finds_by_symbol rule) name.now
        result elf.old elf.new outputs.old outputs.new }
{
    match rule {
        RuleOnSymbols::Symbol0InUse => symbol_0_in_use(name, elf, outputs),
        RuleOnSymbols::UnreadableSymbolNames => unreadable_symbol_names(name, elf, outputs),
        RuleOnSymbols::LocalSymbolsAmongTheOthers => {
            local_symbols_among_the_others(name, elf, outputs)
        }
        RuleOnSymbols::OtherSymbolsAmongTheLocal => {
            other_symbols_among_the_local(name, elf, outputs)
        }
        RuleOnSymbols::SymbolsOfNoSection => symbols_of_no_section(name, elf, outputs),
        RuleOnSymbols::RelocationsByNoSymbol => relocations_by_no_symbol(name, elf, outputs),
        RuleOnSymbols::HashesNotWhole => hashes_not_whole(name, elf, outputs),
        RuleOnSymbols::GnuHashesNotWhole => gnu_hashes_not_whole(name, elf, outputs),
    }
}

/// Says what a rule finds. It goes over the sections at most once.
fn look_by<S: Source, O: Sink, E: Sink>(
    rule: LintRule,
    name: &FileName<'_>,
    elf: &mut Elf<S>,
    outputs: &mut Outputs<'_, O, E>,
) -> Result<bool, Stop>
    ensures { FindsOver S.Source O.Sink E.Sink 1 (finds rule) name.now
        result elf.old elf.new outputs.old outputs.new }
{
    match rule {
        LintRule::Header(rule) => look_by_header_rule(rule, name, elf, outputs),
        LintRule::Section(rule) => look_by_section_rule(rule, name, elf, outputs),
        LintRule::Link(rule) => look_by_link_rule(rule, name, elf, outputs),
        LintRule::Symbol(rule) => look_by_symbol_rule(rule, name, elf, outputs),
    }
}

/// Whether a rule on links finds nothing by a survey.
fn clears_link(survey: Survey, rule: RuleOnLinks) -> bool
    ensures { result ≡ stated.clears_link survey rule }
{
    match rule {
        RuleOnLinks::TablesWithoutFirstNul => !survey.strings,
        RuleOnLinks::TablesWithoutLastNul => !survey.strings,
        RuleOnLinks::SymbolsWithoutStrings => !survey.odd,
        RuleOnLinks::RelocationsWithoutSymbols => !survey.odd,
        RuleOnLinks::HashesWithoutSymbols => !survey.odd,
        RuleOnLinks::DynamicWithoutStrings => !survey.odd,
        RuleOnLinks::DynamicWithoutEnd => !survey.linking,
        RuleOnLinks::BadNotes => !survey.notes,
        RuleOnLinks::BadVersions => !survey.linking,
    }
}

/// Whether a rule on symbols finds nothing by a survey.
fn clears_symbol(survey: Survey, rule: RuleOnSymbols) -> bool
    ensures { result ≡ stated.clears_symbol survey rule }
{
    match rule {
        RuleOnSymbols::Symbol0InUse => !survey.symbols,
        RuleOnSymbols::UnreadableSymbolNames => !survey.symbols,
        RuleOnSymbols::LocalSymbolsAmongTheOthers => !survey.symbols,
        RuleOnSymbols::OtherSymbolsAmongTheLocal => !survey.symbols,
        RuleOnSymbols::SymbolsOfNoSection => !survey.symbols,
        RuleOnSymbols::RelocationsByNoSymbol => !survey.relocations,
        RuleOnSymbols::HashesNotWhole => !survey.linking,
        RuleOnSymbols::GnuHashesNotWhole => !survey.linking,
    }
}

/// Whether a rule finds nothing by a survey.
fn clears(survey: Survey, rule: LintRule) -> bool
    ensures { result ≡ stated.clears survey rule }
{
    match rule {
        LintRule::Header(_) => false,
        LintRule::Section(_) => !survey.odd,
        LintRule::Link(rule) => clears_link(survey, rule),
        LintRule::Symbol(rule) => clears_symbol(survey, rule),
    }
}

/// Says what a rule finds, where a survey leaves that open.
fn look_unless_clear<S: Source, O: Sink, E: Sink>(
    rule: LintRule,
    survey: Survey,
    name: &FileName<'_>,
    elf: &mut Elf<S>,
    outputs: &mut Outputs<'_, O, E>,
) -> Result<bool, Stop>
    requires { ClearsRules elf.old.told elf.old.o survey }
    ensures { FindsOver S.Source O.Sink E.Sink 1 (finds rule) name.now
        result elf.old elf.new outputs.old outputs.new }
{
    if clears(survey, rule) {
        return Ok(false);
    }
    look_by(rule, name, elf, outputs)
}

/// A survey of what the rules 21 to 25 find nothing at.
fn without_symbols(survey: Survey) -> Survey
    ensures { result ≡ stated.without_symbols survey }
{
    Survey {
        odd: survey.odd,
        strings: survey.strings,
        symbols: false,
        relocations: survey.relocations,
        notes: survey.notes,
        linking: survey.linking,
        bytes: survey.bytes,
    }
}

/// A survey that knows besides whether all symbols are sound.
fn with_symbols(sound: bool, survey: Survey) -> Survey
    ensures { result ≡ stated.with_symbols sound survey }
{
    if sound {
        without_symbols(survey)
    } else {
        survey
    }
}

/// A survey that looked at all symbols besides, before the first rule on them. Where sections may
/// overlap nothing is looked at, since their tables would be held together.
fn survey_symbols<S: Source>(
    rule: LintRule,
    survey: Survey,
    elf: &mut Elf<S>,
) -> Result<Survey, Stop>
    requires { ClearsRules elf.old.told elf.old.o survey }
    ensures clears { IfOk result (ClearsRules elf.old.told elf.old.o) }
    ensures reads { ReadsElf S.Source result elf.old elf.new }
{
    let LintRule::Symbol(RuleOnSymbols::Symbol0InUse) = rule else {
        return Ok(survey);
    };
    if !survey.symbols || survey.bytes > elf.base_len() {
        return Ok(survey);
    }
    match all_symbols_sound(elf) {
        Ok(sound) => Ok(with_symbols(sound, survey)),
        Err(stop) => Err(stop),
    }
}

/// Says what the next rule finds, and surveys the symbols before the first rule on them.
fn look_by_next<S: Source, O: Sink, E: Sink>(
    rule: LintRule,
    survey: &mut Survey,
    name: &FileName<'_>,
    elf: &mut Elf<S>,
    outputs: &mut Outputs<'_, O, E>,
) -> Result<bool, Stop>
    requires { ClearsRules elf.old.told elf.old.o survey.old }
    ensures clears { ClearsRules elf.old.told elf.old.o survey.new }
    ensures finds { FindsOver S.Source O.Sink E.Sink 1 (finds rule) name.now
        result elf.old elf.new outputs.old outputs.new }
{
    match survey_symbols(rule, *survey, elf) {
        Ok(next) => {
            *survey = next;
            look_unless_clear(rule, next, name, elf, outputs)
        }
        Err(stop) => Err(stop),
    }
}

/// Says what rules find, one after another.
fn look_by_each<S: Source, O: Sink, E: Sink>(
    rules: &[LintRule],
    name: &FileName<'_>,
    elf: &mut Elf<S>,
    outputs: &mut Outputs<'_, O, E>,
) -> Result<bool, Stop>
    ensures { FindsOver S.Source O.Sink E.Sink (length rules.now)
        (λ o. flat_map (λ r. finds r o) rules.now) name.now
        result elf.old elf.new outputs.old outputs.new }
{
    let mut survey = survey_sections(elf);
    let mut found = false;
    for rule in rules {
        let was_found = look_by_next(*rule, &mut survey, name, elf, outputs)?;
        found = found | was_found;
    }
    Ok(found)
}

/// All rules. It returns whether one finds something. It stops by `Read` where a read of the source
/// failed, by `Write` where a put failed, and by `Memory`.
pub fn look_by_all_rules<S: Source, O: Sink, E: Sink>(
    name: &FileName<'_>,
    elf: &mut Elf<S>,
    outputs: &mut Outputs<'_, O, E>,
) -> Result<bool, Stop>
    ensures { FindsOver S.Source O.Sink E.Sink lint_passes findings name.now
        result elf.old elf.new outputs.old outputs.new }
{
    look_by_each(&RULES, name, elf, outputs)
}
