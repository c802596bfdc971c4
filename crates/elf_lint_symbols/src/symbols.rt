//! The rules 21 to 25: the symbols of each symbol table.

ghost use Rattle.std.specs.Prelude.{◌≡◌};
ghost use Rattle.elf_lint_findings.specs.Findings.{findings_shown};
ghost use Rattle.elf_lint_findings.specs.Looking.{section_symbols as stated_symbols};
ghost use Rattle.elf_lint_symbols.specs.Symbols as rule;
ghost use Rattle.elf_lint_symbols.specs.Symbols.{IsCheckedSymbolTable};
ghost use Rattle.elf_lint_symbols.specs.Tests as tests;
ghost use Rattle.elf_lint_findings.specs.Steps.{FindsElf, FindsOver};

use crate::by_symbol::{CheckedSymbolTable, SymbolRule, checked_table_of, each_symbol_by};
use elf_lint_findings::{Place, find_if};
use elf_outside::{Sink, Source};
use elf_types::constants::SHN_LORESERVE;
use elf_types::{DataId, ScnId, Sym, is_local};
use tool_objects::at_hand::{Span, is_past};
use tool_objects::prelude::{Elf, SectionTool, each_section, item_there, string_at};
use tool_output::{FileName, Outputs, Stop};

/// Whether a field of a symbol is not 0.
#[tactic(auto, unfolding(crate::specs::Symbols::is_used))]
pub fn is_used(x: Sym) -> bool
    ensures { result ≡ rule.is_used x }
{
    let named = x.name != 0 || x.info != 0 || x.other != 0;
    named || x.shndx != 0 || x.value != 0 || x.size != 0
}

/// Says what rule 21 finds at symbol 0 of a table, where there is one.
fn show_symbol_0<S: Source, O: Sink, E: Sink>(
    name: &FileName<'_>,
    elf: &mut Elf<S>,
    t: CheckedSymbolTable,
    outputs: &mut Outputs<'_, O, E>,
) -> Result<bool, Stop>
    requires { IsCheckedSymbolTable elf.old.o t }
    ensures { FindsElf S.Source O.Sink E.Sink
        (λ o. rule.at_symbol_0 t.section.0 (stated_symbols o t.section.0)) name.now
        result elf.old elf.new outputs.old outputs.new }
{
    if t.count == 0 {
        return Ok(false);
    }
    let d = DataId {
        section: t.section.0,
        piece: 0,
    };
    match item_there::<S, Sym>(elf, d, 0) {
        Ok(x) => {
            let place = Place::Item(t.section.0, 0);
            find_if(is_used(x), name, 21, place, "symbol 0 is in use", outputs)
        }
        Err(stop) => Err(stop),
    }
}

/// Rule 21 under the name of a file.
#[derive(Clone, Copy)]
struct Symbol0<'a> {
    /// The file.
    name: &'a FileName<'a>,
}

impl SectionTool for Symbol0<'_> {
    ghost report = { λ t o s. findings_shown t.name.now (rule.symbol_0_of o s) };

    fn show<S: Source, O: Sink, E: Sink>(
        &self,
        elf: &mut Elf<S>,
        s: ScnId,
        outputs: &mut Outputs<'_, O, E>,
    ) -> Result<bool, Stop> {
        match checked_table_of(elf, s) {
            Some(t) => show_symbol_0(self.name, elf, t, outputs),
            None => Ok(false),
        }
    }
}

/// Rule 21, at symbol 0 of each symbol table: it is not all 0.
///
/// Source: gABI chapter 4, "Symbol Table", STN_UNDEF.
pub fn symbol_0_in_use<S: Source, O: Sink, E: Sink>(
    name: &FileName<'_>,
    elf: &mut Elf<S>,
    outputs: &mut Outputs<'_, O, E>,
) -> Result<bool, Stop>
    ensures { FindsOver S.Source O.Sink E.Sink 1 rule.symbol_0_in_use name.now
        result elf.old elf.new outputs.old outputs.new }
{
    each_section(&Symbol0 { name }, elf, outputs)
}

/// Names of symbols that cannot be read.
#[derive(Clone, Copy)]
pub struct SymbolNames;

impl SymbolRule for SymbolNames {
    ghost finds = { rule.has_no_name };

    ghost tells = { tests.tells_names };

    ghost holds = { tests.lacks_name };

    ghost span = { tests.all_of };

    fn tells(&self, t: &CheckedSymbolTable, end: Option<u64>) -> bool {
        !t.named || end.is_some()
    }

    fn span(&self, _t: &CheckedSymbolTable) -> Span {
        Span { from: 0, to: None }
    }

    #[inline(always)]
    fn holds(&self, t: &CheckedSymbolTable, end: Option<u64>, _i: u64, x: &Sym) -> bool {
        t.named && is_past(end, u64::from(x.name))
    }

    #[tactic(auto, unfolding(crate::specs::Symbols::has_no_name))]
    fn finds<S: Source>(
        &self,
        elf: &mut Elf<S>,
        t: CheckedSymbolTable,
        end: Option<u64>,
        _i: u64,
        x: Sym,
    ) -> Result<bool, Stop> {
        if !t.named {
            return Ok(false);
        }
        let at = u64::from(x.name);
        if let Some(end) = end {
            return Ok(at >= end);
        }
        match string_at(elf, t.strings, at) {
            Ok(Some(_)) => Ok(false),
            Ok(None) => Ok(true),
            Err(stop) => Err(stop),
        }
    }

    ghost agrees = { tests.names_agree };

    ghost within = { tests.names_within };
}

/// Rule 22, at each symbol of a table that links to a string table: its name cannot be read.
///
/// Source: gABI chapter 4, "Symbol Table", st_name.
#[tactic(auto, unfolding(crate::specs::Symbols::unreadable_symbol_names))]
pub fn unreadable_symbol_names<S: Source, O: Sink, E: Sink>(
    name: &FileName<'_>,
    elf: &mut Elf<S>,
    outputs: &mut Outputs<'_, O, E>,
) -> Result<bool, Stop>
    ensures { FindsOver S.Source O.Sink E.Sink 1 rule.unreadable_symbol_names name.now
        result elf.old elf.new outputs.old outputs.new }
{
    each_symbol_by(
        &SymbolNames,
        22,
        "name cannot be read",
        true,
        name,
        elf,
        outputs,
    )
}

/// Local symbols after the first other one.
#[derive(Clone, Copy)]
pub struct LateLocals;

impl SymbolRule for LateLocals {
    ghost finds = { rule.is_late_local };

    ghost tells = { tests.tells_all };

    ghost holds = { tests.is_behind_others };

    ghost span = { tests.others_of };

    fn tells(&self, _t: &CheckedSymbolTable, _end: Option<u64>) -> bool {
        true
    }

    fn span(&self, t: &CheckedSymbolTable) -> Span {
        Span {
            from: u64::from(t.first_other),
            to: None,
        }
    }

    #[inline(always)]
    fn holds(&self, t: &CheckedSymbolTable, _end: Option<u64>, i: u64, x: &Sym) -> bool {
        is_local(x) && i >= u64::from(t.first_other)
    }

    #[tactic(auto, unfolding(crate::specs::Symbols::is_late_local))]
    fn finds<S: Source>(
        &self,
        _elf: &mut Elf<S>,
        t: CheckedSymbolTable,
        end: Option<u64>,
        i: u64,
        x: Sym,
    ) -> Result<bool, Stop> {
        Ok(self.holds(&t, end, i, &x))
    }

    ghost agrees = { tests.locals_agree };

    ghost within = { tests.locals_within };
}

/// Rule 23, at each local symbol: its index is not below that of the first other.
///
/// Source: gABI chapter 4, "Symbol Table", STB_LOCAL; "Section Header", sh_info.
#[tactic(auto, unfolding(crate::specs::Symbols::local_symbols_among_the_others))]
pub fn local_symbols_among_the_others<S: Source, O: Sink, E: Sink>(
    name: &FileName<'_>,
    elf: &mut Elf<S>,
    outputs: &mut Outputs<'_, O, E>,
) -> Result<bool, Stop>
    ensures { FindsOver S.Source O.Sink E.Sink 1 rule.local_symbols_among_the_others name.now
        result elf.old elf.new outputs.old outputs.new }
{
    each_symbol_by(
        &LateLocals,
        23,
        "local symbol among the others",
        false,
        name,
        elf,
        outputs,
    )
}

/// Other symbols before the first other one.
#[derive(Clone, Copy)]
pub struct EarlyOthers;

impl SymbolRule for EarlyOthers {
    ghost finds = { rule.is_early_other };

    ghost tells = { tests.tells_all };

    ghost holds = { tests.is_before_others };

    ghost span = { tests.locals_of };

    fn tells(&self, _t: &CheckedSymbolTable, _end: Option<u64>) -> bool {
        true
    }

    fn span(&self, t: &CheckedSymbolTable) -> Span {
        Span {
            from: 0,
            to: Some(u64::from(t.first_other)),
        }
    }

    #[inline(always)]
    fn holds(&self, t: &CheckedSymbolTable, _end: Option<u64>, i: u64, x: &Sym) -> bool {
        !is_local(x) && i < u64::from(t.first_other)
    }

    #[tactic(auto, unfolding(crate::specs::Symbols::is_early_other))]
    fn finds<S: Source>(
        &self,
        _elf: &mut Elf<S>,
        t: CheckedSymbolTable,
        end: Option<u64>,
        i: u64,
        x: Sym,
    ) -> Result<bool, Stop> {
        Ok(self.holds(&t, end, i, &x))
    }

    ghost agrees = { tests.others_agree };

    ghost within = { tests.others_within };
}

/// Rule 24, at each symbol that is not local: its index is below that of the first such.
///
/// Source: gABI chapter 4, "Symbol Table", STB_LOCAL; "Section Header", sh_info.
#[tactic(auto, unfolding(crate::specs::Symbols::other_symbols_among_the_local))]
pub fn other_symbols_among_the_local<S: Source, O: Sink, E: Sink>(
    name: &FileName<'_>,
    elf: &mut Elf<S>,
    outputs: &mut Outputs<'_, O, E>,
) -> Result<bool, Stop>
    ensures { FindsOver S.Source O.Sink E.Sink 1 rule.other_symbols_among_the_local name.now
        result elf.old elf.new outputs.old outputs.new }
{
    each_symbol_by(
        &EarlyOthers,
        24,
        "symbol among the local ones",
        false,
        name,
        elf,
        outputs,
    )
}

/// Sections of symbols that are not there.
#[derive(Clone, Copy)]
pub struct SymbolSections;

impl SymbolRule for SymbolSections {
    ghost finds = { rule.is_of_no_section };

    ghost tells = { tests.tells_all };

    ghost holds = { tests.lacks_section };

    ghost span = { tests.all_of };

    fn tells(&self, _t: &CheckedSymbolTable, _end: Option<u64>) -> bool {
        true
    }

    fn span(&self, _t: &CheckedSymbolTable) -> Span {
        Span { from: 0, to: None }
    }

    #[inline(always)]
    fn holds(&self, t: &CheckedSymbolTable, _end: Option<u64>, _i: u64, x: &Sym) -> bool {
        let index = u32::from(x.shndx);
        index >= t.sections && index < SHN_LORESERVE
    }

    #[tactic(auto, unfolding(crate::specs::Symbols::is_of_no_section))]
    fn finds<S: Source>(
        &self,
        _elf: &mut Elf<S>,
        t: CheckedSymbolTable,
        end: Option<u64>,
        i: u64,
        x: Sym,
    ) -> Result<bool, Stop> {
        Ok(self.holds(&t, end, i, &x))
    }

    ghost agrees = { tests.sections_agree };

    ghost within = { tests.sections_within };
}

/// Rule 25, at each symbol: its section index is not reserved, and is not below the number of
/// sections.
///
/// Source: gABI chapter 4, "Symbol Table", st_shndx.
#[tactic(auto, unfolding(crate::specs::Symbols::symbols_of_no_section))]
pub fn symbols_of_no_section<S: Source, O: Sink, E: Sink>(
    name: &FileName<'_>,
    elf: &mut Elf<S>,
    outputs: &mut Outputs<'_, O, E>,
) -> Result<bool, Stop>
    ensures { FindsOver S.Source O.Sink E.Sink 1 rule.symbols_of_no_section name.now
        result elf.old elf.new outputs.old outputs.new }
{
    each_symbol_by(
        &SymbolSections,
        25,
        "symbol of no section",
        false,
        name,
        elf,
        outputs,
    )
}
