//! Rules that look at each symbol of each symbol table. A table is read once, as the bytes of its
//! section, whatever the number of rules, and each rule looks through these bytes. For a rule that
//! looks at the names of symbols the end of the strings is looked for once a table. Where the bytes
//! are not in memory, or the end is not known, the symbols are told one by one.

ghost use Rattle.std.specs.Prelude.{◌≡◌, ◌<◌, ℕ, Bool as TheBool, length, IfOk, IfSome, IfNone, IsTrue, None, [], true};
ghost use Rattle.elf_types.specs.declared.records.Sym.{Sym as TheSym};
ghost use Rattle.elf_types.specs.declared.records.Kind.TheVariants as kinds;
ghost use Rattle.tool_objects.specs.elf_object.Object.{Object};
ghost use Rattle.tool_objects.specs.elf_object.Answers.{lend_refusal, syms_of};
ghost use Rattle.tool_output.specs.Reports.{Reports};
ghost use Rattle.tool_output.specs.Steps.{LeavesOutputs};
ghost use Rattle.tool_objects.specs.Steps.{Learns, ReadsElf};
ghost use Rattle.tool_objects.specs.AtHand.Items.{held_items, AreSectionItems, AreWhole};
ghost use Rattle.tool_objects.specs.AtHand.Strings.{EndsAt};
ghost use Rattle.elf_lint_findings.specs.declared.places.Place.TheVariants.{Item};
ghost use Rattle.elf_lint_findings.specs.Findings.{at_items, finding, findings_shown, found_if};
ghost use Rattle.elf_lint_findings.specs.Looking.{section_symbols as stated_symbols};
ghost use Rattle.elf_lint_findings.specs.Steps.{FindsElf, FindsOver};
ghost use Rattle.elf_lint_symbols.specs.Symbols.{at_symbols, at_symbols_of, has_symbols, checked_symbols_of, IsCheckedSymbolTable};
ghost use Rattle.elf_lint_symbols.specs.Tests.{Agrees, Keeps, SpanOfTable, Telling, TestOfTable};

use crate::scans::{AtItems, load_items, show_found};
use elf_lint_findings::{
    Place, find_if, is_plain, is_string_table, is_symbol_table_header, linked_header, object_class,
};
use elf_outside::{Sink, Source};
use elf_types::{DataId, ScnId, Sym};
use tool_objects::at_hand::{ItemBytes, ItemTest, Span, items_at_hand, strings_end};
use tool_objects::prelude::{
    Elf, SectionTool, each_section, item_count, item_there, section_header,
};
use tool_output::{FileName, Outputs, Stop};

/// A symbol table that rules look at: what their tests need of its header, looked for once a table.
#[derive(Clone, Copy)]
pub struct CheckedSymbolTable {
    /// The section.
    pub section: ScnId,
    /// How many symbols it has.
    pub count: u64,
    /// The section to which it links.
    pub strings: ScnId,
    /// Whether that is a string table.
    pub named: bool,
    /// `sh_info`, the index of the first symbol that is not local.
    pub first_other: u32,
    /// How many sections there are.
    pub sections: u32,
}

/// A rule that has at most one finding a symbol.
///
/// - `finds` tells whether it has one, by the object, the section's number, and the symbol with its
///   index.
/// - `tells` tells whether a table and the end of its strings are all that its test needs.
/// - `holds` is its test by these.
/// - `span` are the indexes of the symbols at which it may have a finding.
pub trait SymbolRule {
    ghost finds: { Object → ℕ → ℕ → TheSym → TheBool };

    ghost tells: { Telling };

    ghost holds: { TestOfTable };

    ghost span: { SpanOfTable };

    /// Whether a table, and the end of its strings where that is known, are all that its test needs.
    fn tells(&self, t: &CheckedSymbolTable, end: Option<u64>) -> bool
        ensures { result ≡ tells t.now end };

    /// The indexes of the symbols of a table at which it may have a finding.
    fn span(&self, t: &CheckedSymbolTable) -> Span
        ensures { result ≡ span t.now };

    /// Whether the rule has a finding at symbol `i` of a table, by these alone.
    fn holds(&self, t: &CheckedSymbolTable, end: Option<u64>, i: u64, x: &Sym) -> bool
        ensures { result ≡ holds t.now end i x.now };

    /// Whether the rule has a finding at symbol `i` of a table, whose strings end there where that
    /// is known. It stops by `Read` where a read of the source failed, and by `Memory`.
    fn finds<S: Source>(
        &self,
        elf: &mut Elf<S>,
        t: CheckedSymbolTable,
        end: Option<u64>,
        i: u64,
        x: Sym,
    ) -> Result<bool, Stop>
        requires table { IsCheckedSymbolTable elf.old.o t }
        requires end { IsTrue elf.old.told → IfSome end (EndsAt elf.old.o t.strings.0) }
        ensures { Learns S.Source (λ o. finds o t.section.0 i x) result elf.old elf.new };

    // The test by an object is that by a table of it.
    ghost agrees: { Agrees finds tells holds };

    // It holds in the span alone.
    ghost within: { Keeps span holds };
}

/// The table of a section that is there, with so many symbols.
fn table_with<S: Source>(elf: &Elf<S>, s: ScnId, count: u64) -> CheckedSymbolTable
    requires there { s.0 < length elf.now.o.sections }
    requires looked { has_symbols elf.now.o s.0 ≡ true }
    requires passed { lend_refusal elf.now.o kinds.Sym s.0 0 ≡ None }
    requires count { count ≡ length (stated_symbols elf.now.o s.0) }
    ensures section { result.section ≡ s }
    ensures is { IsCheckedSymbolTable elf.now.o result }
{
    let header = section_header(elf, s);
    CheckedSymbolTable {
        section: s,
        count,
        strings: ScnId(header.link),
        named: is_string_table(&linked_header(elf, s)),
        first_other: header.info,
        sections: elf.shnum(),
    }
}

/// Whether rules look at the symbols of a section that is there.
#[tactic(auto, using(elf_lint_findings::proofs::WholeLemmas::either_first), unfolding(crate::specs::Symbols::has_symbols))]
fn has_symbols<S: Source>(elf: &Elf<S>, s: ScnId) -> bool
    requires { s.0 < length elf.now.o.sections }
    ensures { result ≡ has_symbols elf.now.o s.0 }
{
    is_symbol_table_header(object_class(elf), &section_header(elf, s)) && is_plain(elf, s)
}

/// The symbol table of a section that is there, or None where rules look at no symbols of it.
/// Nothing is read.
pub fn checked_table_of<S: Source>(elf: &Elf<S>, s: ScnId) -> Option<CheckedSymbolTable>
    requires { s.0 < length elf.now.o.sections }
    ensures section { IfSome result (λ t. t.section ≡ s) }
    ensures is { IfSome result (λ t. IsCheckedSymbolTable elf.now.o t) }
    ensures none { IfNone result (checked_symbols_of elf.now.o s.0 ≡ []) }
{
    if !has_symbols(elf, s) {
        return None;
    }
    let d = DataId {
        section: s.0,
        piece: 0,
    };
    match item_count::<S, Sym>(elf, d) {
        Ok(count) => Some(table_with(elf, s, count)),
        Err(_) => None,
    }
}

/// A rule under the name of a file.
#[derive(Drop)]
struct BySymbol<'a, R> {
    /// The rule.
    rule: &'a R,
    /// Its number.
    number: u32,
    /// The text of its findings.
    text: &'static str,
    /// Whether it looks at the names of symbols.
    names: bool,
    /// The file.
    name: &'a FileName<'a>,
}

/// Says what a rule finds at symbol `i` of a table.
fn show_symbol<R: SymbolRule, S: Source, O: Sink, E: Sink>(
    by: &BySymbol<'_, R>,
    elf: &mut Elf<S>,
    t: CheckedSymbolTable,
    end: Option<u64>,
    i: u64,
    x: Sym,
    outputs: &mut Outputs<'_, O, E>,
) -> Result<bool, Stop>
    requires table { IsCheckedSymbolTable elf.old.o t }
    requires end { IsTrue elf.old.told → IfSome end (EndsAt elf.old.o t.strings.0) }
    ensures { FindsElf S.Source O.Sink E.Sink
        (λ o. found_if (R.finds o t.section.0 i x)
        (finding by.now.number (Item t.section.0 i) by.now.text.now)) by.now.name.now
        result elf.old elf.new outputs.old outputs.new }
{
    let rule = by.rule;
    match rule.finds(elf, t, end, i, x) {
        Ok(holds) => {
            let place = Place::Item(t.section.0, i);
            find_if(holds, by.name, by.number, place, by.text, outputs)
        }
        Err(stop) => Err(stop),
    }
}

/// Says what a rule finds at each symbol of a table, by index. The symbols are told one by one.
fn each_symbol<R: SymbolRule, S: Source, O: Sink, E: Sink>(
    by: &BySymbol<'_, R>,
    elf: &mut Elf<S>,
    t: CheckedSymbolTable,
    end: Option<u64>,
    outputs: &mut Outputs<'_, O, E>,
) -> Result<bool, Stop>
    requires table { IsCheckedSymbolTable elf.old.o t }
    requires end { IsTrue elf.old.told → IfSome end (EndsAt elf.old.o t.strings.0) }
    ensures { FindsElf S.Source O.Sink E.Sink
        (λ o. at_items by.now.number by.now.text.now t.section.0 (R.finds o t.section.0)
        (stated_symbols o t.section.0)) by.now.name.now
        result elf.old elf.new outputs.old outputs.new }
{
    let d = DataId {
        section: t.section.0,
        piece: 0,
    };
    let mut found = false;
    for i in 0..t.count {
        let x = item_there::<S, Sym>(elf, d, i)?;
        let was_found = show_symbol(by, elf, t, end, i, x, outputs)?;
        found = found | was_found;
    }
    Ok(found)
}

/// The test of a rule at the symbols of a table.
#[derive(Drop)]
struct TableTest<'a, R> {
    /// The rule.
    rule: &'a R,
    /// The table.
    table: CheckedSymbolTable,
    /// Where its strings end, where that is known.
    end: Option<u64>,
}

impl<R: SymbolRule> ItemTest<Sym> for TableTest<'_, R> {
    ghost holds = { λ t i x. R.holds t.table t.end i x };

    #[inline(always)]
    fn holds(&self, i: u64, x: &Sym) -> bool {
        let rule = self.rule;
        rule.holds(&self.table, self.end, i, x)
    }
}

/// Says what a rule finds at each symbol of a table whose bytes are in memory, by index.
fn each_at_hand<R: SymbolRule, O: Sink, E: Sink>(
    by: &BySymbol<'_, R>,
    t: CheckedSymbolTable,
    end: Option<u64>,
    items: &ItemBytes<'_>,
    outputs: &mut Outputs<'_, O, E>,
) -> Result<bool, Stop>
    requires { AreWhole kinds.Sym items.now }
    ensures reports { Reports O.Sink E.Sink result outputs.old outputs.new
        (findings_shown by.now.name.now (at_items by.now.number by.now.text.now t.section.0
        (R.holds t end) (held_items kinds.Sym syms_of items.now))) }
    ensures leaves { LeavesOutputs O.Sink E.Sink ⊥ result outputs.old outputs.new }
{
    let at = AtItems {
        number: by.number,
        text: by.text,
        name: by.name,
        section: t.section,
    };
    let rule = by.rule;
    let test = TableTest {
        rule,
        table: t,
        end,
    };
    show_found::<Sym, TableTest<'_, R>, O, E>(&at, &test, rule.span(&t), items, outputs)
}

/// The symbols of a table, where their bytes are in memory and tell what a rule finds.
fn symbols_told<'e, R: SymbolRule, S: Source>(
    by: &BySymbol<'_, R>,
    elf: &'e Elf<S>,
    t: CheckedSymbolTable,
    end: Option<u64>,
) -> Option<ItemBytes<'e>>
    ensures tells { IfSome result (λ b. R.tells t end ≡ true) }
    ensures are { IfSome result (λ b. AreSectionItems kinds.Sym syms_of elf.now t.section.0 b) }
{
    let rule = by.rule;
    if !rule.tells(&t, end) {
        return None;
    }
    items_at_hand::<S, Sym>(elf, t.section)
}

/// Says what a rule finds at each symbol of a table that was read, by index.
fn each_loaded<R: SymbolRule, S: Source, O: Sink, E: Sink>(
    by: &BySymbol<'_, R>,
    elf: &mut Elf<S>,
    t: CheckedSymbolTable,
    end: Option<u64>,
    outputs: &mut Outputs<'_, O, E>,
) -> Result<bool, Stop>
    requires table { IsCheckedSymbolTable elf.old.o t }
    requires end { IsTrue elf.old.told → IfSome end (EndsAt elf.old.o t.strings.0) }
    ensures { FindsElf S.Source O.Sink E.Sink
        (λ o. at_items by.now.number by.now.text.now t.section.0 (R.finds o t.section.0)
        (stated_symbols o t.section.0)) by.now.name.now
        result elf.old elf.new outputs.old outputs.new }
{
    match symbols_told(by, elf, t, end) {
        Some(items) => each_at_hand(by, t, end, &items, outputs),
        None => each_symbol(by, elf, t, end, outputs),
    }
}

/// Says what a rule finds at each symbol of a table, by index. The table is read first.
fn each_of_table<R: SymbolRule, S: Source, O: Sink, E: Sink>(
    by: &BySymbol<'_, R>,
    elf: &mut Elf<S>,
    t: CheckedSymbolTable,
    end: Option<u64>,
    outputs: &mut Outputs<'_, O, E>,
) -> Result<bool, Stop>
    requires table { IsCheckedSymbolTable elf.old.o t }
    requires end { IsTrue elf.old.told → IfSome end (EndsAt elf.old.o t.strings.0) }
    ensures { FindsElf S.Source O.Sink E.Sink
        (λ o. at_items by.now.number by.now.text.now t.section.0 (R.finds o t.section.0)
        (stated_symbols o t.section.0)) by.now.name.now
        result elf.old elf.new outputs.old outputs.new }
{
    match load_items::<S, Sym>(elf, t.section, t.count) {
        Ok(()) => each_loaded(by, elf, t, end, outputs),
        Err(stop) => Err(stop),
    }
}

/// Where the strings of a table end, where a rule looks at the names of its symbols and that can be
/// told.
pub fn end_of_names<S: Source>(
    names: bool,
    elf: &mut Elf<S>,
    t: CheckedSymbolTable,
) -> Result<Option<u64>, Stop>
    ensures end { IsTrue elf.old.told → IfOk result
        (λ end. IfSome end (EndsAt elf.old.o t.strings.0)) }
    ensures reads { ReadsElf S.Source result elf.old elf.new }
{
    if !names || !t.named || t.count == 0 {
        return Ok(None);
    }
    strings_end(elf, t.strings)
}

/// Says what a rule finds at each symbol of a table, whose strings' end is looked for before.
fn show_table<R: SymbolRule, S: Source, O: Sink, E: Sink>(
    by: &BySymbol<'_, R>,
    elf: &mut Elf<S>,
    t: CheckedSymbolTable,
    outputs: &mut Outputs<'_, O, E>,
) -> Result<bool, Stop>
    requires { IsCheckedSymbolTable elf.old.o t }
    ensures { FindsElf S.Source O.Sink E.Sink
        (λ o. at_items by.now.number by.now.text.now t.section.0 (R.finds o t.section.0)
        (stated_symbols o t.section.0)) by.now.name.now
        result elf.old elf.new outputs.old outputs.new }
{
    match end_of_names(by.names, elf, t) {
        Ok(end) => each_of_table(by, elf, t, end, outputs),
        Err(stop) => Err(stop),
    }
}

impl<R: SymbolRule> SectionTool for BySymbol<'_, R> {
    ghost report = { λ t o s. findings_shown t.name.now
        (at_symbols_of t.number t.text.now R.finds o s) };

    fn show<S: Source, O: Sink, E: Sink>(
        &self,
        elf: &mut Elf<S>,
        s: ScnId,
        outputs: &mut Outputs<'_, O, E>,
    ) -> Result<bool, Stop> {
        match checked_table_of(elf, s) {
            Some(t) => show_table(self, elf, t, outputs),
            None => Ok(false),
        }
    }
}

/// Says what a rule of that number finds at the symbols of each symbol table, by section and index,
/// with one text for all its findings. `names` tells whether it looks at their names.
pub fn each_symbol_by<R: SymbolRule, S: Source, O: Sink, E: Sink>(
    rule: &R,
    number: u32,
    text: &'static str,
    names: bool,
    name: &FileName<'_>,
    elf: &mut Elf<S>,
    outputs: &mut Outputs<'_, O, E>,
) -> Result<bool, Stop>
    ensures { FindsOver S.Source O.Sink E.Sink 1 (at_symbols number text.now R.finds) name.now
        result elf.old elf.new outputs.old outputs.new }
{
    let tool = BySymbol {
        rule,
        number,
        text,
        names,
        name,
    };
    each_section(&tool, elf, outputs)
}
