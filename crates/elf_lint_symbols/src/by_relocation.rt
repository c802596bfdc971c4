//! The relocations of a section, by the numbers of their symbols. They are read once, as the bytes
//! of the section, and looked through there; where the bytes are not in memory they are told one by
//! one.

ghost use Rattle.std.specs.Prelude.{◌≡◌, ◌<◌, ℕ, length, map, IfSome, IfNone, [], None};
ghost use Rattle.elf_xlate.specs.declared.content.Items.{Items as TheItems};
ghost use Rattle.elf_xlate.specs.Translation.{items_kind, items_count};
ghost use Rattle.tool_objects.specs.elf_object.Answers.{items_at, lend_refusal};
ghost use Rattle.tool_output.specs.Reports.{Reports};
ghost use Rattle.tool_output.specs.Steps.{LeavesOutputs};
ghost use Rattle.tool_objects.proofs.ListCounts.{rels_of_length, relas_of_length};
ghost use Rattle.tool_objects.specs.AtHand.Items.{held_items, AreWhole};
ghost use Rattle.elf_lint_findings.specs.Findings.{at_items, findings_shown};
ghost use Rattle.elf_lint_findings.specs.Looking.{if_lent};
ghost use Rattle.elf_lint_findings.specs.Steps.{FindsElf};
ghost use Rattle.elf_lint_symbols.specs.Relocations.{has_relocations, symbol_bound, symbol_numbers_of, passes_bound, AreRelocations};

use crate::scans::{AtItems, load_items, show_found};
use elf_lint_findings::{
    Place, find_if, is_plain, is_relocation_section, is_symbol_table_header, linked_header,
    object_class,
};
use elf_outside::{Sink, Source};
use elf_types::constants::SHN_UNDEF;
use elf_types::{DataId, Rel, Rela, ScnId, Sym};
use tool_objects::at_hand::{ItemBytes, ItemTest, Span, items_at_hand};
use tool_objects::prelude::{Elf, Item, item_count, item_there, section_header};
use tool_output::{FileName, Outputs, Stop};

/// A rule on relocations under the name of a file.
#[derive(Clone, Copy)]
pub struct ByNoSymbol<'a> {
    /// Its number.
    pub number: u32,
    /// The text of its findings.
    pub text: &'static str,
    /// The file.
    pub name: &'a FileName<'a>,
}

/// The relocations of a section that a rule looks at.
#[derive(Clone, Copy)]
pub struct Relocations {
    /// The section.
    pub section: ScnId,
    /// How many symbols there are for them; None where nothing bounds their numbers.
    pub bound: Option<u64>,
}

/// A relocation.
///
/// - `symbol` is the number of its symbol, `ELF32_R_SYM` or `ELF64_R_SYM`.
pub trait RelocationItem: Item {
    ghost symbol: { Self → ℕ };

    /// The number of its symbol.
    fn symbol(&self) -> u32
        ensures { result ≡ symbol self.now };

    // A list of them in items of their kind has as many.
    ghost counted_in: { (items : TheItems) → items_kind items ≡ Self.Listed.kind →
        length (Self.Listed.list_of items) ≡ items_count items };
}

impl RelocationItem for Rel {
    ghost symbol = { λ x. x.sym };

    fn symbol(&self) -> u32 {
        self.sym
    }

    ghost counted_in = { rels_of_length };
}

impl RelocationItem for Rela {
    ghost symbol = { λ x. x.sym };

    fn symbol(&self) -> u32 {
        self.sym
    }

    ghost counted_in = { relas_of_length };
}

/// How many symbols there are for the relocations of a section that is there: one without a symbol
/// table, and else those of the table, where they can be told. Nothing is read.
///
/// Source: gABI chapter 4, "Relocation" and "Symbol Table", `STN_UNDEF`.
fn symbol_bound<S: Source>(elf: &Elf<S>, s: ScnId) -> Option<u64>
    requires { s.0 < length elf.now.o.sections }
    ensures { result ≡ symbol_bound elf.now.o s.0 }
{
    let link = section_header(elf, s).link;
    if link == SHN_UNDEF {
        return Some(1);
    }
    if !is_symbol_table_header(object_class(elf), &linked_header(elf, s)) {
        return None;
    }
    let d = DataId {
        section: link,
        piece: 0,
    };
    match item_count::<S, Sym>(elf, d) {
        Ok(count) => Some(count),
        Err(_) => None,
    }
}

/// Whether a rule looks at the relocations of a section that is there.
#[tactic(auto, using(elf_lint_findings::proofs::WholeLemmas::either_first), unfolding(crate::specs::Relocations::has_relocations))]
fn has_relocations<S: Source>(elf: &Elf<S>, s: ScnId) -> bool
    requires { s.0 < length elf.now.o.sections }
    ensures { result ≡ has_relocations elf.now.o s.0 }
{
    is_relocation_section(&section_header(elf, s)) && is_plain(elf, s)
}

/// The relocations of a section that is there, or None where a rule looks at none of it.
#[tactic(auto, unfolding(crate::specs::Relocations::symbol_numbers_of))]
pub fn relocations_of<S: Source>(elf: &Elf<S>, s: ScnId) -> Option<Relocations>
    requires { s.0 < length elf.now.o.sections }
    ensures section { IfSome result (λ r. r.section ≡ s) }
    ensures are { IfSome result (λ r. AreRelocations elf.now.o r) }
    ensures none { IfNone result (symbol_numbers_of elf.now.o s.0 ≡ []) }
{
    if !has_relocations(elf, s) {
        return None;
    }
    let bound = symbol_bound(elf, s);
    Some(Relocations { section: s, bound })
}

/// Whether a relocation by that symbol names one that is not there.
fn passes_bound(bound: Option<u64>, y: u32) -> bool
    ensures { result ≡ passes_bound bound y }
{
    match bound {
        None => false,
        Some(count) => u64::from(y) >= count,
    }
}

/// Says what the rule finds at each of so many relocations of a section, by index. They are told
/// one by one.
fn each_of<T: RelocationItem, S: Source, O: Sink, E: Sink>(
    by: &ByNoSymbol<'_>,
    elf: &mut Elf<S>,
    r: Relocations,
    count: u64,
    outputs: &mut Outputs<'_, O, E>,
) -> Result<bool, Stop>
    requires passed { lend_refusal elf.old.o T.kind r.section.0 0 ≡ None }
    requires count { count ≡ length (T.list_of (items_at elf.old.o r.section.0 0)) }
    ensures { FindsElf S.Source O.Sink E.Sink
        (λ o. at_items by.now.number by.now.text.now r.section.0
        (λ i x. passes_bound r.bound (T.symbol x)) (T.list_of (items_at o r.section.0 0)))
        by.now.name.now result elf.old elf.new outputs.old outputs.new }
{
    let d = DataId {
        section: r.section.0,
        piece: 0,
    };
    let mut found = false;
    for i in 0..count {
        let x = item_there::<S, T>(elf, d, i)?;
        let holds = passes_bound(r.bound, x.symbol());
        let place = Place::Item(r.section.0, i);
        let was_found = find_if(holds, by.name, by.number, place, by.text, outputs)?;
        found = found | was_found;
    }
    Ok(found)
}

/// The test of the rule: a relocation's symbol is not there.
#[derive(Clone, Copy)]
struct PastBound {
    /// How many symbols there are.
    bound: Option<u64>,
}

impl<T: RelocationItem> ItemTest<T> for PastBound {
    ghost holds = { λ t i x. passes_bound t.bound (T.symbol x) };

    #[inline(always)]
    fn holds(&self, _i: u64, item: &T) -> bool {
        passes_bound(self.bound, item.symbol())
    }
}

/// Says what the rule finds at each relocation of a section whose bytes are in memory, by index.
fn each_at_hand<T: RelocationItem, O: Sink, E: Sink>(
    by: &ByNoSymbol<'_>,
    r: Relocations,
    items: &ItemBytes<'_>,
    outputs: &mut Outputs<'_, O, E>,
) -> Result<bool, Stop>
    requires { AreWhole T.kind items.now }
    ensures reports { Reports O.Sink E.Sink result outputs.old outputs.new
        (findings_shown by.now.name.now (at_items by.now.number by.now.text.now r.section.0
        (λ i x. passes_bound r.bound (T.symbol x)) (held_items T.kind T.list_of items.now))) }
    ensures leaves { LeavesOutputs O.Sink E.Sink ⊥ result outputs.old outputs.new }
{
    let at = AtItems {
        number: by.number,
        text: by.text,
        name: by.name,
        section: r.section,
    };
    let test = PastBound { bound: r.bound };
    let span = Span { from: 0, to: None };
    show_found::<T, PastBound, O, E>(&at, &test, span, items, outputs)
}

/// Says what the rule finds at each of so many relocations of a section that was read, by index.
fn each_loaded<T: RelocationItem, S: Source, O: Sink, E: Sink>(
    by: &ByNoSymbol<'_>,
    elf: &mut Elf<S>,
    r: Relocations,
    count: u64,
    outputs: &mut Outputs<'_, O, E>,
) -> Result<bool, Stop>
    requires passed { lend_refusal elf.old.o T.kind r.section.0 0 ≡ None }
    requires count { count ≡ length (T.list_of (items_at elf.old.o r.section.0 0)) }
    ensures { FindsElf S.Source O.Sink E.Sink
        (λ o. at_items by.now.number by.now.text.now r.section.0
        (λ i x. passes_bound r.bound (T.symbol x)) (T.list_of (items_at o r.section.0 0)))
        by.now.name.now result elf.old elf.new outputs.old outputs.new }
{
    match items_at_hand::<S, T>(elf, r.section) {
        Some(items) => each_at_hand::<T, O, E>(by, r, &items, outputs),
        None => each_of::<T, S, O, E>(by, elf, r, count, outputs),
    }
}

/// Says what the rule finds at each of so many relocations of a section, by index. The section is
/// read first.
fn each_of_section<T: RelocationItem, S: Source, O: Sink, E: Sink>(
    by: &ByNoSymbol<'_>,
    elf: &mut Elf<S>,
    r: Relocations,
    count: u64,
    outputs: &mut Outputs<'_, O, E>,
) -> Result<bool, Stop>
    requires passed { lend_refusal elf.old.o T.kind r.section.0 0 ≡ None }
    requires count { count ≡ length (T.list_of (items_at elf.old.o r.section.0 0)) }
    ensures { FindsElf S.Source O.Sink E.Sink
        (λ o. at_items by.now.number by.now.text.now r.section.0
        (λ i x. passes_bound r.bound (T.symbol x)) (T.list_of (items_at o r.section.0 0)))
        by.now.name.now result elf.old elf.new outputs.old outputs.new }
{
    match load_items::<S, T>(elf, r.section, count) {
        Ok(()) => each_loaded::<T, S, O, E>(by, elf, r, count, outputs),
        Err(stop) => Err(stop),
    }
}

/// Says what the rule finds at each relocation of a section, by index. A section whose relocations
/// can not be told has none.
pub fn each_relocation<T: RelocationItem, S: Source, O: Sink, E: Sink>(
    by: &ByNoSymbol<'_>,
    elf: &mut Elf<S>,
    r: Relocations,
    outputs: &mut Outputs<'_, O, E>,
) -> Result<bool, Stop>
    ensures { FindsElf S.Source O.Sink E.Sink
        (λ o. at_items by.now.number by.now.text.now r.section.0
        (λ i y. passes_bound r.bound y)
        (map T.symbol (if_lent (lend_refusal o T.kind r.section.0 0)
        (T.list_of (items_at o r.section.0 0)))))
        by.now.name.now result elf.old elf.new outputs.old outputs.new }
{
    let d = DataId {
        section: r.section.0,
        piece: 0,
    };
    match item_count::<S, T>(elf, d) {
        Ok(count) => each_of_section::<T, S, O, E>(by, elf, r, count, outputs),
        Err(_) => Ok(false),
    }
}
