//! Whether the rules 21 to 25 find nothing at the symbols of an object: one look at each symbol
//! tells it of all of them. A table whose bytes do not tell it counts as one with findings.

ghost use Rattle.std.specs.Prelude.{◌≡◌, ◌<◌, length, true, IfOk, IfSome, IsTrue, []};
ghost use Rattle.elf_types.specs.declared.records.Kind.TheVariants as kinds;
ghost use Rattle.tool_objects.specs.elf_object.Answers.{syms_of};
ghost use Rattle.tool_objects.specs.Steps.{ReadsElf};
ghost use Rattle.tool_objects.specs.AtHand.Items.{held_items, passing_from, AreWhole};
ghost use Rattle.tool_objects.specs.AtHand.Strings.{EndsAt};
ghost use Rattle.elf_lint_symbols.specs.Symbols.{AllSymbolsSound, AreSoundSymbols, IsCheckedSymbolTable};
ghost use Rattle.elf_lint_symbols.specs.Tests as tests;

use crate::by_symbol::{CheckedSymbolTable, SymbolRule, checked_table_of, end_of_names};
use crate::scans::load_items;
use crate::symbols::{EarlyOthers, LateLocals, SymbolNames, SymbolSections, is_used};
use elf_outside::Source;
use elf_types::{ScnId, Sym};
use tool_objects::at_hand::{ItemBytes, ItemTest, Span, items_at_hand, next_found};
use tool_objects::prelude::Elf;
use tool_output::Stop;

/// The tests of the rules 21 to 25 at the symbols of a table.
#[derive(Clone, Copy)]
struct AllTests {
    /// The table.
    table: CheckedSymbolTable,
    /// Where its strings end, where that is known.
    end: Option<u64>,
}

impl ItemTest<Sym> for AllTests {
    ghost holds = { λ t i x. tests.some_holds t.table t.end i x };

    #[inline(always)]
    fn holds(&self, i: u64, x: &Sym) -> bool {
        let t = &self.table;
        let first = i == 0 && is_used(*x);
        let bound = LateLocals.holds(t, self.end, i, x) | EarlyOthers.holds(t, self.end, i, x);
        let named = SymbolNames.holds(t, self.end, i, x);
        named | (SymbolSections.holds(t, self.end, i, x) | (first | bound))
    }
}

/// Whether no test holds of a symbol of a table whose bytes are in memory.
fn are_sound(t: CheckedSymbolTable, end: Option<u64>, items: &ItemBytes<'_>) -> bool
    requires { AreWhole kinds.Sym items.now }
    ensures { result ≡ true → passing_from (tests.some_holds t end)
        (held_items kinds.Sym syms_of items.now) 0 ≡ [] }
{
    let test = AllTests { table: t, end };
    match next_found::<Sym, AllTests>(&test, items, Span { from: 0, to: None }) {
        Some(_) => false,
        None => true,
    }
}

/// Whether the rules find nothing at the symbols of a table that was read.
fn is_sound_loaded<S: Source>(elf: &Elf<S>, t: CheckedSymbolTable, end: Option<u64>) -> bool
    requires table { IsCheckedSymbolTable elf.now.o t }
    requires end { IsTrue elf.now.told → IfSome end (EndsAt elf.now.o t.strings.0) }
    ensures { IsTrue elf.now.told → result ≡ true → AreSoundSymbols elf.now.o t.section.0 }
{
    if !SymbolNames.tells(&t, end) {
        return false;
    }
    match items_at_hand::<S, Sym>(elf, t.section) {
        Some(items) => are_sound(t, end, &items),
        None => false,
    }
}

/// Whether the rules find nothing at the symbols of a table, whose strings end there where that is
/// known. The table is read first.
fn is_sound_to<S: Source>(
    elf: &mut Elf<S>,
    t: CheckedSymbolTable,
    end: Option<u64>,
) -> Result<bool, Stop>
    requires table { IsCheckedSymbolTable elf.old.o t }
    requires end { IsTrue elf.old.told → IfSome end (EndsAt elf.old.o t.strings.0) }
    ensures sound { IsTrue elf.old.told → IfOk result
        (λ sound. sound ≡ true → AreSoundSymbols elf.old.o t.section.0) }
    ensures reads { ReadsElf S.Source result elf.old elf.new }
{
    match load_items::<S, Sym>(elf, t.section, t.count) {
        Ok(()) => Ok(is_sound_loaded(elf, t, end)),
        Err(stop) => Err(stop),
    }
}

/// Whether the rules find nothing at the symbols of a table, whose strings' end is looked for
/// before.
fn is_sound_table<S: Source>(elf: &mut Elf<S>, t: CheckedSymbolTable) -> Result<bool, Stop>
    requires { IsCheckedSymbolTable elf.old.o t }
    ensures sound { IsTrue elf.old.told → IfOk result
        (λ sound. sound ≡ true → AreSoundSymbols elf.old.o t.section.0) }
    ensures reads { ReadsElf S.Source result elf.old elf.new }
{
    match end_of_names(true, elf, t) {
        Ok(end) => is_sound_to(elf, t, end),
        Err(stop) => Err(stop),
    }
}

/// Whether the rules find nothing at the symbols of a section that is there.
fn is_sound_section<S: Source>(elf: &mut Elf<S>, s: ScnId) -> Result<bool, Stop>
    requires { s.0 < length elf.old.o.sections }
    ensures sound { IsTrue elf.old.told → IfOk result
        (λ sound. sound ≡ true → AreSoundSymbols elf.old.o s.0) }
    ensures reads { ReadsElf S.Source result elf.old elf.new }
{
    match checked_table_of(elf, s) {
        Some(t) => is_sound_table(elf, t),
        None => Ok(true),
    }
}

/// Whether the rules 21 to 25 find nothing at the symbols of an object, where its symbol tables
/// tell that once they are read; false tells nothing. They are held together then. It stops by
/// `Read` where a read of the source failed, and by `Memory`.
pub fn all_symbols_sound<S: Source>(elf: &mut Elf<S>) -> Result<bool, Stop>
    ensures sound { IsTrue elf.old.told → IfOk result
        (λ sound. sound ≡ true → AllSymbolsSound elf.old.o) }
    ensures reads { ReadsElf S.Source result elf.old elf.new }
{
    for s in 0..elf.shnum() {
        if !is_sound_section(elf, ScnId(s))? {
            return Ok(false);
        }
    }
    Ok(true)
}
