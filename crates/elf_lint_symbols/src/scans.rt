//! What rules find at the items of a section whose bytes are in memory. Items at which nothing is
//! found are passed over where their bytes are, with one look at each.

ghost use Rattle.std.specs.Prelude.{◌≡◌, ◌<◌, ℕ, length, true, None};
ghost use Rattle.tool_objects.specs.elf_object.Answers.{items_at, lend_refusal};
ghost use Rattle.tool_output.specs.Reports.{Reports};
ghost use Rattle.tool_output.specs.Steps.{LeavesOutputs};
ghost use Rattle.tool_objects.specs.Steps.{ReadsElf};
ghost use Rattle.tool_objects.specs.AtHand.Items.{held_items, AreWhole, IsWithinSpan};
ghost use Rattle.elf_lint_findings.specs.Findings.{at_items, findings_shown};

use elf_lint_findings::{Place, find};
use elf_outside::{Sink, Source};
use elf_types::{DataId, ScnId};
use tool_objects::at_hand::{ItemBytes, ItemTest, Span, next_found};
use tool_objects::prelude::{Elf, Item, item_there};
use tool_output::{FileName, Outputs, Stop};

/// A rule at the items of a section, under the name of a file.
#[derive(Clone, Copy)]
pub struct AtItems<'a> {
    /// Its number.
    pub number: u32,
    /// The text of its findings.
    pub text: &'static str,
    /// The file.
    pub name: &'a FileName<'a>,
    /// The section.
    pub section: ScnId,
}

/// Reads the items of a section that has so many, where it has any: they are in memory then, unless
/// they were edited. It stops by `Read` where a read of the source failed, and by `Memory`.
pub fn load_items<S: Source, T: Item>(elf: &mut Elf<S>, s: ScnId, count: u64) -> Result<(), Stop>
    requires passed { lend_refusal elf.old.o T.kind s.0 0 ≡ None }
    requires count { count ≡ length (T.list_of (items_at elf.old.o s.0 0)) }
    ensures { ReadsElf S.Source result elf.old elf.new }
{
    if count == 0 {
        return Ok(());
    }
    let d = DataId {
        section: s.0,
        piece: 0,
    };
    match item_there::<S, T>(elf, d, 0) {
        Ok(_) => Ok(()),
        Err(stop) => Err(stop),
    }
}

/// Says what a rule finds at each item of a section that passes its test, by index: those that pass
/// have their indexes in a span. The bytes of the items are in memory, and nothing is read.
pub fn show_found<T: Item, C: ItemTest<T>, O: Sink, E: Sink>(
    by: &AtItems<'_>,
    test: &C,
    span: Span,
    items: &ItemBytes<'_>,
    outputs: &mut Outputs<'_, O, E>,
) -> Result<bool, Stop>
    requires whole { AreWhole T.kind items.now }
    requires within { (i : ℕ) (x : T) → C.holds test.now i x ≡ true → IsWithinSpan span i }
    ensures reports { Reports O.Sink E.Sink result outputs.old outputs.new
        (findings_shown by.now.name.now (at_items by.now.number by.now.text.now by.now.section.0
        (C.holds test.now) (held_items T.kind T.list_of items.now))) }
    ensures leaves { LeavesOutputs O.Sink E.Sink ⊥ result outputs.old outputs.new }
{
    let mut found = false;
    let mut from = span.from;
    while let Some(i) = next_found::<T, C>(test, items, Span { from, to: span.to }) {
        let place = Place::Item(by.section.0, i);
        let was_found = find(by.name, by.number, place, by.text, outputs)?;
        found = found | was_found;
        from = i + 1;
    }
    Ok(found)
}
