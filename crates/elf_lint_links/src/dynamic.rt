//! The rule 28: the end of the dynamic section.

ghost use Rattle.std.specs.Prelude.{◌≡◌, length, slice_get};
ghost use Rattle.std.specs.List.{list_any};
ghost use Rattle.elf_types.specs.declared.records.Dyn.{Dyn as TheDyn};
ghost use Rattle.elf_lint_findings.specs.tool_objects.Steps.{Learns};
ghost use Rattle.elf_lint_links.specs.Dynamic as rule;
ghost use Rattle.elf_lint_findings.specs.Looking.{dyns};
ghost use Rattle.elf_lint_findings.specs.Steps.{FindsOver};

use elf_lint_findings::prelude::{Elf, item_count};
use elf_lint_findings::{SectionRule, each_section_by, is_plain_of, item_at};
use elf_outside::{Sink, Source};
use elf_types::constants::SHT_DYNAMIC;
use elf_types::{DataId, Dyn, ScnId};
use tool_output::{FileName, Outputs, Stop};

/// The tag of the last entry, `DT_NULL`.
const DT_NULL: i64 = 0;

/// Whether there is an entry, and it is the last one by its tag.
fn is_end(x: Option<Dyn>) -> bool
    ensures { result ≡ rule.is_dynamic_end x }
{
    match x {
        Some(x) => x.tag == DT_NULL,
        None => false,
    }
}

/// Whether entry `i` of a section is there, and the last one by its tag. It stops by `Read` where a
/// read of the source failed, and by `Memory`.
#[tactic(auto, unfolding(elf_lint_findings::specs::Looking::dyns))]
fn ends_at<S: Source>(elf: &mut Elf<S>, s: ScnId, i: u64) -> Result<bool, Stop>
    ensures { Learns S.Source (λ o. rule.is_dynamic_end (slice_get (dyns o s.0) i))
        result elf.old elf.new }
{
    match item_at::<S, Dyn>(elf, s, i) {
        Ok(found) => Ok(is_end(found)),
        Err(stop) => Err(stop),
    }
}

/// Whether one of the entries of a section, of which there are so many, is the last one by its tag.
/// It stops as `ends_at` does.
fn some_ends<S: Source>(elf: &mut Elf<S>, s: ScnId, count: u64) -> Result<bool, Stop>
    requires { count ≡ length (dyns elf.old.o s.0) }
    ensures { Learns S.Source
        (λ o. list_any (λ (x : TheDyn). rule.is_null_tag x.tag) (dyns o s.0))
        result elf.old elf.new }
{
    for i in 0..count {
        if ends_at(elf, s, i)? {
            return Ok(true);
        }
    }
    Ok(false)
}

/// Whether an entry of a section is the last one by its tag: none is where they can not be told. It
/// stops as `ends_at` does.
fn has_end<S: Source>(elf: &mut Elf<S>, s: ScnId) -> Result<bool, Stop>
    ensures { Learns S.Source
        (λ o. list_any (λ (x : TheDyn). rule.is_null_tag x.tag) (dyns o s.0))
        result elf.old elf.new }
{
    let d = DataId {
        section: s.0,
        piece: 0,
    };
    match item_count::<S, Dyn>(elf, d) {
        Ok(count) => some_ends(elf, s, count),
        Err(_) => Ok(false),
    }
}

/// Dynamic sections without an end.
#[derive(Clone, Copy)]
struct DynamicEnds;

impl SectionRule for DynamicEnds {
    ghost finds = { rule.dynamic_lacks_end };

    #[tactic(auto, unfolding(crate::specs::Dynamic::dynamic_lacks_end))]
    fn finds<S: Source>(&self, elf: &mut Elf<S>, s: ScnId) -> Result<bool, Stop> {
        if !is_plain_of(elf, s, SHT_DYNAMIC) {
            return Ok(false);
        }
        match has_end(elf, s) {
            Ok(ended) => Ok(!ended),
            Err(stop) => Err(stop),
        }
    }
}

/// Rule 28, at each dynamic section: no entry has the tag that ends it.
///
/// Source: gABI chapter 5, "Dynamic Section", DT_NULL.
#[tactic(auto, unfolding(crate::specs::Dynamic::dynamic_without_end))]
pub fn dynamic_without_end<S: Source, O: Sink, E: Sink>(
    name: &FileName<'_>,
    elf: &mut Elf<S>,
    outputs: &mut Outputs<'_, O, E>,
) -> Result<bool, Stop>
    ensures { FindsOver S.Source O.Sink E.Sink 1 rule.dynamic_without_end name.now
        result elf.old elf.new outputs.old outputs.new }
{
    each_section_by(&DynamicEnds, 28, "no end", name, elf, outputs)
}
