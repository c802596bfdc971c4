//! The items of a section, where they can be told.

ghost use Rattle.std.specs.Prelude.{slice_get};
ghost use Rattle.tool_objects.specs.elf_object.Answers.{items_at, lend_refusal};
ghost use Rattle.tool_objects.specs.Steps.{Learns};
ghost use Rattle.elf_lint_findings.specs.Looking.{if_lent};

use elf_types::{DataId, ScnId};
use tool_objects::prelude::{Elf, Item, Source, Stop};

/// Item `i` of a section, or None where it is not there or the items can not be told. It stops by
/// `Read` where a read of the source failed, and by `Memory`.
pub fn item_at<S: Source, T: Item>(elf: &mut Elf<S>, s: ScnId, i: u64) -> Result<Option<T>, Stop>
    ensures { Learns S.Source (λ o. slice_get
        (if_lent (lend_refusal o T.kind s.0 0) (T.list_of (items_at o s.0 0))) i)
        result elf.old elf.new }
{
    let d = DataId {
        section: s.0,
        piece: 0,
    };
    Stop::unless_refused(elf.item::<T>(d, i))
}
