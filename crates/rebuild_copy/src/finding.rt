//! The first section of a name.

ghost use Rattle.std.specs.Prelude.{◌≡◌, ℕ, List, Option, true};
ghost use Rattle.rebuild_select.specs.Sought.Names.{is_sought};
ghost use Rattle.rebuild_changes.specs.Stated.{IsWithoutDeviceFault};
ghost use Rattle.rebuild_copy.specs.Indexes.{IsIndexOf, FindsNamed};

use elf_types::Octets;
use rebuild_changes::CopyFault;
use rebuild_edits::or_no_section;
use rebuild_select::sought::NameIndex;
use std::alloc::Global;

/// The first section that has a name by now, which is one that is looked for. It fails with
/// `NoSection` where there is none, and besides where memory runs out.
pub(crate) fn find_named<'a>(
    alloc: Global,
    index: &NameIndex<'a>,
    name: &'a Octets,
) -> Result<u32, CopyFault>
    requires { is_sought index.now.sought name.now ≡ true }
    ensures found { (names : List (Option (List ℕ))) → IsIndexOf index.now names
        → FindsNamed names name.now result }
    ensures unread { IsWithoutDeviceFault result }
{
    or_no_section(alloc, index.find(name.as_slice()), name)
}
