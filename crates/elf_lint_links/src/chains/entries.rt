//! The entries of a section of version definitions or needs, each with its list of names.

ghost use Rattle.std.specs.Prelude.{◌≡◌, ◌<◌, ◌≤◌, ◌^◌, ℕ, List, None, Option as TheOption, IsTrue, length, slice_index_or};
ghost use Rattle.elf_types.specs.declared.records.Order.{Order as TheOrder};
ghost use Rattle.elf_lint_findings.specs.elf_object.Object.{Object};
ghost use Rattle.elf_lint_findings.specs.gelf_view.Calls.{first_version_place};
ghost use Rattle.elf_lint_findings.specs.tool_objects.Steps.{Learns};
ghost use Rattle.elf_lint_findings.specs.Looking.{data_bytes};
ghost use Rattle.elf_lint_links.specs.Chains.Chains.{bad_place, entries_bad, from_first};
ghost use Rattle.elf_lint_links.specs.Chains.Reach.{IsReach};

use crate::chains::by_chain::met;
use crate::chains::reach::{find_reach, steps_from};
use elf_lint_findings::prelude::{AuxPlace, Elf, VersionEntry, VersionName, first_entry};
use elf_outside::Source;
use elf_types::{DataId, Halves, Order, ScnId};
use tool_output::Stop;

/// An entry of a version section, as the rule on version records looks at it.
///
/// - `names_bad` is where the chain of its names goes bad, by the section and its place.
/// - `next_in` is how far the next name is from the one at a place of bytes, or None where that does
///   not lie in them.
pub trait CheckedVersionEntry: VersionEntry {
    ghost names_bad: { Object → ℕ → (ℕ × Self) → TheOption ℕ };

    ghost next_in: { TheOrder → List ℕ → ℕ → TheOption ℕ };

    /// How far the next name is from the one at a place of bytes, or None where that does not lie
    /// in them.
    fn next_name_in(bytes: &[u8], at: u64, order: Order) -> Option<u32>
        ensures { result ≡ next_in order bytes.now at };

    /// Where the chain of its names goes bad, of an entry that was found at a place of a section,
    /// from whose places on names are in a row. It stops by `Read` where a read of the source
    /// failed, and by `Memory`.
    fn find_bad_name<S: Source>(
        &self,
        elf: &mut Elf<S>,
        s: ScnId,
        at: u64,
        reach: &Halves,
    ) -> Result<Option<u64>, Stop>
        requires near { at < 2 ^ 63 }
        requires reach { IsTrue elf.old.told
            → IsReach (next_in elf.old.o.header.order (data_bytes elf.old.o s.0)) reach.now }
        ensures { Learns S.Source (λ o. names_bad o s.0 (at, self.now)) result elf.old elf.new };
}

/// Where the chain of the names goes bad that begins at a place.
pub fn walk_names<A: VersionName, S: Source>(
    elf: &mut Elf<S>,
    s: ScnId,
    first: AuxPlace,
) -> Result<Option<u64>, Stop>
    ensures { Learns S.Source (λ o. bad_place (A.names o s.0 0 first).bad)
        result elf.old elf.new }
{
    let d = DataId {
        section: s.0,
        piece: 0,
    };
    let mut place = first;
    'names: loop {
        match A::next_of(elf, d, &mut place) {
            Ok(Some(_)) => {}
            Ok(None) => return Ok(None),
            Err(e) => return met(e),
        }
    }
}

/// Where the chain of the names goes bad that begins at a place, in a section where it is known how
/// many names follow in a row from each place on: where so many do as are wanted, none is looked
/// at.
pub fn bad_names<A: VersionName, S: Source>(
    elf: &mut Elf<S>,
    s: ScnId,
    first: AuxPlace,
    reach: &Halves,
) -> Result<Option<u64>, Stop>
    requires { IsTrue elf.old.told → first.left ≤ slice_index_or reach.now first.at 0
        → bad_place (A.names elf.old.o s.0 0 first).bad ≡ None }
    ensures { Learns S.Source (λ o. bad_place (A.names o s.0 0 first).bad)
        result elf.old elf.new }
{
    if first.left <= steps_from(reach, first.at) {
        return Ok(None);
    }
    walk_names::<A, S>(elf, s, first)
}

/// The first bad chain that the walk over entries and their names meets from a place on, in a
/// section from whose places on names are in a row.
fn walk_from<R: CheckedVersionEntry, S: Source>(
    elf: &mut Elf<S>,
    s: ScnId,
    first: u64,
    reach: &Halves,
) -> Result<Option<u64>, Stop>
    requires { IsTrue elf.old.told
        → IsReach (R.next_in elf.old.o.header.order (data_bytes elf.old.o s.0)) reach.now }
    ensures { Learns S.Source (λ o. entries_bad (R.names_bad o s.0) (R.entries o s.0 0 first))
        result elf.old elf.new }
{
    let d = DataId {
        section: s.0,
        piece: 0,
    };
    let mut at = first;
    'entries: loop {
        match R::entry_at(elf, d, at) {
            Ok(entry) => {
                let bad = entry.find_bad_name(elf, s, at, reach)?;
                if bad.is_some() {
                    return Ok(bad);
                }
                match entry.place_behind(at) {
                    Some(next) => at = next,
                    None => return Ok(None),
                }
            }
            Err(e) => return met(e),
        }
    }
}

/// The first bad chain from a place on, once it is found how many names follow in a row from each
/// place on.
fn walk_reached<R: CheckedVersionEntry, S: Source>(
    elf: &mut Elf<S>,
    s: ScnId,
    first: u64,
) -> Result<Option<u64>, Stop>
    ensures { Learns S.Source (λ o. entries_bad (R.names_bad o s.0) (R.entries o s.0 0 first))
        result elf.old elf.new }
{
    match find_reach::<R, S>(elf, s) {
        Ok(reach) => walk_from::<R, S>(elf, s, first, &reach),
        Err(stop) => Err(stop),
    }
}

/// The first bad chain that the walk over the entries of a section meets; an empty section has no
/// entries, nor has one whose bytes can not be told. It stops by `Read` where a read of the source
/// failed, and by `Memory`.
pub fn walk_entries<R: CheckedVersionEntry, S: Source>(
    elf: &mut Elf<S>,
    s: ScnId,
) -> Result<Option<u64>, Stop>
    ensures { Learns S.Source (λ o. entries_bad (R.names_bad o s.0)
        (from_first (first_version_place (length (data_bytes o s.0))) (R.entries o s.0 0)))
        result elf.old elf.new }
{
    let d = DataId {
        section: s.0,
        piece: 0,
    };
    match first_entry(elf, d) {
        Ok(Some(first)) => walk_reached::<R, S>(elf, s, first),
        Ok(None) => Ok(None),
        Err(e) => match Stop::of(&e) {
            Some(stop) => Err(stop),
            None => Ok(None),
        },
    }
}
