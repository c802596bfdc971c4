//! How many names of version entries are in a row from each place of a section on. Many entries may
//! lead to the same names: by this each name is looked at once, however many do.

ghost use Rattle.std.specs.Prelude.{◌≡◌, ◌≤◌, ◌+◌, ◌<◌, ◌^◌, ℕ, Option as TheOption, IfErr, IfOk, IsTrue, false, length, replicate, slice_index_or, slice_set, true};
ghost use Rattle.elf_types.specs.declared.errors.ElfError.TheVariants.{Memory};
ghost use Rattle.elf_lint_findings.specs.tool_objects.Steps.{ReadsElf};
ghost use Rattle.elf_lint_findings.specs.Looking.{data_bytes};
ghost use Rattle.elf_lint_links.specs.Chains.Reach.{stand, IsReach};

use crate::chains::entries::CheckedVersionEntry;
use elf_lint_findings::prelude::{Elf, bytes};
use elf_outside::Source;
use elf_types::{DataId, ElfError, Halves, List, Order, ScnId};
use std::alloc::Global;
use tool_output::Stop;

/// How many names are in a row from a place on; none from one that is not there.
pub fn steps_from(reach: &Halves, at: u64) -> u16
    ensures { result ≡ slice_index_or reach.now at 0 }
{
    match reach.get(at) {
        Some(steps) => steps,
        None => 0,
    }
}

/// One more than so many, which count as 65,535 where they are that many.
fn one_more(steps: u16) -> u16
    ensures some { 0 < result }
    ensures fewer { result ≤ steps + 1 }
{
    if steps < 65535 { steps + 1 } else { steps }
}

/// How many names are in a row from a place on, by how far the next one is from the one that is
/// there. More than 65,535 count as so many, since no entry tells of more.
fn steps_at(reach: &Halves, at: u64, next: Option<u32>) -> u16
    requires { at < 2 ^ 63 }
    ensures { (next_at : ℕ → TheOption ℕ) → IsReach next_at reach.now → next ≡ next_at at
        → stand next_at result at false ≡ true }
{
    let Some(next) = next else {
        return 0;
    };
    if next == 0 {
        return 1;
    }
    one_more(steps_from(reach, at + u64::from(next)))
}

/// Stores a number at an index.
fn set_half(reach: &mut Halves, i: u64, steps: u16)
    requires { i < length reach.old }
    ensures { reach.new ≡ slice_set reach.old i steps }
{
    reach.as_mut_slice()[i as usize] = steps;
}

/// Counts the names that are in a row from each place of bytes on. A next name follows, so the last
/// place is looked at first.
fn count_steps<R: CheckedVersionEntry>(bytes: &[u8], order: Order, reach: &mut Halves)
    requires long { length reach.old ≡ length bytes.now }
    requires begun { IsReach (R.next_in order bytes.now) reach.old }
    ensures { IsReach (R.next_in order bytes.now) reach.new }
{
    let count = bytes.len() as u64;
    for done in 0..count {
        let at = count - 1 - done;
        let next = R::next_name_in(bytes, at, order);
        let steps = steps_at(reach, at, next);
        set_half(reach, at, steps);
    }
}

/// So many zeros. It fails with `Memory` alone.
fn zeros(alloc: Global, count: u64) -> Result<Halves, ElfError>
    ensures ok { IfOk result (λ reach. reach ≡ replicate count 0) }
    ensures err { IfErr result (λ e. e ≡ Memory) }
{
    let reach = vec![in alloc; 0u16; count as usize]?;
    Ok(List::from_vec(reach))
}

/// How many names are in a row from each place of bytes on. It fails with `Memory` alone.
fn reach_in<R: CheckedVersionEntry>(
    alloc: Global,
    bytes: &[u8],
    order: Order,
) -> Result<Halves, ElfError>
    ensures ok { IfOk result (IsReach (R.next_in order bytes.now)) }
    ensures err { IfErr result (λ e. e ≡ Memory) }
{
    let mut reach = zeros(alloc, bytes.len() as u64)?;
    count_steps::<R>(bytes, order, &mut reach);
    Ok(reach)
}

/// How many names follow in a row from each place of bytes on; it stops where there is no memory.
fn reach_or_stop<R: CheckedVersionEntry>(
    alloc: Global,
    bytes: &[u8],
    order: Order,
) -> Result<Halves, Stop>
    ensures ok { IfOk result (IsReach (R.next_in order bytes.now)) }
    ensures err { IfErr result (λ stop. stop ≡ Stop.Memory) }
{
    match reach_in::<R>(alloc, bytes, order) {
        Ok(reach) => Ok(reach),
        Err(e) => Err(Stop::want_of(e)),
    }
}

/// The byte order of an object.
#[tactic(auto, unfolding(elf_lint_findings::specs::Passed::header_of))]
fn order<S: Source>(elf: &Elf<S>) -> Order
    ensures { result ≡ elf.now.o.header.order }
{
    elf.ehdr().order
}

/// How many names are in a row from each place of a section on; none in one whose bytes can not be
/// told. It stops by `Read` where a read of the source failed, and by `Memory`.
pub fn find_reach<R: CheckedVersionEntry, S: Source>(
    elf: &mut Elf<S>,
    s: ScnId,
) -> Result<Halves, Stop>
    ensures is { IsTrue elf.old.told → IfOk result
        (IsReach (R.next_in elf.old.o.header.order (data_bytes elf.old.o s.0))) }
    ensures reads { ReadsElf S.Source result elf.old elf.new }
{
    let alloc = elf.alloc();
    let of_order = order(elf);
    let d = DataId {
        section: s.0,
        piece: 0,
    };
    match bytes(elf, d) {
        Ok(bytes) => reach_or_stop::<R>(alloc, bytes, of_order),
        Err(e) => match Stop::of(&e) {
            Some(stop) => Err(stop),
            None => Ok(Halves::new(alloc)),
        },
    }
}
