//! Marks of the sections that get new names: a mark stands for a change, and the change has the
//! name.

ghost use Rattle.std.specs.Prelude.{◌≡◌, slice_set, IfOk, IfErr};
ghost use Rattle.std.specs.Option.{option_copied};
ghost use Rattle.std.proofs.Math.ListN.{replicate};
ghost use Rattle.elf_types.specs.declared.errors.ElfError.TheVariants.{Memory};
ghost use Rattle.rebuild_edits.specs.Edits.Names.{mark_of, new_name};

use elf_types::{ElfError, List, Octets};
use rebuild_changes::NameBytes;
use std::alloc::Global;

/// As many marks as there are sections, each 0. It fails with `Memory` alone.
pub fn no_marks(alloc: Global, count: u32) -> Result<List<u64>, ElfError>
    ensures ok { IfOk result (λ marks. marks ≡ replicate count 0) }
    ensures err { IfErr result (λ e. e ≡ Memory) }
{
    let marks = vec![in alloc; 0u64; count as usize]?;
    Ok(List::from_vec(marks))
}

/// Gives a section a mark, where there is one of it.
#[tactic(auto, using(std::proofs::lemmas::List::set_past))]
pub fn set_mark(marks: &mut List<u64>, s: u32, mark: u64)
    ensures { marks.new ≡ slice_set marks.old s mark }
{
    if u64::from(s) >= marks.len() {
        return;
    }
    marks.as_mut_slice()[s as usize] = mark;
}

/// The mark of a section: 0 where its name stays, else one more than the index of the change that
/// names it last.
pub fn mark_of(marks: &List<u64>, s: u32) -> u64
    ensures { result ≡ mark_of marks.now s }
{
    marks.get(u64::from(s)).unwrap_or(0)
}

/// The new name that a mark stands for, if it stands for one.
pub fn new_name(renames: &List<NameBytes>, mark: u64) -> Option<&Octets>
    ensures { option_copied result ≡ new_name renames.now mark }
{
    if mark == 0 {
        return None;
    }
    match renames.as_slice().get((mark - 1) as usize) {
        Some(change) => Some(&change.bytes),
        None => None,
    }
}
