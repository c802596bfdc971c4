//! The lists after the sections.

ghost use Rattle.std.specs.Prelude.{◌≡◌, ◌+◌, ◌*◌, ◌<◌, ◌≤◌, ◌++◌, ◌∷◌, [], false, length, replicate, OnOk, OnErr, IfOk, IfErr, vec_len, vec_capacity};
ghost use Rattle.elf_types.specs.declared.constants.TheConstants.{MAX_SECTIONS};
ghost use Rattle.elf_types.specs.declared.errors.ElfError.TheVariants.{Memory};

use crate::headers::Headers;
use elf_types::{ElfError, Shdr};
use section_data::Cell;
use std::alloc::Global;

/// So many marks, none of which is set. It fails with `Memory` alone.
pub(crate) fn clear_marks(alloc: Global, count: usize) -> Result<Vec<bool>, ElfError>
    ensures ok { IfOk result (λ marks. marks.items ≡ replicate count false) }
    ensures err { IfErr result (λ e. e ≡ Memory) }
{
    let marks = vec![in alloc; false; count]?;
    Ok(marks)
}

/// So many slots, all of which are empty. It fails with `Memory` alone.
pub(crate) fn empty_slots(alloc: Global, count: usize) -> Result<Vec<u32>, ElfError>
    ensures ok { IfOk result (λ slots. slots.items ≡ replicate count 0) }
    ensures err { IfErr result (λ e. e ≡ Memory) }
{
    let slots = vec![in alloc; 0u32; count]?;
    Ok(slots)
}

/// Room for so many cells, which is not touched. It fails with `Memory` alone.
pub(crate) fn cell_room(alloc: Global, count: usize) -> Result<Vec<Cell>, ElfError>
    ensures ok { IfOk result (λ cells. cells.items ≡ []) }
    ensures room { IfOk result (λ cells. count ≤ vec_capacity cells) }
    ensures err { IfErr result (λ e. e ≡ Memory) }
{
    let cells = Vec::with_capacity(alloc, count)?;
    Ok(cells)
}

/// Adds an item at the end of a list that has room for it. It takes no memory.
pub(crate) fn put_last<T: Drop>(list: &mut Vec<T>, item: T)
    requires { vec_len list.old < vec_capacity list.old }
    ensures items { list.new.items ≡ list.old.items ++ item ∷ [] }
    ensures room { vec_capacity list.old ≤ vec_capacity list.new }
{
    list.push_reserved(item);
}

/// Makes room for so many items more in a list. A list that must be moved for it gets room for some
/// `besides`, so that it is seldom moved. It fails with `Memory` alone. What the list holds stays.
#[inline(always)]
pub(crate) fn make_room<T>(list: &mut Vec<T>, more: usize, besides: usize) -> Result<(), ElfError>
    requires some { 0 < more }
    requires few { more ≤ MAX_SECTIONS }
    requires not_many { besides ≤ 3 * MAX_SECTIONS }
    ensures items { list.new.items ≡ list.old.items }
    ensures len { vec_len list.new ≡ vec_len list.old }
    ensures room { vec_capacity list.old ≤ vec_capacity list.new }
    ensures ok { OnOk result (vec_len list.new + more ≤ vec_capacity list.new) }
    ensures err { IfErr result (λ e. e ≡ Memory) }
{
    let left = list.capacity().saturating_sub(list.len());
    if more <= left {
        return Ok(());
    }
    list.reserve(more + besides)?;
    Ok(())
}

/// Adds the header of one section more, and takes memory for the rest of it, and for the cell of
/// each section. It fails with `Memory` alone, and then nothing changes.
#[inline(always)]
pub(crate) fn add_header(
    headers: &mut Headers,
    header: Shdr,
    marks: &mut Vec<bool>,
    slots: &mut Vec<u32>,
    cells: &mut Vec<Cell>,
) -> Result<(), ElfError>
    requires few { length headers.old < MAX_SECTIONS }
    requires made { vec_len cells.old ≤ length headers.old }
    ensures headers { OnOk result (headers.new ≡ headers.old ++ header ∷ []) }
    ensures unchanged { OnErr result (headers.new ≡ headers.old) }
    ensures marks { marks.new.items ≡ marks.old.items }
    ensures slots { slots.new.items ≡ slots.old.items }
    ensures cells { cells.new.items ≡ cells.old.items }
    ensures room { vec_capacity cells.old ≤ vec_capacity cells.new }
    ensures ok { OnOk result ((vec_len marks.new < vec_capacity marks.new)
        × (vec_len slots.new < vec_capacity slots.new)
        × (vec_len cells.new < vec_capacity cells.new)
        × (length headers.old + 1 ≤ vec_capacity cells.new)) }
    ensures err { IfErr result (λ e. e ≡ Memory) }
{
    let count = headers.len();
    let more = count + 1 - cells.len();
    let besides = 3 * count;
    make_room(marks, 1, besides)?;
    make_room(slots, 1, besides)?;
    make_room(cells, more, besides)?;
    if let Err(e) = headers.push(header, besides) {
        return Err(e);
    }
    Ok(())
}
