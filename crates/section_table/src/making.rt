//! The cell of a section is made where there is none.

ghost use Rattle.std.specs.Prelude.{◌≡◌, ◌<◌, ◌≤◌, length, slice_index_or, vec_capacity};
ghost use Rattle.elf_types.specs.declared.constants.TheConstants.{MAX_SECTIONS};
ghost use Rattle.section_data.specs.elf_ident.Front.{zero_shdr};
ghost use Rattle.section_table.specs.Sections.{Makes};

use crate::headers::Headers;
use crate::lists::put_last;
use elf_types::Class;
use section_data::Cell;
use std::alloc::Global;

/// What cells are made of: the class of the image and its length.
#[derive(Clone, Copy)]
pub(crate) struct Form {
    /// The allocator.
    pub(crate) alloc: Global,
    /// The class of the image.
    pub(crate) class: Class,
    /// The length of the image.
    pub(crate) size: u64,
}

/// Makes the cell of a section that has none, and returns its place. It takes no memory.
fn make_new(
    form: Form,
    s: u32,
    headers: &Headers,
    slots: &mut Vec<u32>,
    cells: &mut Vec<Cell>,
) -> usize
    requires header { s < length headers.now }
    requires there { s < length slots.old.items }
    requires none { slice_index_or slots.old.items s 0 ≡ 0 }
    requires room { length cells.old.items < vec_capacity cells.old }
    requires few { length cells.old.items < MAX_SECTIONS }
    ensures makes { Makes form.size s (slice_index_or headers.now s zero_shdr)
        slots.old.items slots.new.items cells.old.items cells.new.items result }
    ensures room { vec_capacity cells.old ≤ vec_capacity cells.new }
{
    let place = cells.len();
    slots[s as usize] = place as u32 + 1;
    let header = headers.at(s);
    let cell = Cell::unread(form.alloc, s, form.class, header, form.size);
    put_last(cells, cell);
    place
}

/// Makes the cell of a section where there is none, and returns its place. It takes no memory.
pub(crate) fn make(
    form: Form,
    s: u32,
    headers: &Headers,
    slots: &mut Vec<u32>,
    cells: &mut Vec<Cell>,
) -> usize
    requires header { s < length headers.now }
    requires there { s < length slots.old.items }
    requires room { slice_index_or slots.old.items s 0 ≡ 0
        → length cells.old.items < vec_capacity cells.old }
    requires few { slice_index_or slots.old.items s 0 ≡ 0
        → length cells.old.items < MAX_SECTIONS }
    ensures makes { Makes form.size s (slice_index_or headers.now s zero_shdr)
        slots.old.items slots.new.items cells.old.items cells.new.items result }
    ensures room { vec_capacity cells.old ≤ vec_capacity cells.new }
{
    let slot = slots[s as usize];
    if slot == 0 {
        return make_new(form, s, headers, slots, cells);
    }
    slot as usize - 1
}
