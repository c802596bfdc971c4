//! Images, and steps that descriptors over them answer, over sources that tell their bytes and over
//! those that do not.

use crate::steps::{DescriptorStep, answers_all};
use elf_descriptor::Elf;
use elf_outside::{MemSource, Source};
use elf_types::{Class, Octets};
use test_kit_descriptors::front_size;
use test_kit_images::{ClassAndOrder, FORMS, OBJECT, Recipe, image_in};
use test_kit_rows::{failed, in_row, same, within};
use test_kit_sources::{Sparse, source};

/// How many bytes are asked for.
pub struct Due {
    /// The bytes of a header and so many program headers ..
    pub segments: u64,
    /// .. and so many section headers ..
    pub sections: u64,
    /// .. and so many more.
    pub more: u64,
}

/// An image, and the steps that a descriptor over it answers.
pub struct DescriptorRow {
    /// The image.
    pub recipe: Recipe,
    /// Its forms, in place of its own.
    pub forms: &'static [ClassAndOrder],
    /// The number of the read that fails, over a source that tells its bytes alone; none where it
    /// is 0.
    pub bad_read: u64,
    /// The steps.
    pub steps: &'static [DescriptorStep],
    /// How many bytes are asked for, where that is looked at.
    pub due: Option<Due>,
}

/// No step, over the object with two symbols, in all forms.
pub const ROW: DescriptorRow = DescriptorRow {
    recipe: OBJECT,
    forms: &FORMS,
    bad_read: 0,
    steps: &[],
    due: None,
};

/// Whether the steps are answered over a source, which is given back.
pub fn answered_over<S: Source>(rt: &HostRuntime, steps: &[DescriptorStep], src: S) -> (S, bool) {
    match Elf::begin(rt.alloc(), src) {
        Ok(mut elf) => {
            let answered = answers_all(rt, &mut elf, steps);
            (elf.end(), answered)
        }
        Err((src, e)) => (src, failed(rt, e)),
    }
}

/// Whether so many bytes are asked for as are due in a class.
fn is_due(rt: &HostRuntime, due: &Option<Due>, class: Class, asked: u64) -> bool {
    match due {
        Some(due) => {
            let front = front_size(class, due.segments, due.sections);
            same(rt, &asked, &front.saturating_add(due.more))
        }
        None => true,
    }
}

/// Whether the steps of a row are answered over a source in memory.
fn is_so_of(rt: &HostRuntime, class: Class, row: &DescriptorRow, src: MemSource) -> bool {
    let (src, answered) = answered_over(rt, row.steps, src);
    answered && is_due(rt, &row.due, class, src.asked())
}

/// Whether the steps of a row are answered over a source of these bytes.
fn is_so_told(rt: &HostRuntime, class: Class, row: &DescriptorRow, bytes: Octets) -> bool {
    match source(rt.alloc(), bytes, row.bad_read) {
        Ok(src) => is_so_of(rt, class, row, src),
        Err(e) => failed(rt, e),
    }
}

/// Whether the steps of a row are answered over a source that begins with these bytes and does not
/// tell them.
fn is_so_untold(rt: &HostRuntime, row: &DescriptorRow, bytes: Octets) -> bool {
    let len = bytes.len();
    answered_over(rt, row.steps, Sparse::new(bytes, len)).1
}

/// Whether the steps of a row are answered over the image in a form, over a source that tells its
/// bytes or does not.
fn is_so_over(rt: &HostRuntime, form: ClassAndOrder, row: &DescriptorRow, told: bool) -> bool {
    match image_in(rt.alloc(), form, &row.recipe) {
        Ok(image) => {
            if told {
                return is_so_told(rt, form.0, row, image.bytes);
            }
            is_so_untold(rt, row, image.bytes)
        }
        Err(e) => failed(rt, e),
    }
}

/// Whether the steps of a row are answered over either source, in all forms of the row.
fn is_so(rt: &HostRuntime, row: &DescriptorRow) -> bool {
    for form in row.forms {
        if !within(rt, form, is_so_over(rt, *form, row, true)) {
            return false;
        }
        if row.bad_read == 0 {
            let so = is_so_over(rt, *form, row, false);
            if !within(rt, &(form, "a source that does not tell its bytes"), so) {
                return false;
            }
        }
    }
    true
}

/// Whether the steps of each row are answered.
pub fn rows_are_so(rt: &HostRuntime, rows: &[DescriptorRow]) -> bool {
    for (n, row) in rows.iter().enumerate() {
        if !in_row(rt, n, is_so(rt, row)) {
            return false;
        }
    }
    true
}
