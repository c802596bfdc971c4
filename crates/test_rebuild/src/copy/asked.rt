//! What is asked of a descriptor over an image.

use crate::copy::changed::are_all_made;
use crate::copy::faults::{faults_come_in_order, has_no_table};
use elf_descriptor::Elf;
use elf_outside::Source;
use elf_types::Octets;
use test_kit_images::{ClassAndOrder, Recipe, image_in};
use test_kit_rows::failed;
use test_kit_sources::source;

/// What is asked.
pub enum CopyQuestion {
    /// Whether a change of each kind is made.
    Made,
    /// Whether the faults come in the order of the changes.
    Refused,
    /// Whether names have no table of their own.
    NoTable,
}

/// Whether what is asked is so.
fn is_so<S: Source>(rt: &HostRuntime, elf: &mut Elf<S>, asked: &CopyQuestion) -> bool {
    match asked {
        CopyQuestion::Made => are_all_made(rt, elf),
        CopyQuestion::Refused => faults_come_in_order(rt, elf),
        CopyQuestion::NoTable => has_no_table(rt, elf),
    }
}

/// Whether what is asked is so of a source.
fn is_so_of<S: Source + Drop>(rt: &HostRuntime, src: S, asked: &CopyQuestion) -> bool {
    match Elf::begin(rt.alloc(), src) {
        Ok(mut elf) => {
            let so = is_so(rt, &mut elf, asked);
            let _src = elf.end();
            so
        }
        Err((_src, e)) => failed(rt, e),
    }
}

/// Whether what is asked is so of these bytes.
fn is_so_over(rt: &HostRuntime, bytes: Octets, asked: &CopyQuestion) -> bool {
    match source(rt.alloc(), bytes, 0) {
        Ok(src) => is_so_of(rt, src, asked),
        Err(e) => failed(rt, e),
    }
}

/// Whether what is asked is so of an image in a form.
pub fn copy_answers(
    rt: &HostRuntime,
    form: ClassAndOrder,
    recipe: &Recipe,
    asked: &CopyQuestion,
) -> bool {
    match image_in(rt.alloc(), form, recipe) {
        Ok(image) => is_so_over(rt, image.bytes, asked),
        Err(e) => failed(rt, e),
    }
}
