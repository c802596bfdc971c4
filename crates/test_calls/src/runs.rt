//! Scripts that are run on small images, over sources that tell their bytes or do not.

use calls_tool::AnswerLine;
use elf_calls_apply::apply;
use elf_calls_script::{Call, Calls, read_script};
use elf_descriptor::Elf;
use elf_outside::Source;
use elf_types::{Class, ElfError, Octets, Order};
use test_kit_images::{BuiltImage, five_sections, symbol_object};
use test_kit_rows::{failed, failed_by, in_row, same, same_bytes, within};
use test_kit_sources::source;
use tool_output::Line;

/// A script, and the lines that it answers.
pub type ScriptRow = (&'static str, &'static str);

/// Appends the line that a call returns.
fn put_answer<S: Source>(elf: &mut Elf<S>, call: &Call, page: &mut Octets) -> Result<(), ElfError> {
    let answer = apply(elf, call);
    AnswerLine { answer: &answer }.put(page)
}

/// Appends the lines that calls return.
fn put_answers<S: Source>(
    elf: &mut Elf<S>,
    calls: &Calls,
    page: &mut Octets,
) -> Result<(), ElfError> {
    for call in calls.as_slice() {
        put_answer(elf, call, page)?;
    }
    Ok(())
}

/// Whether the script of a row answers its lines over a source, which is given back.
fn answers_over<S: Source>(rt: &HostRuntime, src: S, calls: &Calls, wanted: &str) -> (S, bool) {
    match Elf::begin(rt.alloc(), src) {
        Ok(mut elf) => {
            let mut page = Octets::new(rt.alloc());
            let put = put_answers(&mut elf, calls, &mut page);
            let so = same(rt, &put, &Ok(())) && same_bytes(rt, page.as_slice(), wanted.as_bytes());
            (elf.end(), so)
        }
        Err((src, e)) => (src, failed(rt, e)),
    }
}

/// Whether calls answer these lines over an image.
fn answers_of(rt: &HostRuntime, image: BuiltImage, calls: &Calls, wanted: &str) -> bool {
    match source(rt.alloc(), image.bytes, 0) {
        Ok(src) => answers_over(rt, src, calls, wanted).1,
        Err(e) => failed(rt, e),
    }
}

/// Whether the script of a row answers its lines over an image, where there is one.
fn answers(rt: &HostRuntime, made: Result<BuiltImage, ElfError>, row: &ScriptRow) -> bool {
    let image = match made {
        Ok(image) => image,
        Err(e) => return failed(rt, e),
    };
    let so = match read_script(rt.alloc(), row.0.as_bytes()) {
        Ok(calls) => answers_of(rt, image, &calls, row.1),
        Err(e) => failed_by(rt, &e),
    };
    within(rt, &row.0, so)
}

/// Whether each row is answered by its lines on an object with two symbols.
pub fn answered(rt: &HostRuntime, class: Class, order: Order, rows: &[ScriptRow]) -> bool {
    for (n, row) in rows.iter().enumerate() {
        let image = symbol_object(rt.alloc(), class, order);
        if !in_row(rt, n, answers(rt, image, row)) {
            return false;
        }
    }
    true
}

/// Whether each row is answered by its lines on an object with five sections.
pub fn answered_of_five(rt: &HostRuntime, rows: &[ScriptRow]) -> bool {
    for (n, row) in rows.iter().enumerate() {
        let image = five_sections(rt.alloc(), Class::C64, Order::Least);
        if !in_row(rt, n, answers(rt, image, row)) {
            return false;
        }
    }
    true
}
