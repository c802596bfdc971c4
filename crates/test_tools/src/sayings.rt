//! What is said of a file or a member, and texts that no clause speaks of.

use crate::outputs::{Writing, WritingEnding, ends_so};
use elf_outside::Sink;
use elf_types::{ElfError, Octets};
use test_kit_rows::{failed_by, in_row, same, same_bytes};
use tool_output::{FileName, InSection, Line, Message, NameEx, Outputs, Status, Stop};

/// A message of nm on the member M of LIB with a text is written.
fn refuse_by<T: Line + Drop, O: Sink, E: Sink>(
    outputs: &mut Outputs<'_, O, E>,
    text: T,
    e: ElfError,
) -> Result<bool, Stop> {
    let name = &FileName::of_member(b"LIB", b"M");
    let command = "nm";
    outputs.refuse_by(
        &Message {
            command,
            name,
            text,
        },
        e,
    )
}

/// What is said.
#[derive(Clone, Copy)]
enum Saying {
    /// A finding on standard output.
    Found,
    /// A message that rejects nothing.
    Noted,
    /// A refusal by an error.
    RefusedBy(ElfError),
    /// A refusal by an error of section 7.
    InSeven(ElfError),
}

/// A message that rejects nothing is written.
fn note<O: Sink, E: Sink>(outputs: &mut Outputs<'_, O, E>) -> Result<bool, Stop> {
    outputs.note(&Message {
        command: "nm",
        name: &FileName::of_member(b"LIB", b"M"),
        text: "noted",
    })
}

/// An error of section 7.
fn in_seven(text: ElfError) -> InSection<ElfError> {
    InSection { section: 7, text }
}

impl Writing for Saying {
    fn write<O: Sink, E: Sink>(&self, outputs: &mut Outputs<'_, O, E>) -> Result<bool, Stop> {
        match *self {
            Saying::Found => outputs.find(&"found\n"),
            Saying::Noted => note(outputs),
            Saying::RefusedBy(e) => refuse_by(outputs, e, e),
            Saying::InSeven(e) => refuse_by(outputs, in_seven(e), e),
        }
    }
}

/// What is said, and how that ends.
type Said = (Saying, WritingEnding);

/// Whether each is said so.
fn are_said(rt: &HostRuntime, sayings: &[Said]) -> bool {
    for (n, (saying, ending)) in sayings.iter().enumerate() {
        if !in_row(rt, n, ends_so(rt, saying, ending)) {
            return false;
        }
    }
    true
}

/// An error of section 2.
const RAGGED: ElfError = ElfError::Ragged { section: 2 };

/// Refusals by an error, and one by an error that stops the run.
const REFUSALS: [Said; 3] = [
    (
        Saying::RefusedBy(RAGGED),
        WritingEnding {
            failing: 0,
            ended: Ok(true),
            out: b"",
            err: b"nm: LIB[M]: section 2 ragged\n",
        },
    ),
    (
        Saying::InSeven(RAGGED),
        WritingEnding {
            failing: 0,
            ended: Ok(true),
            out: b"",
            err: b"nm: LIB[M]: section 7: section 2 ragged\n",
        },
    ),
    (
        Saying::RefusedBy(ElfError::Read),
        WritingEnding {
            failing: 0,
            ended: Err(Stop::Read),
            out: b"",
            err: b"",
        },
    ),
];

#[test]
fn refusals_are_messages_and_stops_are_not(rt: HostRuntime) {
    assert!(rt; are_said(&rt, &REFUSALS));
}

/// A finding and a note.
const REMARKS: [Said; 2] = [
    (
        Saying::Found,
        WritingEnding {
            failing: 0,
            ended: Ok(true),
            out: b"found\n",
            err: b"",
        },
    ),
    (
        Saying::Noted,
        WritingEnding {
            failing: 0,
            ended: Ok(false),
            out: b"",
            err: b"nm: LIB[M]: noted\n",
        },
    ),
];

#[test]
fn findings_refuse_and_notes_do_not(rt: HostRuntime) {
    assert!(rt; are_said(&rt, &REMARKS));
}

/// Whether a line has this text.
fn reads<L: Line>(rt: &HostRuntime, line: &L, text: &[u8]) -> bool {
    let mut page = Octets::new(rt.alloc());
    same(rt, &line.put(&mut page), &Ok(())) && same_bytes(rt, page.as_slice(), text)
}

/// Whether a name has these texts, in either form.
fn is_named(rt: &HostRuntime, name: &FileName<'_>, text: &[u8], ex: &[u8]) -> bool {
    reads(rt, name, text) && reads(rt, &NameEx { name }, ex)
}

#[test]
fn names_are_shown_in_two_forms(rt: HostRuntime) {
    assert!(rt; is_named(&rt, &FileName::of(b"F"), b"F", b"F"));
    let member = FileName::of_member(b"LIB", b"M");
    assert!(rt; is_named(&rt, &member, b"LIB[M]", b"M (ex LIB)"));
}

/// Each stop, its text, and the status of a run that it ends.
const STOPS: [(Stop, &str, u8); 3] = [
    (Stop::Read, "read failed", 3),
    (Stop::Write, "write failed", 4),
    (Stop::Memory, "out of memory", 5),
];

/// Whether the stop is shown by that text.
fn is_shown(rt: &HostRuntime, stop: Stop, text: &str) -> bool {
    match format!(in rt.alloc(); "{stop}") {
        Ok(shown) => same_bytes(rt, shown.as_bytes(), text.as_bytes()),
        Err(e) => failed_by(rt, &e),
    }
}

/// Whether stops have these texts and statuses.
fn are_shown(rt: &HostRuntime, stops: &[(Stop, &str, u8)]) -> bool {
    for (n, (stop, text, status)) in stops.iter().enumerate() {
        let so = is_shown(rt, *stop, text) && same(rt, &Status::of(Err(*stop)).code(), status);
        if !in_row(rt, n, so) {
            return false;
        }
    }
    true
}

#[test]
fn stops_have_texts_and_statuses(rt: HostRuntime) {
    assert!(rt; are_shown(&rt, &STOPS));
}
