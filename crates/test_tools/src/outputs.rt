//! How lines reach the two outputs.

use elf_outside::{MemSink, Sink};
use elf_types::{Addrs, ElfError, Octets};
use std::alloc::Global;
use test_kit_rows::{failed, in_row, same, same_bytes};
use tool_output::{OUTPUT_BUFFER_SIZE, Outputs, Side, Stop};

/// What both sinks hold in the end, and how the writing ended.
#[derive(Drop)]
pub struct WrittenOutputs {
    pub out: Octets,
    pub err: Octets,
    pub ended: Result<bool, Stop>,
}

impl WrittenOutputs {
    /// Whether the writing ended so, and the outputs hold its texts.
    fn is(&self, rt: &HostRuntime, ending: &WritingEnding) -> bool {
        same(rt, &self.ended, &ending.ended)
            && same_bytes(rt, self.out.as_slice(), ending.out)
            && same_bytes(rt, self.err.as_slice(), ending.err)
    }
}

/// What is written.
pub trait Writing {
    /// Writes it on two outputs.
    fn write<O: Sink, E: Sink>(&self, outputs: &mut Outputs<'_, O, E>) -> Result<bool, Stop>;
}

/// A sink in memory, of which the put with this number fails, or none where that is 0.
fn sink(alloc: Global, failing: u64) -> Result<MemSink, ElfError> {
    MemSink::new(alloc, 1 << 20, Addrs::from_slice(alloc, &[failing])?)
}

/// Writes on two sinks through one buffer, and ends the writing.
fn write_through<W: Writing, O: Sink, E: Sink>(
    alloc: Global,
    w: &W,
    out: &mut O,
    err: &mut E,
) -> Result<bool, Stop> {
    let mut page = Octets::new(alloc);
    let mut outputs = Outputs::new(out, err, &mut page);
    let last = w.write(&mut outputs);
    outputs.end(last)
}

/// What is written on two sinks.
fn written_on<W: Writing>(
    alloc: Global,
    w: &W,
    mut out: MemSink,
    mut err: MemSink,
) -> WrittenOutputs {
    let ended = write_through(alloc, w, &mut out, &mut err);
    WrittenOutputs {
        out: out.into_bytes(),
        err: err.into_bytes(),
        ended,
    }
}

/// What is written where the put with this number to standard output fails.
fn written_by<W: Writing>(alloc: Global, w: &W, failing: u64) -> Result<WrittenOutputs, ElfError> {
    let out = sink(alloc, failing)?;
    let err = sink(alloc, 0)?;
    Ok(written_on(alloc, w, out, err))
}

/// How a writing ends of which a put fails, or none where its number is 0, and what the outputs
/// hold then.
pub struct WritingEnding {
    pub failing: u64,
    pub ended: Result<bool, Stop>,
    pub out: &'static [u8],
    pub err: &'static [u8],
}

/// Whether a writing ends so.
pub fn ends_so<W: Writing>(rt: &HostRuntime, w: &W, ending: &WritingEnding) -> bool {
    match written_by(rt.alloc(), w, ending.failing) {
        Ok(written) => written.is(rt, ending),
        Err(e) => failed(rt, e),
    }
}

/// Two lines on either output, which take turns.
const TURNS: [(Side, &str); 4] = [
    (Side::Out, "a\n"),
    (Side::Error, "b\n"),
    (Side::Error, "c\n"),
    (Side::Out, "d\n"),
];

/// The lines on both outputs are written one after another.
struct InTurns;

impl Writing for InTurns {
    fn write<O: Sink, E: Sink>(&self, outputs: &mut Outputs<'_, O, E>) -> Result<bool, Stop> {
        for (side, line) in TURNS.iter() {
            outputs.put(*side, line)?;
        }
        Ok(false)
    }
}

/// How their writing ends where no put fails, and where the first or the second does.
const TURNS_END: [WritingEnding; 3] = [
    WritingEnding {
        failing: 0,
        ended: Ok(false),
        out: b"a\nd\n",
        err: b"b\nc\n",
    },
    WritingEnding {
        failing: 1,
        ended: Err(Stop::Write),
        out: b"",
        err: b"",
    },
    WritingEnding {
        failing: 2,
        ended: Err(Stop::Write),
        out: b"a\n",
        err: b"b\nc\n",
    },
];

/// Whether writing in turns ends in each of these ways.
fn turns_end(rt: &HostRuntime, endings: &[WritingEnding]) -> bool {
    for (n, ending) in endings.iter().enumerate() {
        if !in_row(rt, n, ends_so(rt, &InTurns, ending)) {
            return false;
        }
    }
    true
}

#[test]
fn lines_reach_both_outputs_up_to_a_failed_put(rt: HostRuntime) {
    assert!(rt; turns_end(&rt, &TURNS_END));
}

/// A line of 16 bytes is written so many times.
#[derive(Clone, Copy)]
struct Many(u64);

impl Writing for Many {
    fn write<O: Sink, E: Sink>(&self, outputs: &mut Outputs<'_, O, E>) -> Result<bool, Stop> {
        for _ in 0..self.0 {
            outputs.show(&"0123456789abcde\n")?;
        }
        Ok(false)
    }
}

/// Whether such a writing, whose second put fails, ends so and puts a buffer.
fn puts_a_page(rt: &HostRuntime, count: u64, ended: Result<bool, Stop>) -> bool {
    match written_by(rt.alloc(), &Many(count), 2) {
        Ok(written) => same(rt, &written.ended, &ended)
            && same(rt, &written.out.len(), &OUTPUT_BUFFER_SIZE),
        Err(e) => failed(rt, e),
    }
}

/// As many such lines as a buffer holds.
const FULL: u64 = OUTPUT_BUFFER_SIZE / 16;

#[test]
fn the_output_buffer_is_put_when_it_is_full(rt: HostRuntime) {
    assert!(rt; puts_a_page(&rt, FULL, Ok(false)));
    assert!(rt; puts_a_page(&rt, FULL + 1, Err(Stop::Write)));
}
