//! A script that a source holds.

ghost use Rattle.std.specs.Prelude.{◌≡◌, ◌⊎◌, IfOk, None, codes};
ghost use Rattle.tool_output.specs.Reports.{refusal_report};
ghost use Rattle.tool_output.specs.Steps.{Performs, LeavesOutputs};
ghost use Rattle.calls_tool.specs.Scripts.{bad_line_text, ReadsScript, IsScript, TellsScript};

use elf_calls_script::{Calls, MAX_SCRIPT, ScriptFault, Why, read_script};
use elf_outside::reads::read_range;
use elf_outside::{Sink, Source};
use elf_types::{ElfError, Octets, put_decimal, put_text};
use std::alloc::Global;
use tool_output::{FileName, Line, Message, Outputs, Stop};

/// The first bad line of a script, as it is shown: `line N: TEXT`.
#[derive(Clone, Copy)]
pub struct BadLine {
    /// Its number, from 1; 0 where the script is too long.
    pub line: u32,
    /// The cause.
    pub why: Why,
}

impl Line for BadLine {
    ghost text = { bad_line_text };

    #[tactic(auto, using(elf_types::proofs::Writers::kept), unfolding(crate::specs::Scripts::bad_line_text))]
    fn put(&self, page: &mut Octets) -> Result<(), ElfError> {
        put_text(page, "line ")?;
        put_decimal(page, u64::from(self.line))?;
        put_text(page, ": ")?;
        put_text(page, self.why.text())
    }
}

/// The calls that bytes say, or their first bad line. It stops by `Memory` alone.
fn calls_in(alloc: Global, bytes: &[u8]) -> Result<Result<Calls, BadLine>, Stop>
    ensures { IsScript result bytes.now }
{
    match read_script(alloc, bytes) {
        Ok(calls) => Ok(Ok(calls)),
        Err(ScriptFault::Line { line, why }) => Ok(Err(BadLine { line, why })),
        Err(ScriptFault::Memory) => Err(Stop::Memory),
    }
}

/// The stop of a read that was not answered.
fn stop_of_read(e: ElfError) -> Stop
    requires { (e ≡ ElfError.Memory) ⊎ (e ≡ ElfError.Read) }
    ensures { (e ≡ ElfError.Memory → result ≡ Stop.Memory)
        × (e ≡ ElfError.Read → result ≡ Stop.Read) }
{
    match e {
        ElfError::Read => Stop::Read,
        e => Stop::want_of(e),
    }
}

/// Reads a script: its calls, or its first bad line. A script of more than 1,048,576 bytes is too
/// long, and nothing of it is read. Another one is read at once. It stops by `Memory`, and by
/// `Read` where the read failed.
pub fn read_calls<S: Source>(alloc: Global, src: &mut S) -> Result<Result<Calls, BadLine>, Stop>
    ensures { ReadsScript S.Source result src.old src.new }
{
    let len = src.len();
    if len > MAX_SCRIPT as u64 {
        return Ok(Err(BadLine {
            line: 0,
            why: Why::TooLong,
        }));
    }
    match read_range(alloc, src, 0, len) {
        Ok(bytes) => calls_in(alloc, bytes.as_slice()),
        Err(e) => Err(stop_of_read(e)),
    }
}

/// Rejects a script by its message: there are no calls.
#[tactic(auto, unfolding(tool_output::specs::Reports::refusal_report))]
pub fn refuse_script<T: Line + Drop, O: Sink, E: Sink>(
    name: &FileName<'_>,
    text: T,
    outputs: &mut Outputs<'_, O, E>,
) -> Result<Option<Calls>, Stop>
    ensures performs { Performs O.Sink E.Sink result outputs.old outputs.new
        (refusal_report (codes "calls") name.now (T.text text)).marks None }
    ensures none { IfOk result (λ calls. calls ≡ None) }
    ensures leaves { LeavesOutputs O.Sink E.Sink ⊥ result outputs.old outputs.new }
{
    let message = Message {
        command: "calls",
        name,
        text,
    };
    outputs.refuse(&message)?;
    Ok(None)
}

/// Reads the calls of a script, or gives the message of its first bad line: then there are none. It
/// stops as `read_calls` does, and where the message could not be written.
pub fn tell_script<S: Source, O: Sink, E: Sink>(
    alloc: Global,
    src: &mut S,
    name: &FileName<'_>,
    outputs: &mut Outputs<'_, O, E>,
) -> Result<Option<Calls>, Stop>
    ensures { TellsScript S.Source O.Sink E.Sink name.now
        result src.old src.new outputs.old outputs.new }
{
    match read_calls(alloc, src) {
        Ok(Ok(calls)) => Ok(Some(calls)),
        Ok(Err(bad)) => refuse_script(name, bad, outputs),
        Err(stop) => Err(stop),
    }
}
