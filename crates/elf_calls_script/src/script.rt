//! Reading a script.

ghost use Rattle.std.specs.Prelude.{◌≡◌, ◌≤◌, ◌++◌, length, option_to_list, true, OnOk, IfErr};
ghost use Rattle.elf_types.specs.Answers.{FollowsBy};
ghost use Rattle.elf_types.specs.Constants.{are_numbers};
ghost use Rattle.elf_calls_script.specs.Causes.{PhraseFollows};
ghost use Rattle.elf_calls_script.specs.Constants.{script_limits};
ghost use Rattle.elf_calls_script.specs.Parts.{words_of};
ghost use Rattle.elf_calls_script.specs.Script.{ScriptFollows, stated_script_fault, calls_of, calls_from, lines_of, line_call, call_of};

use crate::calls::{Call, Calls};
use crate::faults::{CallFault, ScriptFault, Why};
use crate::lines::read_call;
use crate::words::{Words, cut};
use std::alloc::Global;

/// The most bytes that a script may have.
pub const MAX_SCRIPT: usize = 1_048_576;

/// The calls of a script, in the order of its lines.
///
/// It rejects a script of more than 1,048,576 bytes, as line 0, and else the first line that is no
/// call: `BadCall` where its first word is none, then `BadWords` where the number or the form of
/// its words is another, then `BadNumber` where a number is out of its range. `Memory` comes alone
/// where memory runs out. Empty lines and those that begin with `#` are passed over, but counted.
///
/// It looks at the script once, from its first byte to its last. No line and no word takes memory
/// but the bytes of a HEX or a NAME.
#[tactic(auto, unfolding(crate::specs::Script::calls_of))]
pub fn read_script(alloc: Global, bytes: &[u8]) -> Result<Calls, ScriptFault>
    ensures { ScriptFollows result (calls_of bytes.now) }
{
    if bytes.len() > MAX_SCRIPT {
        return Err(ScriptFault::Line {
            line: 0,
            why: Why::TooLong,
        });
    }
    read_lines(alloc, bytes)
}

/// The calls of lines, of which the first one has the number 1.
fn read_lines(alloc: Global, bytes: &[u8]) -> Result<Calls, ScriptFault>
    requires { length bytes.now ≤ MAX_SCRIPT }
    ensures { ScriptFollows result (calls_from 1 (lines_of bytes.now)) }
{
    let mut calls = Calls::new(alloc);
    let mut number = 0u32;
    let mut rest = Some(bytes);
    while let Some(text) = rest {
        let (line, after) = cut(text, b'\n');
        number += 1;
        let call = read_line(alloc, number, line)?;
        keep(&mut calls, call)?;
        rest = after;
    }
    Ok(calls)
}

/// Appends a call, where there is one. It fails with `Memory` alone.
fn keep(calls: &mut Calls, call: Option<Call>) -> Result<(), ScriptFault>
    ensures ok { OnOk result (calls.new ≡ calls.old ++ option_to_list call) }
    ensures err { IfErr result (λ fault. fault ≡ ScriptFault.Memory) }
{
    if let Some(call) = call {
        calls.push(call)?;
    }
    Ok(())
}

/// The call of a line with a number, or None where the line is passed over.
#[tactic(auto, unfolding(crate::specs::Script::line_call))]
fn read_line(alloc: Global, number: u32, line: &[u8]) -> Result<Option<Call>, ScriptFault>
    ensures { FollowsBy (λ call. call) stated_script_fault result (line_call number line.now) }
{
    if line.is_empty() || line[0] == b'#' {
        return Ok(None);
    }
    match read_words(alloc, line) {
        Ok(call) => Ok(Some(call)),
        Err(CallFault::Memory) => Err(ScriptFault::Memory),
        Err(CallFault::Why(why)) => Err(ScriptFault::Line { line: number, why }),
    }
}

/// The call of a line that is not passed over. It fails with `BadCall`, then `BadWords`, then
/// `BadNumber`.
#[tactic(auto, unfolding(crate::specs::Script::call_of))]
fn read_words(alloc: Global, line: &[u8]) -> Result<Call, CallFault>
    ensures { PhraseFollows result (call_of (words_of line.now)) }
{
    let mut words = Words::new(line);
    let (call, fits) = read_call(alloc, &mut words)?;
    words.read_end()?;
    if !fits {
        return Err(CallFault::Why(Why::BadNumber));
    }
    Ok(call)
}

/// Each constant is the number that is beside its name in the tables of specs/Constants. It is for
/// the reader and for proofs, and does nothing.
pub fn script_constants_are()
    ensures { are_numbers script_limits ≡ true }
{}
