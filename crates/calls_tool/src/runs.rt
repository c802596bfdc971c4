//! The calls of a script, run on a descriptor one after another.

ghost use Rattle.elf_calls_apply.specs.Applies.{result_of};
ghost use Rattle.elf_calls_apply.specs.Stated.{stated_call};
ghost use Rattle.calls_tool.specs.Runs.{ShowsAnswer, RunsCall, RunsCalls};

use crate::lines::AnswerLine;
use elf_calls_apply::{Answer, apply};
use elf_calls_script::Call;
use elf_outside::{Sink, Source};
use symbol_lookup::prelude::Elf;
use tool_output::{Outputs, Stop};

/// Writes the line of a result; that of a refusal rejects. It stops where the result is out of
/// memory or a failed read: then nothing is written.
#[tactic(auto, unfolding(crate::specs::Runs::answer_report))]
pub fn show_answer<O: Sink, E: Sink>(
    answer: &Answer,
    outputs: &mut Outputs<'_, O, E>,
) -> Result<bool, Stop>
    ensures { ShowsAnswer O.Sink E.Sink (result_of answer.now) result outputs.old outputs.new }
{
    match answer {
        Answer::Refused(e) => match Stop::of(e) {
            Some(stop) => Err(stop),
            None => outputs.find(&AnswerLine { answer }),
        },
        _ => outputs.show(&AnswerLine { answer }),
    }
}

/// Makes a call, and then writes the line of its result.
fn show_call<S: Source, O: Sink, E: Sink>(
    elf: &mut Elf<S>,
    call: &Call,
    outputs: &mut Outputs<'_, O, E>,
) -> Result<bool, Stop>
    ensures { RunsCall S.Source O.Sink E.Sink (stated_call call.now)
        result elf.old elf.new outputs.old outputs.new }
{
    let answer = apply(elf, call);
    show_answer(&answer, outputs)
}

/// Runs calls on a descriptor, in their order, and writes the line of each result. It returns
/// whether a call was rejected: the calls after it are run all the same. It stops by `Read` where a
/// read of the source failed, by `Write` where a put failed, and by `Memory`; the calls before that
/// keep their effect.
///
/// It reads no home but those that its calls name, each at its first use.
pub fn show_calls<S: Source, O: Sink, E: Sink>(
    elf: &mut Elf<S>,
    calls: &[Call],
    outputs: &mut Outputs<'_, O, E>,
) -> Result<bool, Stop>
    ensures { RunsCalls S.Source O.Sink E.Sink calls.now
        result elf.old elf.new outputs.old outputs.new }
{
    let mut refused = false;
    for call in calls {
        let was_refused = show_call(elf, call, outputs)?;
        refused = refused | was_refused;
    }
    Ok(refused)
}
