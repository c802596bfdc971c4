//! Runs of elfkit, with the promises about commands as clauses.

ghost use Rattle.std.specs.Prelude.{IsTrue};
ghost use Rattle.tool_output.specs.Outcomes.{Delivers};
ghost use Rattle.tool_output.specs.Statuses.{status_code};
ghost use Rattle.elfkit_run.specs.Program.{program, AreTold};
ghost use Rattle.law_run.specs.Copied.{KeepsCopied};
ghost use Rattle.law_run.specs.Loaded.{KeepsLoaded};
ghost use Rattle.law_run.specs.Opened.{ChangesToImages};
ghost use Rattle.law_run.specs.Rehashed.{KeepsRehashed};
ghost use Rattle.law_run.specs.Rejoined.{SplitRejoins};

use crate::laws::{
    run_changes_to_images, run_keeps_copied, run_keeps_loaded, run_keeps_rehashed, runs_rejoin,
};
use elf_outside::{Files, Sink};
use elfkit_run::run;
use std::alloc::Global;
use tool_output::Status;
use tool_text::Args;

/// Calls `run`, and so delivers what `run` does. Over files that tell their bytes it keeps besides
/// what `run_keeps_loaded`, `run_keeps_copied`, `run_keeps_rehashed` and `run_changes_to_images`
/// say.
pub fn run_as_promised<F: Files, O: Sink, E: Sink>(
    alloc: Global,
    words: &Args,
    files: &mut F,
    out: &mut O,
    err: &mut E,
) -> Status
    ensures delivers { AreTold words.now (F.tells files.old) →
        Delivers (program words.now (F.named files.old)) (status_code result)
        (O.wrote out.old) (O.wrote out.new) (E.wrote err.old) (E.wrote err.new)
        (F.named files.old) (F.named files.new) }
    ensures loaded { IsTrue (F.tells files.old) →
        KeepsLoaded words.now result (F.named files.old) (F.named files.new) }
    ensures copied { IsTrue (F.tells files.old) →
        KeepsCopied words.now result (F.named files.old) (F.named files.new) }
    ensures rehashed { IsTrue (F.tells files.old) →
        KeepsRehashed words.now result (F.named files.old) (F.named files.new) }
    ensures images { IsTrue (F.tells files.old) →
        ChangesToImages words.now result (F.named files.old) (F.named files.new) }
{
    run_keeps_loaded();
    run_keeps_copied();
    run_keeps_rehashed();
    run_changes_to_images();
    run(alloc, words, files, out, err)
}

/// Calls `run` on the arguments of `strip -f`, and then on those of unstrip of the two files that
/// it makes, over the same files. Where both end with `Done`, and these tell their bytes, OUT of
/// the second run is the same as FILE of the first, as `runs_rejoin` says.
pub fn split_and_join<F: Files, O: Sink, E: Sink>(
    alloc: Global,
    split: &Args,
    join: &Args,
    files: &mut F,
    out: &mut O,
    err: &mut E,
) -> (Status, Status)
    ensures { IsTrue (F.tells files.old) →
        SplitRejoins split.now join.now result (F.named files.old) (F.named files.new) }
{
    runs_rejoin();
    let first = run(alloc, split, files, out, err);
    let second = run(alloc, join, files, out, err);
    (first, second)
}
