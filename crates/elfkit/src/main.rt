//! The program elfkit: shows, checks and changes ELF images.
//!
//! `main` takes the arguments, the files and the two outputs of the process, and ends with the
//! status of `run`. To call the program from another one, use elfkit_run.
//!
//! - `run`: of elfkit_run: the whole program, from arguments to a `Status`, over any files and
//!   outputs.
//! - `Args`: of tool_text: the arguments, without the program's name.
//! - `RealFiles`: of elf_outside: the files of the system; `MemFiles` are files in memory.
//! - `Status`: of elfkit_run: the exit status; `code` is its number.
//!
//! From `test_kit_runs`:
//!
//! ```text
//! fn status_of<F: Files, O: Sink, E: Sink>(
//!     alloc: Global,
//!     words: &Args,
//!     files: &mut F,
//!     out: &mut O,
//!     err: &mut E,
//! ) -> Status {
//!     run(alloc, words, files, out, err)
//! }
//! ```
#![tactic(auto)]

ghost use Rattle.std.specs.Prelude.{◌≡◌, ◌⊎◌, IfErr};

mod failures;

use crate::failures::{say_no_memory, say_why};
use elf_outside::{RealFiles, RealSink, Sink, take_streams};
use elfkit_run::{Status, run};
use std::env;
use std::io::ErrorKind;
use std::process::ExitCode;
use std::rt::Env;
use tool_text::Args;

/// The arguments after the program's name, or the status that ends the program.
fn read_arguments(rt: &(impl Env + AllocGlobal)) -> Result<Args, Status>
    ensures { IfErr result (λ status. (status ≡ Status.BadWords) ⊎ (status ≡ Status.NoMemory)) }
{
    let all = match env::args(rt) {
        Ok(all) => all,
        Err(e) if e.kind() == ErrorKind::OutOfMemory => return Err(Status::NoMemory),
        Err(_) => return Err(Status::BadWords),
    };
    let mut words = Args::new(rt.alloc());
    for word in all.skip(1) {
        if words.add(word.as_str()).is_err() {
            return Err(Status::NoMemory);
        }
    }
    Ok(words)
}

/// The status of a run whose arguments can't be had, after a message.
fn end_without_words(rt: &HostRuntime, status: Status) -> Status {
    if status != Status::BadWords {
        say_no_memory(rt);
        return status;
    }
    match RealSink::new(rt.stderr()).put(b"elfkit: an argument is not text in UTF-8\n") {
        Ok(()) => status,
        Err(_) => Status::WriteFailed,
    }
}

/// The status of the program.
fn start(rt: &HostRuntime) -> Status {
    // (where this fails, the files reject what would get the descriptor of a stream)
    let _ = take_streams(rt);
    let words = match read_arguments(rt) {
        Ok(words) => words,
        Err(status) => return end_without_words(rt, status),
    };
    let Ok(system) = rt.clone() else {
        say_no_memory(rt);
        return Status::NoMemory;
    };
    let mut files = RealFiles::new(rt.alloc(), system);
    let mut out = RealSink::new(rt.stdout());
    let mut err = RealSink::new(rt.stderr());
    let status = run(rt.alloc(), &words, &mut files, &mut out, &mut err);
    say_why(rt, status, &files, &out, &err);
    status
}

fn main(rt: HostRuntime) -> ExitCode {
    ExitCode::from(start(&rt).code())
}
