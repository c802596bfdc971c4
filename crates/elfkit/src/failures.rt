//! What the program says when a run stops. It stands outside of what `run` promises.

use elf_outside::{Attempt, RealFiles, RealSink};
use elfkit_run::Status;
use std::fs::File;
use std::io::{Error, ErrorKind, Write};
use std::rt;

/// Says on standard error why a run of this status stopped: the file or the stream of the last call
/// that failed, what was tried, and what the system said; or that there was no memory. After a
/// closed pipe it says nothing.
pub fn say_why<R: rt::Files<File = File>, O: Write, E: Write>(
    rt: &HostRuntime,
    status: Status,
    files: &RealFiles<R>,
    out: &RealSink<O>,
    err: &RealSink<E>,
) {
    match status {
        Status::Done | Status::Refused | Status::BadWords => {}
        Status::ReadFailed => say_of_file(rt, files, "read failed"),
        Status::WriteFailed => {
            if let Some(why) = out.failure() {
                say(rt, "standard output", "write failed", &why);
            } else if let Some(why) = err.failure() {
                say(rt, "standard error", "write failed", &why);
            } else {
                say_of_file(rt, files, "write failed");
            }
        }
        Status::NoMemory => say_no_memory(rt),
    }
}

/// Says that there was no memory.
pub fn say_no_memory(rt: &HostRuntime) {
    let _ = eprintln!(rt; "elfkit: out of memory");
}

/// Says what the files keep of the last call that failed, or else what failed alone.
fn say_of_file<R: rt::Files<File = File>>(rt: &HostRuntime, files: &RealFiles<R>, failed: &str) {
    match files.last_failure() {
        Some(last) => say(rt, last.name.as_str(), tried(last.attempt), &last.why),
        None => {
            let _ = eprintln!(rt; "elfkit: {failed}");
        }
    }
}

/// Says what failed of a file or a stream, and why.
fn say(rt: &HostRuntime, name: &str, failed: &str, why: &Error) {
    if why.kind() != ErrorKind::BrokenPipe {
        let _ = eprintln!(rt; "elfkit: {name}: {failed}: {why}");
    }
}

/// What failed where this was tried.
fn tried(attempt: Attempt) -> &'static str {
    match attempt {
        Attempt::Open => "open failed",
        Attempt::Create => "create failed",
        Attempt::Read => "read failed",
        Attempt::Write => "write failed",
    }
}
