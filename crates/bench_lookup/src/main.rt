//! Looks a symbol up round after round, for bench/lookups, whose C program goes over the same table
//! and prints the same sum. What it prints is compared there; its functions promise no more than
//! that they are safe.
#![tactic(auto)]

mod rounds;
mod work;

use elf_outside::RealFiles;
use rounds::lookup_total;
use std::process::ExitCode;
use std::{env, io};
use work::{LOOKUP_USAGE, LookupTask, read_lookup_task};

/// Says how the program is called.
fn tell_usage(rt: &HostRuntime) -> io::Result<ExitCode> {
    eprintln!(rt; "{LOOKUP_USAGE}")?;
    Ok(ExitCode::from(2))
}

/// Prints the sum of all rounds, where there is one.
fn print_sum(rt: &HostRuntime, sum: Option<u64>) -> io::Result<ExitCode> {
    let Some(sum) = sum else {
        return Ok(ExitCode::from(1));
    };
    println!(rt; "{sum}")?;
    Ok(ExitCode::SUCCESS)
}

/// The sum of all rounds over the files of the system, or None where one failed.
fn system_total(rt: &HostRuntime, system: HostRuntime, work: &LookupTask) -> Option<u64> {
    let mut files = RealFiles::new(rt.alloc(), system);
    lookup_total(rt.alloc(), &mut files, work)
}

/// Does the rounds and prints their sum.
fn run_rounds(rt: &HostRuntime, work: &LookupTask) -> io::Result<ExitCode> {
    match rt.clone() {
        Ok(system) => print_sum(rt, system_total(rt, system, work)),
        Err(_) => Ok(ExitCode::from(5)),
    }
}

fn main(rt: HostRuntime) -> io::Result<ExitCode> {
    match read_lookup_task(env::args(&rt)?) {
        Some(work) => run_rounds(&rt, &work),
        None => tell_usage(&rt),
    }
}
