//! Opens an image round after round and reads it by the calls of a descriptor, for
//! bench/descriptor, whose C program does the same through libelf and prints the same sum. What it
//! prints is compared there; its functions promise no more than that they are safe.
#![tactic(auto)]

mod growth;
mod sums;
mod work;

use elf_outside::RealFiles;
use std::process::ExitCode;
use std::{env, io};
use sums::descriptor_total;
use work::{DESCRIPTOR_USAGE, read_descriptor_task};

fn main(rt: HostRuntime) -> io::Result<ExitCode> {
    let words = env::args(&rt)?;
    let Some(work) = read_descriptor_task(words) else {
        eprintln!(rt; "{DESCRIPTOR_USAGE}")?;
        return Ok(ExitCode::from(2));
    };
    let Ok(system) = rt.clone() else {
        return Ok(ExitCode::from(5));
    };
    let mut files = RealFiles::new(rt.alloc(), system);
    match descriptor_total(rt.alloc(), &mut files, &work) {
        Some(sum) => {
            println!(rt; "{sum}")?;
            Ok(ExitCode::SUCCESS)
        }
        None => Ok(ExitCode::from(1)),
    }
}
