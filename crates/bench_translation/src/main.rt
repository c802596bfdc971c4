//! Translates symbols in memory, round after round, and prints one sum over what came out, for
//! bench/translation, whose plain C program prints the same.
#![tactic(auto)]

mod input;
mod rounds;
mod sum;
mod work;

use rounds::translation_total;
use std::process::ExitCode;
use std::{env, io};
use work::{TRANSLATION_USAGE, read_translation_task};

fn main(rt: HostRuntime) -> io::Result<ExitCode> {
    let words = env::args(&rt)?;
    let Some(work) = read_translation_task(words) else {
        eprintln!(rt; "{TRANSLATION_USAGE}")?;
        return Ok(ExitCode::from(2));
    };
    match translation_total(rt.alloc(), &work) {
        Some(sum) => {
            println!(rt; "{sum}")?;
            Ok(ExitCode::SUCCESS)
        }
        None => Ok(ExitCode::from(5)),
    }
}
