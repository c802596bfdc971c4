//! Why a tool stops.

ghost use Rattle.std.specs.Prelude.{◌≡◌};
ghost use Rattle.tool_output.specs.Stops.{stop_of, value_or_stop};
ghost use Rattle.elf_types.specs.declared.errors.ElfError.TheVariants.{Memory};

use elf_types::ElfError;
use thiserror::Error;

/// Why a tool stopped before its end. What it had written by then is a prefix of its text.
#[derive(Clone, Copy, Debug, PartialEq, Eq, Error)]
pub enum Stop {
    /// A read failed.
    #[error("read failed")]
    Read,
    /// A write failed.
    #[error("write failed")]
    Write,
    /// There was no memory.
    #[error("out of memory")]
    Memory,
}

impl Stop {
    /// The stop of an error, or None where the error is a refusal.
    pub fn of(e: &ElfError) -> Option<Stop>
        ensures { result ≡ stop_of e.now }
    {
        match e {
            ElfError::Memory => Some(Stop::Memory),
            ElfError::Read => Some(Stop::Read),
            ElfError::Write => Some(Stop::Write),
            _ => None,
        }
    }

    /// What a call of the library returned: its value, None where it is rejected, or the stop where
    /// the error is no refusal.
    pub fn unless_refused<T: Drop>(answer: Result<T, ElfError>) -> Result<Option<T>, Stop>
        ensures { result ≡ value_or_stop answer }
    {
        match answer {
            Ok(value) => Ok(Some(value)),
            Err(e) => match Stop::of(&e) {
                Some(stop) => Err(stop),
                None => Ok(None),
            },
        }
    }

    /// The stop of out of memory, which no other error may be handed to.
    pub fn want_of(e: ElfError) -> Stop
        requires { e ≡ ElfError.Memory }
        ensures { result ≡ Stop.Memory }
    {
        Stop::Memory
    }
}
