//! Why a script is rejected.

ghost use Rattle.std.specs.Prelude.{◌≡◌};
ghost use Rattle.elf_calls_script.specs.declared.faults.CallFault.TheVariants.{Memory};

use elf_types::ElfError;
use std::alloc::{AllocError, AllocFailed};

/// Why a script is rejected.
#[derive(Clone, Copy, Debug, PartialEq, Eq)]
pub enum Why {
    /// The script has more than 1,048,576 bytes.
    TooLong,
    /// The first word of the line is no call.
    BadCall,
    /// The number or the form of the words is another, or there is no such field.
    BadWords,
    /// A number is outside its range, or too great for its field.
    BadNumber,
}

impl Why {
    ghost use Rattle.elf_calls_script.specs.Texts.{why_text};

    /// The text under which the cause is shown. It takes no memory.
    #[tactic(auto, unfolding(crate::specs::Texts::why_text))]
    pub fn text(&self) -> &'static str
        ensures { result.now ≡ why_text self.now }
    {
        match self {
            Why::TooLong => "script too long",
            Why::BadCall => "no such call",
            Why::BadWords => "wrong words",
            Why::BadNumber => "number out of range",
        }
    }
}

/// What `read_script` rejects.
#[derive(Clone, Copy, Debug, PartialEq, Eq)]
pub enum ScriptFault {
    /// There is no memory for the calls.
    Memory,
    /// A line is no call, or the script is too long.
    Line {
        /// The number of the line, from 1; 0 where the script is too long.
        line: u32,
        /// The cause.
        why: Why,
    },
}

// A list fails with `Memory` alone.
impl From<ElfError> for ScriptFault {
    ghost use Rattle.elf_calls_script.specs.declared.faults.ScriptFault.TheVariants as fault;

    ghost from_gives = { λ _ e. e ≡ fault.Memory };

    fn from(_e: ElfError) -> ScriptFault {
        ScriptFault::Memory
    }
}

/// Why a part of a line is rejected, without the line, which its caller knows.
#[derive(Clone, Copy)]
pub(crate) enum CallFault {
    /// There is no memory.
    Memory,
    /// The line is no call.
    Why(Why),
}

impl From<AllocError> for CallFault {
    ghost from_gives = { λ _ e. e ≡ Memory };

    fn from(_e: AllocError) -> CallFault {
        CallFault::Memory
    }
}

impl<T: Drop> From<AllocFailed<T>> for CallFault {
    ghost from_gives = { λ _ e. e ≡ Memory };

    fn from(_e: AllocFailed<T>) -> CallFault {
        CallFault::Memory
    }
}

// A list fails with `Memory` alone.
impl From<ElfError> for CallFault {
    ghost from_gives = { λ _ e. e ≡ Memory };

    fn from(_e: ElfError) -> CallFault {
        CallFault::Memory
    }
}
