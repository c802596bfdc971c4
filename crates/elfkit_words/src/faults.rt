//! Why a part of the arguments is not read.

ghost use Rattle.std.specs.Prelude.{◌≡◌};
ghost use Rattle.elfkit_words.specs.declared.faults.Fault.TheVariants.{Memory};

use elf_types::ElfError;
use std::alloc::{AllocError, AllocFailed};

/// Why a part of the arguments is not read.
#[derive(Clone, Copy, PartialEq, Eq)]
pub(crate) enum Fault {
    /// There was no memory.
    Memory,
    /// The arguments are not of the command's form.
    Words,
}

impl From<AllocError> for Fault {
    ghost from_gives = { λ _ e. e ≡ Memory };

    fn from(_e: AllocError) -> Fault {
        Fault::Memory
    }
}

impl<T: Drop> From<AllocFailed<T>> for Fault {
    ghost from_gives = { λ _ e. e ≡ Memory };

    fn from(_e: AllocFailed<T>) -> Fault {
        Fault::Memory
    }
}

// A list fails with `Memory` alone.
impl From<ElfError> for Fault {
    ghost from_gives = { λ _ e. e ≡ Memory };

    fn from(_e: ElfError) -> Fault {
        Fault::Memory
    }
}
