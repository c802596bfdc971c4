//! What tests say of a row that is not as it should be.
//!
//! A check of a test returns a `bool`, which costs least to prove. Where it is `false` it says why
//! on standard error, which is shown under the test that failed: what was given and what was
//! wanted, then the step, and then the row. Steps and rows are counted from 0.
#![tactic(auto)]

ghost use Rattle.std.specs.Prelude.{◌≡◌, false};

use elf_types::ElfError;
use std::fmt::Debug;

/// Whether a value is the wanted one. It says both where it is not.
pub fn same<T: Debug + PartialEq>(rt: &HostRuntime, gave: &T, wanted: &T) -> bool {
    let same = *gave == *wanted;
    if !same {
        let _written = eprintln!(rt; "  gave   {gave:?}\n  wanted {wanted:?}");
    }
    same
}

/// Whether items are the wanted ones. It says both where they are not.
pub fn same_items<T: Debug + PartialEq>(rt: &HostRuntime, gave: &[T], wanted: &[T]) -> bool {
    let same = *gave == *wanted;
    if !same {
        let _written = eprintln!(rt; "  gave   {gave:?}\n  wanted {wanted:?}");
    }
    same
}

/// Whether bytes are the wanted ones. It says both, as text, where they are not.
pub fn same_bytes(rt: &HostRuntime, gave: &[u8], wanted: &[u8]) -> bool {
    let same = *gave == *wanted;
    if !same {
        let gave = gave.escape_ascii();
        let wanted = wanted.escape_ascii();
        let _written = eprintln!(rt; "  gave   \"{gave}\"\n  wanted \"{wanted}\"");
    }
    same
}

/// What it is told. It says what should be where that is not so.
pub fn holds(rt: &HostRuntime, what: &str, so: bool) -> bool
    ensures { result ≡ so }
{
    if !so {
        let _written = eprintln!(rt; "  it does not hold that {what}");
    }
    so
}

/// No, and it says what was given in place of what was wanted.
pub fn other<T: Debug>(rt: &HostRuntime, gave: &T, wanted: &str) -> bool
    ensures { result ≡ false }
{
    let _written = eprintln!(rt; "  gave   {gave:?}\n  wanted {wanted}");
    false
}

/// No, since a call failed. It says for which error, and tells out of memory from all others.
pub fn failed(rt: &HostRuntime, error: ElfError) -> bool
    ensures { result ≡ false }
{
    let _written = match error {
        ElfError::Memory => eprintln!(rt; "  out of memory"),
        _ => eprintln!(rt; "  failed by {error:?}"),
    };
    false
}

/// No, since a call failed by an error of another kind, which it says.
pub fn failed_by<E: Debug>(rt: &HostRuntime, error: &E) -> bool
    ensures { result ≡ false }
{
    let _written = eprintln!(rt; "  failed by {error:?}");
    false
}

/// What it is told. It says in which row it is not so.
pub fn in_row(rt: &HostRuntime, row: usize, so: bool) -> bool
    ensures { result ≡ so }
{
    if !so {
        let _written = eprintln!(rt; "in row {row}");
    }
    so
}

/// What it is told. It says at which step of a row it is not so.
pub fn in_step(rt: &HostRuntime, step: usize, so: bool) -> bool
    ensures { result ≡ so }
{
    if !so {
        let _written = eprintln!(rt; "at step {step}");
    }
    so
}

/// What it is told. It says in which form, or for which number, it is not so.
pub fn within<T: Debug>(rt: &HostRuntime, place: &T, so: bool) -> bool
    ensures { result ≡ so }
{
    if !so {
        let _written = eprintln!(rt; "for {place:?}");
    }
    so
}
