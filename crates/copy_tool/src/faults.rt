//! A fault of copy, as a message.

ghost use Rattle.std.specs.Prelude.{◌≡◌, ◌++◌, codes, IfErr, IfNone, IfSome, OnOk};
ghost use Rattle.elf_types.specs.Writers.{WantsMemory};
ghost use Rattle.tool_output.specs.Names.{file_name};
ghost use Rattle.tool_output.specs.Reports.{Reports, refusal_report};
ghost use Rattle.tool_output.specs.Steps.{LeavesOutputs};
ghost use Rattle.copy_tool.specs.Faults.{named_text, copy_fault_text, fault_stop};

use elf_outside::Sink;
use elf_types::{ElfError, Octets, put_bytes, put_error, put_text};
use rebuild_changes::CopyFault;
use tool_output::{FileName, Line, Message, Outputs, Stop};

/// Appends a name between two texts.
#[tactic(auto, using(elf_types::proofs::Writers::kept), unfolding(crate::specs::Faults::named_text))]
fn put_named(page: &mut Octets, before: &str, name: &[u8], after: &str) -> Result<(), ElfError>
    ensures ok { OnOk result (page.new ≡ page.old ++ named_text before.now name.now after.now) }
    ensures err { IfErr result (WantsMemory page.old page.new) }
{
    put_text(page, before)?;
    put_bytes(page, name)?;
    put_text(page, after)
}

/// A fault, as it is shown.
#[derive(Clone, Copy)]
struct FaultText<'a> {
    /// The fault.
    fault: &'a CopyFault,
}

impl Line for FaultText<'_> {
    ghost text = { λ t. copy_fault_text t.fault.now };

    #[tactic(auto, unfolding(crate::specs::Faults::copy_fault_text))]
    fn put(&self, page: &mut Octets) -> Result<(), ElfError> {
        match self.fault {
            CopyFault::NoSection { name } => { put_named(page, "no section ", name.as_slice(), "") }
            CopyFault::NoBytes { name } => {
                put_named(page, "section ", name.as_slice(), " has no bytes")
            }
            CopyFault::Allocated { name } => {
                put_named(page, "section ", name.as_slice(), " is allocated")
            }
            CopyFault::Fixed { name } => {
                put_named(page, "allocation of ", name.as_slice(), " is fixed")
            }
            CopyFault::NoTable => put_text(page, "no name table of its own"),
            CopyFault::Strip(e) => put_error(page, e),
        }
    }
}

/// The stop of a fault, or None where it is a refusal.
fn stop_of_fault(fault: &CopyFault) -> Option<Stop>
    ensures { result ≡ fault_stop fault.now }
{
    match fault {
        CopyFault::NoSection { .. } => None,
        CopyFault::NoBytes { .. } => None,
        CopyFault::Allocated { .. } => None,
        CopyFault::Fixed { .. } => None,
        CopyFault::NoTable => None,
        CopyFault::Strip(e) => Stop::of(e),
    }
}

/// Says a fault of a file by its message.
fn say_fault<O: Sink, E: Sink>(
    file: &[u8],
    fault: &CopyFault,
    outputs: &mut Outputs<'_, O, E>,
) -> Result<bool, Stop>
    ensures reports { Reports O.Sink E.Sink result outputs.old outputs.new
        (refusal_report (codes "copy") (file_name file.now) (copy_fault_text fault.now)) }
    ensures leaves { LeavesOutputs O.Sink E.Sink ⊥ result outputs.old outputs.new }
{
    outputs.refuse(&Message {
        command: "copy",
        name: &FileName::of(file),
        text: FaultText { fault },
    })
}

/// Rejects a file for a fault, by its message, or stops where the fault is no refusal: then nothing
/// is written.
pub(crate) fn refuse_fault<O: Sink, E: Sink>(
    file: &[u8],
    fault: &CopyFault,
    outputs: &mut Outputs<'_, O, E>,
) -> Result<bool, Stop>
    ensures reports { IfNone (fault_stop fault.now)
        (Reports O.Sink E.Sink result outputs.old outputs.new
        (refusal_report (codes "copy") (file_name file.now) (copy_fault_text fault.now))) }
    ensures stops { IfSome (fault_stop fault.now)
        (λ stop. (result ≡ Err stop) × (outputs.new ≡ outputs.old)) }
    ensures leaves { IfNone (fault_stop fault.now)
        (LeavesOutputs O.Sink E.Sink ⊥ result outputs.old outputs.new) }
{
    match stop_of_fault(fault) {
        Some(stop) => Err(stop),
        None => say_fault(file, fault, outputs),
    }
}
