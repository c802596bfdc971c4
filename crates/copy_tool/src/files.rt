//! The files of the arguments, each read whole and closed again.

ghost use Rattle.std.specs.Prelude.{◌≡◌, ◌++◌, ◌∷◌, true, [], codes, Some, None, if◌then◌else◌, IfOk, IfErr, IfSome, OnOk};
ghost use Rattle.elf_types.specs.declared.errors.ElfError.TheVariants.{Memory};
ghost use Rattle.rebuild_files.specs.elfkit_outcomes.Files.{bytes_named, bytes_of_each};
ghost use Rattle.tool_output.specs.Reports.{refusal_report};
ghost use Rattle.tool_output.specs.Steps.{Performs, LeavesOutputs};
ghost use Rattle.copy_tool.specs.Files.{ReadsWhole, ReadsFiles, length_held, lengths_named, named_bytes, pairs, byte_names, file_names, with_file, onto, list_if_all_found, seen_in};

use elf_outside::reads::read_range;
use elf_outside::{Files, OpenFault, Sink, Source};
use elf_types::{ElfError, List, Octets};
use rebuild_changes::{NameBytes, NamedFile};
use std::alloc::Global;
use tool_output::{FileName, Message, Outputs, Stop};
use tool_text::Text;

/// All bytes of a source. It fails with `Memory`, and `Read` where a read failed.
fn read_whole<S: Source>(alloc: Global, src: &mut S) -> Result<Octets, ElfError>
    ensures { ReadsWhole S.Source result src.old src.new }
{
    let len = src.len();
    read_range(alloc, src, 0, len)
}

/// Rejects a file that is not there, by its message: then there are no bytes.
#[tactic(auto, unfolding(tool_output::specs::Reports::refusal_report))]
fn refuse_absent<O: Sink, E: Sink>(
    name: &FileName<'_>,
    outputs: &mut Outputs<'_, O, E>,
) -> Result<Option<Octets>, Stop>
    ensures performs { Performs O.Sink E.Sink result outputs.old outputs.new
        (refusal_report (codes "copy") name.now (codes "not found")).marks None }
    ensures leaves { LeavesOutputs O.Sink E.Sink ⊥ result outputs.old outputs.new }
{
    let message = Message {
        command: "copy",
        name,
        text: "not found",
    };
    outputs.refuse(&message)?;
    Ok(None)
}

/// Opens a file, reads it whole and closes it. A name that is not there has its message: then there
/// are no bytes.
fn read_file<F: Files, O: Sink, E: Sink>(
    alloc: Global,
    file: &str,
    files: &mut F,
    outputs: &mut Outputs<'_, O, E>,
) -> Result<Option<Octets>, Stop>
    ensures { ReadsFiles F.Files O.Sink E.Sink (λ named. bytes_named named file.now)
        (λ named. length_held (named file.now))
        result files.old files.new outputs.old outputs.new }
{
    let name = FileName::of(file.as_bytes());
    let mut source = match files.open(alloc, file) {
        Ok(source) => source,
        Err(OpenFault::NotThere) => return refuse_absent(&name, outputs),
        Err(OpenFault::Failed) => return Err(Stop::Read),
        Err(OpenFault::Memory) => return Err(Stop::Memory),
    };
    let read = read_whole(alloc, &mut source);
    files.close(file, source);
    Stop::unless_refused(read)
}

/// Appends bytes under a name. It fails with `Memory` alone.
fn push_named(
    alloc: Global,
    name: &Text,
    bytes: Octets,
    read: &mut List<NameBytes>,
) -> Result<(), ElfError>
    ensures ok { OnOk result (read.new ≡ read.old ++ named_bytes name.now bytes ∷ []) }
    ensures err { IfErr result (λ e. e ≡ Memory) }
{
    let name = Octets::from_slice(alloc, name.as_bytes())?;
    read.push(NameBytes { name, bytes })
}

/// Appends bytes under a name, and returns that they are there. It stops by `Memory` alone.
fn put_named(
    alloc: Global,
    name: &Text,
    bytes: Octets,
    read: &mut List<NameBytes>,
) -> Result<bool, Stop>
    ensures there { IfOk result (λ there. there ≡ true) }
    ensures ok { OnOk result (read.new ≡ read.old ++ named_bytes name.now bytes ∷ []) }
    ensures stop { IfErr result (λ stop. stop ≡ Stop.Memory) }
{
    match push_named(alloc, name, bytes, read) {
        Ok(()) => Ok(true),
        Err(e) => Err(Stop::want_of(e)),
    }
}

/// Reads a file, and appends its bytes under the name of its section. It returns whether the file
/// is there; one that is not has its message.
fn add_file<F: Files, O: Sink, E: Sink>(
    alloc: Global,
    each: &NamedFile,
    read: &mut List<NameBytes>,
    files: &mut F,
    outputs: &mut Outputs<'_, O, E>,
) -> Result<bool, Stop>
    ensures reads { ReadsFiles F.Files O.Sink E.Sink (with_file (pairs read.old) each.now)
        (λ named. length_held (named each.now.file))
        (list_if_all_found result (pairs read.new)) files.old files.new outputs.old outputs.new }
    ensures names { IfOk result (λ there. there ≡ true →
        byte_names read.new ≡ byte_names read.old ++ each.now.name ∷ []) }
{
    match read_file(alloc, each.file.as_str(), files, outputs) {
        Ok(Some(bytes)) => put_named(alloc, &each.name, bytes, read),
        Ok(None) => Ok(false),
        Err(stop) => Err(stop),
    }
}

/// Reads files, one after another, and appends the bytes of each. It returns whether all are there;
/// the first one that is not has its message, and ends it.
fn fill_files<F: Files, O: Sink, E: Sink>(
    alloc: Global,
    named: &[NamedFile],
    read: &mut List<NameBytes>,
    files: &mut F,
    outputs: &mut Outputs<'_, O, E>,
) -> Result<bool, Stop>
    ensures reads { ReadsFiles F.Files O.Sink E.Sink
        (λ map. onto (pairs read.old) (bytes_of_each map named.now))
        (λ map. lengths_named map named.now)
        (list_if_all_found result (pairs read.new)) files.old files.new outputs.old outputs.new }
    ensures names { IfOk result (λ there. there ≡ true →
        byte_names read.new ≡ byte_names read.old ++ file_names named.now) }
{
    for each in named {
        let there = add_file(alloc, each, read, files, outputs)?;
        if !there {
            return Ok(false);
        }
    }
    Ok(true)
}

/// The list, where all its files are there.
fn where_all(there: bool, read: List<NameBytes>) -> Option<List<NameBytes>>
    ensures { result ≡ (if there then Some read else None) }
{
    if there { Some(read) } else { None }
}

/// Reads files, one after another: the bytes of each, under the name of its section, or none where
/// one is not there. That one has its message, and those after it are not opened. Each is asked for
/// once. It stops by `Read` where a read failed, by `Write` where the message could not be written,
/// and by `Memory`.
pub fn read_files<F: Files, O: Sink, E: Sink>(
    alloc: Global,
    named: &[NamedFile],
    files: &mut F,
    outputs: &mut Outputs<'_, O, E>,
) -> Result<Option<List<NameBytes>>, Stop>
    ensures reads { ReadsFiles F.Files O.Sink E.Sink (λ map. bytes_of_each map named.now)
        (λ map. lengths_named map named.now)
        (seen_in pairs result) files.old files.new outputs.old outputs.new }
    ensures names { IfOk result (λ read. IfSome read
        (λ list. byte_names list ≡ file_names named.now)) }
{
    let mut read = List::new(alloc);
    match fill_files(alloc, named, &mut read, files, outputs) {
        Ok(there) => Ok(where_all(there, read)),
        Err(stop) => Err(stop),
    }
}
