//! The members of an archive, one after another, each given to a tool as an image.

ghost use Rattle.std.specs.Prelude.{◌≡◌, ◌≤◌, ◌+◌, IfSome, OnOk};
ghost use Rattle.ar_members.specs.Archives.{members_left};
ghost use Rattle.tool_output.specs.Names.{file_name};
ghost use Rattle.tool_output.specs.Sources.{ReportsOn};
ghost use Rattle.tool_objects.specs.Images.{image_report};
ghost use Rattle.tool_objects.specs.Refusals.{EndsByRefusal};
ghost use Rattle.tool_objects.specs.Archives.{member_report, members_report, archive_report};
ghost use Rattle.tool_objects.specs.Archives.{member_asks, left_asks, archive_asks};

use crate::tools::{ObjectTool, refuse};
use ar_members::{Ar, ArHdr};
use elf_types::ElfError;
use std::alloc::Global;
use tool_output::prelude::{Sink, Source};
use tool_output::{FileName, Outputs, Stop};

/// Gives a tool's report on a member of an archive, under `LIB[MEMBER]`, and hands the archive back
/// with its walk as it was. Of the member's body it reads no more than the tool asks for.
fn show_member<T: ObjectTool, S: Source, O: Sink, E: Sink>(
    alloc: Global,
    tool: &T,
    archive: Ar<S>,
    file: &[u8],
    header: ArHdr,
    outputs: &mut Outputs<'_, O, E>,
) -> (Ar<S>, Result<bool, Stop>)
    requires { header.body + header.size ≤ S.size archive.source }
    ensures reports { ReportsOn S.Source O.Sink E.Sink
        (λ bytes. member_report (image_report (T.command tool.now) (T.report tool.now))
        file.now bytes header)
        result.1 archive.source result.0.source outputs.old outputs.new }
    ensures walk { result.0.walk ≡ archive.walk }
    ensures asks { OnOk result.1 (IfSome (S.holds archive.source) (λ bytes.
        S.taken result.0.source
        ≤ S.taken archive.source + member_asks (T.looks tool.now) bytes header)) }
{
    let name = FileName::of_member(file, header.name.as_slice());
    let window = archive.body(&header);
    let (body, shown) = tool.show_source(alloc, window, &name, outputs);
    (body.into_inner(), shown)
}

/// Gives the message of the bad header that ends an archive, and returns whether that or something
/// before it was rejected.
fn end_members<T: ObjectTool, O: Sink, E: Sink>(
    tool: &T,
    file: &[u8],
    e: ElfError,
    refused: bool,
    outputs: &mut Outputs<'_, O, E>,
) -> Result<bool, Stop>
    ensures { EndsByRefusal O.Sink E.Sink (T.command tool.now) (file_name file.now) e refused
        result outputs.old outputs.new }
{
    match refuse(tool.command(), &FileName::of(file), e, outputs) {
        Ok(was_refused) => Ok(refused | was_refused),
        Err(stop) => Err(stop),
    }
}

/// Gives a tool's report on each member that is left of an archive, in their order, and the message
/// of the bad header that ends them, if one does. It hands the archive back.
fn show_members<T: ObjectTool, S: Source, O: Sink, E: Sink>(
    alloc: Global,
    tool: &T,
    mut archive: Ar<S>,
    file: &[u8],
    outputs: &mut Outputs<'_, O, E>,
) -> (Ar<S>, Result<bool, Stop>)
    ensures reports { ReportsOn S.Source O.Sink E.Sink
        (λ bytes. members_report (T.command tool.now)
        (image_report (T.command tool.now) (T.report tool.now))
        file.now bytes (members_left bytes archive.walk))
        result.1 archive.source result.0.source outputs.old outputs.new }
    ensures asks { OnOk result.1 (IfSome (S.holds archive.source) (λ bytes.
        S.taken result.0.source
        ≤ S.taken archive.source + left_asks (T.looks tool.now) bytes archive.walk)) }
{
    let mut refused = false;
    loop {
        match archive.next() {
            Ok(Some(header)) => {
                let (after, shown) = show_member(alloc, tool, archive, file, header, outputs);
                archive = after;
                match shown {
                    Ok(was_refused) => refused = refused | was_refused,
                    Err(stop) => return (archive, Err(stop)),
                }
            }
            Ok(None) => return (archive, Ok(refused)),
            Err(e) => {
                let ended = end_members(tool, file, e, refused, outputs);
                return (archive, ended);
            }
        }
    }
}

/// Gives a tool's report on what an archive holds, and hands the source back. Each member has the
/// report on an image under `LIB[MEMBER]`, or the message that says why it is none, and the walk
/// goes on; a bad header ends it, with its message. One member is held at a time. No more is asked
/// for than the first line, each header and the tables of long names, and for each member what is
/// asked for of an image. It stops by `Read` only where a read of the source failed.
///
/// Source: ar.h, and the archive format of System V and GNU; gABI chapter 7, "Archive File".
pub fn show_archive<T: ObjectTool, S: Source, O: Sink, E: Sink>(
    alloc: Global,
    tool: &T,
    src: S,
    file: &[u8],
    outputs: &mut Outputs<'_, O, E>,
) -> (S, Result<bool, Stop>)
    ensures reports { ReportsOn S.Source O.Sink E.Sink
        (archive_report (T.command tool.now) (T.report tool.now) (file_name file.now))
        result.1 src result.0 outputs.old outputs.new }
    ensures asks { OnOk result.1 (IfSome (S.holds src) (λ bytes.
        S.taken result.0 ≤ S.taken src + archive_asks (T.looks tool.now) bytes)) }
{
    match Ar::begin(alloc, src) {
        Ok(archive) => {
            let (archive, shown) = show_members(alloc, tool, archive, file, outputs);
            (archive.end(), shown)
        }
        Err((src, e)) => {
            let refused = refuse(tool.command(), &FileName::of(file), e, outputs);
            (src, refused)
        }
    }
}
