//! A file, which is an image or an archive of them.

ghost use Rattle.std.specs.Prelude.{◌≤◌, ◌+◌, IfSome, OnOk};
ghost use Rattle.tool_output.specs.Names.{file_name};
ghost use Rattle.tool_output.specs.Sources.{ReportsOn};
ghost use Rattle.tool_objects.specs.Images.{image_report, image_asks};
ghost use Rattle.tool_objects.specs.Archives.{archive_report, archive_asks};
ghost use Rattle.tool_objects.specs.Files.{file_report, file_asks};

use crate::archives::show_archive;
use crate::tools::{ObjectTool, refuse};
use gelf_view::prelude::{FileKind, kind_of_source};
use std::alloc::Global;
use tool_output::prelude::{Sink, Source};
use tool_output::{FileName, Outputs, Stop};

/// Gives a tool's report on what a file holds, under its name, and hands the source back. An
/// archive, by its first eight bytes, has the report of `member_tool` on each member; anything else
/// is taken as an image. It reads eight bytes for the kind, and then for what an archive or an
/// image is asked for. It stops by `Read` only where a read of the source failed.
pub fn show_file<T: ObjectTool, S: Source, O: Sink, E: Sink>(
    alloc: Global,
    tool: &T,
    member_tool: &T,
    mut src: S,
    file: &[u8],
    outputs: &mut Outputs<'_, O, E>,
) -> (S, Result<bool, Stop>)
    ensures reports { ReportsOn S.Source O.Sink E.Sink
        (file_report (image_report (T.command tool.now) (T.report tool.now))
        (archive_report (T.command member_tool.now) (T.report member_tool.now))
        (file_name file.now))
        result.1 src result.0 outputs.old outputs.new }
    ensures asks { OnOk result.1 (IfSome (S.holds src) (λ bytes.
        S.taken result.0 ≤ S.taken src + file_asks
        (image_asks (T.looks tool.now)) (archive_asks (T.looks member_tool.now)) bytes)) }
{
    let name = FileName::of(file);
    match kind_of_source(&mut src) {
        Ok(FileKind::Archive) => show_archive(alloc, member_tool, src, file, outputs),
        Ok(FileKind::Elf) => tool.show_source(alloc, src, &name, outputs),
        Ok(FileKind::Other) => tool.show_source(alloc, src, &name, outputs),
        Err(e) => {
            let refused = refuse(tool.command(), &name, e, outputs);
            (src, refused)
        }
    }
}
