//! A tool that says something of an object.

ghost use Rattle.std.specs.Prelude.{◌≡◌, ◌≤◌, ◌+◌, ℕ, List, false, IfSome, OnOk};
ghost use Rattle.gelf_view.specs.elf_ident.Front.{front_bytes};
ghost use Rattle.gelf_view.specs.elf_object.Object.{Object};
ghost use Rattle.tool_output.specs.Names.{Name};
ghost use Rattle.tool_output.specs.Reports.{Report};
ghost use Rattle.tool_output.specs.Sources.{ReportsOn};
ghost use Rattle.tool_objects.specs.Steps.{ReportsOver};
ghost use Rattle.tool_objects.specs.Refusals.{ReportsRefusal};
ghost use Rattle.tool_objects.specs.Shows.{ShowsOver};
ghost use Rattle.tool_objects.specs.Looks.{SectionLooks};
ghost use Rattle.tool_objects.specs.Images.{image_report, image_asks};

use elf_types::{ElfError, Octets};
use gelf_view::prelude::Elf;
use std::alloc::Global;
use tool_output::prelude::{Sink, Source};
use tool_output::{FileName, Message, Outputs, Stop};

/// What a command does with each image of the files that it names.
///
/// - `command` is its name, which is before its messages.
/// - `report` is what it says of an object, under the name of its file.
/// - `looks` is how it looks at the sections: whether it reads homes, and how many passes over them
///   it makes. One that reads none leaves the descriptor as it was.
pub trait ObjectTool {
    ghost command: { Self → List ℕ };

    ghost report: { Self → Name → Object → Report };

    ghost looks: { Self → SectionLooks };

    /// The command's name.
    fn command(&self) -> &'static str
        ensures { result.now ≡ command self.now };

    /// Gives the report on an object, and leaves the object. It returns whether something was
    /// rejected. It stops by `Read` only where a read of the source failed, by `Write` only where a
    /// put failed.
    fn show<S: Source, O: Sink, E: Sink>(
        &self,
        elf: &mut Elf<S>,
        name: &FileName<'_>,
        outputs: &mut Outputs<'_, O, E>,
    ) -> Result<bool, Stop>
        ensures reports { ReportsOver S.Source O.Sink E.Sink (looks self.now).passes
            (report self.now name.now) result elf.old elf.new outputs.old outputs.new }
        ensures unread { (looks self.now).reads ≡ false → elf.new ≡ elf.old };

    /// Gives the report on the image that a source holds, under a name, and hands the source back.
    /// What has no headers of an image has the message that says why. It stops by `Read` only where
    /// a read of the source failed. Of each home that lies in the file no more than its bytes are
    /// asked for, and none by a tool that reads no sections; where homes overlap, once more for
    /// each of its passes over them. A tool that needs no descriptor may give the same without one;
    /// any other begins one and shows its object.
    fn show_source<S: Source, O: Sink, E: Sink>(
        &self,
        alloc: Global,
        src: S,
        name: &FileName<'_>,
        outputs: &mut Outputs<'_, O, E>,
    ) -> (S, Result<bool, Stop>)
        ensures reports { ReportsOn S.Source O.Sink E.Sink
            (image_report (command self.now) (report self.now) name.now)
            result.1 src result.0 outputs.old outputs.new }
        ensures asks { OnOk result.1 (IfSome (S.holds src) (λ image.
            S.taken result.0 ≤ S.taken src + image_asks (looks self.now) image)) }
        ensures unread { (looks self.now).reads ≡ false → IfSome (S.holds src) (λ image.
            S.taken result.0 ≤ S.taken src + front_bytes image) }
    {
        match Elf::begin(alloc, src) {
            Ok(mut elf) => {
                let shown = self.show(&mut elf, name, outputs);
                (elf.end(), shown)
            }
            Err((src, e)) => {
                let refused = refuse(self.command(), name, e, outputs);
                (src, refused)
            }
        }
    }
}

/// Rejects a file, or a member of an archive, for an error of the library: gives the message of a
/// command, or stops where the error is no refusal.
pub fn refuse<O: Sink, E: Sink>(
    command: &str,
    name: &FileName<'_>,
    e: ElfError,
    outputs: &mut Outputs<'_, O, E>,
) -> Result<bool, Stop>
    ensures { ReportsRefusal O.Sink E.Sink command.now name.now e result outputs.old outputs.new }
{
    let message = Message {
        command,
        name,
        text: e,
    };
    outputs.refuse_by(&message, e)
}

/// Gives a tool's report on an object on two outputs, as the public call of a tool does, and leaves
/// the object. It returns whether something was rejected. It stops by `Read` where a read of the
/// source failed, by `Write` where a put failed, and by `Memory`.
pub fn show_object<T: ObjectTool, S: Source, O: Sink, E: Sink>(
    alloc: Global,
    tool: &T,
    elf: &mut Elf<S>,
    name: &FileName<'_>,
    out: &mut O,
    err: &mut E,
) -> Result<bool, Stop>
    ensures shows { ShowsOver S.Source O.Sink E.Sink (T.looks tool.now).passes
        (T.report tool.now name.now)
        result elf.old elf.new out.old out.new err.old err.new }
    ensures unread { (T.looks tool.now).reads ≡ false → elf.new ≡ elf.old }
{
    let mut page = Octets::new(alloc);
    let mut outputs = Outputs::new(out, err, &mut page);
    let shown = tool.show(elf, name, &mut outputs);
    outputs.end(shown)
}
