//! nm after a title: the title comes when the front of an image was read, and nm goes on with that
//! front.

ghost use Rattle.std.specs.Prelude.{◌≡◌, ◌≤◌, ◌+◌, Ok, IfSome, OnOk, codes};
ghost use Rattle.elf_types.specs.declared.constants.TheConstants.{MAX_IMAGE};
ghost use Rattle.elf_ident.specs.Reading.{IsFittingFront, IsCounted};
ghost use Rattle.elf_object.specs.Open.{begun, opened};
ghost use Rattle.tool_output.specs.Sources.{ReportsOn};
ghost use Rattle.tool_objects.specs.Images.{image_report};
ghost use Rattle.tool_objects.specs.Looks.{looks_over};
ghost use Rattle.tool_objects.specs.Steps.{homes_total};
ghost use Rattle.nm_tool.specs.Tool.{nm_report};
ghost use Rattle.elfkit_read.specs.Titles.{titled_report};

use crate::titles::{Title, Titled, show_title};
use elf_ident::{Front, read_front};
use elf_outside::{Sink, Source};
use nm_tool::NmTool;
use std::alloc::Global;
use tool_objects::prelude::Elf;
use tool_objects::{ObjectTool, refuse};
use tool_output::{FileName, Outputs, Stop};

/// Gives nm's report after a title on the image that a source holds and whose front was read, and
/// hands the source back.
fn show_titled<S: Source, O: Sink, E: Sink>(
    alloc: Global,
    src: S,
    front: Front,
    tool: &NmTool<'_>,
    title: Title,
    name: &FileName<'_>,
    outputs: &mut Outputs<'_, O, E>,
) -> (S, Result<bool, Stop>)
    requires fitting { IsFittingFront front }
    requires counted { IsCounted front }
    requires small { S.size src ≤ MAX_IMAGE }
    requires told { IfSome (S.holds src) (λ image. opened image ≡ Ok (begun front image)) }
    ensures reports { ReportsOn S.Source O.Sink E.Sink
        (image_report (codes "nm") (titled_report title (nm_report tool.now.options.now)) name.now)
        result.1 src result.0 outputs.old outputs.new }
    ensures asked { OnOk result.1 (IfSome (S.holds src) (λ image.
        S.taken result.0 ≤ S.taken src + homes_total (begun front image))) }
{
    match show_title(title, name, outputs) {
        Ok(titled) => {
            let (after, shown) = tool.show_front(alloc, src, front, name, outputs);
            match shown {
                Ok(refused) => (after, Ok(titled | refused)),
                Err(stop) => (after, Err(stop)),
            }
        }
        Err(stop) => (src, Err(stop)),
    }
}

/// nm, whose report on an image follows a title, where it has one.
#[derive(Clone, Copy)]
pub struct TitledNm<'a> {
    /// The tool.
    pub tool: &'a NmTool<'a>,
    /// The title of each of its reports.
    pub title: Title,
}

impl ObjectTool for TitledNm<'_> {
    ghost command = { λ _. codes "nm" };

    ghost report = { λ t. titled_report t.title (nm_report t.tool.now.options.now) };

    ghost looks = { λ _. looks_over 0 };

    fn command(&self) -> &'static str {
        self.tool.command()
    }

    fn show<S: Source, O: Sink, E: Sink>(
        &self,
        elf: &mut Elf<S>,
        name: &FileName<'_>,
        outputs: &mut Outputs<'_, O, E>,
    ) -> Result<bool, Stop> {
        let titled = Titled {
            tool: self.tool,
            title: self.title,
        };
        titled.show(elf, name, outputs)
    }

    /// The report of `show`, of a source: nm begins a descriptor only where it is needed.
    fn show_source<S: Source, O: Sink, E: Sink>(
        &self,
        alloc: Global,
        mut src: S,
        name: &FileName<'_>,
        outputs: &mut Outputs<'_, O, E>,
    ) -> (S, Result<bool, Stop>) {
        match read_front(alloc, &mut src) {
            Ok(front) => show_titled(alloc, src, front, self.tool, self.title, name, outputs),
            Err(e) => {
                let refused = refuse(self.command(), name, e, outputs);
                (src, refused)
            }
        }
    }
}
