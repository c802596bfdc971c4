//! The line before what is shown of an image.

ghost use Rattle.std.specs.Prelude.{◌≡◌, ◌++◌};
ghost use Rattle.tool_output.specs.Reports.{Reports};
ghost use Rattle.tool_output.specs.Steps.{LeavesOutputs};
ghost use Rattle.elfkit_read.specs.Titles.{title_if, file_title, name_title, title_report, titled_report};

use elf_outside::{Sink, Source};
use elf_types::{ElfError, Octets, put_text};
use tool_objects::ObjectTool;
use tool_objects::prelude::Elf;
use tool_output::{FileName, Line, Outputs, Stop};

/// The form of the line before what is shown of an image.
#[derive(Clone, Copy)]
pub enum Title {
    /// There is none.
    Untitled,
    /// `File: NAME`.
    File,
    /// `NAME:`.
    Name,
}

impl Title {
    /// The title where the condition holds, and else none.
    pub fn under(self, has_title: bool) -> Title
        ensures { result ≡ title_if has_title self }
    {
        if has_title { self } else { Title::Untitled }
    }
}

/// `File: NAME`.
#[derive(Clone, Copy)]
struct FileTitle<'a> {
    /// The file, or the member of an archive.
    name: &'a FileName<'a>,
}

impl Line for FileTitle<'_> {
    ghost text = { λ t. file_title t.name.now };

    #[tactic(auto, using(elf_types::proofs::Writers::kept), unfolding(crate::specs::Titles::file_title))]
    fn put(&self, page: &mut Octets) -> Result<(), ElfError> {
        put_text(page, "File: ")?;
        self.name.put(page)?;
        put_text(page, "\n")
    }
}

/// `NAME:`.
#[derive(Clone, Copy)]
struct NameTitle<'a> {
    /// The file, or the member of an archive.
    name: &'a FileName<'a>,
}

impl Line for NameTitle<'_> {
    ghost text = { λ t. name_title t.name.now };

    #[tactic(auto, using(elf_types::proofs::Writers::kept), unfolding(crate::specs::Titles::name_title))]
    fn put(&self, page: &mut Octets) -> Result<(), ElfError> {
        self.name.put(page)?;
        put_text(page, ":\n")
    }
}

/// Shows the title of an image, where it has one.
#[tactic(auto, unfolding(crate::specs::Titles::title_report))]
pub fn show_title<O: Sink, E: Sink>(
    title: Title,
    name: &FileName<'_>,
    outputs: &mut Outputs<'_, O, E>,
) -> Result<bool, Stop>
    ensures reports { Reports O.Sink E.Sink result outputs.old outputs.new
        (title_report title name.now) }
    ensures leaves { LeavesOutputs O.Sink E.Sink ⊥ result outputs.old outputs.new }
{
    match title {
        Title::Untitled => Ok(false),
        Title::File => outputs.show(&FileTitle { name }),
        Title::Name => outputs.show(&NameTitle { name }),
    }
}

/// A tool whose report on an image follows a title, where it has one.
#[derive(Clone, Copy)]
pub struct Titled<'a, T> {
    /// The tool.
    pub tool: &'a T,
    /// The title of each of its reports.
    pub title: Title,
}

impl<T: ObjectTool> ObjectTool for Titled<'_, T> {
    ghost command = { λ t. T.command t.tool.now };

    ghost report = { λ t. titled_report t.title (T.report t.tool.now) };

    ghost looks = { λ t. T.looks t.tool.now };

    fn command(&self) -> &'static str {
        self.tool.command()
    }

    fn show<S: Source, O: Sink, E: Sink>(
        &self,
        elf: &mut Elf<S>,
        name: &FileName<'_>,
        outputs: &mut Outputs<'_, O, E>,
    ) -> Result<bool, Stop> {
        let title = show_title(self.title, name, outputs)?;
        let shown = self.tool.show(elf, name, outputs)?;
        Ok(title | shown)
    }
}
