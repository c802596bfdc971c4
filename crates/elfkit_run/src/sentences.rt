//! The lines that the program writes of its own.

ghost use Rattle.std.specs.Prelude.{◌≡◌, ◌++◌};
ghost use Rattle.tool_output.specs.Marks.{said};
ghost use Rattle.tool_output.specs.Steps.{Writes, LeavesOutputs};
ghost use Rattle.elfkit_run.specs.Sentences.{text_line_of};

use elf_outside::Sink;
use elf_types::{ElfError, Octets, put_text};
use tool_output::{Line, Outputs, Side, Stop};

/// A text on a line of its own.
#[derive(Clone, Copy)]
pub struct Sentence<'a> {
    /// The text.
    pub text: &'a str,
}

impl Line for Sentence<'_> {
    ghost text = { λ s. text_line_of s.text.now };

    #[tactic(auto, using(elf_types::proofs::Writers::kept), unfolding(crate::specs::Sentences::text_line_of))]
    fn put(&self, page: &mut Octets) -> Result<(), ElfError> {
        put_text(page, self.text)?;
        put_text(page, "\n")
    }
}

/// A text whose lines have their newlines.
#[derive(Clone, Copy)]
struct Paragraph<'a> {
    /// The text.
    text: &'a str,
}

impl Line for Paragraph<'_> {
    ghost text = { λ p. p.text.now };

    #[tactic(auto, using(elf_types::proofs::Writers::kept))]
    fn put(&self, page: &mut Octets) -> Result<(), ElfError> {
        put_text(page, self.text)
    }
}

/// Shows a text whose lines have their newlines on standard output.
pub fn tell<O: Sink, E: Sink>(outputs: &mut Outputs<'_, O, E>, text: &str) -> Result<(), Stop>
    ensures writes { Writes O.Sink E.Sink result outputs.old outputs.new
        (said Side.Out text.now) }
    ensures leaves { LeavesOutputs O.Sink E.Sink ⊥ result outputs.old outputs.new }
{
    outputs.put(Side::Out, &Paragraph { text })
}

/// Says a sentence on standard error.
pub fn say<O: Sink, E: Sink>(outputs: &mut Outputs<'_, O, E>, text: &str) -> Result<(), Stop>
    ensures writes { Writes O.Sink E.Sink result outputs.old outputs.new
        (said Side.Error (text_line_of text.now)) }
    ensures leaves { LeavesOutputs O.Sink E.Sink ⊥ result outputs.old outputs.new }
{
    outputs.put(Side::Error, &Sentence { text })
}
