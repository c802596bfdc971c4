//! The lines of the program headers.

ghost use Rattle.std.specs.Prelude.{◌≡◌, ◌++◌, OnOk, IfErr};
ghost use Rattle.elf_types.specs.Writers.{WantsMemory};
ghost use Rattle.tool_output.specs.Lines.{numbered_lines};
ghost use Rattle.tool_output.specs.Reports.{Reports, shown_report};
ghost use Rattle.tool_output.specs.Steps.{LeavesOutputs};
ghost use Rattle.readelf_headers.specs.Segments.{flag_letter, other_flags, flags_text, flags_column, segment_start, segment_places, segment_sizes, segment_line_end, phdr_line, count_line, segments_report};

use elf_outside::{Sink, Source};
use elf_types::constants::{PF_R, PF_W, PF_X};
use elf_types::{
    ElfError, Octets, Phdr, put_bytes, put_decimal, put_hex, put_text, segment_type_name,
};
use readelf_rows::{put_hex_column, put_name_or_hex};
use tool_objects::phdr_at;
use tool_objects::prelude::Elf;
use tool_output::{Line, Outputs, Stop};

/// The letter of a flag's bit, or a dash where it is not set.
#[tactic(auto, unfolding(crate::specs::Segments::flag_letter))]
fn flag_letter(flags: u32, bit: u32, letter: u8) -> u8
    ensures { result ≡ flag_letter flags bit letter }
{
    if flags & bit == 0 { b'-' } else { letter }
}

/// Appends the bits that have no letter.
#[tactic(auto, using(elf_types::proofs::Writers::kept), unfolding(crate::specs::Segments::other_flags))]
fn put_other_flags(page: &mut Octets, flags: u32) -> Result<(), ElfError>
    ensures ok { OnOk result (page.new ≡ page.old ++ other_flags flags) }
    ensures err { IfErr result (WantsMemory page.old page.new) }
{
    let others = flags - flags % 8;
    if others == 0 {
        return Ok(());
    }
    put_text(page, "+0x")?;
    put_hex(page, u64::from(others))
}

/// Appends the flags: three letters, and the other bits.
#[tactic(auto, using(elf_types::proofs::Writers::kept), unfolding(crate::specs::Segments::flags_text))]
fn put_flags(page: &mut Octets, flags: u32) -> Result<(), ElfError>
    ensures ok { OnOk result (page.new ≡ page.old ++ flags_text flags) }
    ensures err { IfErr result (WantsMemory page.old page.new) }
{
    let letters = [
        flag_letter(flags, PF_R, b'R'),
        flag_letter(flags, PF_W, b'W'),
        flag_letter(flags, PF_X, b'X'),
    ];
    put_bytes(page, &letters)?;
    put_other_flags(page, flags)
}

/// Appends ` flags FLAGS`.
#[tactic(auto, using(elf_types::proofs::Writers::kept), unfolding(crate::specs::Segments::flags_column))]
fn put_flags_column(page: &mut Octets, flags: u32) -> Result<(), ElfError>
    ensures ok { OnOk result (page.new ≡ page.old ++ flags_column flags) }
    ensures err { IfErr result (WantsMemory page.old page.new) }
{
    put_text(page, " flags ")?;
    put_flags(page, flags)
}

/// Appends `  I TYPE`.
#[tactic(auto, using(elf_types::proofs::Writers::kept), unfolding(crate::specs::Segments::segment_start))]
fn put_start(page: &mut Octets, i: u32, p: &Phdr) -> Result<(), ElfError>
    ensures ok { OnOk result (page.new ≡ page.old ++ segment_start i p.now) }
    ensures err { IfErr result (WantsMemory page.old page.new) }
{
    put_text(page, "  ")?;
    put_decimal(page, u64::from(i))?;
    put_text(page, " ")?;
    put_name_or_hex(page, segment_type_name(p.ptype), u64::from(p.ptype))
}

/// Appends the offset and the two addresses.
#[tactic(auto, using(elf_types::proofs::Writers::kept), unfolding(crate::specs::Segments::segment_places))]
fn put_places(page: &mut Octets, p: &Phdr) -> Result<(), ElfError>
    ensures ok { OnOk result (page.new ≡ page.old ++ segment_places p.now) }
    ensures err { IfErr result (WantsMemory page.old page.new) }
{
    put_hex_column(page, "offset", p.offset)?;
    put_hex_column(page, "vaddr", p.vaddr)?;
    put_hex_column(page, "paddr", p.paddr)
}

/// Appends the two sizes.
#[tactic(auto, using(elf_types::proofs::Writers::kept), unfolding(crate::specs::Segments::segment_sizes))]
fn put_sizes(page: &mut Octets, p: &Phdr) -> Result<(), ElfError>
    ensures ok { OnOk result (page.new ≡ page.old ++ segment_sizes p.now) }
    ensures err { IfErr result (WantsMemory page.old page.new) }
{
    put_hex_column(page, "filesz", p.filesz)?;
    put_hex_column(page, "memsz", p.memsz)
}

/// Appends the flags, the alignment and the newline.
#[tactic(auto, using(elf_types::proofs::Writers::kept), unfolding(crate::specs::Segments::segment_line_end))]
fn put_end(page: &mut Octets, p: &Phdr) -> Result<(), ElfError>
    ensures ok { OnOk result (page.new ≡ page.old ++ segment_line_end p.now) }
    ensures err { IfErr result (WantsMemory page.old page.new) }
{
    put_flags_column(page, p.flags)?;
    put_hex_column(page, "align", p.align)?;
    put_text(page, "\n")
}

/// The line of a program header.
#[derive(Clone, Copy)]
struct SegmentLine<'a> {
    /// Its number.
    index: u32,
    /// The program header.
    header: &'a Phdr,
}

impl Line for SegmentLine<'_> {
    ghost text = { λ l. phdr_line l.index l.header.now };

    #[tactic(auto, using(elf_types::proofs::Writers::kept), unfolding(crate::specs::Segments::phdr_line))]
    fn put(&self, page: &mut Octets) -> Result<(), ElfError> {
        put_start(page, self.index, self.header)?;
        put_places(page, self.header)?;
        put_sizes(page, self.header)?;
        put_end(page, self.header)
    }
}

/// The line before those of the program headers.
#[derive(Clone, Copy)]
struct SegmentsTitle {
    /// How many there are.
    count: u32,
}

impl Line for SegmentsTitle {
    ghost text = { λ t. count_line t.count };

    #[tactic(auto, using(elf_types::proofs::Writers::kept), unfolding(crate::specs::Segments::count_line))]
    fn put(&self, page: &mut Octets) -> Result<(), ElfError> {
        put_text(page, "Program headers: ")?;
        put_decimal(page, u64::from(self.count))?;
        put_text(page, "\n")
    }
}

/// Shows a line for each program header.
fn show_lines<S: Source, O: Sink, E: Sink>(
    elf: &Elf<S>,
    outputs: &mut Outputs<'_, O, E>,
) -> Result<bool, Stop>
    ensures reports { Reports O.Sink E.Sink result outputs.old outputs.new
        (shown_report (numbered_lines phdr_line 0 elf.now.o.phdrs)) }
    ensures leaves { LeavesOutputs O.Sink E.Sink ⊥ result outputs.old outputs.new }
{
    for i in 0..elf.phnum() {
        let header = &phdr_at(elf, i);
        outputs.show(&SegmentLine { index: i, header })?;
    }
    Ok(false)
}

/// Shows the program headers: their number, and a line for each. Nothing is rejected.
pub fn show_segments<S: Source, O: Sink, E: Sink>(
    elf: &Elf<S>,
    outputs: &mut Outputs<'_, O, E>,
) -> Result<bool, Stop>
    ensures reports { Reports O.Sink E.Sink result outputs.old outputs.new
        (segments_report elf.now.o.phdrs) }
    ensures leaves { LeavesOutputs O.Sink E.Sink ⊥ result outputs.old outputs.new }
{
    let count = elf.phnum();
    outputs.show(&SegmentsTitle { count })?;
    show_lines(elf, outputs)
}
