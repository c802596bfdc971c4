//! What the tools' own calls say of an object, and how much of a file a tool asks for.

use elf_descriptor::Elf;
use elf_outside::{MemSink, MemSource, Sink, Source};
use elf_types::{Addrs, ElfError, Octets};
use elfkit_run::prelude::{
    LintTool, NmOptions, ObjectTool, ReadelfParts, ReadelfTool, StringsOptions, elflint, lines, nm,
    readelf, show_file, size, strings,
};
use std::alloc::Global;
use test_kit_images::BuiltImage;
use test_kit_rows::{same, same_bytes, within};
use tool_output::{Outputs, Stop};

/// The room of each output, more than a test writes.
const ROOM: u64 = 1 << 16;

/// What was said of an image, and whether something was rejected.
#[derive(Drop)]
pub struct Said {
    /// The result.
    pub refused: Result<bool, Stop>,
    /// What is on standard output.
    pub out: Octets,
    /// What is on standard error.
    pub err: Octets,
}

impl Said {
    /// Whether a tool said this. Where it did not, all that differs is said. Where it is not, all
    /// that differs is said.
    pub fn is(&self, rt: &HostRuntime, refused: bool, out: &[u8], err: &[u8]) -> bool {
        let answer = same(rt, &self.refused, &Ok(refused));
        let shown = same_bytes(rt, self.out.as_slice(), out);
        let told = same_bytes(rt, self.err.as_slice(), err);
        within(rt, &"the answer", answer)
            & within(rt, &"standard output", shown)
            & within(rt, &"standard error", told)
    }
}

/// An output.
fn sink(alloc: Global) -> Result<MemSink, ElfError> {
    MemSink::new(alloc, ROOM, Addrs::new(alloc))
}

/// A tool's own call on an object, under the name F.
pub trait OwnCall {
    /// Makes it, over two outputs.
    fn answer<S: Source, O: Sink, E: Sink>(
        &self,
        alloc: Global,
        elf: &mut Elf<S>,
        out: &mut O,
        err: &mut E,
    ) -> Result<bool, Stop>;
}

/// The call of readelf, with its parts.
#[derive(Clone, Copy)]
pub struct Readelf<'a>(pub &'a ReadelfParts);

impl OwnCall for Readelf<'_> {
    fn answer<S: Source, O: Sink, E: Sink>(
        &self,
        alloc: Global,
        elf: &mut Elf<S>,
        out: &mut O,
        err: &mut E,
    ) -> Result<bool, Stop> {
        readelf(alloc, elf, self.0, b"F", out, err)
    }
}

/// The call of nm, with its options.
#[derive(Clone, Copy)]
pub struct Nm<'a>(pub &'a NmOptions);

impl OwnCall for Nm<'_> {
    fn answer<S: Source, O: Sink, E: Sink>(
        &self,
        alloc: Global,
        elf: &mut Elf<S>,
        out: &mut O,
        err: &mut E,
    ) -> Result<bool, Stop> {
        nm(alloc, elf, self.0, b"F", out, err)
    }
}

/// The call of size.
#[derive(Clone, Copy)]
pub struct Size;

impl OwnCall for Size {
    fn answer<S: Source, O: Sink, E: Sink>(
        &self,
        alloc: Global,
        elf: &mut Elf<S>,
        out: &mut O,
        err: &mut E,
    ) -> Result<bool, Stop> {
        size(alloc, elf, b"F", out, err)
    }
}

/// The call of elflint.
#[derive(Clone, Copy)]
pub struct Elflint;

impl OwnCall for Elflint {
    fn answer<S: Source, O: Sink, E: Sink>(
        &self,
        alloc: Global,
        elf: &mut Elf<S>,
        out: &mut O,
        err: &mut E,
    ) -> Result<bool, Stop> {
        elflint(alloc, elf, b"F", out, err)
    }
}

/// The call of lines.
#[derive(Clone, Copy)]
pub struct Lines;

impl OwnCall for Lines {
    fn answer<S: Source, O: Sink, E: Sink>(
        &self,
        alloc: Global,
        elf: &mut Elf<S>,
        out: &mut O,
        err: &mut E,
    ) -> Result<bool, Stop> {
        lines(alloc, elf, b"F", out, err)
    }
}

/// What is said of a descriptor over outputs, which are opened.
fn said_over<C: OwnCall, S: Source>(
    alloc: Global,
    call: &C,
    elf: &mut Elf<S>,
    mut out: MemSink,
    mut err: MemSink,
) -> Said {
    let refused = call.answer(alloc, elf, &mut out, &mut err);
    Said {
        refused,
        out: out.into_bytes(),
        err: err.into_bytes(),
    }
}

/// What is said of a descriptor that is lent.
fn said_on<C: OwnCall, S: Source>(
    alloc: Global,
    call: &C,
    elf: &mut Elf<S>,
) -> Result<Said, ElfError> {
    let out = sink(alloc)?;
    let err = sink(alloc)?;
    Ok(said_over(alloc, call, elf, out, err))
}

/// What is said of a source.
fn said_of<C: OwnCall, S: Source + Drop>(
    alloc: Global,
    call: &C,
    source: S,
) -> Result<Said, ElfError> {
    match Elf::begin(alloc, source) {
        Ok(mut elf) => {
            let said = said_on(alloc, call, &mut elf);
            let _source = elf.end();
            said
        }
        Err((_, e)) => Err(e),
    }
}

/// What a tool's own call says of an image under the name F. It fails as the image is rejected.
pub fn said_by<C: OwnCall>(alloc: Global, call: &C, image: BuiltImage) -> Result<Said, ElfError> {
    said_of(alloc, call, MemSource::new(image.bytes, Addrs::new(alloc)))
}

/// What readelf's own call says of the parts of an image under the name F.
pub fn readelf_of(
    alloc: Global,
    image: BuiltImage,
    parts: &ReadelfParts,
) -> Result<Said, ElfError> {
    said_by(alloc, &Readelf(parts), image)
}

/// What is said of bytes by the call of strings, over outputs, which are opened.
fn strings_over(
    alloc: Global,
    bytes: Octets,
    options: &StringsOptions,
    mut out: MemSink,
    mut err: MemSink,
) -> Said {
    let mut source = MemSource::new(bytes, Addrs::new(alloc));
    let refused = strings_on(alloc, &mut source, options, &mut out, &mut err);
    Said {
        refused,
        out: out.into_bytes(),
        err: err.into_bytes(),
    }
}

/// What the call of strings answers of a source under the name F.
fn strings_on<S: Source, O: Sink, E: Sink>(
    alloc: Global,
    source: &mut S,
    options: &StringsOptions,
    out: &mut O,
    err: &mut E,
) -> Result<bool, Stop> {
    strings(alloc, source, options, b"F", out, err)
}

/// What the call of strings says of bytes under the name F.
pub fn strings_of(alloc: Global, bytes: &[u8], options: &StringsOptions) -> Result<Said, ElfError> {
    let out = sink(alloc)?;
    let err = sink(alloc)?;
    match Octets::from_slice(alloc, bytes) {
        Ok(bytes) => Ok(strings_over(alloc, bytes, options, out, err)),
        Err(e) => Err(e),
    }
}

/// Gives a tool's report on a file or on its members, and gives its source back.
fn show_all<T: ObjectTool, S: Source, O: Sink, E: Sink>(
    alloc: Global,
    source: S,
    tool: &T,
    out: &mut O,
    err: &mut E,
) -> S {
    let mut page = Octets::new(alloc);
    let mut outputs = Outputs::new(out, err, &mut page);
    let (source, shown) = show_file(alloc, tool, tool, source, b"F", &mut outputs);
    let _refused = outputs.end(shown);
    source
}

/// How many bytes of it are asked for, over outputs.
fn asked_over<T: ObjectTool>(
    alloc: Global,
    bytes: Octets,
    tool: &T,
    out: &mut MemSink,
    err: &mut MemSink,
) -> u64 {
    let source = MemSource::new(bytes, Addrs::new(alloc));
    show_all(alloc, source, tool, out, err).asked()
}

/// How many bytes of a file a tool asks for.
fn asked_by<T: ObjectTool>(alloc: Global, bytes: &[u8], tool: &T) -> Result<u64, ElfError> {
    let mut out = sink(alloc)?;
    let mut err = sink(alloc)?;
    match Octets::from_slice(alloc, bytes) {
        Ok(bytes) => Ok(asked_over(alloc, bytes, tool, &mut out, &mut err)),
        Err(e) => Err(e),
    }
}

/// How many bytes of a file are asked for when readelf shows its parts, or those of its members.
pub fn asked(alloc: Global, bytes: &[u8], parts: &ReadelfParts) -> Result<u64, ElfError> {
    asked_by(alloc, bytes, &ReadelfTool { parts })
}

/// How many bytes of a file are asked for when elflint looks at its object, or at those of its
/// members.
pub fn asked_by_elflint(alloc: Global, bytes: &[u8]) -> Result<u64, ElfError> {
    asked_by(alloc, bytes, &LintTool)
}
