//! Runs of elfkit on the arguments of a line, over files and outputs in memory.

use elf_outside::{Files, MemFiles, MemSink, Sink};
use elf_types::{Addrs, ElfError, Octets};
use elfkit_run::run;
use std::alloc::Global;
use test_kit_images::BuiltImage;
use test_kit_rows::{failed, same, same_bytes, within};
use tool_output::Status;
use tool_text::Args;

/// The room of each output, more than a test writes.
const ROOM: u64 = 1 << 20;

/// The room of each file that a run makes, more than a test writes.
const FILE_ROOM: u64 = 1 << 23;

/// A room for which there is no memory.
const NO_MEMORY: u64 = 1 << 62;

/// How a run ends, and what it writes on both outputs.
#[derive(Clone, Copy)]
pub struct Ending {
    /// The status.
    pub status: Status,
    /// What is on standard output.
    pub out: &'static [u8],
    /// What is on standard error.
    pub err: &'static [u8],
}

/// Nothing is rejected, and nothing is written.
pub const DONE: Ending = Ending {
    status: Status::Done,
    out: b"",
    err: b"",
};

/// Something is rejected.
pub const REFUSED: Ending = Ending {
    status: Status::Refused,
    ..DONE
};

/// What a run answered, and what it wrote.
#[derive(Drop)]
pub struct Ran {
    /// The status.
    pub status: Status,
    /// What is on standard output.
    pub out: Octets,
    /// What is on standard error.
    pub err: Octets,
}

impl Ran {
    /// Whether the run ended so. Where it did not, all that differs is said.
    pub fn is(&self, rt: &HostRuntime, ending: &Ending) -> bool {
        let status = same(rt, &self.status, &ending.status);
        let out = same_bytes(rt, self.out.as_slice(), ending.out);
        let err = same_bytes(rt, self.err.as_slice(), ending.err);
        within(rt, &"the status", status)
            & within(rt, &"standard output", out)
            & within(rt, &"standard error", err)
    }
}

/// The failing calls of a run, as their numbers from 1; 0 stands for none.
#[derive(Clone, Copy)]
pub struct Failing {
    /// The file that is not handed out.
    pub open: u64,
    /// The write of each file that is made that fails.
    pub write: u64,
    /// The put to standard output that fails.
    pub out: u64,
    /// The put to standard error that fails.
    pub err: u64,
    /// Whether each file that is handed out wants more memory than there is.
    pub memory: bool,
}

/// No call fails.
pub const NOTHING: Failing = Failing {
    open: 0,
    write: 0,
    out: 0,
    err: 0,
    memory: false,
};

/// A list of one number, or of none where it is 0.
pub fn numbered(alloc: Global, number: u64) -> Result<Addrs, ElfError> {
    let mut list = Addrs::new(alloc);
    if number != 0 {
        list.push(number)?;
    }
    Ok(list)
}

/// The files that a run finds.
pub trait GivenFiles {
    /// Adds them under their names.
    fn add_to(&self, alloc: Global, files: &mut MemFiles) -> Result<(), ElfError>;
}

/// Adds a file of these bytes, of which no call fails.
pub fn add_file(
    alloc: Global,
    files: &mut MemFiles,
    name: &str,
    bytes: &[u8],
) -> Result<(), ElfError> {
    let bytes = Octets::from_slice(alloc, bytes)?;
    files.add(name, bytes, Addrs::new(alloc), Addrs::new(alloc))
}

/// The image is the file F.
impl GivenFiles for BuiltImage {
    fn add_to(&self, alloc: Global, files: &mut MemFiles) -> Result<(), ElfError> {
        add_file(alloc, files, "F", self.bytes.as_slice())
    }
}

/// The bytes are the file F.
impl GivenFiles for Octets {
    fn add_to(&self, alloc: Global, files: &mut MemFiles) -> Result<(), ElfError> {
        add_file(alloc, files, "F", self.as_slice())
    }
}

/// Bytes that are the file F.
#[derive(Clone, Copy)]
pub struct Bytes(pub &'static [u8]);

impl GivenFiles for Bytes {
    fn add_to(&self, alloc: Global, files: &mut MemFiles) -> Result<(), ElfError> {
        add_file(alloc, files, "F", self.0)
    }
}

/// The arguments, which a space separates.
fn words_of(alloc: Global, line: &str) -> Result<Args, ElfError> {
    let mut words = Args::new(alloc);
    for word in line.split(' ') {
        words.add(word)?;
    }
    Ok(words)
}

/// An output of which the put with a number fails.
fn sink(alloc: Global, failing: u64) -> Result<MemSink, ElfError> {
    MemSink::new(alloc, ROOM, numbered(alloc, failing)?)
}

/// The files that are given.
fn files_of<G: GivenFiles>(
    alloc: Global,
    given: &G,
    failing: Failing,
) -> Result<MemFiles, ElfError> {
    let opens = numbered(alloc, failing.open)?;
    let writes = numbered(alloc, failing.write)?;
    let room = if failing.memory { NO_MEMORY } else { FILE_ROOM };
    let mut files = MemFiles::new(alloc, room, opens, writes);
    match given.add_to(alloc, &mut files) {
        Ok(()) => Ok(files),
        Err(e) => Err(e),
    }
}

/// The status of a run.
fn status_of<F: Files, O: Sink, E: Sink>(
    alloc: Global,
    words: &Args,
    files: &mut F,
    out: &mut O,
    err: &mut E,
) -> Status {
    run(alloc, words, files, out, err)
}

/// A run over outputs, which are opened.
fn run_over(
    alloc: Global,
    words: &Args,
    files: &mut MemFiles,
    mut out: MemSink,
    mut err: MemSink,
) -> Ran {
    let status = status_of(alloc, words, files, &mut out, &mut err);
    Ran {
        status,
        out: out.into_bytes(),
        err: err.into_bytes(),
    }
}

/// A run over files that are lent.
fn run_on(
    alloc: Global,
    words: &Args,
    files: &mut MemFiles,
    failing: Failing,
) -> Result<Ran, ElfError> {
    let out = sink(alloc, failing.out)?;
    let err = sink(alloc, failing.err)?;
    Ok(run_over(alloc, words, files, out, err))
}

/// A run of words over the files that are given.
pub fn run_words<G: GivenFiles>(
    alloc: Global,
    words: &Args,
    given: &G,
    failing: Failing,
) -> Result<Ran, ElfError> {
    let mut files = files_of(alloc, given, failing)?;
    run_on(alloc, words, &mut files, failing)
}

/// A run of the arguments of a line.
pub fn run_line<G: GivenFiles>(
    alloc: Global,
    line: &str,
    given: &G,
    failing: Failing,
) -> Result<Ran, ElfError> {
    let words = words_of(alloc, line)?;
    run_words(alloc, &words, given, failing)
}

/// What a run answered and wrote, and what a name held then.
#[derive(Drop)]
pub struct RunAndFile {
    /// The result and the outputs.
    pub ran: Ran,
    /// The bytes of the name, where it was there.
    pub held: Option<Octets>,
}

/// The bytes of a name.
fn held_by(alloc: Global, files: &MemFiles, name: &str) -> Result<Option<Octets>, ElfError> {
    match files.bytes(name) {
        Some(bytes) => match Octets::from_slice(alloc, bytes) {
            Ok(bytes) => Ok(Some(bytes)),
            Err(e) => Err(e),
        },
        None => Ok(None),
    }
}

/// What a run left under a name.
fn left_by(alloc: Global, ran: Ran, files: &MemFiles, name: &str) -> Result<RunAndFile, ElfError> {
    match held_by(alloc, files, name) {
        Ok(held) => Ok(RunAndFile { ran, held }),
        Err(e) => Err(e),
    }
}

/// A run of the arguments of a line, and what it left under a name.
pub fn run_leaving<G: GivenFiles>(
    alloc: Global,
    line: &str,
    given: &G,
    failing: Failing,
    name: &str,
) -> Result<RunAndFile, ElfError> {
    let words = words_of(alloc, line)?;
    let mut files = files_of(alloc, given, failing)?;
    match run_on(alloc, &words, &mut files, failing) {
        Ok(ran) => left_by(alloc, ran, &files, name),
        Err(e) => Err(e),
    }
}

/// Whether a run of the arguments of a line ends so, where no call of the outside fails.
pub fn ends<G: GivenFiles + Drop>(rt: &HostRuntime, line: &str, given: G, ending: &Ending) -> bool {
    let so = match run_line(rt.alloc(), line, &given, NOTHING) {
        Ok(ran) => ran.is(rt, ending),
        Err(e) => failed(rt, e),
    };
    within(rt, &line, so)
}

/// Whether a run of the arguments of a line shows this, and rejects nothing.
pub fn shows<G: GivenFiles + Drop>(
    rt: &HostRuntime,
    line: &str,
    given: G,
    out: &'static [u8],
) -> bool {
    ends(rt, line, given, &Ending { out, ..DONE })
}

/// Whether a run of the arguments of a line rejects something by this message, and shows nothing.
pub fn refuses<G: GivenFiles + Drop>(
    rt: &HostRuntime,
    line: &str,
    given: G,
    err: &'static [u8],
) -> bool {
    ends(rt, line, given, &Ending { err, ..REFUSED })
}

/// The first place at which bytes differ.
fn differ_at(gave: &[u8], wanted: &[u8]) -> usize {
    for (at, (a, b)) in gave.iter().zip(wanted).enumerate() {
        if *a != *b {
            return at;
        }
    }
    gave.len().min(wanted.len())
}

/// At most 32 bytes from a place on.
fn some_from(bytes: &[u8], at: usize) -> &[u8] {
    let rest = bytes.get(at..).unwrap_or(&[]);
    rest.get(..32).unwrap_or(rest)
}

/// Whether a file has the wanted bytes. Where it has not, the lengths, the first place at which they
/// differ and some bytes from there on are said.
pub fn same_file(rt: &HostRuntime, gave: &[u8], wanted: &[u8]) -> bool {
    if *gave == *wanted {
        return true;
    }
    let _lengths = same(rt, &gave.len(), &wanted.len());
    let at = differ_at(gave, wanted);
    let _bytes = same_bytes(rt, some_from(gave, at), some_from(wanted, at));
    within(rt, &("bytes from", at), false)
}
