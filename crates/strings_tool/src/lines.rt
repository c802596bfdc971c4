//! The lines of the runs of bytes, appended one after another.

ghost use Rattle.std.specs.Prelude.{◌≡◌, ◌++◌, ◌+◌, ◌-◌, ◌≤◌, ◌<◌, ◌^◌, length, drop, OnOk, IfOk, IfErr};
ghost use Rattle.elf_types.specs.Writers.{WantsMemory};
ghost use Rattle.strings_tool.specs.Texts.{run_line, range_text, shortest_run};
ghost use Rattle.strings_tool.specs.Scans.{HasPut};

use crate::options::StringsOptions;
use crate::pieces::put_place;
use crate::runs::{LANES, find_run, printable_mask, run_in, run_len};
use crate::scans::shortest_run;
use elf_types::{ElfError, Octets, put_bytes, put_text};
use tool_output::Line;
use tool_text::Radix;

/// Appends the line of a run.
#[tactic(auto, using(elf_types::proofs::Writers::kept), unfolding(crate::specs::Texts::run_line))]
#[inline(always)]
fn put_run(page: &mut Octets, place: Option<Radix>, at: u128, bytes: &[u8]) -> Result<(), ElfError>
    ensures ok { OnOk result (page.new ≡ page.old
        ++ run_line place (record { at = at; bytes = bytes.now })) }
    ensures err { IfErr result (WantsMemory page.old page.new) }
{
    put_place(page, place, at)?;
    put_bytes(page, bytes)?;
    put_text(page, "\n")
}

/// How many of the first bytes begin no run, where there is none among them from `used` on.
#[inline(always)]
fn passed_len(used: usize, least: usize) -> usize
    requires used { used ≤ LANES }
    requires least { (0 < least) × (least ≤ LANES) }
    ensures { result ≡ used + (LANES - used + 1 - least) }
{
    if used + least > LANES {
        used
    } else {
        LANES + 1 - least
    }
}

/// Appends the lines of the runs that begin among the first of some bytes, and gives how many bytes
/// these runs and what is before them take.
#[inline(always)]
fn put_block(
    page: &mut Octets,
    bytes: &[u8],
    at: u128,
    options: &StringsOptions,
    least: usize,
) -> Result<usize, ElfError>
    requires room { LANES ≤ length bytes.now }
    requires fits { at + length bytes.now < 2 ^ 128 }
    requires least { least ≡ shortest_run options.now }
    requires short { least ≤ 32 }
    ensures ok { IfOk result (HasPut options.now at bytes.now page.old page.new) }
    ensures some { IfOk result (λ n. (0 < n) × (n ≤ length bytes.now)) }
    ensures err { IfErr result (WantsMemory page.old page.new) }
{
    let mut mask = printable_mask(bytes);
    let mut used = 0;
    'runs: loop {
        match run_in(mask, least) {
            None => return Ok(passed_len(used, least)),
            Some((from, len)) => {
                let start = used + from;
                if start + len >= LANES {
                    let end = LANES + run_len(&bytes[LANES..]);
                    put_run(page, options.place, at + start as u128, &bytes[start..end])?;
                    return Ok(end);
                }
                used = start + len;
                put_run(page, options.place, at + start as u128, &bytes[start..used])?;
                mask >>= from + len;
            }
        }
    }
}

/// Appends the lines of the runs of bytes, found one by one.
fn put_each(
    page: &mut Octets,
    bytes: &[u8],
    at: u128,
    options: &StringsOptions,
    least: usize,
) -> Result<(), ElfError>
    requires fits { at + length bytes.now < 2 ^ 128 }
    requires least { least ≡ shortest_run options.now }
    ensures ok { OnOk result (page.new ≡ page.old ++ range_text options.now at bytes.now) }
    ensures err { IfErr result (WantsMemory page.old page.new) }
{
    let mut used = 0;
    'runs: loop {
        let (skipped, len) = find_run(&bytes[used..], least);
        let start = used + skipped;
        if bytes.len() - start < least {
            return Ok(());
        }
        used = start + len;
        put_run(page, options.place, at + start as u128, &bytes[start..used])?;
    }
}

/// Appends the lines of the runs that begin in the blocks of some bytes, and gives how many bytes
/// these runs and what is before them take. The mask of a block does not wait for the runs of those
/// before it.
fn put_blocks(
    page: &mut Octets,
    bytes: &[u8],
    at: u128,
    options: &StringsOptions,
    least: usize,
) -> Result<usize, ElfError>
    requires fits { at + length bytes.now < 2 ^ 128 }
    requires least { least ≡ shortest_run options.now }
    requires short { least ≤ 32 }
    ensures ok { IfOk result (HasPut options.now at bytes.now page.old page.new) }
    ensures within { IfOk result (λ n. n ≤ length bytes.now) }
    ensures err { IfErr result (WantsMemory page.old page.new) }
{
    let mut used = 0;
    'lanes: while LANES <= bytes.len() - used {
        used += put_block(page, &bytes[used..], at + used as u128, options, least)?;
    }
    Ok(used)
}

/// Appends the lines of the runs of bytes: those of short ones by blocks.
fn put_runs(
    page: &mut Octets,
    bytes: &[u8],
    at: u128,
    options: &StringsOptions,
    least: usize,
) -> Result<(), ElfError>
    requires fits { at + length bytes.now < 2 ^ 128 }
    requires least { least ≡ shortest_run options.now }
    ensures ok { OnOk result (page.new ≡ page.old ++ range_text options.now at bytes.now) }
    ensures err { IfErr result (WantsMemory page.old page.new) }
{
    if least > LANES / 2 {
        return put_each(page, bytes, at, options, least);
    }
    let used = put_blocks(page, bytes, at, options, least)?;
    put_each(page, &bytes[used..], at + used as u128, options, least)
}

/// The lines of the runs of bytes.
#[derive(Clone, Copy)]
pub struct RunLines<'a> {
    /// The options.
    pub options: &'a StringsOptions,
    /// The place of the first of the bytes.
    pub at: u64,
    /// The bytes.
    pub bytes: &'a [u8],
}

impl Line for RunLines<'_> {
    ghost text = { λ l. range_text l.options.now l.at l.bytes.now };

    fn put(&self, page: &mut Octets) -> Result<(), ElfError> {
        let least = shortest_run(self.options);
        put_runs(page, self.bytes, u128::from(self.at), self.options, least)
    }
}
