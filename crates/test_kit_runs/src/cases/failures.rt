//! Runs of which one call after the other fails.

use crate::cases::cases::{Case, HeldAfter, is_as_before, is_held, is_so_over, setting_of};
use crate::cases::files::{FileFaults, FoundFile, GOOD, Setting, Stored, bytes_of};
use crate::run_leaving;
use elf_types::Octets;
use test_kit_rows::{failed, other, within};
use tool_output::Status;

/// Which calls fail, one in each run.
#[derive(Drop)]
pub enum FailingCall {
    /// The reads of a file that the run finds.
    Read(&'static str),
    /// The writes of such a file.
    Write(&'static str),
    /// The writes of each file that the run makes.
    Made,
    /// The puts to standard output.
    Put,
}

/// What a name holds after a run of which a call failed.
#[derive(Drop)]
pub enum State {
    /// It is not looked at.
    Any,
    /// What it held before the run.
    Before,
    /// What it holds where no call fails.
    After,
    /// The first bytes of that, fewer than it has.
    Front,
    /// As many bytes as the first file before the run, or as that has where no call fails; and each
    /// is that before or that after, or 0 where there was none before.
    Torn,
}

/// How a run may end of which a call failed, what the two names of its case hold then, and how many
/// of the runs end so.
#[derive(Drop)]
pub struct Outcome {
    /// The status.
    pub status: Status,
    /// What the name holds.
    pub held: State,
    /// What the other name holds.
    pub also: State,
    /// The least number.
    pub least: u64,
    /// The greatest one.
    pub most: u64,
}

/// Whether these are the first bytes of what a name is to hold, fewer than that has.
fn is_front(rt: &HostRuntime, bytes: &[u8], wanted: &HeldAfter) -> bool {
    let HeldAfter::Now(stored) = wanted else {
        return false;
    };
    match bytes_of(rt.alloc(), stored) {
        Ok(whole) => { bytes.len() < whole.as_slice().len() && whole.as_slice().starts_with(bytes) }
        Err(e) => failed(rt, e),
    }
}

/// Whether bytes are as many as before or after, and each is that before or that after, or 0 where
/// there was none before.
fn are_torn(held: &[u8], before: &[u8], after: &[u8]) -> bool {
    if held.len() != before.len() && held.len() != after.len() {
        return false;
    }
    for (k, byte) in held.iter().enumerate() {
        let old = before.get(k).copied().unwrap_or(0);
        let new = after.get(k).copied().unwrap_or(old);
        if *byte != old && *byte != new {
            return false;
        }
    }
    true
}

/// Whether bytes are between what was there before and what should be there.
fn are_between(rt: &HostRuntime, bytes: &[u8], before: &Stored, after: &Stored) -> bool {
    let before = match bytes_of(rt.alloc(), before) {
        Ok(before) => before,
        Err(e) => return failed(rt, e),
    };
    match bytes_of(rt.alloc(), after) {
        Ok(after) => are_torn(bytes, before.as_slice(), after.as_slice()),
        Err(e) => failed(rt, e),
    }
}

/// Whether bytes are between the first file before and what a name should hold.
fn is_torn(rt: &HostRuntime, bytes: &[u8], setting: &Setting<'_>, wanted: &HeldAfter) -> bool {
    match wanted {
        HeldAfter::Now(after) => are_between(rt, bytes, setting.file, after),
        _ => false,
    }
}

/// Whether bytes are in a state that tells of some of them.
fn are_in(
    rt: &HostRuntime,
    setting: &Setting<'_>,
    held: &Option<Octets>,
    wanted: &HeldAfter,
    state: &State,
) -> bool {
    match held {
        Some(bytes) => match state {
            State::Front => is_front(rt, bytes.as_slice(), wanted),
            State::Torn => is_torn(rt, bytes.as_slice(), setting, wanted),
            _ => false,
        },
        None => false,
    }
}

/// Whether a name that is to hold something is in a state.
fn is_in(
    rt: &HostRuntime,
    setting: &Setting<'_>,
    name: &str,
    held: &Option<Octets>,
    wanted: &HeldAfter,
    state: &State,
) -> bool {
    match state {
        State::Any => true,
        State::Before => is_as_before(rt, setting, name, held),
        State::After => is_held(rt, setting, name, held, wanted),
        State::Front | State::Torn => are_in(rt, setting, held, wanted, state),
    }
}

/// Whether a run of a line ends with a status and leaves a name that is to hold something in a state.
fn leaves(
    rt: &HostRuntime,
    line: &str,
    setting: &Setting<'_>,
    status: Status,
    name: &str,
    wanted: &HeldAfter,
    state: &State,
) -> bool {
    match run_leaving(rt.alloc(), line, setting, setting.failing, name) {
        Ok(left) => {
            left.ran.status == status && is_in(rt, setting, name, &left.held, wanted, state)
        }
        Err(e) => failed(rt, e),
    }
}

/// Whether a run of a case has an outcome.
fn has(rt: &HostRuntime, case: &Case, setting: &Setting<'_>, outcome: &Outcome) -> bool {
    let status = outcome.status;
    leaves(
        rt,
        case.line,
        setting,
        status,
        case.name,
        &case.held,
        &outcome.held,
    ) && leaves(
        rt,
        case.line,
        setting,
        status,
        case.second,
        &case.also,
        &outcome.also,
    )
}

/// What a run of a case finds where the call with a number fails.
fn failing_at<'a>(
    beside: &'a [FoundFile],
    case: &'a Case,
    call: &FailingCall,
    number: u64,
) -> Setting<'a> {
    let mut setting = setting_of(case, beside, None);
    match call {
        FailingCall::Read(name) => {
            setting.bad = FileFaults {
                name: *name,
                read: number,
                ..GOOD
            };
        }
        FailingCall::Write(name) => {
            setting.bad = FileFaults {
                name: *name,
                write: number,
                ..GOOD
            };
        }
        FailingCall::Made => setting.failing.write = number,
        FailingCall::Put => setting.failing.out = number,
    }
    setting
}

/// Whether a run has one of the outcomes.
fn has_one(rt: &HostRuntime, case: &Case, setting: &Setting<'_>, outcomes: &[Outcome]) -> bool {
    for outcome in outcomes {
        if has(rt, case, setting, outcome) {
            return true;
        }
    }
    false
}

/// Whether each run of which one of the first calls fails, so many, ends as the case says or has one
/// of the outcomes.
fn are_told<'x>(
    rt: &HostRuntime,
    beside: &'x [FoundFile],
    case: &'x Case,
    call: &FailingCall,
    calls: u64,
    outcomes: &[Outcome],
) -> bool {
    for before in 0..calls {
        let number = before.saturating_add(1);
        let setting = failing_at(beside, case, call, number);
        let so = has_one(rt, case, &setting, outcomes) || is_so_over(rt, case, &setting);
        if !within(rt, &("the failing call", number), so) {
            return false;
        }
    }
    true
}

/// How many of them have an outcome.
fn count_of<'x>(
    rt: &HostRuntime,
    beside: &'x [FoundFile],
    case: &'x Case,
    call: &FailingCall,
    calls: u64,
    outcome: &Outcome,
) -> u64 {
    let mut count = 0u64;
    for before in 0..calls {
        let setting = failing_at(beside, case, call, before.saturating_add(1));
        if has(rt, case, &setting, outcome) {
            count = count.saturating_add(1);
        }
    }
    count
}

/// Whether each run beside these files of which one of the first calls fails, so many, ends as the
/// case says or has one of the outcomes, and each outcome comes as often as it tells. It says the first
/// call or outcome of which that is not so.
pub fn fail_so<'x>(
    rt: &HostRuntime,
    beside: &'x [FoundFile],
    case: &'x Case,
    call: &FailingCall,
    calls: u64,
    outcomes: &[Outcome],
) -> bool {
    for (row, outcome) in outcomes.iter().enumerate() {
        let count = count_of(rt, beside, case, call, calls, outcome);
        if count < outcome.least || count > outcome.most {
            let some = (outcome.status, outcome.least, outcome.most);
            let so = other(rt, &count, "as many runs as the outcome tells");
            return within(rt, &("outcome", row), within(rt, &some, so));
        }
    }
    are_told(rt, beside, case, call, calls, outcomes)
}
