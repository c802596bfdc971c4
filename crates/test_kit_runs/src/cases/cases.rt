//! Runs, how they end, and what they leave.

use crate::cases::files::{FileFaults, FoundFile, GOOD, Setting, Stored, bytes_in, is_there};
use crate::{DONE, Ending, Failing, NOTHING, RunAndFile, run_leaving, same_file};
use elf_types::Octets;
use test_kit_images::{ClassAndOrder, FORMS};
use test_kit_rows::{failed, in_row, other, same, within};

/// What a name holds after a run.
#[derive(Drop)]
pub enum HeldAfter {
    /// It is not looked at.
    Any,
    /// What it held before the run, or nothing where it was not there.
    Before,
    /// These contents.
    Now(Stored),
    /// So many bytes.
    Length(u64),
}

/// A run, how it ends, and what two names hold then.
#[derive(Drop)]
pub struct Case {
    /// The arguments, which a space separates.
    pub line: &'static str,
    /// The names of two files that the run finds.
    pub names: (&'static str, &'static str),
    /// What the first one holds.
    pub file: Stored,
    /// What the second one holds, which is a script where the arguments are those of calls.
    pub script: Stored,
    /// The calls of one file that fail.
    pub bad: FileFaults,
    /// Other calls that fail.
    pub failing: Failing,
    /// How the run ends.
    pub ending: Ending,
    /// A name.
    pub name: &'static str,
    /// What it holds.
    pub held: HeldAfter,
    /// Another name.
    pub second: &'static str,
    /// What that one holds.
    pub also: HeldAfter,
}

/// A run that finds none of the files F and S, of which no call fails, that says nothing, and of
/// which none of the names O and D is looked at.
pub const RUN: Case = Case {
    line: "",
    names: ("F", "S"),
    file: Stored::Nothing,
    script: Stored::Nothing,
    bad: GOOD,
    failing: NOTHING,
    ending: DONE,
    name: "O",
    held: HeldAfter::Any,
    second: "D",
    also: HeldAfter::Any,
};

/// Whether these bytes are what a file holds that is there.
pub(crate) fn are_stored(
    rt: &HostRuntime,
    form: &Option<ClassAndOrder>,
    bytes: &[u8],
    stored: &Stored,
) -> bool {
    if !is_there(stored) {
        return false;
    }
    match bytes_in(rt.alloc(), form, stored) {
        Ok(whole) => whole.as_slice() == bytes,
        Err(e) => failed(rt, e),
    }
}

/// Whether this is what a file holds, or there is none of both.
fn is_stored(
    rt: &HostRuntime,
    form: &Option<ClassAndOrder>,
    held: &Option<Octets>,
    stored: &Stored,
) -> bool {
    match held {
        Some(bytes) => are_stored(rt, form, bytes.as_slice(), stored),
        None => !is_there(stored),
    }
}

/// There is no file.
static NOT_THERE: Stored = Stored::Nothing;

/// What a name held before a run, and its form where one is asked for; nothing, where no file of
/// that name was there.
fn before<'a>(setting: &Setting<'a>, name: &str) -> (&'a Stored, Option<ClassAndOrder>) {
    let (first, second) = setting.names;
    if name == first {
        return (setting.file, setting.form);
    }
    if name == second {
        return (setting.script, None);
    }
    for found in setting.beside {
        if found.name == name {
            return (&found.stored, None);
        }
    }
    (&NOT_THERE, None)
}

/// Whether this is what a name held before a run.
pub(crate) fn is_as_before(
    rt: &HostRuntime,
    setting: &Setting<'_>,
    name: &str,
    held: &Option<Octets>,
) -> bool {
    let (stored, form) = before(setting, name);
    is_stored(rt, &form, held, stored)
}

/// Whether a name holds so many bytes.
fn has_length(held: &Option<Octets>, len: u64) -> bool {
    match held {
        Some(bytes) => bytes.len() == len,
        None => false,
    }
}

/// Whether a name holds what it is to hold.
pub(crate) fn is_held(
    rt: &HostRuntime,
    setting: &Setting<'_>,
    name: &str,
    held: &Option<Octets>,
    wanted: &HeldAfter,
) -> bool {
    match wanted {
        HeldAfter::Any => true,
        HeldAfter::Before => is_as_before(rt, setting, name, held),
        HeldAfter::Now(stored) => is_stored(rt, &None, held, stored),
        HeldAfter::Length(len) => has_length(held, *len),
    }
}

/// Says what a file holds in place of what is stored.
fn say_stored(
    rt: &HostRuntime,
    form: &Option<ClassAndOrder>,
    bytes: &[u8],
    stored: &Stored,
) -> bool {
    if !is_there(stored) {
        return other(rt, &bytes.len(), "no such file");
    }
    match bytes_in(rt.alloc(), form, stored) {
        Ok(whole) => same_file(rt, bytes, whole.as_slice()),
        Err(e) => failed(rt, e),
    }
}

/// Says what a file holds in place of what its name is to hold.
fn say_held(
    rt: &HostRuntime,
    setting: &Setting<'_>,
    name: &str,
    bytes: &[u8],
    wanted: &HeldAfter,
) -> bool {
    match wanted {
        HeldAfter::Any => true,
        HeldAfter::Before => {
            let (stored, form) = before(setting, name);
            say_stored(rt, &form, bytes, stored)
        }
        HeldAfter::Now(stored) => say_stored(rt, &None, bytes, stored),
        HeldAfter::Length(len) => same(rt, &(bytes.len() as u64), len),
    }
}

/// Whether a name holds what it is to hold. Where it does not, it says what it holds.
fn holds_so(
    rt: &HostRuntime,
    setting: &Setting<'_>,
    name: &str,
    held: &Option<Octets>,
    wanted: &HeldAfter,
) -> bool {
    if is_held(rt, setting, name, held, wanted) {
        return true;
    }
    let said = match held {
        Some(bytes) => say_held(rt, setting, name, bytes.as_slice(), wanted),
        None => other(rt, &"no file", "one"),
    };
    within(rt, &("the file", name), said)
}

/// Whether a run ends as a case says, and a name holds this then.
fn ends_so(
    rt: &HostRuntime,
    case: &Case,
    setting: &Setting<'_>,
    name: &str,
    wanted: &HeldAfter,
) -> bool {
    match run_leaving(rt.alloc(), case.line, setting, setting.failing, name) {
        Ok(left) => {
            left.ran.is(rt, &case.ending) && holds_so(rt, setting, name, &left.held, wanted)
        }
        Err(e) => failed(rt, e),
    }
}

/// Whether a name is looked at.
pub(crate) fn is_looked_at(wanted: &HeldAfter) -> bool {
    match wanted {
        HeldAfter::Any => false,
        _ => true,
    }
}

/// Whether a run over files ends as a case says.
pub(crate) fn is_so_over(rt: &HostRuntime, case: &Case, setting: &Setting<'_>) -> bool {
    let so = ends_so(rt, case, setting, case.name, &case.held)
        && (!is_looked_at(&case.also) || ends_so(rt, case, setting, case.second, &case.also));
    within(rt, &case.line, so)
}

/// What a case finds beside these files, its first file in a form where one is asked for.
pub(crate) fn setting_of<'a>(
    case: &'a Case,
    beside: &'a [FoundFile],
    form: Option<ClassAndOrder>,
) -> Setting<'a> {
    Setting {
        names: case.names,
        file: &case.file,
        script: &case.script,
        beside,
        form,
        bad: case.bad,
        failing: case.failing,
    }
}

/// Whether a run beside these files ends as its case says.
pub fn is_so<'x>(rt: &HostRuntime, beside: &'x [FoundFile], case: &'x Case) -> bool {
    is_so_over(rt, case, &setting_of(case, beside, None))
}

/// What a run beside these files leaves under the name of its case, and none, which is said, where
/// there is no memory for it.
pub fn left_by<'x>(
    rt: &HostRuntime,
    beside: &'x [FoundFile],
    case: &'x Case,
) -> Option<RunAndFile> {
    let setting = setting_of(case, beside, None);
    match run_leaving(rt.alloc(), case.line, &setting, setting.failing, case.name) {
        Ok(left) => Some(left),
        Err(e) => {
            let _said = failed(rt, e);
            None
        }
    }
}

/// Whether each run beside these files ends as its case says. It says the first that does not.
pub fn are_so<'x>(rt: &HostRuntime, beside: &'x [FoundFile], cases: &'x [Case]) -> bool {
    for (row, case) in cases.iter().enumerate() {
        if !in_row(rt, row, is_so(rt, beside, case)) {
            return false;
        }
    }
    true
}

/// Whether each does with its first file in a form.
fn are_so_in<'x>(
    rt: &HostRuntime,
    beside: &'x [FoundFile],
    cases: &'x [Case],
    form: ClassAndOrder,
) -> bool {
    for (row, case) in cases.iter().enumerate() {
        let so = is_so_over(rt, case, &setting_of(case, beside, Some(form)));
        if !in_row(rt, row, so) {
            return false;
        }
    }
    true
}

/// Whether each does with its first file in each form. It says the first that does not.
pub fn are_so_in_all_forms<'x>(
    rt: &HostRuntime,
    beside: &'x [FoundFile],
    cases: &'x [Case],
) -> bool {
    for form in FORMS.iter() {
        if !within(rt, form, are_so_in(rt, beside, cases, *form)) {
            return false;
        }
    }
    true
}
