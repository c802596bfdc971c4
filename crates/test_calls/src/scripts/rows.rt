//! Scripts in tables, and which row is not as it says.

use crate::scripts::shown::put_call;
use elf_calls_script::{ScriptFault, Why, read_script};
use elf_types::{ElfError, Octets};
use std::alloc::Global;
use test_kit_rows::{failed, in_row, same, same_bytes, within};

/// The line and the cause for which a script is rejected.
pub fn fault_of(alloc: Global, script: &[u8]) -> Option<(u32, Why)> {
    match read_script(alloc, script) {
        Err(ScriptFault::Line { line, why }) => Some((line, why)),
        _ => None,
    }
}

/// The calls of a script as lines again, in their shortest form; nothing where it is rejected.
fn shown(alloc: Global, script: &[u8]) -> Result<Octets, ElfError> {
    let mut text = Octets::new(alloc);
    if let Ok(calls) = read_script(alloc, script) {
        for call in calls.as_slice() {
            put_call(&mut text, call)?;
        }
    }
    Ok(text)
}

/// Whether the calls of a script, as lines again, are these.
fn is_shown(rt: &HostRuntime, script: &str, wanted: &str) -> bool {
    let so = match shown(rt.alloc(), script.as_bytes()) {
        Ok(text) => same_bytes(rt, text.as_slice(), wanted.as_bytes()),
        Err(e) => failed(rt, e),
    };
    within(rt, &script, so)
}

/// Whether each script is shown as the second text of its row.
pub fn are_changed(rt: &HostRuntime, rows: &[(&'static str, &'static str)]) -> bool {
    for (n, (script, wanted)) in rows.iter().enumerate() {
        if !in_row(rt, n, is_shown(rt, script, wanted)) {
            return false;
        }
    }
    true
}

/// Whether each line is shown as it is.
pub fn are_shown(rt: &HostRuntime, lines: &[&'static str]) -> bool {
    for (n, line) in lines.iter().enumerate() {
        if !in_row(rt, n, is_shown(rt, line, line)) {
            return false;
        }
    }
    true
}

/// Whether the first bad line of a script has this number and this cause.
fn is_refused(rt: &HostRuntime, script: &str, line: u32, why: Why) -> bool {
    let fault = fault_of(rt.alloc(), script.as_bytes());
    within(rt, &script, same(rt, &fault, &Some((line, why))))
}

/// Whether each of these lines is rejected for one cause, as line 1.
pub fn lines_are_refused(rt: &HostRuntime, why: Why, lines: &[&'static str]) -> bool {
    for (n, line) in lines.iter().enumerate() {
        if !in_row(rt, n, is_refused(rt, line, 1, why)) {
            return false;
        }
    }
    true
}

/// Whether the first bad line of each script has the number and the cause of its row.
pub fn are_refused_at(rt: &HostRuntime, rows: &[(&'static str, u32, Why)]) -> bool {
    for (n, (script, line, why)) in rows.iter().enumerate() {
        if !in_row(rt, n, is_refused(rt, script, *line, *why)) {
            return false;
        }
    }
    true
}

/// A comment of so many bytes.
fn comment(alloc: Global, count: usize) -> Result<Octets, ElfError> {
    let mut text = Octets::new(alloc);
    for _ in 0..count {
        text.push(b'#')?;
    }
    Ok(text)
}

/// How many calls a comment of so many bytes has, or None where it is rejected.
pub fn calls_in_comment(alloc: Global, count: usize) -> Result<Option<u64>, ElfError> {
    let text = comment(alloc, count)?;
    match read_script(alloc, text.as_slice()) {
        Ok(calls) => Ok(Some(calls.len())),
        Err(_) => Ok(None),
    }
}

/// The line and the cause for which a comment of so many bytes is rejected.
pub fn fault_of_comment(alloc: Global, count: usize) -> Result<Option<(u32, Why)>, ElfError> {
    let text = comment(alloc, count)?;
    Ok(fault_of(alloc, text.as_slice()))
}
