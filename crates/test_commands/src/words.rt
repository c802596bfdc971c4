//! Words that are rejected or ask for help, and operands.

use elf_types::ElfError;
use std::alloc::Global;
use test_kit_images::OBJECT;
use test_kit_rows::same;
use test_kit_runs::cases::{Case, RUN, Stored, are_so, is_so};
use test_kit_runs::{Bytes, Ending, Failing, NOTHING, REFUSED, run_words};
use tool_output::Status;
use tool_text::Args;

/// A run over the empty file F of which the first file that is opened is not handed out.
const UNOPENED: Case = Case {
    file: Stored::Bytes(b""),
    failing: Failing { open: 1, ..NOTHING },
    ..RUN
};

/// Words, how they end, and what is on both outputs.
static SAID: [Case; 7] = [
    Case {
        line: "size",
        ending: Ending {
            status: Status::BadWords,
            out: b"",
            err: b"usage: elfkit size FILE..\n",
        },
        ..UNOPENED
    },
    Case {
        line: "strip -o A A",
        ending: Ending {
            status: Status::BadWords,
            out: b"",
            err: b"usage: elfkit strip [-g] [-R NAME].. [-f DEBUG] -o OUT FILE\n",
        },
        ..UNOPENED
    },
    Case {
        line: "readelf F",
        ending: Ending {
            status: Status::BadWords,
            out: b"",
            err: b"usage: elfkit readelf [-hlSsrdnV] FILE..\n",
        },
        ..UNOPENED
    },
    Case {
        line: "help",
        ending: Ending {
            status: Status::BadWords,
            out: b"",
            err: b"usage: elfkit readelf|nm|size|strings|strip|elflint|calls|selftest|rehash|copy|\
            unstrip|lines\n",
        },
        ..UNOPENED
    },
    Case {
        line: "size --help F",
        ending: Ending {
            status: Status::Done,
            out: b"usage: elfkit size FILE..\n",
            err: b"",
        },
        ..UNOPENED
    },
    Case {
        line: "rehash -o O --help",
        ending: Ending {
            status: Status::Done,
            out: REHASH_HELP,
            err: b"",
        },
        ..UNOPENED
    },
    Case {
        line: "--version F",
        ending: Ending {
            status: Status::Done,
            out: b"elfkit 1.0.0\n",
            err: b"",
        },
        ..UNOPENED
    },
];

/// Help on rehash.
const REHASH_HELP: &[u8] = b"usage: elfkit rehash -o OUT FILE\n  -o OUT        the file to write\n";

#[test]
fn arguments_that_are_rejected_or_ask_for_help_open_no_file(rt: HostRuntime) {
    assert!(rt; are_so(&rt, &[], &SAID));
}

/// The first name is not there, and looks like an option.
static PASSED: Case = Case {
    line: "readelf -l -- -x F",
    file: Stored::Image(OBJECT),
    ending: Ending {
        out: b"File: F\nProgram headers: 0\n",
        err: b"readelf: -x: not found\n",
        ..REFUSED
    },
    ..RUN
};

#[test]
fn a_missing_file_is_passed_over(rt: HostRuntime) {
    assert!(rt; is_so(&rt, &[], &PASSED));
}

/// Puts the words of readelf over so many names that are not there.
fn put_missing(words: &mut Args, count: u64) -> Result<(), ElfError> {
    words.add("readelf")?;
    words.add("-h")?;
    for _ in 0..count {
        words.add("missing")?;
    }
    Ok(())
}

/// The tenth put to standard error fails.
const TENTH_LOST: Failing = Failing { err: 10, ..NOTHING };

/// How a run of these arguments ends, and how many bytes its messages have.
fn messages_of(alloc: Global, words: &Args) -> Result<(Status, u64), ElfError> {
    match run_words(alloc, words, &Bytes(b""), TENTH_LOST) {
        Ok(ran) => Ok((ran.status, ran.err.len())),
        Err(e) => Err(e),
    }
}

/// How a run of readelf over so many missing names ends, and how many bytes its messages have.
fn messages_of_missing(alloc: Global, count: u64) -> Result<(Status, u64), ElfError> {
    let mut words = Args::new(alloc);
    match put_missing(&mut words, count) {
        Ok(()) => messages_of(alloc, &words),
        Err(e) => Err(e),
    }
}

#[test]
fn ten_thousand_messages_are_few_writes(rt: HostRuntime) {
    assert!(rt;
        same(
            &rt,
            &messages_of_missing(rt.alloc(), 10_000),
            &Ok((Status::Refused, 280_000))
        )
    );
}
