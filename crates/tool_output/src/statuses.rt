//! The statuses of the program.

ghost use Rattle.std.specs.Prelude.{◌≡◌};
ghost use Rattle.tool_output.specs.Statuses.{status_code, refused_status, ended_status};

use crate::stops::Stop;

/// How a run of the program ended.
#[derive(Clone, Copy, Debug, PartialEq, Eq)]
pub enum Status {
    /// Done, and nothing was rejected.
    Done,
    /// Something was rejected.
    Refused,
    /// The arguments are rejected.
    BadWords,
    /// A read failed.
    ReadFailed,
    /// A write failed.
    WriteFailed,
    /// There was no memory.
    NoMemory,
}

impl Status {
    /// The number by which the system knows it.
    pub fn code(self) -> u8
        ensures { result ≡ status_code self }
    {
        match self {
            Status::Done => 0,
            Status::Refused => 1,
            Status::BadWords => 2,
            Status::ReadFailed => 3,
            Status::WriteFailed => 4,
            Status::NoMemory => 5,
        }
    }

    /// The status of a command that came to its end, by whether something was rejected.
    pub fn of_refused(refused: bool) -> Status
        ensures { status_code result ≡ refused_status refused }
    {
        if refused {
            Status::Refused
        } else {
            Status::Done
        }
    }

    /// The status of a run that is over.
    pub fn of(ended: Result<Status, Stop>) -> Status
        ensures { status_code result ≡ ended_status status_code ended }
    {
        match ended {
            Ok(status) => status,
            Err(Stop::Read) => Status::ReadFailed,
            Err(Stop::Write) => Status::WriteFailed,
            Err(Stop::Memory) => Status::NoMemory,
        }
    }
}
