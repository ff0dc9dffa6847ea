//! The statuses.

ghost use Rattle.std.specs.Prelude.{◌≡◌};
ghost use Rattle.exit_status.specs.Codes.{code_of};

/// How a run of the program ended.
#[derive(Clone, Copy, Debug, PartialEq, Eq)]
pub enum ExitStatus {
    /// 0: what was asked for is done; a script was read to its end; a server's ports and doors have
    /// ended.
    Done,
    /// 1: of a server a port or a door failed, or a message was too long.
    Failed,
    /// 2: the words are no command.
    Usage,
    /// 3: a configuration or a timetable is refused.
    Refused,
    /// 4: the input failed, or a file did.
    Fault,
    /// 5: the output failed.
    OutputFault,
    /// 6: memory ran out.
    NoMemory,
    /// 7: the input is no script: it has a record that isn't one, or no end.
    NotAScript,
    /// 8: the schedule or the stop of a board isn't there.
    NotFound,
}

impl ExitStatus {
    /// The number that the system is told, from 0 to 8.
    pub fn code(self) -> u8
        ensures { result ≡ code_of self }
    {
        match self {
            ExitStatus::Done => 0,
            ExitStatus::Failed => 1,
            ExitStatus::Usage => 2,
            ExitStatus::Refused => 3,
            ExitStatus::Fault => 4,
            ExitStatus::OutputFault => 5,
            ExitStatus::NoMemory => 6,
            ExitStatus::NotAScript => 7,
            ExitStatus::NotFound => 8,
        }
    }
}
