//! How calls end.

ghost use Rattle.std.specs.Prelude.{◌≡◌};
ghost use Rattle.rs_tool.specs.Statuses.{code_of};

use rs_answers::Verdict;
use rs_model::NoMemory;
use rs_rings::Closed;

/// How a call ended.
#[derive(Clone, Copy, Debug, PartialEq, Eq)]
pub enum Status {
    /// The words were carried out.
    Fine,
    /// Some role's machine is refused.
    Refused,
    /// The words are none of the program's.
    Usage,
    /// The text is at fault.
    Malformed,
    /// The protocol has no projection onto some role.
    Unprojectable,
    /// A quantity passes its limit.
    TooLarge,
    /// The input couldn't be read.
    ReadFault,
    /// The output couldn't be written.
    WriteFault,
    /// Memory was refused.
    NoMemory,
    /// A role was stopped at the limit of its acts.
    Stopped,
    /// No role could move, since a queue was full.
    Full,
    /// The rings that were asked for, or that are the greatest there are, are smaller than the room of the session.
    RoomTooSmall,
}

impl Status {
    /// The exit status of the program.
    pub fn code(self) -> u8
        ensures { result ≡ code_of self }
    {
        match self {
            Status::Fine => 0,
            Status::Refused => 1,
            Status::Usage => 2,
            Status::Malformed => 3,
            Status::Unprojectable => 4,
            Status::TooLarge => 5,
            Status::ReadFault => 6,
            Status::WriteFault => 7,
            Status::NoMemory => 8,
            Status::Stopped => 9,
            Status::Full => 10,
            Status::RoomTooSmall => 11,
        }
    }
}

impl From<Verdict> for Status {
    ghost use Rattle.std.specs.Prelude.{◌≡◌};
    ghost use Rattle.rs_tool.specs.Statuses.{status_of};

    ghost from_gives = { λ verdict status. status ≡ status_of verdict };

    fn from(verdict: Verdict) -> Self {
        match verdict {
            Verdict::Fine => Status::Fine,
            Verdict::Refused => Status::Refused,
            Verdict::Usage => Status::Usage,
            Verdict::Malformed => Status::Malformed,
            Verdict::Unprojectable => Status::Unprojectable,
            Verdict::TooLarge => Status::TooLarge,
            Verdict::Stopped => Status::Stopped,
            Verdict::Full => Status::Full,
            Verdict::RoomTooSmall => Status::RoomTooSmall,
        }
    }
}

/// Why no answer was made.
#[derive(Clone, Copy, Debug, PartialEq, Eq)]
pub enum CallStop {
    ReadFault,
    NoMemory,
}

impl From<NoMemory> for CallStop {
    ghost use Rattle.std.specs.Prelude.{◌≡◌};
    ghost use Rattle.rs_tool.specs.declared.statuses.CallStop.TheVariants.{NoMemory};

    ghost from_gives = { λ _ e. e ≡ NoMemory };

    fn from(_error: NoMemory) -> Self {
        CallStop::NoMemory
    }
}

impl From<CallStop> for Status {
    ghost use Rattle.std.specs.Prelude.{◌≡◌};
    ghost use Rattle.rs_tool.specs.Statuses.{status_after};

    ghost from_gives = { λ stop status. status ≡ status_after stop };

    fn from(stop: CallStop) -> Self {
        match stop {
            CallStop::ReadFault => Status::ReadFault,
            CallStop::NoMemory => Status::NoMemory,
        }
    }
}

/// What a call answers beside its text: its status, and the session of a `run` or a `demo`, closed or given up, where it came to
/// its end or to a stop.
#[derive(Drop)]
pub struct Reply {
    pub status: Status,
    pub closed: Option<Closed>,
}

/// What a call without workers answers.
#[derive(Drop)]
pub enum Serial {
    Answered(Reply),
    /// The words ask for several workers; nothing was read or written.
    NeedsWorkers,
}
