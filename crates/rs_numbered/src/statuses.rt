//! What calls answer.

ghost use Rattle.std.specs.Prelude.{◌≡◌};
ghost use Rattle.rs_numbered.specs.Statuses as spec;

use rs_monitor::Refusal;

/// What a call answers.
#[derive(Clone, Copy, Debug, PartialEq, Eq)]
pub enum CallStatus {
    /// The call did what it was asked.
    Fine,
    /// Some role's machine is refused.
    Refused,
    /// The words are none of the program's.
    Usage,
    /// The text is at fault.
    Malformed,
    /// The protocol has no projection onto some role.
    Unprojectable,
    /// A quantity passes its limit.
    TooLarge,
    /// Memory was refused.
    NoMemory,
    /// In a run a role was stopped at the limit of its acts.
    Stopped,
    /// In a run no role could move.
    RingsFull,
    /// For a run by several workers the rings are too small.
    RoomTooSmall,
    /// The words ask for several workers.
    NeedsWorkers,
    /// What was to be written doesn't have room where it was to go.
    TooSmall,
    /// Nothing is open behind the handle.
    Closed,
    /// The ring is full.
    Full,
    /// Nothing has come.
    Empty,
    /// The role's state has no such act.
    NotNow,
    /// There is no such role, label, arm, kind or status.
    Unknown,
    /// The role's endpoint was handed out before.
    HandedOut,
    /// Nothing has come, and nothing will.
    Gone,
    /// The machine acts with another role.
    AnotherPeer,
    /// The act is a send, and the machine receives.
    StateReceives,
    /// The act is a receive, and the machine sends.
    StateSends,
    /// No arm of the machine's state has the label.
    NoSuchLabel,
    /// An arm has the label, and the value isn't of its sort.
    AnotherSort,
    /// The machine has ended.
    HasEnded,
}

impl CallStatus {
    /// The number by which programs in other languages know the status.
    pub fn number(self) -> u32
        ensures { result ≡ spec.number_of self }
    {
        match self {
            CallStatus::Fine => 0,
            CallStatus::Refused => 1,
            CallStatus::Usage => 2,
            CallStatus::Malformed => 3,
            CallStatus::Unprojectable => 4,
            CallStatus::TooLarge => 5,
            CallStatus::NoMemory => 8,
            CallStatus::Stopped => 9,
            CallStatus::RingsFull => 10,
            CallStatus::RoomTooSmall => 11,
            CallStatus::NeedsWorkers => 16,
            CallStatus::TooSmall => 17,
            CallStatus::Closed => 18,
            CallStatus::Full => 19,
            CallStatus::Empty => 20,
            CallStatus::NotNow => 21,
            CallStatus::Unknown => 22,
            CallStatus::HandedOut => 23,
            CallStatus::Gone => 24,
            CallStatus::AnotherPeer => 32,
            CallStatus::StateReceives => 33,
            CallStatus::StateSends => 34,
            CallStatus::NoSuchLabel => 35,
            CallStatus::AnotherSort => 36,
            CallStatus::HasEnded => 37,
        }
    }

    /// The status with this number; None if no status has it.
    pub fn numbered(number: u32) -> Option<CallStatus>
        ensures { result ≡ spec.status_numbered number }
    {
        match number {
            0 => Some(CallStatus::Fine),
            1 => Some(CallStatus::Refused),
            2 => Some(CallStatus::Usage),
            3 => Some(CallStatus::Malformed),
            4 => Some(CallStatus::Unprojectable),
            5 => Some(CallStatus::TooLarge),
            8 => Some(CallStatus::NoMemory),
            9 => Some(CallStatus::Stopped),
            10 => Some(CallStatus::RingsFull),
            11 => Some(CallStatus::RoomTooSmall),
            16 => Some(CallStatus::NeedsWorkers),
            17 => Some(CallStatus::TooSmall),
            18 => Some(CallStatus::Closed),
            19 => Some(CallStatus::Full),
            20 => Some(CallStatus::Empty),
            21 => Some(CallStatus::NotNow),
            22 => Some(CallStatus::Unknown),
            23 => Some(CallStatus::HandedOut),
            24 => Some(CallStatus::Gone),
            32 => Some(CallStatus::AnotherPeer),
            33 => Some(CallStatus::StateReceives),
            34 => Some(CallStatus::StateSends),
            35 => Some(CallStatus::NoSuchLabel),
            36 => Some(CallStatus::AnotherSort),
            37 => Some(CallStatus::HasEnded),
            _ => None,
        }
    }

    /// What the status says, in English, without a full stop.
    pub fn text(self) -> &'static str
        ensures { result.now ≡ spec.text_of self }
    {
        match self {
            CallStatus::Fine => "the call did what it was asked",
            CallStatus::Refused => "some role's machine is refused",
            CallStatus::Usage => "the words are none of the program's",
            CallStatus::Malformed => "the text is at fault",
            CallStatus::Unprojectable => "the protocol has no projection onto some role",
            CallStatus::TooLarge => "a quantity passes its limit",
            CallStatus::NoMemory => "memory ran out",
            CallStatus::Stopped => "a role was stopped at the limit of its acts",
            CallStatus::RingsFull => "no role could move, since queues were full",
            CallStatus::RoomTooSmall => "the queues are smaller than several workers need",
            CallStatus::NeedsWorkers =>
                "the words ask for several workers, of which the library has none",
            CallStatus::TooSmall => "what was to be written is too long for its place",
            CallStatus::Closed => "nothing is open behind the handle",
            CallStatus::Full => "the queue is full",
            CallStatus::Empty => "nothing has come yet",
            CallStatus::NotNow => "the role's state has no such act",
            CallStatus::Unknown => "there is no such role, label, arm, kind or status",
            CallStatus::HandedOut => "the role's endpoint was handed out before",
            CallStatus::Gone => "nothing comes any more, since the sender's endpoint was given up",
            CallStatus::AnotherPeer => "the state acts with another role",
            CallStatus::StateReceives => "the state receives",
            CallStatus::StateSends => "the state sends",
            CallStatus::NoSuchLabel => "no arm of the state has the label",
            CallStatus::AnotherSort => "the value isn't of the arm's sort",
            CallStatus::HasEnded => "the machine has ended",
        }
    }

    /// The status that tells a monitor's refusal.
    pub fn of_refusal(refusal: Refusal) -> CallStatus
        ensures { result ≡ spec.status_of_refusal refusal }
    {
        match refusal {
            Refusal::AnotherPeer => CallStatus::AnotherPeer,
            Refusal::StateReceives => CallStatus::StateReceives,
            Refusal::StateSends => CallStatus::StateSends,
            Refusal::NoSuchLabel => CallStatus::NoSuchLabel,
            Refusal::AnotherSort => CallStatus::AnotherSort,
            Refusal::HasEnded => CallStatus::HasEnded,
        }
    }
}
