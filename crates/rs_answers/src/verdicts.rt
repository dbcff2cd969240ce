//! What answers say.

/// What an answer says: the statuses of calls that read their input and wrote all of their text.
#[derive(Clone, Copy, Debug, PartialEq, Eq)]
pub enum Verdict {
    Fine,
    Refused,
    Usage,
    Malformed,
    Unprojectable,
    TooLarge,
    Stopped,
    Full,
    RoomTooSmall,
}
