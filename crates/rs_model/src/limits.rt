//! The limits of a document, each in one place: code and definitions cite these names.

/// The most roles.
pub const MOST_ROLES: usize = 16;

/// The most talks of a protocol; its end is one node more.
pub const MOST_TALKS: usize = 1_024;

/// The most arms of a talk.
pub const MOST_ARMS: usize = 32;

/// The most labels, over the protocol and all machines.
pub const MOST_LABELS: usize = 256;

/// The most acts of a machine; its end is one state more.
pub const MOST_ACTS: usize = 256;

/// The most messages of a ring.
pub const MOST_CAPACITY: u32 = 1_024;

/// The most workers of a run.
pub const MOST_WORKERS: u32 = 16;

/// The most bytes of a name.
pub const MOST_NAME_BYTES: usize = 64;

/// The deepest nesting of `rec` and braces.
pub const MOST_NESTING: usize = 200;

/// The most states of a projection.
pub const MOST_STATES: usize = 1_024;

/// The most candidates of a search, and the most nodes of a derivation.
pub const MOST_CANDIDATES: usize = 65_536;

/// The greatest bound of a derivation.
pub const MOST_BOUND: usize = 64;

/// The bound of a search where none is told.
pub const DEFAULT_BOUND: u8 = 16;

/// The greatest number in a text.
pub const MOST_NUMBER: usize = 4_294_967_295;

/// The most bytes of a text.
pub const MOST_BYTES: usize = 1_048_576;
