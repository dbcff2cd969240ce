//! The limits of a demo.

/// The most acts of a role in a run of a demo.
pub const DEMO_LIMIT: u32 = 4_096;
