//! The ranges of the numbers among the words, and what stands where none is given.

/// The most acts of a role in a run where no limit is given.
pub const DEFAULT_LIMIT: u32 = 10_000;

/// The most acts of a role in a run that is drawn, where no limit is given. A picture of more acts can't be read.
pub const DEFAULT_DRAWN_LIMIT: u32 = 20;

/// The greatest limit of the acts of a role in a run.
pub const MOST_LIMIT: u32 = 1_000_000;

/// The most swaps that an improvement is asked for.
pub const MOST_SWAPS: u32 = 64;

/// The greatest seed of a run.
pub const MOST_SEED: u32 = 2_147_483_647;

/// The greatest number that a pipeline is made from.
pub const MOST_GEN: u32 = 4_294_967_295;
