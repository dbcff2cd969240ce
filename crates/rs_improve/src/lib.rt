//! Machines that send earlier than their projections, found by swaps.
#![tactic(auto)]

mod improving;
pub mod laws;
mod swaps;

pub use improving::{Ceased, ImproveFault, Improved, improve};
