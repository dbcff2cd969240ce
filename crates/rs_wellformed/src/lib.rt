//! The test of a protocol: whether it is well formed, and else its first fault.
#![tactic(auto)]

mod checks;
pub mod laws;

pub use checks::{WfFault, well_formed};
