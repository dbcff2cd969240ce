//! The monitors of an accepted session, and what they promise over queues of a stated size.
#![tactic(auto)]

pub mod laws;
mod monitors;

pub use monitors::{monitor_of, traced_monitor_of};
