//! Monitors: each watches one role's program over queues of the program's own, and lets through exactly the acts of the role's
//! machine.
//!
//! A program asks its monitor before it sends a message, and after it received one. An act that the machine doesn't have is
//! refused with a reason, and changes nothing. If all acts go through monitors, and each ordered pair of roles has a queue that
//! neither loses nor reorders messages, then the programs do what their machines can do (`laws`).
#![tactic(auto)]

mod acts;
pub mod laws;
mod monitors;
mod nexts;
mod replaying;
mod traces;

pub use acts::{ProgramAct, Refusal};
pub use monitors::Monitor;
pub use replaying::{Departure, replay};
pub use traces::{TraceFault, TracedMonitor};
