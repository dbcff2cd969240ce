//! What a machine still owes: the acts of its projection that were passed and not yet made, and which of them a next
//! act may make.
#![tactic(auto)]

mod earliest;
pub mod laws;
mod owed;

pub use earliest::{ActKind, Found};
pub use owed::Pending;
