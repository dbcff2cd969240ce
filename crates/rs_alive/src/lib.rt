//! Every message that is under way in an accepted session can be taken.
#![tactic(auto)]

pub mod laws;
mod schedule;
mod taking;

pub use taking::{AliveFault, taken_within};
