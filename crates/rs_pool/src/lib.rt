//! Runs of accepted sessions by several workers. The tasks of a session lie on an atomic table; each worker is a thread
//! that takes a task, makes turns with it as long as it moves, and gives it back, until all have ended or one has stopped.
#![tactic(auto)]

mod gates;
mod jobs;
pub mod laws;
mod plays;
mod pool;
mod tables;
mod vectors;
mod views;
mod workers;

pub use gates::{Gate, NoGate};
pub use pool::run_pool;
