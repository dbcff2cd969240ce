//! Runs of accepted sessions.
#![tactic(auto)]

mod hands;
mod inline;
pub mod laws;
mod polling;
mod running;
mod runs;
mod tasks;

pub use inline::run_inline;
pub use polling::{RoleFuture, SessionTask, TaskName};
pub use runs::Ran;
pub use tasks::{RoleTask, Turn, Why};
