//! What `explain` answers to a document: what `check` answers, and behind it why and where.
#![tactic(auto)]

mod accepted;
mod ahead;
mod at;
mod before;
mod explaining;
mod faults;
pub mod laws;
mod lesser;
mod malformed;
mod underivable;
mod unprojectable;
mod uses;
mod waits;

pub use explaining::explain;
pub use malformed::explain_fault;
