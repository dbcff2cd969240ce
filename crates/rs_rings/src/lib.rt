//! Bounded rings between roles, in one table of atomic words and slots that threads share without a lock.
#![tactic(auto)]

mod answers;
mod calls;
mod closed;
mod emptying;
pub mod laws;
mod loose;
mod passes;
mod plays;
mod rings;
mod rows;
mod tables;
mod views;

pub use answers::{Got, GotOn, Put};
pub use closed::Closed;
pub use loose::Loose;
pub use passes::Pass;
pub use rings::Rings;
