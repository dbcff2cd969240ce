//! Why a protocol has no projection onto a role: where the ways part to two talks that the role can't tell apart, and
//! round which talks the session can go while the role is left waiting.
#![tactic(auto)]

pub mod laws;
mod partings;
mod rows;
mod searching;
mod spreading;
mod surveying;
mod waiting;

pub use partings::{meets_member, parting};
pub use searching::Parting;
pub use waiting::waiting_round;
